//! What an end lends and tells of what it is to send.
ghost use Rattle.std.specs.Prelude.{◌≡◌, ◌≤◌, find, slice_get, length, IfSome};
ghost use Rattle.std.specs.Option.{option_map};
ghost use Rattle.subflow_send.specs.Records.{record_of};
ghost use Rattle.subflow_send.specs.Rules.{is_unsent, is_piece_at, octets_of};

use crate::end::Subflow;
use octet_text::Text;
use seq_units::Pos;
use subflow_send::RecordRef;

impl Subflow {
    /// The first record that is to be sent, lent.
    pub fn first_unsent(&self) -> Option<RecordRef<'_>>
        ensures value { option_map record_of result ≡ find is_unsent self.now.send.records }
        ensures bound { IfSome result (λ lent. length lent.piece.now ≤ 65475) }
    {
        self.send.due()
    }

    /// The first record that isn't acknowledged, lent.
    pub fn first_record(&self) -> Option<RecordRef<'_>>
        ensures value { option_map record_of result ≡ slice_get self.now.send.records 0 }
        ensures bound { IfSome result (λ lent. length lent.piece.now ≤ 65475) }
    {
        self.send.retransmit_first()
    }

    /// The octets of the piece at this position, lent; `None` where no piece begins there that isn't acknowledged whole.
    pub fn text_at(&self, pos: Pos) -> Option<&Text>
        ensures { option_map (λ text. text.now) result ≡
            option_map octets_of (find (is_piece_at pos) self.now.send.records) }
    {
        self.send.text_at(pos)
    }

    /// Whether an acknowledgement is owed.
    pub fn owes_ack(&self) -> bool
        ensures { result ≡ self.now.due.ack }
    {
        self.due.ack
    }

    /// Whether the SYN/ACK is owed.
    pub fn owes_syn_ack(&self) -> bool
        ensures { result ≡ self.now.due.syn_ack }
    {
        self.due.syn_ack
    }

    /// Whether the first record is to be sent again.
    pub fn owes_first(&self) -> bool
        ensures { result ≡ self.now.due.first }
    {
        self.due.first
    }

    /// The window that the last copy told, in octets.
    pub fn told_window(&self) -> u32
        ensures { result ≡ self.now.congestion.told.window }
    {
        self.congestion.told.window
    }
}
