//! What the last copy said, as far as it is still to be treated.

ghost use Rattle.std.specs.Prelude.{◌≡◌, false, ◌≤◌, ◌^◌, All, IfSome, Some, None};
ghost use Rattle.path_agenda.specs.Items.{IsFair};
ghost use Rattle.path_core.specs.Choices.{item_at};

use arrayvec::ArrayVec;
use path_agenda::{Heard, Items};
use path_store::InfiniteMapping;
use seq_units::Pos;
use std::marker::Model;
use subflow_tcp::Outgoing;

/// What the last copy said, as far as it is still to be treated. Its payload and its mappings wait beside what they are
/// to be put to.
#[derive(Drop)]
pub(crate) struct Treated {
    /// What its options say, in their order.
    items: Items,
    /// The end became established by it.
    pub opened: bool,
    /// Its keys were told already.
    pub keys_told: bool,
    /// The copy has an option of Multipath TCP.
    pub has_option: bool,
    /// The ends of the stream that are to be told, in their order: those of its DATA_FINs, and of one that the edge reached.
    fins: ArrayVec<u64, 3>,
    /// Bytes or an end were told since the book was asked last what is to be acknowledged.
    pub asked: bool,
    /// The reset that answers it at a dead end, and at an end that refuses it.
    pub answer: Option<Outgoing>,
    /// The window that it told, in octets.
    pub window: u32,
    /// The copy acknowledges data for the first time, and has no Data ACK.
    pub plain_ack: bool,
    /// The position that it acknowledges.
    acknowledged: Pos,
    /// Its Data ACK was told to the send book.
    pub data_ack_taken: bool,
    /// The receive edge at its arrival, where its payload has the octet there and isn't dropped.
    pub held_edge: Option<Pos>,
    /// The place of the mapping whose failed check broke the path.
    pub failed_mapping: Option<u64>,
    /// The infinite mapping by which the side may send, where the send book gave its bytes to this path alone as an MP_FAIL came.
    pub infinite_mapping: Option<InfiniteMapping>,
}

impl Model for Treated {
    ghost use Rattle.path_core.specs.Treated.{Treated};

    ghost Value = { Treated };

    ghost view = { λ t. record {
      items = t.items.items;
      opened = t.opened;
      keys_told = t.keys_told;
      has_option = t.has_option;
      fins = t.fins.items;
      asked = t.asked;
      answer = t.answer;
      window = t.window;
      plain_ack = t.plain_ack;
      acknowledged = t.acknowledged;
      data_ack_taken = t.data_ack_taken;
      held_edge = t.held_edge;
      failed_mapping = t.failed_mapping;
      infinite_mapping = t.infinite_mapping;
    } };

    ghost use Rattle.std.specs.Prelude.{◌^◌, ◌≤◌, All};
    ghost use Rattle.path_agenda.specs.Items.{IsFair};

    ghost invariant = { λ t. All IsFair t.items.items × All (λ place. place ≤ 2 ^ 62) t.fins.items ×
        (t.acknowledged ≤ 2 ^ 62) };
}

impl Treated {
    ghost use Rattle.path_core.specs.Treated.{nothing_treated};
    ghost use Rattle.path_core.specs.Deliver.{fins_and};

    /// No copy is treated.
    pub(crate) fn nothing() -> Self
        ensures { result ≡ nothing_treated }
    {
        Treated {
            items: ArrayVec::new(),
            opened: false,
            keys_told: false,
            has_option: false,
            fins: ArrayVec::new(),
            asked: false,
            answer: None,
            window: 0,
            plain_ack: false,
            acknowledged: 0,
            data_ack_taken: false,
            held_edge: None,
            failed_mapping: None,
            infinite_mapping: None,
        }
    }

    /// What a copy said, with the answer to it and the window that it told, is to be treated, and nothing of an earlier one.
    pub(crate) fn begin(
        &mut self,
        items: &Items,
        opened: bool,
        has_option: bool,
        answer: Outgoing,
        window: u32,
    )
        requires { All IsFair items.now.items }
        ensures { self.new ≡
            record nothing_treated {
              items = items.now.items;
              opened = opened;
              has_option = has_option;
              answer = Some answer;
              window = window;
            } }
    {
        self.items.clear();
        self.items.try_extend_from_slice(items.as_slice()).unwrap();
        self.opened = opened;
        self.keys_told = false;
        self.has_option = has_option;
        self.fins.clear();
        self.asked = false;
        self.answer = Some(answer);
        self.window = window;
        self.plain_ack = false;
        self.acknowledged = 0;
        self.data_ack_taken = false;
        self.held_edge = None;
        self.failed_mapping = None;
        self.infinite_mapping = None;
    }

    /// The copy acknowledges this position, at most 2^62, and has the octet at this receive edge, or not.
    pub(crate) fn note_positions(&mut self, acknowledged: Pos, held_edge: Option<Pos>)
        requires { acknowledged ≤ 2 ^ 62 }
        ensures { self.new ≡
            record self.old { acknowledged = acknowledged; held_edge = held_edge } }
    {
        self.acknowledged = acknowledged;
        self.held_edge = held_edge;
    }

    /// The position that it acknowledges.
    pub(crate) fn acknowledged(&self) -> Pos
        ensures value { result ≡ self.now.acknowledged }
        ensures bound { result ≤ 2 ^ 62 }
    {
        self.acknowledged
    }

    /// The thing of this number that it said, the first being 0.
    pub(crate) fn item(&self, index: u8) -> Option<Heard>
        ensures value { result ≡ item_at index self.now.items }
        ensures fair { IfSome result IsFair }
    {
        self.items.as_slice().get(usize::from(index)).copied()
    }

    /// The things that it said.
    pub(crate) fn items(&self) -> &[Heard]
        ensures { result.now ≡ self.now.items }
    {
        self.items.as_slice()
    }

    /// The end of the stream of this number that is to be told, the first being 0.
    pub(crate) fn fin(&self, index: u8) -> Option<u64>
        ensures value { result ≡ item_at index self.now.fins }
        ensures bound { IfSome result (λ place. place ≤ 2 ^ 62) }
    {
        self.fins.as_slice().get(usize::from(index)).copied()
    }

    /// An end of the stream, at most 2^62, is to be told; a fourth one counts no more.
    pub(crate) fn note_data_fin(&mut self, place: u64)
        requires { place ≤ 2 ^ 62 }
        ensures { self.new ≡ record self.old { fins = fins_and (Some place) self.old.fins } }
    {
        if self.fins.len() < 3 {
            self.fins.push(place);
        }
    }
}
