ghost use Rattle.std.specs.Prelude.{◌≡◌};
ghost use Rattle.subflow_tcp.specs.Dues.{nothing_due, owing_syn_ack, owing_ack, owing_probe, owing_first, owing_answer, only_reset};

use segment_wire::Head;

/// What an end owes beside the records that are to be sent.
#[derive(Clone, Copy)]
pub struct Due {
    /// The reset of an end that died.
    pub reset: bool,
    /// The reset that answers a segment at a dead end.
    pub answer: Option<Head>,
    /// The SYN/ACK again.
    pub syn_ack: bool,
    /// An acknowledgement.
    pub ack: bool,
    /// An acknowledgement one below SND.UNA.
    pub probe: bool,
    /// The first record again.
    pub first: bool,
}

impl Due {
    /// Nothing is owed.
    pub(crate) const NOTHING: Due = Due {
        reset: false,
        answer: None,
        syn_ack: false,
        ack: false,
        probe: false,
        first: false,
    };

    /// An acknowledgement is owed; at a half-open end the SYN/ACK.
    pub(crate) fn owe_answer(&mut self, half_open: bool)
        ensures { self.new ≡ owing_answer half_open self.old }
    {
        if half_open {
            self.syn_ack = true;
        } else {
            self.ack = true;
        }
    }

    /// Nothing is owed any more, but the reset where that is asked for.
    pub(crate) fn only_reset(reset: bool) -> Due
        ensures { result ≡ only_reset reset }
    {
        Due {
            reset,
            ..Due::NOTHING
        }
    }
}
