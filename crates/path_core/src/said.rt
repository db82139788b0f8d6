//! A segment that an end is to send, with what it lends of the end, and which kinds there are.

ghost use Rattle.std.specs.Prelude.{◌≡◌, ◌∷◌, IfOk};
ghost use Rattle.path_core.specs.Said.{options_by};

use arrayvec::ArrayVec;
use path_segments::{SaidOption, SaidSegment, Spelling, sum, write};
use sides::Side;
use std::alloc::{AllocError, Global};
use subflow_tcp::Outgoing;

/// The options of Multipath TCP that a segment says, in their order: two at most, which have room in forty octets.
pub(crate) type SaidOptions = ArrayVec<SaidOption, 2>;

/// A segment that an end is to send.
#[derive(Drop)]
pub(crate) struct Said<'a> {
    /// Its position, what it acknowledges, and its flags.
    pub outgoing: Outgoing,
    /// The window in octets.
    pub window: u32,
    /// The maximum segment size, which a SYN has.
    pub mss: Option<u16>,
    /// Its options of Multipath TCP.
    pub options: SaidOptions,
    /// Its payload: at most 65,475 octets of a segment that `PathEnd::said` gives.
    pub payload: &'a [u8],
}

/// Which segment an end sends.
#[derive(Clone, Copy)]
pub(crate) enum SegmentKind {
    /// An acknowledgement.
    Ack,
    /// The acknowledgement that carries the DATA_FIN.
    DataFin,
    /// The FIN.
    Fin,
    /// The first record that is to be sent; without one an acknowledgement.
    Unsent,
    /// The first record that isn't acknowledged; without one an acknowledgement.
    First,
    /// The SYN/ACK.
    SynAck,
    /// The answer to a segment that isn't taken: the SYN/ACK while the own SYN isn't acknowledged, else an acknowledgement.
    Answer,
    /// The reset that answers a segment at a dead end.
    DeadAnswer,
    /// The reset that refuses a path which joins (RFC 8684, section 3.2).
    Refusal,
    /// What an expiry sends again.
    Resend,
    /// The reset of the end, perhaps with a reason (RFC 8684, section 3.6), and with MP_FAIL where a failed check broke the path.
    Reset { reason: Option<u8> },
    /// The acknowledgement that carries the first of what is to be noted to the peer; without one an acknowledgement (sections
    /// 3.3.8 and 3.4).
    Notice,
    /// The acknowledgement that carries MP_FASTCLOSE with the peer's key, as the end has it from its side; without one an
    /// acknowledgement (section 3.5).
    FastClose,
}

/// The options of a segment that says one, and perhaps another behind it.
pub(crate) fn first_and(first: SaidOption, second: Option<SaidOption>) -> SaidOptions
    ensures { result.items ≡ first ∷ options_by second }
{
    let mut options = SaidOptions::new();
    options.push(first);
    if let Some(second) = second {
        options.push(second);
    }
    options
}

/// The options of a segment that says one at most.
pub(crate) fn one_at_most(option: Option<SaidOption>) -> SaidOptions
    ensures { result.items ≡ options_by option }
{
    match option {
        Some(option) => first_and(option, None),
        None => SaidOptions::new(),
    }
}

impl<'a> Said<'a> {
    ghost use Rattle.path_core.specs.Octets.{made, sum_of};
    ghost use Rattle.path_core.specs.Said.{plain_said, CanBeSaid};
    ghost use Rattle.path_segments.specs.Spelled.{plain};

    /// The segment as it is written.
    fn segment(&self) -> SaidSegment<'_>
        ensures { plain result ≡ plain_said self.now }
    {
        SaidSegment {
            position: self.outgoing.position,
            acknowledged: self.outgoing.acknowledged,
            syn: self.outgoing.syn,
            fin: self.outgoing.fin,
            rst: self.outgoing.rst,
            window: self.window,
            mss: self.mss,
            options: self.options.as_slice(),
            payload: self.payload,
        }
    }

    /// Its octets, as this side sends them. It can be said, as `PathEnd::said` promises. Allocates once.
    ///
    /// # Errors
    ///
    /// Only where there is no memory for them.
    pub(crate) fn octets(
        &self,
        alloc: Global,
        spelling: &Spelling,
        side: Side,
    ) -> Result<Vec<u8>, AllocError>
        requires { CanBeSaid spelling.now side (plain_said self.now) }
        ensures { IfOk result (λ octets. octets.items ≡
            made spelling.now side (plain_said self.now)) }
    {
        write(alloc, spelling, side, &self.segment())
    }

    /// The checksum field of its octets. It can be said, as `PathEnd::said` promises. Takes no memory.
    pub(crate) fn sum(&self, spelling: &Spelling, side: Side) -> u16
        requires { CanBeSaid spelling.now side (plain_said self.now) }
        ensures { result ≡ sum_of spelling.now side (plain_said self.now) }
    {
        sum(spelling, side, &self.segment())
    }
}
