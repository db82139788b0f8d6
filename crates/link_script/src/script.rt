//! What a script says.

use crate::lists::{PathLines, ScriptLines};
use sides::Side;

/// How a connection is to run: its settings, its paths, and what happens on them.
#[derive(Drop)]
pub struct Script {
    /// The number from which keys, nonces and initial sequence numbers are drawn.
    pub seed: u64,
    /// Whether both sides ask for checksums of the data (RFC 8684, section 3.1).
    pub checksum: bool,
    /// Whether both sides write data sequence numbers and Data ACKs with four octets (RFC 8684, section 3.3.1), else
    /// with eight.
    pub short: bool,
    /// Octets that each side buffers of what it sends, and of what it receives.
    pub buffer: u64,
    /// The paths, path 0 first.
    pub paths: PathLines,
    /// What happens on the paths, in the order of the text.
    pub lines: ScriptLines,
}

/// One path.
#[derive(Clone, Copy)]
pub struct PathLine {
    /// Octets of the maximum segment size that both ends announce.
    pub mss: u16,
    /// Ticks that a segment takes from one end to the other.
    pub delay: u32,
    /// The tick from which A joins the path to the connection (RFC 8684, section 3.2); 0 at path 0, which opens it.
    pub join: u64,
    /// Whether the path is a backup: it carries data only where no other path can (RFC 8684, section 3.2).
    pub backup: bool,
}

/// One segment of a link: the `number`-th that the link of a path takes from a side, the first being 1.
#[derive(Clone, Copy, PartialEq, Eq)]
pub struct Segment {
    pub path: u8,
    /// The side that sends it.
    pub from: Side,
    pub number: u32,
}

/// What happens to a segment on its way.
#[derive(Clone, Copy)]
pub enum Happens {
    /// The segment doesn't arrive.
    Lost,
    /// The segment arrives so many ticks late.
    Late(u32),
    /// The segment arrives twice, the second time so many ticks after the first.
    Again(u32),
    /// The segment arrives without its Multipath TCP options.
    Stripped,
    /// The segment arrives with the lowest bit of its first payload octet turned.
    Altered,
}

/// One direction of the link of a path: from this side to its peer.
#[derive(Clone, Copy, PartialEq, Eq)]
pub struct Direction {
    pub path: u8,
    pub from: Side,
}

/// What a direction of a link does to every segment that it takes.
#[derive(Clone, Copy)]
pub enum Impairment {
    /// A rate hands on so many octets a tick, and no more than `queue` octets wait for that: a segment for which there is no
    /// room is lost.
    Rate { octets: u32, queue: u32 },
    /// Of a million segments it loses so many, drawn by the seed.
    Loss(u32),
    /// A segment waits up to so many ticks more, drawn by the seed.
    Jitter(u32),
}

/// What happens to one segment, to one direction of a link, to a path or to a side.
///
/// `path` is the number of a path, and `from` the side that sends. `tick` is a tick of the run.
#[derive(Clone, Copy)]
pub enum ScriptLine {
    /// What happens to one segment.
    OnSegment(Segment, Happens),
    /// What happens to every segment of a direction.
    OnDirection(Direction, Impairment),
    /// Each segment that is sent at the tick or later arrives without its Multipath TCP options.
    StripAll {
        path: u8,
        from: Side,
        tick: u64,
    },
    /// All that is under way on the link is lost, and both ends of the path die.
    Die {
        path: u8,
        tick: u64,
    },
    /// The side asks its peer to use the path as a backup, or no longer so (RFC 8684, section 3.3.8).
    Prio {
        path: u8,
        side: Side,
        tick: u64,
        on: bool,
    },
    /// B announces an address with this identifier (RFC 8684, section 3.4.1).
    Add {
        id: u8,
        tick: u64,
    },
    /// The side withdraws the address with this identifier (RFC 8684, section 3.4.2).
    Remove {
        side: Side,
        id: u8,
        tick: u64,
    },
    /// The side closes the whole connection at once (RFC 8684, section 3.5).
    FastClose {
        side: Side,
        tick: u64,
    },
}

impl ScriptLine {
    ghost use Rattle.std.specs.Prelude.{◌≡◌};
    ghost use Rattle.link_script.specs.Places.{path_named};

    /// The path that the line names.
    pub fn path(&self) -> Option<u8>
        ensures { result ≡ path_named self.now }
    {
        match *self {
            ScriptLine::OnSegment(Segment { path, .. }, _)
            | ScriptLine::OnDirection(Direction { path, .. }, _)
            | ScriptLine::StripAll { path, .. }
            | ScriptLine::Die { path, .. }
            | ScriptLine::Prio { path, .. } => Some(path),
            ScriptLine::Add { .. } | ScriptLine::Remove { .. } | ScriptLine::FastClose { .. } => {
                None
            }
        }
    }
}
