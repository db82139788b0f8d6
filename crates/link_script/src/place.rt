//! Where a line may stand, and what no second line may settle.

ghost use Rattle.std.specs.Prelude.{◌≡◌};
ghost use Rattle.link_script.specs.Places.{is_path, is_end, is_misplaced, settled_of, settled_of_direction, settled_by_event, settled_by};

use crate::line::Line;
use crate::script::{Direction, Happens, Impairment, ScriptLine, Segment};
use sides::Side;

/// What a line settles, so that no second line may settle it again.
#[derive(Clone, Copy)]
pub enum Subject {
    Seed,
    Checksum,
    Short,
    Buffer,
    /// When a segment arrives, and how often.
    Arrival(Segment),
    /// Whether a segment keeps its Multipath TCP options.
    Options(Segment),
    /// Whether a segment keeps its payload.
    Payload(Segment),
    /// From when on no segment of a direction keeps its Multipath TCP options.
    AllOptions { path: u8, from: Side },
    Death { path: u8 },
    FastClose { side: Side },
    /// How much a direction hands on in a tick.
    Rate(Direction),
    /// How many segments of a direction are lost.
    Loss(Direction),
    /// How long a segment of a direction waits.
    Jitter(Direction),
}

/// Whether the script ends here.
pub fn is_end(line: &Line) -> bool
    ensures { result ≡ is_end line.now }
{
    matches!(line, Line::End)
}

/// Whether the line is a path.
pub fn is_path(line: &Line) -> bool
    ensures { result ≡ is_path line.now }
{
    matches!(line, Line::Path { .. })
}

/// Whether a line can't stand after so many paths.
pub fn is_misplaced(paths: usize, line: &Line) -> bool
    ensures { result ≡ is_misplaced paths line.now }
{
    match *line {
        Line::Header(_) => true,
        Line::Seed(_) | Line::Checksum(_) | Line::Short(_) | Line::Buffer(_) => paths > 0,
        Line::Path { index, .. } => index != paths as u64,
        Line::Event(event) => match event.path() {
            Some(path) => path as usize >= paths,
            None => paths == 0,
        },
        Line::End => paths == 0,
    }
}

/// What of a segment this settles.
fn settled_of(segment: Segment, happens: Happens) -> Subject
    ensures { result ≡ settled_of segment happens }
{
    match happens {
        Happens::Lost | Happens::Late(_) | Happens::Again(_) => Subject::Arrival(segment),
        Happens::Stripped => Subject::Options(segment),
        Happens::Altered => Subject::Payload(segment),
    }
}

/// What of a direction this settles.
fn settled_of_direction(direction: Direction, impairment: Impairment) -> Subject
    ensures { result ≡ settled_of_direction direction impairment }
{
    match impairment {
        Impairment::Rate { .. } => Subject::Rate(direction),
        Impairment::Loss(_) => Subject::Loss(direction),
        Impairment::Jitter(_) => Subject::Jitter(direction),
    }
}

fn settled_by_event(event: &ScriptLine) -> Option<Subject>
    ensures { result ≡ settled_by_event event.now }
{
    match *event {
        ScriptLine::OnSegment(segment, happens) => Some(settled_of(segment, happens)),
        ScriptLine::OnDirection(direction, impairment) => {
            Some(settled_of_direction(direction, impairment))
        }
        ScriptLine::StripAll { path, from, .. } => Some(Subject::AllOptions { path, from }),
        ScriptLine::Die { path, .. } => Some(Subject::Death { path }),
        ScriptLine::FastClose { side, .. } => Some(Subject::FastClose { side }),
        ScriptLine::Prio { .. } | ScriptLine::Add { .. } | ScriptLine::Remove { .. } => None,
    }
}

/// The subject that a line settles.
pub fn settled_by(line: &Line) -> Option<Subject>
    ensures { result ≡ settled_by line.now }
{
    match line {
        Line::Seed(_) => Some(Subject::Seed),
        Line::Checksum(_) => Some(Subject::Checksum),
        Line::Short(_) => Some(Subject::Short),
        Line::Buffer(_) => Some(Subject::Buffer),
        Line::Event(event) => settled_by_event(event),
        Line::Header(_) | Line::Path { .. } | Line::End => None,
    }
}
