//! `pair CASE`: two ends of a subflow over a link, run to an end.
//!
//! A case is `NAME OCTETS_OF_A OCTETS_OF_B CLOSES UNTIL: SCRIPT`. A opens path 0 of the script, and B listens; each sends so
//! many made octets, of which the one at place k is k modulo 251. `CLOSES` is whose FIN comes first: `A`, `B`, `both`, or
//! `none` where neither side closes. The run ends behind the tick `UNTIL`, or when nothing is due any more. In the script
//! `;` stands for LF, and its first and last line are left out.
//!
//! The answer to `ends` is how many octets each side received, whether they are the made ones in their order, and the state
//! of its end, with the tick of its death; the answer to `segments` is how many segments each side sent. `links.rt` tells the
//! form of a case of the link alone.

ghost use Rattle.std.specs.Prelude.{◌<◌, length};
ghost use Rattle.link_script.specs.Scripts.{HasRanges};

mod links;
mod peer;
mod run;

use case_fields::{Case, lines_in};
use link_model::Link;
use link_script::{Script, ScriptFault, ScriptLine, parse};
use peer::{Closes, Peer};
use run::Run;
use sides::Side;
use std::alloc::{AllocError, Global};

pub fn pair(case: &mut Case) {
    let name = case.word();
    let Some((words, lines)) = case.rest().split_once(": ") else {
        return case.refuse();
    };
    case.read(words, " ");
    if let Some(path) = path_of(case, lines) {
        let mut run = run_over(case, path);
        put_run(case, name, &mut run);
    }
}

/// Puts what is asked of a run.
fn put_run(case: &mut Case, name: &str, run: &mut Run) {
    match name {
        "link" => links::link(case, &mut run.link),
        "ends" => {
            play(case, run);
            run.put_ends(case);
        }
        "segments" => {
            play(case, run);
            run.put_segments(case);
        }
        _ => case.refuse(),
    }
}

/// Path 0 of a script.
#[derive(Drop)]
struct Path {
    /// How many octets a segment carries at most.
    mss: u16,
    /// The tick at which the path dies, if it does.
    death: Option<u64>,
    link: Link,
}

/// The tick at which a line lets path 0 die.
fn death_told(line: &ScriptLine) -> Option<u64> {
    match *line {
        ScriptLine::Die { path: 0, tick } => Some(tick),
        _ => None,
    }
}

/// Path 0 of a script.
fn path_in(case: &mut Case, script: &Script) -> Option<Path>
    requires { HasRanges script.now }
{
    let [first, ..] = script.paths.as_slice() else {
        case.refuse();
        return None;
    };
    match Link::new(case.alloc, script, 0) {
        Ok(link) => Some(Path {
            mss: first.mss,
            death: script.lines.as_slice().iter().find_map(death_told),
            link,
        }),
        Err(_) => {
            case.fail();
            None
        }
    }
}

/// The script that has these lines.
fn script_text(alloc: Global, lines: &str) -> Result<String, AllocError> {
    let lines = format!(in alloc; "mptcp-script 2;{lines};end")?;
    lines_in(alloc, lines.as_str())
}

/// Path 0 of the script that has these lines.
fn path_of(case: &mut Case, lines: &str) -> Option<Path> {
    match script_text(case.alloc, lines) {
        Ok(text) => path_told(case, text.as_bytes()),
        Err(_) => {
            case.fail();
            None
        }
    }
}

/// Path 0 of the script that this text says.
fn path_told(case: &mut Case, text: &[u8]) -> Option<Path> {
    match parse(case.alloc, text) {
        Ok(script) => path_in(case, &script),
        Err(ScriptFault::Line { .. }) => {
            case.refuse();
            None
        }
        Err(ScriptFault::Memory) => {
            case.fail();
            None
        }
    }
}

/// When A and B close, by its name.
const CLOSES: [(&str, (Closes, Closes)); 4] = [
    ("A", (Closes::Unasked, Closes::Second)),
    ("B", (Closes::Second, Closes::Unasked)),
    ("both", (Closes::Unasked, Closes::Unasked)),
    ("none", (Closes::Never, Closes::Never)),
];

/// A run over this path, at its beginning.
fn run_over(case: &Case, path: Path) -> Run {
    let mss = path.mss.max(1);
    Run {
        a: Peer::new(case.alloc, Side::A, mss),
        b: Peer::new(case.alloc, Side::B, mss),
        death: path.death,
        link: path.link,
    }
}

/// Plays the run of a case.
fn play(case: &mut Case, run: &mut Run) {
    let (octets_of_a, octets_of_b) = (case.number(), case.number());
    let (a_closes, b_closes) = case.one_of(&CLOSES, (Closes::Never, Closes::Never));
    let until: u32 = case.number();
    run.a.is_to_send(octets_of_a, a_closes);
    run.b.is_to_send(octets_of_b, b_closes);
    if !case.is_refused() {
        run.play(case, until);
    }
}
