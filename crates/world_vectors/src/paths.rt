//! A connection to whose link segments go that no end sent: `path SCRIPT | FILE_A | FILE_B | ROUNDS | SHOWN | OCTETS`, or so with
//! ` | PATH` or ` | PATH | SIDE`.
//!
//! Whole turns of both applications and of all paths are made over the six books, so many rounds; where FILE_A is `none`, A's application
//! takes none. `OCTETS` are segments in hexadecimal digits, with `,` between them. They go to the link of that path, or of path 0, after the
//! first round, from the side `a` or `b`, or from A's, whose end doesn't know of them.
//!
//! Of what was made, `log` shows each line of the log, in the order in which the steps were made, and `sums` digests of it and of
//! what both readers read. `ends` shows which copies arrived, which octets were to be placed where, and which ends of the streams were
//! told. Runs to which nothing is added stand in `checks/runs.cases`.

ghost use Rattle.std.specs.Prelude.{◌<◌, length};
ghost use Rattle.link_script.specs.Scripts.{HasRanges};

use crate::inputs::input_told;
use actor_desk::{Ask, Books, LocalStep, Note};
use actor_turn::{OpenGate, turn};
use case_fields::{Case, CaseFault, octets_of, put_log, put_port};
use octet_text::Text;
use path_core::{Path, key_of};
use reassembly_book::ReassemblyCall;
use run_log::{line, opening, outcome_line, round_line};
use run_outside::{Input, width_of};
use sides::Side;
use stamped_book::raise;
use std::alloc::AllocError;
use world_core::{Crew, Member, World, read_since, told_outcome};

/// A later tick than any case comes to.
const LAST_TICK: u64 = 1 << 62;

/// Segments that go to the link of a path from a side.
#[derive(Clone, Copy)]
struct Injected {
    digits: &'static str,
    path: u8,
    from: Side,
}

/// What is shown of a run.
#[derive(Clone, Copy)]
enum Shown {
    /// Each line of its log.
    Log,
    /// Digests.
    Sums,
    /// Which copies arrived, what was to be placed, and which ends of the streams were told.
    Ends,
}

/// What a case tells besides its input.
#[derive(Clone, Copy)]
struct Told {
    rounds: u64,
    /// Whether A has an application.
    has_a: bool,
    shown: Shown,
    injected: Injected,
}

/// What is shown, by its name.
const SHOWN: [(&str, Shown); 3] = [
    ("log", Shown::Log),
    ("sums", Shown::Sums),
    ("ends", Shown::Ends),
];

/// What goes to a link.
fn injected_of(case: &mut Case) -> Injected {
    let digits = case.word();
    let path = if case.has_more() { case.number() } else { 0 };
    let from = if case.has_more() { case.word() } else { "a" };
    Injected {
        digits,
        path,
        from: if from == "b" { Side::B } else { Side::A },
    }
}

/// What a case tells behind its script and its files, of which this is A's.
fn told_of(case: &mut Case, file_a: &str) -> Told {
    Told {
        rounds: case.number(),
        has_a: file_a != "none",
        shown: case.one_of(&SHOWN, Shown::Log),
        injected: injected_of(case),
    }
}

/// Puts the answer to a line, whose fields the case has.
pub fn path(case: &mut Case, line: &str) {
    let fields = case.rest();
    case.read(fields, " | ");
    let (script, file_a, file_b) = (case.word(), case.word(), case.word());
    let told = told_of(case, file_a);
    if !case.is_refused() {
        case.put(line);
        put_path(case, &told, script, file_a, file_b);
    }
}

/// Puts what is shown of the run of this script and of these files.
fn put_path(case: &mut Case, told: &Told, script: &str, file_a: &str, file_b: &str) {
    if !matches!(told.shown, Shown::Sums) {
        case.put("\n");
    }
    let file_a = if told.has_a { file_a } else { "-" };
    match input_told(case.alloc, script, file_a, file_b) {
        Ok(input) => put_run(case, told, &input),
        Err(CaseFault::Form) => case.refuse(),
        Err(CaseFault::Memory) => case.fail(),
    }
}

/// Puts what is shown of the run of a case.
fn put_run(case: &mut Case, told: &Told, input: &Input)
    requires { HasRanges input.now.script }
{
    let (seed, width) = (input.script.seed, width_of(&input.script));
    let mut log = Text::new(case.alloc);
    let first = opening(case.alloc, width, key_of(seed, 0), key_of(seed, 2));
    append(case, &mut log, first);
    let Ok(world) = World::open(case.alloc, input) else {
        return case.fail();
    };
    let (mut books, mut crew) = world.into_parts();
    make_rounds(case, told, &mut log, &mut books, &mut crew);
    put_end(case, told, log, World::from_parts(books, crew, true));
}

/// Lines come behind the log.
fn append(case: &mut Case, log: &mut Text, lines: Result<Text, AllocError>) {
    match lines {
        Ok(lines) if log.append(lines.as_bytes()).is_ok() => {}
        _ => case.fail(),
    }
}

/// The rounds of a case.
fn make_rounds(case: &mut Case, told: &Told, log: &mut Text, books: &mut Books, crew: &mut [Crew]) {
    for number in 0..told.rounds {
        let stamp = make_turns(case, told, log, books, crew);
        let end = round_line(case.alloc, number);
        append(case, log, end);
        begin_round(case, crew, stamp);
        if number == 0 {
            inject(case, &told.injected, crew);
        }
    }
}

/// The turns of all actors, in the order of their numbers: the greatest stamp that one knows then.
fn make_turns(
    case: &mut Case,
    told: &Told,
    log: &mut Text,
    books: &mut Books,
    crew: &mut [Crew],
) -> u64 {
    let mut stamp = 0;
    for actor in crew.iter_mut() {
        if told.has_a || actor.pass.actor > 0 {
            make_turn(case, told.shown, log, books, actor);
        }
        stamp = stamp.max(actor.pass.stamp);
    }
    stamp
}

/// The turn of an actor, whose steps are told.
fn make_turn(case: &mut Case, shown: Shown, log: &mut Text, books: &mut Books, actor: &mut Crew) {
    let made = actor.list.len();
    if turn(case.alloc, actor, books, &OpenGate).is_err() {
        case.fail();
    }
    for note in actor.list.as_slice().iter().skip(made) {
        tell(case, shown, log, note);
    }
}

/// What is shown of a step comes behind the log, or behind the answer.
fn tell(case: &mut Case, shown: Shown, log: &mut Text, note: &Note) {
    if matches!(shown, Shown::Ends) {
        return put_place(case, &note.ask);
    }
    let line = line(case.alloc, note);
    append(case, log, line);
}

/// Each actor knows this stamp, and begins the next round.
fn begin_round(case: &mut Case, crew: &mut [Crew], stamp: u64) {
    for actor in crew.iter_mut() {
        raise(&mut actor.pass, stamp);
        begin(case, &mut actor.member);
    }
}

fn begin(case: &mut Case, member: &mut Member) {
    match member {
        Member::App(app) => app.next_round(),
        Member::Path(path) => {
            if !path.has_ended() || path.round_end() > LAST_TICK {
                return case.refuse();
            }
            path.next_round();
        }
    }
}

/// The link of the path takes what the case has for it.
fn inject(case: &mut Case, injected: &Injected, crew: &mut [Crew]) {
    for actor in crew.iter_mut() {
        if let Member::Path(path) = &mut actor.member {
            if path.number() == injected.path {
                inject_at(case, injected, path);
            }
        }
    }
}

fn inject_at(case: &mut Case, injected: &Injected, path: &mut Path) {
    for digits in injected.digits.split(',') {
        match octets_of(case.alloc, digits) {
            Ok(octets) if path.inject(injected.from, octets.as_slice()).is_ok() => {}
            _ => case.refuse(),
        }
    }
}

/// Puts the line of a copy that arrived, of octets that were to be placed, or of an end that was told; nothing of other steps.
fn put_place(case: &mut Case, ask: &Ask) {
    match ask {
        Ask::Local(LocalStep::Arrive { to, copy }) => put_words(case, "  arrive ", *to, *copy),
        Ask::Reassembly(side, ReassemblyCall::Place { at, bytes }) => {
            put_words(case, "  place ", *side, *at);
            case.put(" ");
            case.put_digits(bytes.as_bytes());
        }
        Ask::Reassembly(side, ReassemblyCall::Fin { at }) => put_words(case, "  fin ", *side, *at),
        _ => return,
    }
    case.put("\n");
}

fn put_words(case: &mut Case, word: &str, side: Side, number: u64) {
    case.put(word);
    case.put(side.word());
    case.say_behind(" ", &number);
}

/// Puts what is shown of a run that has ended.
fn put_end(case: &mut Case, told: &Told, mut log: Text, world: World) {
    let last = outcome_line(case.alloc, told_outcome(world.outcome()));
    append(case, &mut log, last);
    match told.shown {
        Shown::Log => case.put_text(log.as_bytes()),
        Shown::Sums => {
            let read_by_b = read_since(case.alloc, &world, &[], 1);
            put_read(case, "read-by-b", read_by_b);
            let read_by_a = read_since(case.alloc, &world, &[], 0);
            put_read(case, "read-by-a", read_by_a);
            put_log(case, log.as_bytes());
        }
        Shown::Ends => {}
    }
    world.close();
}

/// Puts how much a reader read, and its digest.
fn put_read(case: &mut Case, name: &str, read: Result<Text, AllocError>) {
    match read {
        Ok(read) => put_port(case, name, read.as_bytes()),
        Err(_) => case.fail(),
    }
}
