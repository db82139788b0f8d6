//! Prints what calls of crates answer, one case for each line of standard input: those of the wire, of what stands below the ends, of the
//! ends of subflows, of the books of a side, of the texts of logs, and of captures.
//! `stdin` holds the cases, `stdout` the wanted answers. Lines that are empty or begin with `#` are printed as they stand, and say where the
//! answers come from.
//!
//! A case is a name and its fields with one blank between them. Octets are hexadecimal digits, or `-` where there are
//! none; numbers are decimal. The head of each file says the cases that it answers. A case of `book`, `end` or `pair` is printed again before
//! its answer.
#![tactic(auto)]

mod books;
mod calls;
mod end_cases;
mod flow_cases;
mod hearing_cases;
mod increase_cases;
mod key_cases;
mod logs;
mod mapping_cases;
mod marks_cases;
mod message_cases;
mod mode_cases;
mod number_cases;
mod option_cases;
mod packet_cases;
mod pair_cases;
mod pipe_cases;
mod receive_cases;
mod record_cases;
mod saying_cases;
mod script_cases;
mod segment_cases;
mod spelling_cases;
mod steps;
mod sum_cases;
mod time_cases;
mod timer_cases;
mod window_cases;
mod words_cases;

use books::Books;
use case_fields::{Case, CaseFault, kept_line};
use std::alloc::{AllocError, Global};
use std::io::{self, BufWriter, Write};
use subflow_tcp::Subflow;

/// What cases go on with that those before them left.
#[derive(Drop)]
struct Left {
    end: Subflow,
    books: Books,
}

/// Puts the answer to a case of keys and numbers.
fn put_number_answer(case: &mut Case, name: &str) {
    match name {
        "key" => key_cases::key(case),
        "hmac" => key_cases::hmac(case),
        "join" => key_cases::join(case),
        "address" => key_cases::address(case),
        "drawn" => key_cases::drawn(case),
        "number" => number_cases::number(case),
        "near32" => number_cases::near32(case),
        "near64" => number_cases::near64(case),
        "widen" => number_cases::widen(case),
        _ => put_leaf_answer(case, name),
    }
}

/// Puts the answer to a case of octets and texts.
fn put_wire_answer(case: &mut Case, name: &str) {
    match name {
        "option" => option_cases::option(case),
        "segment" => segment_cases::segment(case),
        "written" => segment_cases::written(case),
        "sum" => sum_cases::sum(case),
        "sums" => sum_cases::sums(case),
        "message" => message_cases::message(case),
        "frames" => message_cases::frames(case),
        "pipe" => pipe_cases::pipe(case),
        "spelled" => spelling_cases::spelled(case),
        "heard" => spelling_cases::heard(case),
        _ => put_number_answer(case, name),
    }
}

/// Puts the answer to a case of what stands below the ends.
fn put_leaf_answer(case: &mut Case, name: &str) {
    match name {
        "grow" => increase_cases::grow(case),
        "rtt" => timer_cases::rtt(case),
        "reno" => window_cases::reno(case),
        "said" => saying_cases::said(case),
        "fin-number" => saying_cases::fin_number(case),
        "capable" => hearing_cases::capable(case),
        "joined" => hearing_cases::joined(case),
        "checksum" => mapping_cases::checksum(case),
        "mappings" => mapping_cases::mappings(case),
        "marks" => marks_cases::marks(case),
        "records" => record_cases::records(case),
        "receive" => receive_cases::receive(case),
        "pieces" => receive_cases::pieces(case),
        "modes" => mode_cases::modes(case),
        "time" => time_cases::time(case),
        _ => case.refuse(),
    }
}

/// Puts the answer to a case of texts and captures.
fn put_text_answer(case: &mut Case, name: &str) {
    match name {
        "log" => logs::log(case),
        "script" => script_cases::script(case),
        "words" => words_cases::words(case),
        "packets" => packet_cases::packets(case),
        "flows" => flow_cases::flows(case),
        _ => put_wire_answer(case, name),
    }
}

/// Puts a line and what stands between it and its answer.
fn put_again(case: &mut Case, line: &str, behind: &str) {
    case.put(line);
    case.put(behind);
}

/// Puts what is printed for a line of input.
fn put_answer(case: &mut Case, left: &mut Left, line: &str) {
    if line.is_empty() || line.starts_with("#") {
        return case.put(line);
    }
    match case.word() {
        "book" => {
            put_again(case, line, " = ");
            books::book(case, &mut left.books);
        }
        "end" => {
            put_again(case, line, " = ");
            end_cases::end(case, &mut left.end);
        }
        "pair" => {
            put_again(case, line, " =");
            pair_cases::pair(case);
        }
        name => put_text_answer(case, name),
    }
}

/// What is printed for a line of input.
fn answer(alloc: Global, left: &mut Left, line: &'static str) -> Result<String, CaseFault> {
    let mut case = Case::new(alloc, line);
    put_answer(&mut case, left, line);
    case.end()
}

/// Prints the answer to a line of input.
fn print_answer<W: Write>(
    alloc: Global,
    out: &mut W,
    left: &mut Left,
    line: &'static str,
) -> io::Result<()> {
    match answer(alloc, left, line) {
        Ok(text) => writeln!(out, "{text}"),
        Err(CaseFault::Form) => writeln!(out, "not a case: {line}"),
        Err(CaseFault::Memory) => Err(AllocError.into()),
    }
}

/// Prints the answer to each line of input.
fn print_answers(rt: &HostRuntime, left: &mut Left) -> io::Result<()> {
    let mut out = BufWriter::new(rt.alloc(), io::writer(rt))?;
    for line in rt.lines(rt.alloc()) {
        print_answer(rt.alloc(), &mut out, left, kept_line(line?))?;
    }
    out.flush()
}

fn main(rt: HostRuntime) -> io::Result<()> {
    let mut left = Left {
        books: Books::new(rt.alloc())?,
        end: Subflow::open(rt.alloc(), 0, 0, 1_400),
    };
    print_answers(&rt, &mut left)
}
