//! `words` and then each word of a command line behind a `;`: what `run_words` reads of it. The case is printed again behind ` = `
//! and the answer: `usage`, or the mode, its values and the five names, with a `;` between.

use case_fields::Case;
use run_words::{CommandLine, Mode, WordsFault, read};
use std::alloc::{AllocError, Global};

pub fn words(case: &mut Case) {
    let told = case.rest();
    case.put(told);
    case.put(" = ");
    match words_of(case.alloc, told) {
        Ok(words) => put_read(case, words.as_slice()),
        Err(_) => case.fail(),
    }
}

/// The words of a case, each of which stands behind a `;`.
fn words_of(alloc: Global, told: &str) -> Result<Vec<String>, AllocError> {
    let mut words = Vec::new(alloc);
    for word in told.split(';').skip(1) {
        words.push(String::from_str(alloc, word)?)?;
    }
    Ok(words)
}

/// Puts what the words of a case are read as.
fn put_read(case: &mut Case, words: &[String]) {
    match read(case.alloc, words) {
        Ok(line) => put_line(case, &line),
        Err(WordsFault::Usage) => case.put("usage"),
        Err(WordsFault::Memory) => case.fail(),
    }
}

/// Puts a command line with a `;` between what it says.
fn put_line(case: &mut Case, line: &CommandLine<'_>) {
    match line.mode {
        Mode::Run { rounds } => put_mode(case, "run;", rounds),
        Mode::Serial { rounds } => put_mode(case, "serial;", rounds),
        Mode::Timed { rounds } => put_mode(case, "timed;", rounds),
        Mode::Replay { order } => {
            case.put("replay;");
            case.put(order);
        }
        Mode::Bench { rounds, number } => {
            put_mode(case, "bench;", rounds);
            case.say_behind(";", &number);
        }
    }
    for name in [
        line.script,
        line.file_a,
        line.file_b,
        line.read_by_b,
        line.read_by_a,
    ] {
        case.put(";");
        case.put(name);
    }
}

/// Puts a mode and how many rounds are made.
fn put_mode(case: &mut Case, mode: &str, rounds: u32) {
    case.put(mode);
    case.say(&rounds);
}
