//! `script text SCRIPT`: what `link_script` answers to a whole script, in which `;` stands for LF; `script lines LINES` to what
//! stands between the first line and `end`, and `script long NUMBER LINES` to what stands behind so many empty lines and the lines
//! before them. The case is printed again behind the answer, which is `ok`, or the first refused line and the kind of its fault.
//! The script that an accepted text says is written by `text`, and printed on a line of its own.

use case_fields::{Case, with_line_ends};
use link_script::{Script, ScriptFault, parse, text};
use std::alloc::{AllocError, Global};

pub fn script(case: &mut Case) {
    let told = case.rest();
    case.read(told, " ");
    match script_of(case) {
        Ok(script) => put_parsed(case, told, script.as_str()),
        Err(_) => case.fail(),
    }
}

/// The script that a case tells.
fn script_of(case: &mut Case) -> Result<String, AllocError> {
    let alloc = case.alloc;
    match case.word() {
        "text" => with_line_ends(alloc, case.rest()),
        "lines" => {
            let lines = with_line_ends(alloc, case.rest())?;
            format!(in alloc; "mptcp-script 1\n{lines}\nend\n")
        }
        "long" => {
            let count = case.number();
            long_script(alloc, count, case.rest())
        }
        _ => {
            case.refuse();
            Ok(String::new(alloc))
        }
    }
}

/// A script with so many empty lines behind the line of path 0.
fn long_script(alloc: Global, count: u16, last: &str) -> Result<String, AllocError> {
    let mut script = String::from_str(alloc, "mptcp-script 1\npath 0 mss 1400 delay 10\n")?;
    for _ in 0..count {
        script.push('\n')?;
    }
    script.push_str(&with_line_ends(alloc, last)?)?;
    Ok(script)
}

/// What `parse` answers to a script, and `text` to what it says.
fn put_parsed(case: &mut Case, told: &str, script: &str) {
    match parse(case.alloc, script.as_bytes()) {
        Ok(read) => {
            case.put("ok: ");
            case.put(told);
            case.put("\n    ");
            put_script(case, &read);
        }
        Err(ScriptFault::Line { line, kind }) => {
            case.say(&line);
            case.say_behind(" ", &kind);
            case.put(": ");
            case.put(told);
        }
        Err(ScriptFault::Memory) => case.fail(),
    }
}

/// Puts the text that says this, with `;` for each LF but the last.
fn put_script(case: &mut Case, script: &Script) {
    match text(case.alloc, script) {
        Ok(text) => put_lines(case, &text),
        Err(_) => case.fail(),
    }
}

fn put_lines(case: &mut Case, text: &[u8]) {
    match String::from_utf8_lossy(case.alloc, text) {
        Ok(text) => put_between(case, text.as_str()),
        Err(_) => case.fail(),
    }
}

fn put_between(case: &mut Case, text: &str) {
    let mut first = true;
    for line in text.lines() {
        if !first {
            case.put(";");
        }
        first = false;
        case.put(line);
    }
}
