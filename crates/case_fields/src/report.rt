//! What is printed of a run that has ended.

use crate::case::Case;
use crate::recorder::Recorder;
use crate::task::Shown;
use outside_kit::Port;
use sha2::{Digest, Sha256};

/// Puts how many octets a reader's port holds, and their SHA-256, on a line with LF before it.
pub fn put_port(case: &mut Case, name: &str, held: &[u8]) {
    case.put("\n  ");
    case.put(name);
    case.say_behind(" ", &held.len());
    case.put(" octets ");
    case.put_digits(&Sha256::digest(held));
}

/// Puts how many lines the log has, and its SHA-256, on a line with LF before it.
pub fn put_log(case: &mut Case, log: &[u8]) {
    let lines = log.split(|octet| *octet == b'\n').count();
    case.say_behind("\n  log ", &lines.saturating_sub(1));
    case.put(" lines ");
    case.put_digits(&Sha256::digest(log));
}

/// Puts what is shown of a run.
pub fn put_report(case: &mut Case, shown: Shown, outside: &Recorder) {
    put_port(case, "read-by-b", outside.port(Port::ReadByB));
    put_port(case, "read-by-a", outside.port(Port::ReadByA));
    if matches!(shown, Shown::Read) {
        return;
    }
    put_log(case, outside.port(Port::Log));
    if matches!(shown, Shown::Calls) {
        put_calls(case, outside.calls());
    }
}

fn put_calls(case: &mut Case, calls: Option<&str>) {
    case.put("\n  calls");
    match calls {
        Some(calls) => case.put(calls),
        None => case.fail(),
    }
}
