//! Judges a capture of Multipath TCP: `mptcp_judge CAPTURE [--at a|b] [--streams PREFIX] [--no-tcp-sum]` says of both sides of each
//! connection whether they kept the rules of RFC 8684, and writes the streams that they sent.
#![tactic(auto)]

use file_outside::FileOutside;
use judge_call::{Status, judge};
use run_outside::command_words;
use std::os::fd::AsFd;
use std::process::ExitCode;

/// Whether standard output is open. Where it isn't, a file that is opened later may have its number.
fn has_output(rt: &HostRuntime) -> bool {
    rt.stdout().as_fd().try_clone_to_owned().is_ok()
}

/// Judges what the words name, over files and standard output.
fn judged(rt: &HostRuntime) -> Status {
    let mut outside = FileOutside::new(rt, has_output(rt));
    match command_words(rt) {
        Ok(words) => judge(rt.alloc(), &words, &mut outside),
        Err(run_outside::Status::Memory) => Status::Memory,
        Err(_) => Status::Usage,
    }
}

fn main(rt: HostRuntime) -> ExitCode {
    let status = judged(&rt);
    if let Ok(line) = status.fault_text(rt.alloc()) {
        if !line.is_empty() {
            let _ = eprintln!(rt; "{line}");
        }
    }
    ExitCode::from(status.code())
}
