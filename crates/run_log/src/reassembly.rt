//! What a reassembly book is asked and answers, in the words of a log.

ghost use Rattle.std.specs.Prelude.{◌≡◌, ◌++◌, OnOk, string_bytes};
ghost use Rattle.link_script.specs.Writing.{spaced};
ghost use Rattle.run_log.specs.Fitting.{ReassemblyCallFits, ReassemblyReplyFits};
ghost use Rattle.run_log.specs.Calls.{reassembly_call_words};
ghost use Rattle.run_log.specs.Replies.{reassembly_reply_words};

use crate::name::flag;
use crate::number::{put_one, put_two};
use reassembly_book::{ReassemblyCall, ReassemblyReply};
use std::alloc::AllocError;

pub fn put_reassembly_call(text: &mut String, call: &ReassemblyCall) -> Result<(), AllocError>
    ensures text { OnOk result (string_bytes text.new ≡
        string_bytes text.old ++ spaced (reassembly_call_words call.now)) }
    ensures fits { OnOk result (ReassemblyCallFits call.now) }
{
    match *call {
        ReassemblyCall::Place { at, ref bytes } => put_two(text, "place", at, bytes.len() as u64),
        ReassemblyCall::Fin { at } => put_one(text, "fin", at),
        ReassemblyCall::Read { max } => put_one(text, "read", u64::from(max)),
        ReassemblyCall::AckOut => text.push_str("ackout"),
        ReassemblyCall::Abort { by_peer } => write!(text, "abort {}", flag(by_peer)),
    }
}

pub fn put_reassembly_reply(text: &mut String, reply: &ReassemblyReply) -> Result<(), AllocError>
    ensures text { OnOk result (string_bytes text.new ≡
        string_bytes text.old ++ spaced (reassembly_reply_words reply.now)) }
    ensures fits { OnOk result (ReassemblyReplyFits reply.now) }
{
    match *reply {
        ReassemblyReply::Placed(count) => put_one(text, "placed", count),
        ReassemblyReply::Beyond { edge } => put_one(text, "beyond", edge),
        ReassemblyReply::FinSet => text.push_str("set"),
        ReassemblyReply::FinClash { fin, at } => put_two(text, "clash", fin, at),
        ReassemblyReply::Bytes(ref bytes) => put_one(text, "bytes", bytes.len() as u64),
        ReassemblyReply::End => text.push_str("end"),
        ReassemblyReply::NoneYet => text.push_str("none"),
        ReassemblyReply::Aborted { by_peer } => write!(text, "aborted {}", flag(by_peer)),
        ReassemblyReply::Ack { next, window } => put_two(text, "ack", next, window),
        ReassemblyReply::Noted => text.push_str("noted"),
    }
}
