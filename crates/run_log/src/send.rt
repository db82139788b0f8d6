//! What a send book is asked and answers, in the words of a log.

ghost use Rattle.std.specs.Prelude.{◌≡◌, ◌++◌, OnOk, string_bytes};
ghost use Rattle.link_script.specs.Writing.{spaced};
ghost use Rattle.send_book.specs.declared.call.SendCall.TheVariants.{Grant};
ghost use Rattle.send_book.specs.declared.call.SendReply.TheVariants.{NoGrant};
ghost use Rattle.run_log.specs.Fitting.{IsLong, OptionFits, SendCallFits, SendReplyFits};
ghost use Rattle.run_log.specs.Calls.{send_call_words};
ghost use Rattle.run_log.specs.Replies.{granted_words, send_reply_words};

use crate::name::{flag, put_optional, reason_name};
use crate::number::{put_behind, put_flagged, put_one, put_two};
use send_book::{SendCall, SendReply, Why};
use std::alloc::AllocError;

/// A path, how many bytes it asks for, and whether it is on standby.
fn put_grant(text: &mut String, path: u8, max: u32, standby: bool) -> Result<(), AllocError>
    ensures text { OnOk result (string_bytes text.new ≡
        string_bytes text.old ++ spaced (send_call_words (Grant path max standby))) }
    ensures fits { OnOk result (IsLong path × IsLong max) }
{
    put_two(text, "grant", u64::from(path), u64::from(max))?;
    put_behind(text, flag(standby))
}

pub fn put_send_call(text: &mut String, call: &SendCall) -> Result<(), AllocError>
    ensures text { OnOk result (string_bytes text.new ≡
        string_bytes text.old ++ spaced (send_call_words call.now)) }
    ensures fits { OnOk result (SendCallFits call.now) }
{
    match *call {
        SendCall::Write { ref bytes } => put_one(text, "write", bytes.len() as u64),
        SendCall::Close => text.push_str("close"),
        SendCall::Grant { path, max, standby } => put_grant(text, path, max, standby),
        SendCall::AckIn { next, window } => put_two(text, "ack", next, window),
        SendCall::Return { path } => put_one(text, "return", u64::from(path)),
        SendCall::GoIdentity => text.push_str("identity"),
        SendCall::GoInfinite { path } => put_one(text, "infinite", u64::from(path)),
        SendCall::Abort => text.push_str("abort"),
    }
}

/// The places of a piece.
fn put_granted(text: &mut String, from: u64, to: u64) -> Result<(), AllocError>
    ensures text { OnOk result (string_bytes text.new ≡
        string_bytes text.old ++ spaced (granted_words from to)) }
    ensures fits { OnOk result (IsLong from × IsLong to) }
{
    put_two(text, "granted", from, to)
}

/// The reason that no bytes are granted, and how many there are in all.
fn put_no_grant(text: &mut String, why: Why, end: Option<u64>) -> Result<(), AllocError>
    ensures text { OnOk result (string_bytes text.new ≡
        string_bytes text.old ++ spaced (send_reply_words (NoGrant why end))) }
    ensures fits { OnOk result (OptionFits end) }
{
    write!(text, "none {} ", reason_name(why))?;
    put_optional(text, end)
}

pub fn put_send_reply(text: &mut String, reply: &SendReply) -> Result<(), AllocError>
    ensures text { OnOk result (string_bytes text.new ≡
        string_bytes text.old ++ spaced (send_reply_words reply.now)) }
    ensures fits { OnOk result (SendReplyFits reply.now) }
{
    match *reply {
        SendReply::Taken(count) => put_one(text, "taken", count),
        SendReply::Closed => text.push_str("closed"),
        SendReply::Shut => text.push_str("shut"),
        SendReply::Granted { span, .. } => put_granted(text, span.from, span.to),
        SendReply::NoGrant { why, end } => put_no_grant(text, why, end),
        SendReply::Acked { bytes, fin } => put_flagged(text, "acked", bytes, fin),
        SendReply::AckFuture { written } => put_one(text, "future", written),
        SendReply::Returned(count) => put_one(text, "returned", count),
        SendReply::Noted => text.push_str("noted"),
        SendReply::Infinite { from } => put_one(text, "infinite", from),
        SendReply::Scattered => text.push_str("scattered"),
    }
}
