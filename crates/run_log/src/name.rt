//! The words of a log for flags, sides, modes and other things that have names.

ghost use Rattle.std.specs.Prelude.{◌≡◌, ◌++◌, OnOk, string_bytes};
ghost use Rattle.link_script.specs.Writing.{spaced};
ghost use Rattle.run_log.specs.Fitting.{OptionFits, VerdictFits, NoticeFits};
ghost use Rattle.run_log.specs.Words.{flag_word, optional_word, object_word, reason_word, mode_word, event_words, verdict_words, notice_words};

use control_book::Notice;
use fallback_state::{Event, Mode, Verdict};
use send_book::Why;
use sides::{Object, Side};
use std::alloc::AllocError;

/// `1` or `0`.
pub fn flag(on: bool) -> &'static str
    ensures { result.now ≡ flag_word on }
{
    if on { "1" } else { "0" }
}

/// The send, reassembly or control book of a side, or none but the actor itself.
pub fn object_name(object: Object) -> &'static str
    ensures { result.now ≡ object_word object }
{
    match object {
        Object::Send(Side::A) => "sa",
        Object::Send(Side::B) => "sb",
        Object::Reassembly(Side::A) => "ra",
        Object::Reassembly(Side::B) => "rb",
        Object::Control(Side::A) => "ca",
        Object::Control(Side::B) => "cb",
        Object::Me => "me",
    }
}

pub fn reason_name(why: Why) -> &'static str
    ensures { result.now ≡ reason_word why }
{
    match why {
        Why::Ended => "ended",
        Why::Backup => "backup",
        Why::NothingFree => "free",
        Why::WindowShut => "window",
    }
}

pub fn mode_name(mode: Mode) -> &'static str
    ensures { result.now ≡ mode_word mode }
{
    match mode {
        Mode::Starting => "starting",
        Mode::Sure => "sure",
        Mode::Identity => "identity",
        Mode::InfiniteSend => "infinitesend",
        Mode::InfiniteReceive => "infinitereceive",
        Mode::InfiniteBoth => "infiniteboth",
        Mode::Aborted => "aborted",
    }
}

/// A number, or `-` where there is none.
pub fn put_optional(text: &mut String, number: Option<u64>) -> Result<(), AllocError>
    ensures text { OnOk result (string_bytes text.new ≡
        string_bytes text.old ++ optional_word number) }
    ensures fits { OnOk result (OptionFits number) }
{
    match number {
        Some(number) => write!(text, "{number}"),
        None => text.push_str("-"),
    }
}

pub fn put_event(text: &mut String, event: Event) -> Result<(), AllocError>
    ensures { OnOk result (string_bytes text.new ≡
        string_bytes text.old ++ spaced (event_words event)) }
{
    match event {
        Event::PlainHandshake => text.push_str("plainhandshake"),
        Event::PlainData => text.push_str("plaindata"),
        Event::PlainAck => text.push_str("plainack"),
        Event::KeysHeard => text.push_str("keysheard"),
        Event::MappingHeard => text.push_str("mappingheard"),
        Event::AckHeard => text.push_str("ackheard"),
        Event::InfiniteHeard => text.push_str("infiniteheard"),
        Event::CheckFailed => text.push_str("checkfailed"),
        Event::FailHeard { contiguous } => write!(text, "failheard {}", flag(contiguous)),
        Event::Stop => text.push_str("stop"),
    }
}

pub fn put_verdict(text: &mut String, verdict: Verdict) -> Result<(), AllocError>
    ensures text { OnOk result (string_bytes text.new ≡
        string_bytes text.old ++ spaced (verdict_words verdict)) }
    ensures fits { OnOk result (VerdictFits verdict) }
{
    match verdict {
        Verdict::Stay => text.push_str("stay"),
        Verdict::Went(mode) => write!(text, "went {}", mode_name(mode)),
        Verdict::SendFail => text.push_str("sendfail"),
        Verdict::BreakPath(reason) => write!(text, "breakpath {reason}"),
    }
}

pub fn put_notice(text: &mut String, notice: Notice) -> Result<(), AllocError>
    ensures text { OnOk result (string_bytes text.new ≡
        string_bytes text.old ++ spaced (notice_words notice)) }
    ensures fits { OnOk result (NoticeFits notice) }
{
    match notice {
        Notice::Nothing => text.push_str("nothing"),
        Notice::Announce(id) => write!(text, "announce {id}"),
        Notice::Withdraw(id) => write!(text, "withdraw {id}"),
        Notice::Carrier { key } => write!(text, "carrier {key}"),
        Notice::Reset => text.push_str("reset"),
    }
}
