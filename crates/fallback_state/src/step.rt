ghost use Rattle.std.specs.Prelude.{◌≡◌};
ghost use Rattle.fallback_state.specs.Table.{fall_step, after_plain, after_keys, after_sure_sign, after_infinite, after_failed_check, after_fail};

use crate::fall::{Event, Fall, Mode, Verdict};

/// Reason of MP_TCPRST: an error specific to Multipath TCP (RFC 8684, section 3.6).
const MPTCP_SPECIFIC: u8 = 1;

/// Reason of MP_TCPRST: a middlebox interferes (RFC 8684, section 3.6).
const MIDDLEBOX: u8 = 6;

/// Where a side stands after an event on a path, and what it does about it.
///
/// `sole` tells that no other path of the side lives or opens. What the rows of the table don't name changes nothing.
pub fn fall_step(old: &Fall, path: u8, sole: bool, event: Event) -> (Fall, Verdict)
    ensures { result ≡ fall_step old.now path sole event }
{
    let fall = *old;
    match event {
        Event::PlainHandshake | Event::PlainData | Event::PlainAck => plain(fall),
        Event::KeysHeard => keys_heard(fall),
        Event::MappingHeard | Event::AckHeard => sure_sign(fall),
        Event::InfiniteHeard => infinite_heard(fall, path, sole),
        Event::CheckFailed => check_failed(fall, path, sole),
        Event::FailHeard { contiguous } => fail_heard(fall, sole, contiguous),
        Event::Stop => fall.goes(Mode::Aborted),
    }
}

/// Something came without options where they are needed.
fn plain(fall: Fall) -> (Fall, Verdict)
    ensures { result ≡ after_plain fall }
{
    if fall.mode.is_starting() && !fall.joined {
        fall.goes(Mode::Identity)
    } else {
        fall.stays()
    }
}

/// Both keys came.
fn keys_heard(fall: Fall) -> (Fall, Verdict)
    ensures { result ≡ after_keys fall }
{
    if fall.mode.is_identity() {
        fall.stays()
    } else {
        let confirmed = Fall {
            confirmed: true,
            ..fall
        };
        confirmed.stays()
    }
}

/// A mapping of the peer, or an acknowledgement of data, was accepted.
fn sure_sign(fall: Fall) -> (Fall, Verdict)
    ensures { result ≡ after_sure_sign fall }
{
    if fall.mode.is_starting() {
        fall.goes(Mode::Sure)
    } else {
        fall.stays()
    }
}

/// An infinite mapping came.
fn infinite_heard(fall: Fall, path: u8, sole: bool) -> (Fall, Verdict)
    ensures { result ≡ after_infinite path sole fall }
{
    if !fall.mode.reads_mappings() {
        return fall.stays();
    }
    if sole && fall.failed_on(path) {
        return fall.goes(fall.mode.with_infinite_receive());
    }
    if fall.mode.writes_mappings() && !fall.joined && fall.failed.is_none() {
        return fall.goes(Mode::Identity);
    }
    fall.breaks(MPTCP_SPECIFIC)
}

/// The checksum of a mapping is wrong.
fn check_failed(fall: Fall, path: u8, sole: bool) -> (Fall, Verdict)
    ensures { result ≡ after_failed_check path sole fall }
{
    if !fall.mode.reads_mappings() {
        return fall.stays();
    }
    if !sole {
        return fall.breaks(MIDDLEBOX);
    }
    let failed = Fall {
        failed: Some(path),
        ..fall
    };
    (failed, Verdict::SendFail)
}

/// The peer tells by MP_FAIL that a checksum was wrong.
fn fail_heard(fall: Fall, sole: bool, contiguous: bool) -> (Fall, Verdict)
    ensures { result ≡ after_fail sole contiguous fall }
{
    if !fall.mode.writes_mappings() {
        return fall.stays();
    }
    if sole && contiguous {
        return fall.goes(fall.mode.with_infinite_send());
    }
    fall.breaks(MPTCP_SPECIFIC)
}
