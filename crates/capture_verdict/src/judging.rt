//! The packets of a capture, judged one after the other.

ghost use Rattle.std.specs.Prelude.{◌≡◌, ◌+◌, ◌<◌, ◌≤◌, map, IfOk, OnOk};
ghost use Rattle.capture_reader.specs.Captured.{as_captured};
ghost use Rattle.capture_reader.specs.Seen.{segment_in_packet};
ghost use Rattle.capture_reader.specs.Steps.{Gives};
ghost use Rattle.rule_book.specs.Judged.{nothing_judged};
ghost use Rattle.rule_book.specs.State.{judged_of};
ghost use Rattle.capture_verdict.specs.Judging.{judged_capture, judged_if_seen, judged_packets};

use capture_reader::{CaptureFault, CapturedPacket, read_capture, segment_of};
use rule_book::{JudgeWords, Judged};
use std::alloc::{AllocError, Global};

/// Reads a capture and judges its packets, which count from 1.
///
/// # Errors
///
/// The first record or block that has no form, by the octet where it begins; or want of memory.
pub fn judge_capture<'a>(
    alloc: Global,
    words: &JudgeWords,
    octets: &'a [u8],
) -> Result<Judged<'a>, CaptureFault>
    ensures exact { Gives judged_of result
        (judged_capture words.now.at words.now.check_sums octets.now) }
{
    match read_capture(alloc, octets) {
        Ok(packets) => Ok(judge_packets(alloc, words, &packets)?),
        Err(fault) => Err(fault),
    }
}

fn judge_packets<'a>(
    alloc: Global,
    words: &JudgeWords,
    packets: &[CapturedPacket<'a>],
) -> Result<Judged<'a>, AllocError>
    ensures { IfOk result (λ judged. judged_of judged ≡
        judged_packets words.now.at words.now.check_sums nothing_judged 1
        (map as_captured packets.now)) }
{
    let mut judged = Judged::new(alloc);
    let mut number: u32 = 1;
    for packet in packets {
        judge_packet(alloc, words, &mut judged, number, packet)?;
        number = next_number(number)?;
    }
    Ok(judged)
}

// There is no memory for as many packets as would have no number.
fn next_number(number: u32) -> Result<u32, AllocError>
    ensures { IfOk result (λ next. next ≡ number + 1) }
{
    match number.checked_add(1) {
        Some(next) => Ok(next),
        None => Err(AllocError),
    }
}

// A packet that carries no segment changes nothing.
fn judge_packet<'a>(
    alloc: Global,
    words: &JudgeWords,
    judged: &mut Judged<'a>,
    number: u32,
    packet: &CapturedPacket<'a>,
) -> Result<(), AllocError>
    requires { judged.old.seen.last < number }
    ensures judged { OnOk result (judged_of judged.new
        ≡ judged_if_seen words.now.at words.now.check_sums (judged_of judged.old) number (segment_in_packet (as_captured packet.now))) }
    ensures last { OnOk result (judged.new.seen.last ≤ number) }
{
    match segment_of(packet) {
        Some(seen) => judged.judge(alloc, words, number, &seen),
        None => Ok(()),
    }
}
