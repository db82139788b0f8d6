//! What the lines of a log tell of the segments that are sent.

ghost use Rattle.std.specs.Prelude.{◌≡◌, ◌+◌, ◌*◌, ◌-◌, ◌++◌, IfOk, length, slice_index, slice_get, string_bytes};
ghost use Rattle.std.specs.Str.{bytes_eq};
ghost use Rattle.mptcp_view.specs.Telling.{behind_word, checksum_told, first_word, is_sent, payload_told, sent_words, step_words, tells, untold};

use link_trace::Sent;
use octet_text::split_line;
use run_outside::split_at_first;
use std::alloc::{AllocError, Global};

/// What stands behind the first space.
pub fn behind_word(text: &[u8]) -> &[u8]
    ensures { result.now ≡ behind_word text.now }
{
    let (_, behind) = split_at_first(text, b' ');
    behind
}

/// What a line says behind its stamp and its actor.
pub fn step_words(line: &[u8]) -> &[u8]
    ensures { result.now ≡ step_words line.now }
{
    behind_word(behind_word(line))
}

fn is_first_word(text: &[u8], word: &[u8]) -> bool
    ensures { result ≡ bytes_eq (first_word text.now) word.now }
{
    let (first, _) = split_at_first(text, b' ');
    first == word
}

/// Whether a line tells that its path hands a segment to the link.
fn is_sent(line: &[u8]) -> bool
    ensures { result ≡ is_sent line.now }
{
    let words = step_words(line);
    is_first_word(words, b"me") && is_first_word(behind_word(words), b"sent")
}

fn octet_at(octets: &[u8], place: usize) -> u8
    ensures { result ≡ slice_index octets.now place }
{
    match octets.get(place) {
        None => 0,
        Some(octet) => *octet,
    }
}

/// The octets of a segment's payload (RFC 9293, section 3.1).
fn payload_told(octets: &[u8]) -> usize
    ensures { result ≡ payload_told octets.now }
{
    octets
        .len()
        .saturating_sub(4 * usize::from(octet_at(octets, 12) / 16))
}

/// Its checksum field.
fn checksum_told(octets: &[u8]) -> u32
    ensures { result ≡ checksum_told octets.now }
{
    u32::from(octet_at(octets, 16)) * 256 + u32::from(octet_at(octets, 17))
}

/// The words of the step that hands a segment over.
fn sent_words(alloc: Global, sent: &Sent) -> Result<String, AllocError>
    ensures { IfOk result (λ words. string_bytes words ≡ sent_words sent.now) }
{
    let (side, number, octets) = (sent.from.word(), sent.number, sent.octets.as_bytes());
    let (payload, checksum) = (payload_told(octets), checksum_told(octets));
    format!(in alloc; "me sent {side} {number} {payload} {checksum}")
}

/// Whether a line tells just this segment.
fn tells_sent(alloc: Global, line: &[u8], sent: &Sent) -> Result<bool, AllocError>
    ensures { IfOk result (λ is. is ≡ bytes_eq (step_words line.now) (sent_words sent.now)) }
{
    let words = sent_words(alloc, sent)?;
    Ok(step_words(line) == words.as_bytes())
}

/// Whether a line tells the segment of this place of a trace.
fn tells(alloc: Global, line: &[u8], trace: &[Sent], at: usize) -> Result<bool, AllocError>
    ensures { IfOk result (λ is. is ≡ tells line.now (slice_get trace.now at)) }
{
    match trace.get(at) {
        None => Ok(false),
        Some(sent) => tells_sent(alloc, line, sent),
    }
}

/// The number of the first line of a log that tells a segment, but not the next one of a trace, or that of the line behind the last one,
/// where segments are left; the first line is line 1. None where the lines tell just the segments of the trace, in their order.
#[tactic(auto, using(crate::proofs::LinesTold::goes_told, crate::proofs::LinesTold::goes_on, crate::proofs::LinesTold::stops, crate::proofs::LinesTold::misses, crate::proofs::LinesTold::ends))]
pub fn untold(alloc: Global, log: &[u8], trace: &[Sent]) -> Result<Option<u64>, AllocError>
    ensures { IfOk result (λ line. line ≡ untold log.now trace.now) }
{
    // For the proof: there are fewer than 2^63 lines.
    let _len = log.len();
    let (mut number, mut at, mut rest) = (1_u64, 0_usize, log);
    while !rest.is_empty() {
        let (line, behind) = split_line(rest);
        if is_sent(line) {
            if !tells(alloc, line, trace, at)? {
                return Ok(Some(number));
            }
            at += 1;
        }
        number += 1;
        rest = behind;
    }
    if at < trace.len() {
        return Ok(Some(number));
    }
    Ok(None)
}
