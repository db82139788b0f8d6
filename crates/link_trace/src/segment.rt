//! A segment but for its options.

ghost use Rattle.std.specs.Prelude.{◌≡◌, ◌++◌, [], if◌then◌else◌, IfOk, OnOk, string_bytes};
ghost use Rattle.segment_wire.specs.Reading.{segment_of, segment_meaning};
ghost use Rattle.link_trace.specs.Segments.{ack_words, flag_words, is_numbered, relative, segment_words, seq_words, window_of, words_of};

use crate::multipath::DataInitials;
use crate::options::put_options;
use segment_wire::{Addresses, Head, SegmentRef, parse};
use std::alloc::{AllocError, Global};

/// From what the numbers of a segment count: the numbers of the SYNs of both directions, as far as they are known, of the direction of
/// the segment and of the other one; the initial data sequence numbers; and how many bits the window is shifted by.
#[derive(Clone, Copy)]
pub(crate) struct Initials {
    pub own: Option<u32>,
    pub peer: Option<u32>,
    pub streams: DataInitials,
    pub shift: Option<u8>,
}

/// A number relative to the initial one, or as it stands where that isn't known (RFC 9293, section 3.4).
fn relative(number: u32, initial: Option<u32>) -> u32
    ensures { result ≡ relative number initial }
{
    match initial {
        Some(initial) => number.wrapping_sub(initial),
        None => number,
    }
}

/// A letter for a flag that is set.
fn letter(flag: bool, letter: &'static str) -> &'static str
    ensures { result.now ≡ (if flag then letter.now else []) }
{
    if flag { letter } else { "" }
}

fn put_flags(text: &mut String, head: &Head) -> Result<(), AllocError>
    ensures { OnOk result (string_bytes text.new ≡ string_bytes text.old ++ flag_words head.now) }
{
    let (fin, syn) = (letter(head.fin, "F"), letter(head.syn, "S"));
    let (rst, ack) = (letter(head.rst, "R"), letter(head.ack_set, "."));
    write!(text, "Flags [{fin}{syn}{rst}{ack}]")
}

/// Whether the sequence number is told: it is of a segment with payload, SYN, FIN or RST.
fn is_numbered(head: &Head, len: usize) -> bool
    ensures { result ≡ is_numbered head.now len }
{
    head.syn || head.fin || head.rst || 0 < len
}

fn put_seq(
    text: &mut String,
    head: &Head,
    initial: Option<u32>,
    len: usize,
) -> Result<(), AllocError>
    ensures { OnOk result (string_bytes text.new ≡
        string_bytes text.old ++ seq_words head.now initial len) }
{
    if !is_numbered(head, len) {
        return Ok(());
    }
    let from = relative(head.seq, initial);
    if len == 0 {
        write!(text, ", seq {from}")
    } else {
        let to = u128::from(from) + len as u128;
        write!(text, ", seq {from}:{to}")
    }
}

fn put_ack(text: &mut String, head: &Head, initial: Option<u32>) -> Result<(), AllocError>
    ensures { OnOk result (string_bytes text.new ≡
        string_bytes text.old ++ ack_words head.now initial) }
{
    if head.ack_set {
        let next = relative(head.ack, initial);
        write!(text, ", ack {next}")
    } else {
        Ok(())
    }
}

/// The window of a segment, in octets: one without SYN is shifted as the SYNs agreed on (RFC 7323, section 2.3).
#[tactic(auto, using(crate::proofs::Sums::capped_product))]
fn window_of(head: &Head, shift: Option<u8>) -> u64
    ensures { result ≡ window_of shift head.now }
{
    let window = u64::from(head.window);
    match shift {
        None => window,
        Some(shift) => {
            if head.syn {
                window
            } else {
                window.saturating_mul(2_u64.saturating_pow(u32::from(shift)))
            }
        }
    }
}

fn put_segment(
    alloc: Global,
    text: &mut String,
    segment: &SegmentRef<'_>,
    initials: &Initials,
    checksums: bool,
) -> Result<(), AllocError>
    ensures { OnOk result (string_bytes text.new ≡
        string_bytes text.old ++ segment_words initials.now checksums (segment_of segment.now)) }
{
    let head = segment.head;
    let len = segment.payload().len();
    put_flags(text, &head)?;
    put_seq(text, &head, initials.own, len)?;
    put_ack(text, &head, initials.peer)?;
    write!(text, ", win {}", window_of(&head, initials.shift))?;
    put_options(alloc, text, segment, checksums, initials.streams)?;
    write!(text, ", length {len}")
}

/// The words of octets that went between these addresses, without an end of line; `malformed` where they are no segment.
pub(crate) fn words(
    alloc: Global,
    octets: &[u8],
    addresses: &Addresses,
    initials: &Initials,
    checksums: bool,
) -> Result<String, AllocError>
    ensures { IfOk result (λ text. string_bytes text ≡
        words_of initials.now checksums (segment_meaning addresses.now octets.now)) }
{
    let mut text = String::new(alloc);
    match parse(octets, addresses) {
        Ok(segment) => put_segment(alloc, &mut text, &segment, initials, checksums)?,
        Err(_) => text.push_str("malformed")?,
    }
    Ok(text)
}
