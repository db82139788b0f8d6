//! Writing a segment.

ghost use Rattle.std.specs.Prelude.{◌≡◌, ◌≤◌, IfOk, OnOk};
ghost use Rattle.segment_wire.specs.Segment.{CanCarry, CanWrite, IsHead, segment_text, checksum_field, octets_with, fixed_header, control_bits};

use crate::checksum::covered_sum_of_parts;
use crate::head::{ACK, Addresses, FIN, FIXED_HEADER_LEN, Head, RST, SYN};
use std::alloc::{AllocError, Global};

/// The octets of a segment that goes between these addresses (RFC 9293, section 3.1): the fixed header, at most 40
/// octets of whole options padded to a multiple of four, and the payload, at most 65,535 octets in all. Reserved bits,
/// CWR, ECE, URG, PSH and the urgent pointer are 0. Allocates once.
///
/// # Errors
///
/// Only where there is no memory for the octets.
#[tactic(auto, unfolding(crate::specs::Segment::segment_text))]
pub fn write(
    alloc: Global,
    head: &Head,
    addresses: &Addresses,
    options: &[u8],
    payload: &[u8],
) -> Result<Vec<u8>, AllocError>
    requires { CanCarry options.now payload.now }
    ensures text { IfOk result (λ octets. octets.items ≡
        segment_text addresses.now
        (record { head = head.now; options = options.now; payload = payload.now })) }
    // They can be read again.
    ensures readable { OnOk result
        (CanWrite (record { head = head.now; options = options.now; payload = payload.now })) }
{
    let checksum = checksum_field(head, addresses, options, payload);
    put_together(alloc, checksum, *head, options, payload)
}

/// The checksum field of the octets that [`write`] makes of these, without making them. Takes no memory.
pub fn checksum_field(head: &Head, addresses: &Addresses, options: &[u8], payload: &[u8]) -> u16
    requires { CanCarry options.now payload.now }
    ensures { result ≡
        checksum_field addresses.now
        (record { head = head.now; options = options.now; payload = payload.now }) }
{
    let header = fixed_header(0, head, options.len());
    0xffff - covered_sum_of_parts(addresses, &header, options, payload)
}

// The octets with this checksum.
fn put_together(
    alloc: Global,
    checksum: u16,
    head: Head,
    options: &[u8],
    payload: &[u8],
) -> Result<Vec<u8>, AllocError>
    requires { CanCarry options.now payload.now }
    ensures text { IfOk result (λ octets. octets.items ≡
        octets_with checksum
        (record { head = head; options = options.now; payload = payload.now })) }
    ensures fits { IsHead head }
{
    let mut octets = Vec::with_capacity(alloc, FIXED_HEADER_LEN + options.len() + payload.len())?;
    octets.extend_from_slice(&fixed_header(checksum, &head, options.len()))?;
    octets.extend_from_slice(options)?;
    octets.extend_from_slice(payload)?;
    Ok(octets)
}

// The fixed header with this checksum, before so many octets of options.
#[tactic(auto, unfolding(crate::specs::Segment::fixed_header))]
fn fixed_header(checksum: u16, head: &Head, options_len: usize) -> [u8; 20]
    requires { options_len ≤ 40 }
    ensures { result ≡ fixed_header checksum head.now options_len }
{
    let [source_0, source_1] = head.source_port.to_be_bytes();
    let [destination_0, destination_1] = head.destination_port.to_be_bytes();
    let [seq_0, seq_1, seq_2, seq_3] = head.seq.to_be_bytes();
    let [ack_0, ack_1, ack_2, ack_3] = head.ack.to_be_bytes();
    let data_offset = 5 + options_len as u8 / 4;
    let [window_0, window_1] = head.window.to_be_bytes();
    let [checksum_0, checksum_1] = checksum.to_be_bytes();
    [
        source_0,
        source_1,
        destination_0,
        destination_1,
        seq_0,
        seq_1,
        seq_2,
        seq_3,
        ack_0,
        ack_1,
        ack_2,
        ack_3,
        data_offset << 4,
        control_bits(head),
        window_0,
        window_1,
        checksum_0,
        checksum_1,
        // the urgent pointer
        0,
        0,
    ]
}

fn control_bits(head: &Head) -> u8
    ensures { result ≡ control_bits head.now }
{
    let ack = if head.ack_set { ACK } else { 0 };
    let rst = if head.rst { RST } else { 0 };
    let syn = if head.syn { SYN } else { 0 };
    let fin = if head.fin { FIN } else { 0 };
    ack | rst | syn | fin
}
