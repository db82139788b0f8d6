//! The header that makes a TCP segment an IPv4 packet (RFC 791, section 3.1).

ghost use Rattle.std.specs.Prelude.{◌≡◌, ◌≤◌};
ghost use Rattle.pcap_text.specs.Ipv4.{header_text, header_with};

/// How many octets a header without options has.
pub const HEADER_LEN: usize = 20;

/// The header of a packet that carries a TCP segment of so many octets, at most 65,515, between these addresses: no
/// options, not to be fragmented, a time to live of 64 (RFC 791, section 3.1).
pub fn header(source: [u8; 4], destination: [u8; 4], segment_len: u16) -> [u8; 20]
    requires { segment_len ≤ 65515 }
    ensures { result ≡ header_text source destination segment_len }
{
    let without = header_with(0, source, destination, segment_len);
    let checksum = 0xffff - ones_sum::fold(ones_sum::sum(&without));
    header_with(checksum, source, destination, segment_len)
}

// The header with this checksum.
#[tactic(auto, unfolding(crate::specs::Ipv4::header_with))]
fn header_with(checksum: u16, source: [u8; 4], destination: [u8; 4], segment_len: u16) -> [u8; 20]
    requires { segment_len ≤ 65515 }
    ensures { result ≡ header_with checksum source destination segment_len }
{
    let [len_0, len_1] = (segment_len + 20).to_be_bytes();
    let [checksum_0, checksum_1] = checksum.to_be_bytes();
    let [source_0, source_1, source_2, source_3] = source;
    let [destination_0, destination_1, destination_2, destination_3] = destination;
    [
        // version 4, five words of header; no type of service
        0x45,
        0,
        len_0,
        len_1,
        // identification 0; not to be fragmented
        0,
        0,
        0x40,
        0,
        // time to live, TCP
        64,
        6,
        checksum_0,
        checksum_1,
        source_0,
        source_1,
        source_2,
        source_3,
        destination_0,
        destination_1,
        destination_2,
        destination_3,
    ]
}
