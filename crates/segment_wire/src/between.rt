//! The checksum between IP addresses of either version (RFC 9293, section 3.1; RFC 8200, section 8.1).

ghost use Rattle.std.specs.Prelude.{◌≡◌, ◌*◌, ◌≤◌, ◌^◌, ◌<◌, length};
ghost use Rattle.ones_sum.specs.Words.{word_sum};
ghost use Rattle.segment_wire.specs.Between.{IsAddress, pseudo_header_between, pseudo_sum_between, covered_sum_between};

// The number of TCP among the protocols, behind three zeros.
const PROTOCOL: [u8; 4] = [0, 0, 0, 6];

/// The one's complement sum of the pseudo-header and a segment of fewer than 2^32 octets, whose checksum field counts as it
/// stands. The addresses are of IPv6, 16 octets each (RFC 8200, section 8.1), or of IPv4, four octets each (RFC 9293, section 3.1).
#[tactic(auto, unfolding(crate::specs::Between::covered_sum_between))]
pub fn covered_sum_between(source: &[u8], destination: &[u8], segment: &[u8]) -> u16
    requires source { IsAddress source.now }
    requires destination { IsAddress destination.now }
    requires fits { length segment.now < 2 ^ 32 }
    ensures { result ≡ covered_sum_between source.now destination.now segment.now }
{
    let before = plain_sum(source, destination, segment.len() as u32);
    ones_sum::fold(ones_sum::sum_more(before, segment))
}

/// The one's complement sum of the pseudo-header alone, where the segment has so many octets: what stands in the checksum
/// field of a segment whose sum the sender leaves to its device.
#[tactic(auto, unfolding(crate::specs::Between::pseudo_sum_between))]
pub fn pseudo_sum_between(source: &[u8], destination: &[u8], segment_len: u32) -> u16
    requires source { IsAddress source.now }
    requires destination { IsAddress destination.now }
    ensures { result ≡ pseudo_sum_between source.now destination.now segment_len }
{
    ones_sum::fold(plain_sum(source, destination, segment_len))
}

// The plain sum of the words of the pseudo-header.
fn plain_sum(source: &[u8], destination: &[u8], segment_len: u32) -> u64
    requires source { IsAddress source.now }
    requires destination { IsAddress destination.now }
    ensures value { result ≡
        word_sum (pseudo_header_between source.now destination.now segment_len) }
    ensures bounded { result ≤ 65535 * 64 }
{
    let through_source = ones_sum::sum(source);
    let through_destination = ones_sum::sum_more(through_source, destination);
    let through_len = ones_sum::sum_more(through_destination, &segment_len.to_be_bytes());
    ones_sum::sum_more(through_len, &PROTOCOL)
}
