//! The checksum over pseudo-header and segment (RFC 9293, section 3.1).

ghost use Rattle.std.specs.Prelude.{◌≡◌, ◌+◌, ◌%◌, ◌≤◌, ◌++◌, length};
ghost use Rattle.segment_wire.specs.Checksum.{pseudo_header, covered_sum};

use crate::head::Addresses;

// The number of TCP among the protocols over IPv4.
const PROTOCOL: u8 = 6;

/// The one's complement sum of the pseudo-header and the segment, whose checksum field counts as it stands.
pub fn covered_sum(addresses: &Addresses, segment: &[u8]) -> u16
    requires { length segment.now ≤ 65535 }
    ensures { result ≡ covered_sum addresses.now segment.now }
{
    let before = ones_sum::sum(&pseudo_header(addresses, segment.len() as u16));
    ones_sum::fold(ones_sum::sum_more(before, segment))
}

/// The sum of `covered_sum`, over a segment that is lent in parts: the fixed header, the options and the payload.
pub fn covered_sum_of_parts(
    addresses: &Addresses,
    header: &[u8; 20],
    options: &[u8],
    payload: &[u8],
) -> u16
    requires padded { length options.now % 4 ≡ 0 }
    requires fits { length options.now + length payload.now ≤ 65515 }
    ensures { result ≡ covered_sum addresses.now (header.now ++ (options.now ++ payload.now)) }
{
    let len = header.len() + options.len() + payload.len();
    let before = ones_sum::sum(&pseudo_header(addresses, len as u16));
    let through_header = ones_sum::sum_more(before, header);
    let through_options = ones_sum::sum_more(through_header, options);
    ones_sum::fold(ones_sum::sum_more(through_options, payload))
}

// What the checksum covers beside a segment of so many octets.
fn pseudo_header(addresses: &Addresses, segment_len: u16) -> [u8; 12]
    ensures { result ≡ pseudo_header addresses.now segment_len }
{
    let [source_0, source_1, source_2, source_3] = addresses.source;
    let [destination_0, destination_1, destination_2, destination_3] = addresses.destination;
    let [high, low] = segment_len.to_be_bytes();
    [
        source_0,
        source_1,
        source_2,
        source_3,
        destination_0,
        destination_1,
        destination_2,
        destination_3,
        0,
        PROTOCOL,
        high,
        low,
    ]
}
