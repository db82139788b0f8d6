//! Reading a segment: the parts of the input are lent, and nothing is copied.

ghost use Rattle.std.specs.Prelude.{◌≡◌, ◌+◌, ◌≤◌, length, IfOk, Ok};
ghost use Rattle.std.specs.Int.{w16, w32};
ghost use Rattle.std.specs.Ptr.{as_ptr};
ghost use Rattle.segment_wire.specs.Segment.{Segment, CanWrite, segment_text};
ghost use Rattle.octet_text.specs.Octets.{number_at};
ghost use Rattle.segment_wire.specs.Reading.{head_in, segment_meaning, segment_of, as_segment, options_place, payload_place, StandsIn};
ghost use Rattle.segment_wire.specs.Options.{option_octets, placed_options};
ghost use Rattle.segment_wire.specs.OptionFront.{options_left, octets_alone};

use crate::checksum::covered_sum;
use crate::head::{ACK, Addresses, FIN, FIXED_HEADER_LEN, Head, RST, SYN};
use crate::options::{PlainOptions, are_whole};

/// Why octets are no segment: the first that holds, in this order.
#[derive(Clone, Copy, Debug)]
pub enum SegmentFault {
    /// Fewer than 20 octets.
    Short,
    /// The data offset is below 5, or the header that it tells runs past the end.
    DataOffset,
    /// The length of an option is below 2, or the option runs past the header.
    OptionLength,
    /// More than 65,535 octets, or a sum over pseudo-header and segment other than ffff.
    Checksum,
}

/// A segment that was read. Its options and its payload are lent from the octets that it was read from.
#[derive(Clone, Copy)]
pub struct SegmentRef<'a> {
    /// The fields of the fixed header.
    pub head: Head,
    pub(crate) options: &'a [u8],
    pub(crate) payload: &'a [u8],
}

impl<'a> SegmentRef<'a> {
    /// The options in their order, kinds 0 and 1 left out, as they stand in the input.
    pub fn options(&self) -> PlainOptions<'a>
        ensures octets { octets_alone (options_left result) ≡
            option_octets (segment_of self.now).options }
        ensures place { options_left result ≡
            placed_options (options_place self.now) (segment_of self.now).options }
    {
        PlainOptions::of(self.options)
    }

    /// The octets of the options as they stand in the input, padding included.
    pub fn option_octets(&self) -> &'a [u8]
        ensures octets { result.now ≡ (segment_of self.now).options }
        ensures place { as_ptr result ≡ options_place self.now }
    {
        self.options
    }

    /// The payload, as it stands in the input.
    pub fn payload(&self) -> &'a [u8]
        ensures octets { result.now ≡ (segment_of self.now).payload }
        ensures place { as_ptr result ≡ payload_place self.now }
    {
        self.payload
    }
}

/// The segment that the octets are, where they went between these addresses (RFC 9293, section 3.1). Reserved bits,
/// CWR, ECE, URG, PSH and the urgent pointer are ignored. Answers for all octets, hostile ones too, and takes no memory.
///
/// # Errors
///
/// The first fault in the order of `SegmentFault`.
pub fn parse<'a>(bytes: &'a [u8], addresses: &Addresses) -> Result<SegmentRef<'a>, SegmentFault>
    ensures exact { as_segment result ≡ segment_meaning addresses.now bytes.now }
    // What is written between the same addresses is read again.
    ensures written { (segment : Segment) → CanWrite segment → bytes.now ≡
        segment_text addresses.now segment
        → as_segment result ≡ Ok segment }
    ensures lent { IfOk result (StandsIn bytes.entry) }
{
    read(bytes, addresses)
}

#[tactic(auto, unfolding(crate::specs::Reading::segment_meaning))]
fn read<'a>(bytes: &'a [u8], addresses: &Addresses) -> Result<SegmentRef<'a>, SegmentFault>
    ensures exact { as_segment result ≡ segment_meaning addresses.now bytes.now }
    ensures lent { IfOk result (StandsIn bytes.entry) }
{
    if bytes.len() < FIXED_HEADER_LEN {
        return Err(SegmentFault::Short);
    }
    let header_len = 4 * usize::from(bytes[12] >> 4);
    if header_len < FIXED_HEADER_LEN || bytes.len() < header_len {
        return Err(SegmentFault::DataOffset);
    }
    let options = &bytes[FIXED_HEADER_LEN..header_len];
    if !are_whole(options) {
        return Err(SegmentFault::OptionLength);
    }
    if bytes.len() > 65_535 || covered_sum(addresses, bytes) != 0xffff {
        return Err(SegmentFault::Checksum);
    }
    Ok(SegmentRef {
        head: head_in(bytes),
        options,
        payload: &bytes[header_len..],
    })
}

#[tactic(auto, unfolding(crate::specs::Reading::head_in))]
pub(crate) fn head_in(bytes: &[u8]) -> Head
    requires { 20 ≤ length bytes.now }
    ensures { result ≡ head_in bytes.now }
{
    let control = bytes[13];
    Head {
        source_port: u16_at(bytes, 0),
        destination_port: u16_at(bytes, 2),
        seq: u32_at(bytes, 4),
        ack: u32_at(bytes, 8),
        syn: control & SYN != 0,
        fin: control & FIN != 0,
        rst: control & RST != 0,
        ack_set: control & ACK != 0,
        window: u16_at(bytes, 14),
    }
}

fn u16_at(bytes: &[u8], place: usize) -> u16
    requires { place + 2 ≤ length bytes.now }
    ensures { result ≡ number_at w16 bytes.now place }
{
    u16::from_be_bytes(*bytes[place..].first_chunk().unwrap())
}

fn u32_at(bytes: &[u8], place: usize) -> u32
    requires { place + 4 ≤ length bytes.now }
    ensures { result ≡ number_at w32 bytes.now place }
{
    u32::from_be_bytes(*bytes[place..].first_chunk().unwrap())
}
