//! Reading a segment by its lengths alone.

ghost use Rattle.std.specs.Prelude.{◌≡◌, ◌≤◌, length, IfOk};
ghost use Rattle.segment_wire.specs.Reading.{as_segment, StandsIn};
ghost use Rattle.segment_wire.specs.Parts.{parts_meaning};

use crate::head::FIXED_HEADER_LEN;
use crate::reading::{SegmentFault, SegmentRef, head_in};

/// The fields, the options and the payload of a segment, whatever its checksum is and whether its options are whole
/// (RFC 9293, section 3.1). Answers for all octets, and takes no memory.
///
/// # Errors
///
/// Where there are fewer than 20 octets, or the data offset is below 5 or past the end.
#[tactic(auto, unfolding(crate::specs::Parts::parts_meaning))]
pub fn parts_of(bytes: &[u8]) -> Result<SegmentRef<'_>, SegmentFault>
    ensures exact { as_segment result ≡ parts_meaning bytes.now }
    ensures lent { IfOk result (StandsIn bytes.entry) }
{
    if bytes.len() < FIXED_HEADER_LEN {
        return Err(SegmentFault::Short);
    }
    let header_len = 4 * usize::from(bytes[12] >> 4);
    if header_len < FIXED_HEADER_LEN || bytes.len() < header_len {
        return Err(SegmentFault::DataOffset);
    }
    Ok(SegmentRef {
        head: head_in(bytes),
        options: &bytes[FIXED_HEADER_LEN..header_len],
        payload: &bytes[header_len..],
    })
}
