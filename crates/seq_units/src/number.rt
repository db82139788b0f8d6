ghost use Rattle.std.specs.Prelude.{◌≡◌, ◌^◌};
ghost use Rattle.seq_units.specs.Number.{number_of};

/// A number of 32 bits as a segment carries it: a subflow sequence or acknowledgement number, or the low half of
/// a data number.
#[derive(Clone, Copy)]
pub struct Seq32(pub u32);

/// A number of 64 bits as an option carries it: a data sequence number or a Data ACK (RFC 8684, section 3.3).
#[derive(Clone, Copy)]
pub struct Seq64(pub u64);

/// A position of a stream, counted from the position of its base: of a subflow from the initial sequence number,
/// which the SYN has, so that its first octet is at 1; of the data stream from the initial data sequence number,
/// so that the octet at place k is at k + 1.
pub type Pos = u64;

/// The number of the position `pos`, counted from `base`, modulo 2^32 (RFC 9293, section 3.4).
pub fn number32(base: Seq32, pos: Pos) -> Seq32
    ensures { result.0 ≡ number_of (2 ^ 32) base.0 pos }
{
    let low = (pos & u64::from(u32::MAX)) as u32;
    Seq32(base.0.wrapping_add(low))
}

/// The number of the position `pos`, counted from `base`, modulo 2^64 (RFC 8684, section 3.3.1).
pub fn number64(base: Seq64, pos: Pos) -> Seq64
    ensures { result.0 ≡ number_of (2 ^ 64) base.0 pos }
{
    Seq64(base.0.wrapping_add(pos))
}
