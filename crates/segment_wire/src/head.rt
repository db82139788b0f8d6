//! The fields of a segment's header, and the addresses that its checksum covers.

/// How many octets of header stand before the options.
pub const FIXED_HEADER_LEN: usize = 20;

// The control bits that are read and written (RFC 9293, section 3.1).

/// No more octets follow from this side.
pub const FIN: u8 = 0x01;
/// Synchronizes sequence numbers: the first segment of a side.
pub const SYN: u8 = 0x02;
/// Ends the connection at once.
pub const RST: u8 = 0x04;
/// The acknowledgement number counts.
pub const ACK: u8 = 0x10;

/// The IPv4 addresses of a segment, which its checksum covers (RFC 9293, section 3.1).
#[derive(Clone, Copy)]
pub struct Addresses {
    pub source: [u8; 4],
    pub destination: [u8; 4],
}

/// The fields of the fixed header that this stack reads and writes (RFC 9293, section 3.1).
#[derive(Clone, Copy, Debug, PartialEq, Eq)]
pub struct Head {
    pub source_port: u16,
    pub destination_port: u16,
    /// The number of the first octet of the payload, or of the SYN.
    pub seq: u32,
    /// The number of the next octet that the sender of this segment expects; read only where `ack_set`.
    pub ack: u32,
    pub syn: bool,
    pub fin: bool,
    pub rst: bool,
    pub ack_set: bool,
    /// The window as it stands in the field, not scaled (RFC 7323, section 2.2).
    pub window: u16,
}
