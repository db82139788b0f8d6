/// A data sequence mapping: which octets of the data stream the octets of a subflow are (RFC 8684, section 3.3.1).
#[derive(Clone, Copy)]
pub struct Mapping {
    /// The data sequence number of the first octet.
    pub number: u64,
    /// The subflow sequence number of the first octet, relative to the initial one: its position.
    pub relative: u32,
    /// The data-level length: how many octets are mapped, where a DATA_FIN counts as one. 0 is the infinite mapping.
    pub length: u16,
    /// The checksum over the mapping and its octets, where checksums are used, and else 0.
    pub checksum: u16,
}
