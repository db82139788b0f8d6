use seq_units::{Mapping, Pos};

/// What a record occupies positions for.
#[derive(Clone, Copy, Debug)]
pub enum RecordKind {
    /// The SYN, at position 0.
    Syn,
    /// Octets of the data stream.
    Data,
    /// The FIN, after the last octet.
    Fin,
}

/// How a record was sent.
#[derive(Clone, Copy)]
pub struct Sending {
    /// How often it was sent, up to 2^32 - 1.
    pub times: u32,
    /// The tick of its first sending; 0 before that.
    pub first: u64,
    /// The record is to be sent: it never was, or an expiry marked it.
    pub unsent: bool,
    /// The record was the first unacknowledged one at an expiry.
    pub first_at_expiry: bool,
}

/// A record, lent as it was pushed, with how it was sent.
#[derive(Clone, Copy)]
pub struct RecordRef<'a> {
    /// Its first position.
    pub pos: Pos,
    /// What it occupies positions for.
    pub kind: RecordKind,
    /// Its octets; the SYN and the FIN have none, and occupy one position.
    pub piece: &'a [u8],
    /// The mapping that it was pushed with; of the SYN and the FIN all fields are 0.
    pub mapping: Mapping,
    /// How it was sent.
    pub sending: Sending,
}

/// What an acknowledgement of a position tells.
#[derive(Clone, Copy, Debug)]
pub enum AckKind {
    /// The acknowledgement is above SND.UNA and at most SND.NXT: so many octets of data are acknowledged for the first time.
    New(u64),
    /// The acknowledgement is SND.UNA.
    Duplicate,
    /// The acknowledgement is below SND.UNA.
    Old,
    /// The acknowledgement is above SND.NXT: what it acknowledges was never sent.
    Future,
}
