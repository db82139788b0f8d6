use crate::capable::CapableKeys;
use crate::dss::{DataNumber, DssMap};
use crate::join::JoinForm;
use key_material::Address;

/// The kind of TCP option that Multipath TCP has.
pub const KIND: u8 = 0x1E;

/// An option of Multipath TCP (RFC 8684, section 3). Flags and fields that a reader ignores are no part of it.
#[derive(Clone, Copy, Debug)]
pub enum MpOption<'a> {
    /// MP_CAPABLE, which opens a connection (section 3.1): whether checksums are required (flag A), whether joins
    /// to the address and port of the segment are refused (flag C), and the keys. Flag B is 0, flag H is 1.
    Capable {
        flag_a: bool,
        flag_c: bool,
        keys: CapableKeys,
    },
    /// MP_JOIN, which adds a subflow (section 3.2).
    Join {
        form: JoinForm,
    },
    /// DSS, the data sequence signal (section 3.3): the Data ACK, the mapping, and whether the mapping ends with
    /// the DATA_FIN (flag F).
    Dss {
        ack: Option<DataNumber>,
        mapping: Option<DssMap>,
        fin: bool,
    },
    /// ADD_ADDR, which announces an address (section 3.4.1), or is the echo of one (flag E), without HMAC.
    AddAddr {
        echo: bool,
        id: u8,
        address: Address,
        port: Option<u16>,
        hmac: Option<u64>,
    },
    /// REMOVE_ADDR, which takes announced addresses back (section 3.4.2): their ids, lent.
    Remove {
        ids: &'a [u8],
    },
    /// MP_PRIO, which makes the subflow a backup or a regular one (section 3.3.8).
    Prio {
        backup: bool,
    },
    /// MP_FAIL, which tells a wrong checksum (section 3.7): the data number that the failed mapping begins with.
    Fail {
        number: u64,
    },
    /// MP_FASTCLOSE, which ends the connection at once (section 3.5): the receiver's key.
    FastClose {
        key: u64,
    },
    /// MP_TCPRST, which says why a subflow is reset (section 3.6): whether the fault may pass (flag T), and the
    /// reason, of which 0 is unspecified, 1 a fault of Multipath TCP, 2 lack of resources, 3 prohibited, 4 too much
    /// outstanding data, 5 unacceptable performance and 6 interference of a middlebox.
    Reset {
        transient: bool,
        reason: u8,
    },
}

/// What the octets of an option say.
#[derive(Clone, Copy)]
pub enum Read<'a> {
    /// An option of this version.
    Known(MpOption<'a>),
    /// An option of another kind, of a subtype or version that there isn't, or an MP_CAPABLE that offers no
    /// HMAC-SHA256 or wants an extension: it is passed over as if it were absent.
    Unknown,
    /// An option of this protocol that has no form of its subtype.
    Malformed,
}
