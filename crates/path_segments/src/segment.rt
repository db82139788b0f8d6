ghost use Rattle.std.specs.Prelude.{◌≡◌, ⊤};

use key_material::Address;
use mptcp_options::{CapableKeys, JoinForm};
use std::alloc::AllocError;

/// A segment of a path by positions and places.
///
/// `N` is what a number of the header says: a position where it is written, and perhaps none where it is heard. `O` are
/// the options of Multipath TCP, in their order, and `P` the payload: both are lent in code, and lists in definitions.
#[derive(Copy)]
pub struct PathSegment<N, O, P> {
    /// The position of the first octet of the payload, or of the SYN, or of the FIN where there is no payload.
    pub position: N,
    /// The position of the next octet that the sender expects; none where the flag ACK isn't set.
    pub acknowledged: Option<N>,
    pub syn: bool,
    pub fin: bool,
    pub rst: bool,
    /// The window in octets, at most 2^20.
    pub window: u32,
    /// The maximum segment size in octets, which a SYN has, with a window scale of 5 behind it.
    pub mss: Option<u16>,
    pub options: O,
    pub payload: P,
}

impl<N: Copy, O: Copy, P: Copy> Clone for PathSegment<N, O, P> {
    ghost is_clone = { λ value copy. copy ≡ value };

    ghost is_infallible = { λ _. ⊤ };

    fn clone(&self) -> Result<Self, AllocError> {
        Ok(*self)
    }
}

/// An option that is to be written. A REMOVE_ADDR takes one address back.
pub type SaidOption = PathOption<u64, [u8; 1]>;

/// A segment that is to be written.
pub type SaidSegment<'a> = PathSegment<u64, &'a [SaidOption], &'a [u8]>;

/// An option of a segment by places and positions (RFC 8684, section 3). `I` are the ids of a REMOVE_ADDR.
#[derive(Copy, Debug)]
pub enum PathOption<N, I> {
    /// MP_CAPABLE, as it stands in the octets (section 3.1).
    Capable {
        flag_a: bool,
        flag_c: bool,
        keys: CapableKeys,
    },
    /// MP_JOIN, as it stands in the octets (section 3.2).
    Join {
        form: JoinForm,
    },
    /// DSS (section 3.3): how many bytes of the peer's stream have come in order, the DATA_FIN among them, and the
    /// mapping.
    Dss {
        next: Option<N>,
        mapping: Option<PathMapping<N>>,
    },
    /// ADD_ADDR, or its echo, as it stands in the octets (section 3.4.1).
    AddAddr {
        echo: bool,
        id: u8,
        address: Address,
        port: Option<u16>,
        hmac: Option<u64>,
    },
    /// REMOVE_ADDR (section 3.4.2).
    Remove {
        ids: I,
    },
    /// MP_PRIO (section 3.3.8).
    Prio {
        backup: bool,
    },
    /// MP_FAIL (section 3.7): the place in the peer's stream that the failed mapping begins at.
    Fail {
        place: N,
    },
    /// MP_FASTCLOSE (section 3.5).
    FastClose {
        key: u64,
    },
    /// MP_TCPRST (section 3.6).
    Reset {
        transient: bool,
        reason: u8,
    },
}

impl<N: Copy, I: Copy> Clone for PathOption<N, I> {
    ghost is_clone = { λ value copy. copy ≡ value };

    ghost is_infallible = { λ _. ⊤ };

    fn clone(&self) -> Result<Self, AllocError> {
        Ok(*self)
    }
}

/// What stands in a place of a list that isn't used.
impl<N, I> Default for PathOption<N, I> {
    ghost is_default = { λ _. ⊤ };

    fn default() -> Self {
        PathOption::Prio { backup: false }
    }
}

/// The mapping of a DSS by places of the sender's stream and positions of its subflow (RFC 8684, section 3.3.1).
#[derive(Copy, Debug)]
pub enum PathMapping<N> {
    /// From this position on, `length` places from this place on; with `fin` the last of them is the DATA_FIN's.
    Bytes {
        place: N,
        position: N,
        length: u16,
        fin: bool,
        checksum: Option<u16>,
    },
    /// The DATA_FIN without payload, at this place.
    End {
        place: N,
        checksum: Option<u16>,
    },
    /// The infinite mapping: from this position on, all places from this place on (section 3.7).
    Infinite {
        place: N,
        position: N,
    },
}

impl<N: Copy> Clone for PathMapping<N> {
    ghost is_clone = { λ value copy. copy ≡ value };

    ghost is_infallible = { λ _. ⊤ };

    fn clone(&self) -> Result<Self, AllocError> {
        Ok(*self)
    }
}
