//! What the ends of a path note to each other of addresses and priority (RFC 8684, sections 3.3.8 and 3.4).

use key_material::Address;

/// What the peer notes.
#[derive(Clone, Copy)]
pub enum PeerNotice {
    /// The peer announces this address under the id, perhaps with a port, and shows by this HMAC that it is the peer (ADD_ADDR,
    /// section 3.4.1).
    AddAddr {
        id: u8,
        address: Address,
        port: Option<u16>,
        hmac: u64,
    },
    /// The peer echoes the announcement of this id (section 3.4.1).
    AddEcho {
        id: u8,
    },
    /// The peer takes the address of this id back (REMOVE_ADDR, section 3.4.2).
    Removed {
        id: u8,
    },
    /// The path is a backup to it from now on, or isn't (MP_PRIO, section 3.3.8).
    Prio {
        backup: bool,
    },
}

/// What the own side notes.
#[derive(Clone, Copy)]
pub enum OwnNotice {
    /// The side announces its address 10.0.id.2, without a port (ADD_ADDR, section 3.4.1).
    AddAddr {
        id: u8,
    },
    /// The side echoes an announcement, with the id, the address and the port of the copy that it answers (section 3.4.1).
    AddEcho {
        id: u8,
        address: Address,
        port: Option<u16>,
    },
    /// The side takes the address of this id back (REMOVE_ADDR, section 3.4.2).
    Removes {
        id: u8,
    },
    /// The path is a backup to it from now on, or isn't (MP_PRIO, section 3.3.8).
    Prio {
        backup: bool,
    },
}
