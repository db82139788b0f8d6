ghost use Rattle.std.specs.Prelude.{◌≡◌, IfOk};

use fallback_state::{Event, Mode, Verdict};
use key_material::Address;
use linked_increase::Rows;
use std::alloc::AllocError;

/// What the control book of a side can be asked. A path is its number, below 16.
#[derive(Clone, Copy)]
pub enum ControlCall {
    /// What the path's end has to know at the start of a turn.
    Look {
        path: u8,
    },
    /// The peer's key came.
    PeerKey {
        key: u64,
    },
    /// Both keys came, the side's own one second.
    Keys {
        own: u64,
        peer: u64,
    },
    /// Something happened on the path that may change how the side stands.
    Fell {
        path: u8,
        event: Event,
    },
    /// The path is to be joined.
    JoinBegin {
        path: u8,
    },
    /// A join of the connection with this token came on the path.
    JoinHeard {
        path: u8,
        token: u32,
    },
    /// The path lives from now on, as a backup or not.
    Live {
        path: u8,
        backup: bool,
    },
    /// The path neither lives nor opens from now on.
    Dead {
        path: u8,
    },
    /// The path is a backup from now on, or it is not.
    Backup {
        path: u8,
        on: bool,
    },
    /// The path's congestion window, 1 to 1,048,576 octets, and round-trip time, 1 to 60,000 ticks.
    Rate {
        path: u8,
        window: u32,
        rtt: u32,
    },
    /// The address 10.0.ID.2 is to be announced.
    Announce {
        id: u8,
    },
    /// The address of that id is to be taken back.
    Withdraw {
        id: u8,
    },
    /// The peer announced an address, with this HMAC; the port is 0 where it gave none.
    Heard {
        id: u8,
        address: Address,
        port: u16,
        hmac: u64,
    },
    /// The peer echoed an announcement.
    Echoed {
        id: u8,
    },
    /// The peer took an address back.
    Removed {
        id: u8,
    },
    /// The side ends the connection at once.
    FastClose,
    /// The peer ends the connection at once, and shows this key.
    FastHeard {
        key: u64,
    },
}

/// What a path's end has to tell the peer, or to do.
#[derive(Clone, Copy)]
pub enum Notice {
    Nothing,
    /// To announce the address of this id (ADD_ADDR).
    Announce(u8),
    /// To take the address of this id back (REMOVE_ADDR).
    Withdraw(u8),
    /// To tell the fast close, with the peer's key (MP_FASTCLOSE).
    Carrier { key: u64 },
    /// To reset the path.
    Reset,
}

/// What the control book answers.
#[derive(Drop)]
pub enum ControlReply {
    /// To a look: how the side stands, whether the path is granted nothing as another one is no backup, whether no other
    /// path lives or opens, and the path's notice.
    Standing {
        mode: Mode,
        standby: bool,
        sole: bool,
        notice: Notice,
    },
    /// The call is done.
    Noted,
    /// The second key isn't the side's own one.
    KeysDiffer {
        own: u64,
    },
    /// What the side does about an event.
    Verdict(Verdict),
    /// The join may go on, by the own key and the peer's, which is 0 while there is none.
    Begin {
        own: u64,
        peer: u64,
    },
    /// The join has to wait: the side isn't sure yet.
    NotYet,
    /// The path won't be joined: the side is in this mode, or a check of it failed.
    Never(Mode),
    /// The token isn't the side's, which is this.
    UnknownToken {
        own: u32,
    },
    /// The side isn't confirmed yet.
    NotConfirmed,
    /// No join is answered in this mode.
    Fallen(Mode),
    /// The rows of all living paths and of the asked one, in order of path.
    Rows(Rows),
    /// The address is kept now, and is to be echoed.
    Echo,
    /// The HMAC of the address is wrong.
    BadHmac,
    /// The address is kept already, and is to be echoed again.
    Known,
    /// The connection ends at once.
    Stopped,
    /// The key isn't the side's own one, which is this.
    OtherKey {
        own: u64,
    },
}

impl ControlReply {
    /// An equal reply. It takes memory only for rows.
    pub fn copy(&self) -> Result<Self, AllocError>
        ensures { IfOk result (λ copy. copy ≡ self.now) }
    {
        Ok(match *self {
            ControlReply::Standing {
                mode,
                standby,
                sole,
                notice,
            } => ControlReply::Standing {
                mode,
                standby,
                sole,
                notice,
            },
            ControlReply::Noted => ControlReply::Noted,
            ControlReply::KeysDiffer { own } => ControlReply::KeysDiffer { own },
            ControlReply::Verdict(verdict) => ControlReply::Verdict(verdict),
            ControlReply::Begin { own, peer } => ControlReply::Begin { own, peer },
            ControlReply::NotYet => ControlReply::NotYet,
            ControlReply::Never(mode) => ControlReply::Never(mode),
            ControlReply::UnknownToken { own } => ControlReply::UnknownToken { own },
            ControlReply::NotConfirmed => ControlReply::NotConfirmed,
            ControlReply::Fallen(mode) => ControlReply::Fallen(mode),
            ControlReply::Rows(ref rows) => ControlReply::Rows(rows.copy()?),
            ControlReply::Echo => ControlReply::Echo,
            ControlReply::BadHmac => ControlReply::BadHmac,
            ControlReply::Known => ControlReply::Known,
            ControlReply::Stopped => ControlReply::Stopped,
            ControlReply::OtherKey { own } => ControlReply::OtherKey { own },
        })
    }
}
