//! The calls of the books, by the names that a log gives them and their numbers: `heard ID ADDRESS PORT HMAC` with the 4 or 16 octets of the
//! address in hexadecimal digits, and the others with the numbers as they are declared. Numbers are decimal, a truth value is 0 or 1.
//! The octets of a Write and of a Place are read where the call is made.

use crate::key_cases::address_of;
use case_fields::Case;
use control_book::ControlCall;
use fallback_state::Event;
use key_material::Address;
use reassembly_book::ReassemblyCall;
use send_book::SendCall;

/// A call of the send book, but a Write.
pub fn send_call(case: &mut Case, name: &str) -> SendCall {
    match name {
        "close" => SendCall::Close,
        "grant" => SendCall::Grant {
            path: case.number(),
            max: case.number(),
            standby: case.truth(),
        },
        "ack" => SendCall::AckIn {
            next: case.number(),
            window: case.number(),
        },
        "identity" => SendCall::GoIdentity,
        "return" => SendCall::Return {
            path: case.number(),
        },
        "infinite" => SendCall::GoInfinite {
            path: case.number(),
        },
        "abort" => SendCall::Abort,
        _ => {
            case.refuse();
            SendCall::Close
        }
    }
}

/// A call of the reassembly book, but a Place.
pub fn reassembly_call(case: &mut Case, name: &str) -> ReassemblyCall {
    match name {
        "fin" => ReassemblyCall::Fin { at: case.number() },
        "read" => ReassemblyCall::Read { max: case.number() },
        "ackout" => ReassemblyCall::AckOut,
        "abort" => ReassemblyCall::Abort {
            by_peer: case.truth(),
        },
        _ => {
            case.refuse();
            ReassemblyCall::AckOut
        }
    }
}

/// Events that are a name alone.
const EVENTS: [(&str, Event); 9] = [
    ("plainhandshake", Event::PlainHandshake),
    ("plaindata", Event::PlainData),
    ("plainack", Event::PlainAck),
    ("keysheard", Event::KeysHeard),
    ("mappingheard", Event::MappingHeard),
    ("ackheard", Event::AckHeard),
    ("infiniteheard", Event::InfiniteHeard),
    ("checkfailed", Event::CheckFailed),
    ("stop", Event::Stop),
];

fn event_of(case: &mut Case) -> Event {
    match case.word() {
        "failheard" => Event::FailHeard {
            contiguous: case.truth(),
        },
        name => case.named(name, &EVENTS, Event::Stop),
    }
}

fn heard(case: &mut Case) -> ControlCall {
    let id = case.number();
    let octets = case.octets();
    let address = match address_of(octets.as_slice()) {
        Some(address) => address,
        None => {
            case.refuse();
            Address::V4([0; 4])
        }
    };
    ControlCall::Heard {
        id,
        address,
        port: case.number(),
        hmac: case.number(),
    }
}

/// A call that speaks of a path, the first of its fields.
fn path_call(case: &mut Case, name: &str) -> ControlCall {
    let path = case.number();
    match name {
        "look" => ControlCall::Look { path },
        "fell" => ControlCall::Fell {
            path,
            event: event_of(case),
        },
        "joinbegin" => ControlCall::JoinBegin { path },
        "joinheard" => ControlCall::JoinHeard {
            path,
            token: case.number(),
        },
        "dead" => ControlCall::Dead { path },
        "rate" => ControlCall::Rate {
            path,
            window: case.number(),
            rtt: case.number(),
        },
        "live" => ControlCall::Live {
            path,
            backup: case.truth(),
        },
        "backup" => ControlCall::Backup {
            path,
            on: case.truth(),
        },
        _ => {
            case.refuse();
            ControlCall::Look { path }
        }
    }
}

/// A call of the control book.
pub fn control_call(case: &mut Case, name: &str) -> ControlCall {
    match name {
        "peerkey" => ControlCall::PeerKey { key: case.number() },
        "keys" => ControlCall::Keys {
            own: case.number(),
            peer: case.number(),
        },
        "heard" => heard(case),
        "fastclose" => ControlCall::FastClose,
        "fastheard" => ControlCall::FastHeard { key: case.number() },
        "announce" => ControlCall::Announce { id: case.number() },
        "withdraw" => ControlCall::Withdraw { id: case.number() },
        "echoed" => ControlCall::Echoed { id: case.number() },
        "removed" => ControlCall::Removed { id: case.number() },
        _ => path_call(case, name),
    }
}
