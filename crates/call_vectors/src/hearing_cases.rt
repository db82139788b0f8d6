//! `capable CHECKSUMS OWN OCTETS`: what the server takes from an option at a SYN, the client at a SYN/ACK, and the server
//! with the key `OWN` at what follows, with `; ` between them. `CHECKSUMS` says whether a side requires them by itself.
//!
//! `joined KEY_A KEY_B NONCE_A NONCE_B OCTETS`: the same of a join, whose keys and nonces these are.

use case_fields::Case;
use mptcp_options::{MpOption, Read, read};
use std::fmt::{Debug, Display};

/// The option that these octets say, where checksums are used.
fn heard(octets: &[u8]) -> Option<MpOption<'_>> {
    match read(octets, true) {
        Read::Known(option) => Some(option),
        _ => None,
    }
}

/// Puts what is taken, or the fault.
fn put_taken<T: Debug, E: Display>(case: &mut Case, taken: &Result<T, E>) {
    match taken {
        Ok(value) => case.tell(value),
        Err(fault) => case.say(fault),
    }
}

pub fn capable(case: &mut Case) {
    let checksums = case.truth();
    let own: u64 = case.number();
    let octets = case.octets();
    put_capable(case, checksums, own, heard(octets.as_slice()).as_ref());
}

fn put_capable(case: &mut Case, checksums: bool, own: u64, option: Option<&MpOption<'_>>) {
    put_taken(case, &capable_handshake::server_syn(checksums, option));
    case.put("; ");
    match capable_handshake::client_answer(checksums, option) {
        Ok((key, used)) => {
            case.say(&key);
            case.say_behind(" ", &used);
        }
        Err(fault) => case.say(&fault),
    }
    case.put("; ");
    put_taken(case, &capable_handshake::server_keys(own, option));
}

pub fn joined(case: &mut Case) {
    let keys = (case.number(), case.number());
    let nonces = (case.number(), case.number());
    let octets = case.octets();
    put_joined(case, keys, nonces, heard(octets.as_slice()).as_ref());
}

fn put_joined(
    case: &mut Case,
    (key_a, key_b): (u64, u64),
    (nonce_a, nonce_b): (u32, u32),
    option: Option<&MpOption<'_>>,
) {
    put_taken(case, &join_handshake::server_syn(option));
    case.put("; ");
    put_taken(
        case,
        &join_handshake::client_answer(key_a, key_b, nonce_a, option),
    );
    case.put("; ");
    match join_handshake::server_third(key_a, key_b, nonce_a, nonce_b, option) {
        Ok(()) => case.put("right"),
        Err(fault) => case.say(&fault),
    }
}
