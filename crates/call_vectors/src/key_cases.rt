//! `key KEY`: the token and the initial data sequence number of a key.
//!
//! `hmac KEY OCTETS`: the HMAC of a message under a key of at most 64 octets, whole and cut after a third.
//!
//! `join KEY_A KEY_B NONCE_A NONCE_B`: the HMACs of B and of A.
//!
//! `address SENDER RECEIVER ID ADDRESS PORT`: the HMAC of an announced address.
//!
//! `drawn SEED STREAM WORD`: a word that stands for a random one.

use case_fields::Case;
use key_material::{Address, add_addr64, hmac_of_pieces, idsn, join_a160, join_b64, token};

pub fn key(case: &mut Case) {
    let key: u64 = case.number();
    case.put_numbers(" ", &[u64::from(token(key)), idsn(key)]);
}

pub fn hmac(case: &mut Case) {
    let key = case.octets();
    let message = case.octets();
    put_hmacs(case, key.as_slice(), message.as_slice());
}

fn put_hmacs(case: &mut Case, key: &[u8], message: &[u8]) {
    if key.len() > 64 {
        return case.refuse();
    }
    case.put_digits(&key_material::hmac(key, message));
    case.put(" ");
    let (prefix, rest) = message.split_at(message.len() / 3);
    case.put_digits(&hmac_of_pieces(key, &[prefix, rest]));
}

pub fn join(case: &mut Case) {
    let (key_a, key_b) = (case.number(), case.number());
    let (nonce_a, nonce_b) = (case.number(), case.number());
    case.tell(&join_b64(key_a, key_b, nonce_a, nonce_b));
    case.put(" ");
    case.put_digits(&join_a160(key_a, key_b, nonce_a, nonce_b));
}

pub fn address(case: &mut Case) {
    let (sender, receiver, id) = (case.number(), case.number(), case.number());
    let address = address_of(case.octets().as_slice());
    let port: u16 = case.number();
    match address {
        Some(address) => case.tell(&add_addr64(sender, receiver, id, &address, port)),
        None => case.refuse(),
    }
}

/// The address of 4 or 16 octets.
pub fn address_of(octets: &[u8]) -> Option<Address> {
    if octets.len() == 4 {
        Some(Address::V4(*octets.first_chunk().unwrap()))
    } else if octets.len() == 16 {
        Some(Address::V6(*octets.first_chunk().unwrap()))
    } else {
        None
    }
}

pub fn drawn(case: &mut Case) {
    let (seed, stream, word) = (case.number(), case.number(), case.number());
    case.tell(&key_material::drawn(seed, stream, word));
}
