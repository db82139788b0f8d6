ghost use Rattle.std.specs.Prelude.{◌≡◌, ◌≤◌, length};
ghost use Rattle.mptcp_options.specs.Value.{meaning_of, LendsIds};
ghost use Rattle.mptcp_options.specs.Capable.{keys_if_long, capable_body};
ghost use Rattle.mptcp_options.specs.Meaning.{IsFramed, subtype, option_meaning};

use crate::body::{Body, flag_if, joined};
use crate::fields::{u16_at, u64_at};
use crate::option::{MpOption, Read};
use crate::subtype::MP_CAPABLE;

/// The version of the protocol, in the lower half of the subtype's octet.
const VERSION: u8 = 1;

/// Checksums are required.
const FLAG_A: u8 = 0x80;

/// An extension is wanted.
const FLAG_B: u8 = 0x40;

/// No joins to the address and port of this segment.
const FLAG_C: u8 = 0x20;

/// HMAC-SHA256 is offered.
const FLAG_H: u8 = 0x01;

/// The keys of an MP_CAPABLE, by the segment that it stands on (RFC 8684, section 3.1).
#[derive(Clone, Copy, Debug)]
pub enum CapableKeys {
    /// A SYN: 4 octets, no key.
    NoKey,
    /// A SYN/ACK: 12 octets, the sender's key.
    Sender {
        sender: u64,
    },
    /// The ACK that ends the handshake: 20 octets, the sender's key and the receiver's.
    Both {
        sender: u64,
        receiver: u64,
    },
    /// The first segment with data: 22 octets, both keys and the data-level length, which counts octets; with a
    /// checksum, where checksums are used, 24.
    WithData {
        sender: u64,
        receiver: u64,
        length: u16,
        checksum: Option<u16>,
    },
}

/// The keys, which the number of octets tells, if it is one of the forms.
fn keys_if_long(option: &[u8], checksum: bool) -> Option<CapableKeys>
    ensures { result ≡ keys_if_long option.now checksum }
{
    match (option.len(), checksum) {
        (4, _) => Some(CapableKeys::NoKey),
        (12, _) => Some(CapableKeys::Sender {
            sender: u64_at(option, 4),
        }),
        (20, _) => Some(CapableKeys::Both {
            sender: u64_at(option, 4),
            receiver: u64_at(option, 12),
        }),
        (22, false) => Some(CapableKeys::WithData {
            sender: u64_at(option, 4),
            receiver: u64_at(option, 12),
            length: u16_at(option, 20),
            checksum: None,
        }),
        (24, true) => Some(CapableKeys::WithData {
            sender: u64_at(option, 4),
            receiver: u64_at(option, 12),
            length: u16_at(option, 20),
            checksum: Some(u16_at(option, 22)),
        }),
        _ => None,
    }
}

/// Reads an MP_CAPABLE, whose length tells its form (RFC 8684, section 3.1).
#[tactic(auto, using(crate::proofs::CapableMeaning::capable_forms))]
pub fn read_capable(option: &[u8], checksum: bool) -> Read<'_>
    requires framed { IsFramed option.now }
    requires subtype { subtype option.now ≡ 0 }
    ensures meaning { meaning_of result ≡ option_meaning option.now checksum }
    ensures lent { LendsIds option.entry result }
{
    if option[2] & 0x0F != VERSION {
        return Read::Unknown;
    }
    if option.len() < 4 {
        return Read::Malformed;
    }
    let flags = option[3];
    if flags & FLAG_H == 0 || flags & FLAG_B != 0 {
        return Read::Unknown;
    }
    match keys_if_long(option, checksum) {
        Some(keys) => Read::Known(MpOption::Capable {
            flag_a: flags & FLAG_A != 0,
            flag_c: flags & FLAG_C != 0,
            keys,
        }),
        None => Read::Malformed,
    }
}

/// The octets of an MP_CAPABLE after kind and length; flag H is set (RFC 8684, section 3.1).
pub fn capable_body(flag_a: bool, flag_c: bool, keys: &CapableKeys) -> Body
    ensures { result.items ≡ capable_body flag_a flag_c keys.now }
{
    let head = [
        MP_CAPABLE << 4 | VERSION,
        flag_if(flag_a, FLAG_A) | flag_if(flag_c, FLAG_C) | FLAG_H,
    ];
    match keys {
        CapableKeys::NoKey => joined(&[&head]),
        CapableKeys::Sender { sender } => joined(&[&head, &sender.to_be_bytes()]),
        CapableKeys::Both { sender, receiver } => {
            joined(&[&head, &sender.to_be_bytes(), &receiver.to_be_bytes()])
        }
        CapableKeys::WithData {
            sender,
            receiver,
            length,
            checksum,
        } => {
            let sender = sender.to_be_bytes();
            let receiver = receiver.to_be_bytes();
            let length = length.to_be_bytes();
            match checksum {
                None => joined(&[&head, &sender, &receiver, &length]),
                Some(checksum) => joined(&[
                    &head,
                    &sender,
                    &receiver,
                    &length,
                    &checksum.to_be_bytes(),
                ]),
            }
        }
    }
}
