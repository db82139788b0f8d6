//! The rules on keys and HMACs.

ghost use Rattle.std.specs.Prelude.{◌≡◌};
ghost use Rattle.mptcp_options.specs.Value.{value_of};
ghost use Rattle.judge_rules.specs.Keys.{announced_hmac, differ64, differ160, first_other, judged_address, judged_announced, judged_fast_close, judged_join, judged_keys, judged_told, other_key, told_keys};

use crate::finding::{Finding, Verdict};
use key_material::{Address, add_addr64, join_a160, join_b64};
use mptcp_options::{CapableKeys, JoinForm, MpOption};
use sides::Side;

// The keys that an MP_CAPABLE tells: its sender's, and the receiver's where it has two.
#[derive(Clone, Copy)]
struct ToldKeys {
    sender: u64,
    receiver: Option<u64>,
}

// In the first subflow side A tells two keys and side B one. Others are passed over.
fn told_keys(side: Side, keys: &CapableKeys) -> Option<ToldKeys>
    ensures { result ≡ told_keys side keys.now }
{
    match (side, *keys) {
        (Side::A, CapableKeys::Both { sender, receiver })
        | (
            Side::A,
            CapableKeys::WithData {
                sender,
                receiver,
                ..
            },
        ) => Some(ToldKeys {
            sender,
            receiver: Some(receiver),
        }),
        (Side::B, CapableKeys::Sender { sender }) => Some(ToldKeys {
            sender,
            receiver: None,
        }),
        _ => None,
    }
}

// Two numbers that are to be one.
fn differ64(expected: u64, was: u64) -> Verdict
    ensures { result ≡ differ64 expected was }
{
    if expected == was {
        Verdict::Kept
    } else {
        Verdict::Broke {
            finding: Finding::Number64 { expected, was },
        }
    }
}

// Two HMACs that are to be one.
fn differ160(expected: [u8; 20], was: [u8; 20]) -> Verdict
    ensures { result ≡ differ160 expected was }
{
    if expected == was {
        Verdict::Kept
    } else {
        Verdict::Broke {
            finding: Finding::Hmac160 { expected, was },
        }
    }
}

// A key that is told, beside the known one.
fn other_key(known: Option<u64>, told: Option<u64>) -> Verdict
    ensures { result ≡ other_key known told }
{
    match (known, told) {
        (Some(known), Some(told)) => differ64(known, told),
        _ => Verdict::Kept,
    }
}

// The first of two that breaks the rule.
fn first_other(first: Verdict, second: Verdict) -> Verdict
    ensures { result ≡ first_other first second }
{
    match first {
        Verdict::Broke { finding } => Verdict::Broke { finding },
        _ => second,
    }
}

/// The rule `keys` on an MP_CAPABLE of a connection's first subflow: its keys are the known ones, and the receiver's is tried first
/// (RFC 8684, section 3.1).
pub fn judge_keys(side: Side, mine: Option<u64>, peers: Option<u64>, keys: &CapableKeys) -> Verdict
    ensures { result ≡ judged_keys side mine peers keys.now }
{
    match told_keys(side, keys) {
        Some(told) => first_other(
            other_key(peers, told.receiver),
            other_key(mine, Some(told.sender)),
        ),
        None => Verdict::PassedOver,
    }
}

/// The rule `join-hmac` on an MP_JOIN: the HMAC of a SYN/ACK, whose nonce it has itself, and that of a third segment are those of the
/// keys and of the nonces of SYN and SYN/ACK (RFC 8684, section 3.2).
pub fn judge_join(
    is_opener: bool,
    mine: u64,
    peers: u64,
    nonce: u32,
    answer: u32,
    form: &JoinForm,
) -> Verdict
    ensures { result ≡ judged_join is_opener mine peers nonce answer form.now }
{
    match (*form, is_opener) {
        (
            JoinForm::Answer {
                hmac,
                nonce: own,
                ..
            },
            false,
        ) => differ64(join_b64(peers, mine, nonce, own), hmac),
        (JoinForm::Third { hmac }, true) => {
            differ160(join_a160(mine, peers, nonce, answer), hmac)
        }
        _ => Verdict::PassedOver,
    }
}

/// The rule `address-hmac` on an ADD_ADDR that is no echo, where a port that isn't told is 0 (RFC 8684, section 3.4.1).
pub fn judge_address(mine: u64, peers: u64, option: &MpOption<'_>) -> Verdict
    ensures { result ≡ judged_address mine peers (value_of option.now) }
{
    match *option {
        MpOption::AddAddr {
            echo,
            id,
            address,
            port,
            hmac,
        } => judge_announced(mine, peers, echo, id, &address, port, hmac),
        _ => Verdict::PassedOver,
    }
}

// Judges the fields of an ADD_ADDR.
fn judge_announced(
    mine: u64,
    peers: u64,
    echo: bool,
    id: u8,
    address: &Address,
    port: Option<u16>,
    hmac: Option<u64>,
) -> Verdict
    ensures { result ≡ judged_announced mine peers echo id address.now port hmac }
{
    match (echo, hmac) {
        (false, Some(hmac)) => differ64(announced_hmac(mine, peers, id, address, port), hmac),
        _ => Verdict::PassedOver,
    }
}

// The HMAC of an announced address.
#[tactic(auto, unfolding(crate::specs::Keys::announced_hmac))]
fn announced_hmac(mine: u64, peers: u64, id: u8, address: &Address, port: Option<u16>) -> u64
    ensures { result ≡ announced_hmac mine peers id address.now port }
{
    add_addr64(mine, peers, id, address, port.unwrap_or(0))
}

/// The rule `fast-close-key` on an MP_FASTCLOSE: its key is the receiver's (RFC 8684, section 3.5).
pub fn judge_fast_close(peers: u64, option: &MpOption<'_>) -> Verdict
    ensures { result ≡ judged_fast_close peers (value_of option.now) }
{
    match option {
        MpOption::FastClose { key } => differ64(peers, *key),
        _ => Verdict::PassedOver,
    }
}
