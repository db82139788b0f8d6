//! What a control book is asked, in the words of a log.

ghost use Rattle.std.specs.Prelude.{◌≡◌, ◌∷◌, ◌++◌, OnOk, string_bytes};
ghost use Rattle.std.specs.Fmt.{decimal};
ghost use Rattle.std.specs.List.{flat_map, AllByRecursion};
ghost use Rattle.link_script.specs.Writing.{spaced};
ghost use Rattle.control_book.specs.declared.call.ControlCall.TheVariants.{Fell};
ghost use Rattle.key_material.specs.Address.{octets_of};
ghost use Rattle.run_log.specs.Fitting.{IsLong, IsByte, ControlCallFits, AddressFits, HeardFits};
ghost use Rattle.run_log.specs.Calls.{heard_words, control_call_words};

use crate::name::put_event;
use crate::number::{put_flagged, put_one, put_three, put_two};
use control_book::ControlCall;
use fallback_state::Event;
use key_material::Address;
use std::alloc::AllocError;

fn put_fell(text: &mut String, path: u8, event: Event) -> Result<(), AllocError>
    ensures text { OnOk result (string_bytes text.new ≡
        string_bytes text.old ++ spaced (control_call_words (Fell path event))) }
    ensures fits { OnOk result (IsLong path) }
{
    write!(text, "fell {path} ")?;
    put_event(text, event)
}

/// Each octet of an address, behind a space.
fn put_octets(text: &mut String, octets: &[u8]) -> Result<(), AllocError>
    ensures text { OnOk result (string_bytes text.new ≡
        string_bytes text.old ++ flat_map (λ octet. 32 ∷ decimal octet) octets.now) }
    ensures fits { OnOk result (AllByRecursion IsByte octets.now) }
{
    for octet in octets {
        write!(text, " {octet}")?;
    }
    Ok(())
}

/// The octets of an address.
fn put_address(text: &mut String, address: Address) -> Result<(), AllocError>
    ensures text { OnOk result (string_bytes text.new ≡
        string_bytes text.old ++ flat_map (λ octet. 32 ∷ decimal octet) (octets_of address)) }
    ensures fits { OnOk result (AddressFits address) }
{
    match address {
        Address::V4(octets) => put_octets(text, &octets),
        Address::V6(octets) => put_octets(text, &octets),
    }
}

/// An address that the peer announced.
fn put_heard(
    text: &mut String,
    id: u8,
    address: Address,
    port: u16,
    hmac: u64,
) -> Result<(), AllocError>
    ensures text { OnOk result (string_bytes text.new ≡
        string_bytes text.old ++ spaced (heard_words id (octets_of address) port hmac)) }
    ensures fits { OnOk result (HeardFits id address port hmac) }
{
    write!(text, "heard {id}")?;
    put_address(text, address)?;
    write!(text, " {port} {hmac}")?;
    Ok(())
}

pub fn put_control_call(text: &mut String, call: &ControlCall) -> Result<(), AllocError>
    ensures text { OnOk result (string_bytes text.new ≡
        string_bytes text.old ++ spaced (control_call_words call.now)) }
    ensures fits { OnOk result (ControlCallFits call.now) }
{
    match *call {
        ControlCall::Look { path } => put_one(text, "look", u64::from(path)),
        ControlCall::PeerKey { key } => put_one(text, "peerkey", key),
        ControlCall::Keys { own, peer } => put_two(text, "keys", own, peer),
        ControlCall::Fell { path, event } => put_fell(text, path, event),
        ControlCall::JoinBegin { path } => put_one(text, "joinbegin", u64::from(path)),
        ControlCall::JoinHeard { path, token } => put_two(
            text,
            "joinheard",
            u64::from(path),
            u64::from(token),
        ),
        ControlCall::Live { path, backup } => put_flagged(text, "live", u64::from(path), backup),
        ControlCall::Dead { path } => put_one(text, "dead", u64::from(path)),
        ControlCall::Backup { path, on } => put_flagged(text, "backup", u64::from(path), on),
        ControlCall::Rate { path, window, rtt } => put_three(
            text,
            "rate",
            u64::from(path),
            u64::from(window),
            u64::from(rtt),
        ),
        ControlCall::Announce { id } => put_one(text, "announce", u64::from(id)),
        ControlCall::Withdraw { id } => put_one(text, "withdraw", u64::from(id)),
        ControlCall::Heard {
            id,
            address,
            port,
            hmac,
        } => put_heard(text, id, address, port, hmac),
        ControlCall::Echoed { id } => put_one(text, "echoed", u64::from(id)),
        ControlCall::Removed { id } => put_one(text, "removed", u64::from(id)),
        ControlCall::FastClose => text.push_str("fastclose"),
        ControlCall::FastHeard { key } => put_one(text, "fastheard", key),
    }
}
