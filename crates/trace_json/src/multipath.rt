//! The options of Multipath TCP as objects.

ghost use Rattle.std.specs.Prelude.{◌≡◌, map, IfOk, OnOk, string_bytes};
ghost use Rattle.serde_json.specs.View.{members_view, view};
ghost use Rattle.mptcp_options.specs.Value.{value_of};
ghost use Rattle.trace_json.specs.Multipath.{ack_data, address_text, announced_data, capable_data, checksum_of, dss_data, fail_data, fast_close_data, ids_data, join_answer, join_data, join_syn, join_third, length_of, map_data, mapping_data, number_of, prio_data, receiver_of, removed_data, reset_data, sender_of, v4_text, value_data, with_dss};
ghost use Rattle.trace_json.specs.Fields.{digits_or_null};

use crate::fields::{Member, object, put, put_members};
use key_material::Address;
use mptcp_options::{CapableKeys, DataNumber, DssMap, JoinForm, MpOption};
use serde_json::{Map, Value, json};
use std::alloc::{AllocError, Global};

fn sender_of(keys: &CapableKeys) -> Option<u64>
    ensures { result ≡ sender_of keys.now }
{
    match *keys {
        CapableKeys::NoKey => None,
        CapableKeys::Sender { sender }
        | CapableKeys::Both { sender, .. }
        | CapableKeys::WithData { sender, .. } => Some(sender),
    }
}

fn receiver_of(keys: &CapableKeys) -> Option<u64>
    ensures { result ≡ receiver_of keys.now }
{
    match *keys {
        CapableKeys::NoKey | CapableKeys::Sender { .. } => None,
        CapableKeys::Both { receiver, .. } | CapableKeys::WithData { receiver, .. } => {
            Some(receiver)
        }
    }
}

/// The octets of data that an MP_CAPABLE maps.
fn length_of(keys: &CapableKeys) -> Option<u64>
    ensures { result ≡ length_of keys.now }
{
    match *keys {
        CapableKeys::WithData { length, .. } => Some(u64::from(length)),
        _ => None,
    }
}

fn checksum_of(keys: &CapableKeys) -> Option<u64>
    ensures { result ≡ checksum_of keys.now }
{
    match *keys {
        CapableKeys::WithData {
            checksum: Some(checksum),
            ..
        } => Some(u64::from(checksum)),
        _ => None,
    }
}

fn capable_value(alloc: Global, required: bool, keys: &CapableKeys) -> Result<Value, AllocError>
    ensures { IfOk result (λ value. view value ≡ capable_data required keys.now) }
{
    let members = [
        Member::DigitsOrNull("checksum", checksum_of(keys)),
        Member::Flag("checksum_required", required),
        Member::NumberOrNull("length", length_of(keys)),
        Member::Text("name", "MP_CAPABLE"),
        Member::DigitsOrNull("receiver", receiver_of(keys)),
        Member::DigitsOrNull("sender", sender_of(keys)),
    ];
    object(alloc, &members)
}

/// An MP_JOIN of a SYN.
fn join_syn(
    alloc: Global,
    backup: bool,
    id: u8,
    token: u32,
    nonce: u32,
) -> Result<Value, AllocError>
    ensures { IfOk result (λ value. view value ≡ join_syn backup id token nonce) }
{
    let members = [
        Member::Flag("backup", backup),
        Member::Number("id", u64::from(id)),
        Member::Text("name", "MP_JOIN"),
        Member::Digits("nonce", u64::from(nonce)),
        Member::Digits("token", u64::from(token)),
    ];
    object(alloc, &members)
}

/// That of a SYN/ACK.
fn join_answer(
    alloc: Global,
    backup: bool,
    id: u8,
    hmac: u64,
    nonce: u32,
) -> Result<Value, AllocError>
    ensures { IfOk result (λ value. view value ≡ join_answer backup id hmac nonce) }
{
    let members = [
        Member::Flag("backup", backup),
        Member::Digits("hmac", hmac),
        Member::Number("id", u64::from(id)),
        Member::Text("name", "MP_JOIN"),
        Member::Digits("nonce", u64::from(nonce)),
    ];
    object(alloc, &members)
}

/// That of the third segment of a join.
fn join_third(alloc: Global, hmac: &[u8; 20]) -> Result<Value, AllocError>
    ensures { IfOk result (λ value. view value ≡ join_third hmac.now) }
{
    let octets = hex::encode(alloc, hmac)?;
    let hmac = format!(in alloc; "0x{octets}")?;
    json!(in alloc; {"hmac": hmac, "name": "MP_JOIN"})
}

fn join_value(alloc: Global, form: &JoinForm) -> Result<Value, AllocError>
    ensures { IfOk result (λ value. view value ≡ join_data form.now) }
{
    match form {
        JoinForm::Syn {
            backup,
            id,
            token,
            nonce,
        } => join_syn(alloc, *backup, *id, *token, *nonce),
        JoinForm::Answer {
            backup,
            id,
            hmac,
            nonce,
        } => join_answer(alloc, *backup, *id, *hmac, *nonce),
        JoinForm::Third { hmac } => join_third(alloc, hmac),
    }
}

/// A data number, as wide as it stands.
fn number_of(number: DataNumber) -> u64
    ensures { result ≡ number_of number }
{
    match number {
        DataNumber::Whole(number) => number,
        DataNumber::Low(low) => u64::from(low),
    }
}

fn map_value(alloc: Global, map: &DssMap) -> Result<Value, AllocError>
    ensures { IfOk result (λ value. view value ≡ map_data map.now) }
{
    let members = [
        Member::DigitsOrNull("checksum", map.checksum.map(u64::from)),
        Member::Number("length", u64::from(map.length)),
        Member::Digits("number", number_of(map.number)),
        Member::Number("relative", u64::from(map.relative)),
    ];
    object(alloc, &members)
}

fn mapping_value(alloc: Global, mapping: Option<DssMap>) -> Result<Value, AllocError>
    ensures { IfOk result (λ value. view value ≡ mapping_data mapping) }
{
    match mapping {
        None => Ok(Value::Null),
        Some(map) => map_value(alloc, &map),
    }
}

fn ack_of(ack: Option<DataNumber>) -> Option<u64>
    ensures { digits_or_null result ≡ ack_data ack }
{
    match ack {
        None => None,
        Some(number) => Some(number_of(number)),
    }
}

fn put_dss(
    alloc: Global,
    object: &mut Map<String, Value>,
    ack: Option<DataNumber>,
    mapping: Option<DssMap>,
    fin: bool,
) -> Result<(), AllocError>
    ensures { OnOk result (members_view object.new.entries ≡
        with_dss ack mapping fin (members_view object.old.entries)) }
{
    let mapping = mapping_value(alloc, mapping)?;
    serde_json::put(object, alloc, "mapping", mapping)?;
    let members = [
        Member::DigitsOrNull("ack", ack_of(ack)),
        Member::Flag("fin", fin),
        Member::Text("name", "DSS"),
    ];
    put_members(alloc, object, &members)
}

fn dss_value(
    alloc: Global,
    ack: Option<DataNumber>,
    mapping: Option<DssMap>,
    fin: bool,
) -> Result<Value, AllocError>
    ensures { IfOk result (λ value. view value ≡ dss_data ack mapping fin) }
{
    let mut object = Map::new(alloc);
    put_dss(alloc, &mut object, ack, mapping, fin)?;
    Ok(Value::Object(object))
}

fn v4_text(alloc: Global, octets: [u8; 4]) -> Result<String, AllocError>
    ensures { IfOk result (λ text. string_bytes text ≡ v4_text octets) }
{
    let [a, b, c, d] = octets;
    format!(in alloc; "{a}.{b}.{c}.{d}")
}

/// An address of four octets in decimal, one of sixteen in hexadecimal.
fn address_text(alloc: Global, address: &Address) -> Result<String, AllocError>
    ensures { IfOk result (λ text. string_bytes text ≡ address_text address.now) }
{
    match address {
        Address::V4(octets) => v4_text(alloc, *octets),
        Address::V6(octets) => hex::encode(alloc, octets),
    }
}

fn announced_value(
    alloc: Global,
    echo: bool,
    id: u8,
    address: &Address,
    port: Option<u16>,
    hmac: Option<u64>,
) -> Result<Value, AllocError>
    ensures { IfOk result (λ value. view value ≡ announced_data echo id address.now port hmac) }
{
    let text = address_text(alloc, address)?;
    let mut object = Map::new(alloc);
    serde_json::put(&mut object, alloc, "address", Value::String(text))?;
    let members = [
        Member::Flag("echo", echo),
        Member::DigitsOrNull("hmac", hmac),
        Member::Number("id", u64::from(id)),
        Member::Text("name", "ADD_ADDR"),
        Member::NumberOrNull("port", port.map(u64::from)),
    ];
    put_members(alloc, &mut object, &members)?;
    Ok(Value::Object(object))
}

fn ids_list(alloc: Global, ids: &[u8]) -> Result<Vec<Value>, AllocError>
    ensures { IfOk result (λ list. map view list.items ≡ ids_data ids.now) }
{
    let mut list = Vec::new(alloc);
    for id in ids {
        put(&mut list, Value::from(*id))?;
    }
    Ok(list)
}

fn removed_value(alloc: Global, ids: &[u8]) -> Result<Value, AllocError>
    ensures { IfOk result (λ value. view value ≡ removed_data ids.now) }
{
    let ids = ids_list(alloc, ids)?;
    json!(in alloc; {"ids": ids, "name": "REMOVE_ADDR"})
}

fn prio_value(alloc: Global, backup: bool) -> Result<Value, AllocError>
    ensures { IfOk result (λ value. view value ≡ prio_data backup) }
{
    object(
        alloc,
        &[
            Member::Flag("backup", backup),
            Member::Text("name", "MP_PRIO"),
        ],
    )
}

fn fail_value(alloc: Global, number: u64) -> Result<Value, AllocError>
    ensures { IfOk result (λ value. view value ≡ fail_data number) }
{
    object(
        alloc,
        &[
            Member::Text("name", "MP_FAIL"),
            Member::Digits("number", number),
        ],
    )
}

fn fast_close_value(alloc: Global, key: u64) -> Result<Value, AllocError>
    ensures { IfOk result (λ value. view value ≡ fast_close_data key) }
{
    object(
        alloc,
        &[
            Member::Digits("key", key),
            Member::Text("name", "MP_FASTCLOSE"),
        ],
    )
}

fn reset_value(alloc: Global, transient: bool, reason: u8) -> Result<Value, AllocError>
    ensures { IfOk result (λ value. view value ≡ reset_data transient reason) }
{
    let members = [
        Member::Text("name", "MP_TCPRST"),
        Member::Number("reason", u64::from(reason)),
        Member::Flag("transient", transient),
    ];
    object(alloc, &members)
}

/// An option of Multipath TCP, by its name in RFC 8684, section 3, and its fields.
pub fn multipath_value(alloc: Global, option: &MpOption<'_>) -> Result<Value, AllocError>
    ensures { IfOk result (λ value. view value ≡ value_data (value_of option.now)) }
{
    match option {
        MpOption::Capable { flag_a, keys, .. } => capable_value(alloc, *flag_a, keys),
        MpOption::Join { form } => join_value(alloc, form),
        MpOption::Dss { ack, mapping, fin } => dss_value(alloc, *ack, *mapping, *fin),
        MpOption::AddAddr {
            echo,
            id,
            address,
            port,
            hmac,
        } => announced_value(alloc, *echo, *id, address, *port, *hmac),
        MpOption::Remove { ids } => removed_value(alloc, ids),
        MpOption::Prio { backup } => prio_value(alloc, *backup),
        MpOption::Fail { number } => fail_value(alloc, *number),
        MpOption::FastClose { key } => fast_close_value(alloc, *key),
        MpOption::Reset { transient, reason } => reset_value(alloc, *transient, *reason),
    }
}
