//! The options of Multipath TCP.

ghost use Rattle.std.specs.Prelude.{◌≡◌, ◌++◌, OnOk, string_bytes};
ghost use Rattle.mptcp_options.specs.Value.{value_of};
ghost use Rattle.link_trace.specs.Multipath.{ack_words, address_words, announced_words, capable_words, dss_words, fast_close_words, hmac_words, ids_words, join_words, key_told, key_words, low_half, mapping_words, number_told, optional_checksum, port_words, removed_words, third_words, v4_words, v6_words, value_words, word_if};

use key_material::Address;
use mptcp_options::{CapableKeys, DataNumber, DssMap, JoinForm, MpOption};
use std::alloc::{AllocError, Global};

/// The initial data sequence numbers of the side that sends a segment and of its peer, from which data numbers are told (RFC 8684,
/// section 3.1); none where they are told as they stand.
#[derive(Clone, Copy)]
pub(crate) struct DataInitials {
    pub own: Option<u64>,
    pub peer: Option<u64>,
}

/// A word where the flag is set, else none.
pub(crate) fn word_if(flag: bool, word: &'static str) -> &'static str
    ensures { result.now ≡ word_if flag word.now }
{
    if flag { word } else { "" }
}

fn put_checksum(text: &mut String, checksum: Option<u16>) -> Result<(), AllocError>
    ensures { OnOk result (string_bytes text.new ≡
        string_bytes text.old ++ optional_checksum checksum) }
{
    match checksum {
        Some(checksum) => write!(text, " csum 0x{checksum:x}"),
        None => Ok(()),
    }
}

fn put_keys(text: &mut String, keys: &CapableKeys) -> Result<(), AllocError>
    ensures { OnOk result (string_bytes text.new ≡ string_bytes text.old ++ key_words keys.now) }
{
    match *keys {
        CapableKeys::NoKey => Ok(()),
        CapableKeys::Sender { sender } => write!(text, " {{0x{sender:x}}}"),
        CapableKeys::Both { sender, receiver } => write!(text, " {{0x{sender:x},0x{receiver:x}}}"),
        CapableKeys::WithData {
            sender,
            receiver,
            length,
            checksum,
        } => {
            write!(text, " {{0x{sender:x},0x{receiver:x}}} len {length}")?;
            put_checksum(text, checksum)
        }
    }
}

fn put_capable(text: &mut String, required: bool, keys: &CapableKeys) -> Result<(), AllocError>
    ensures { OnOk result (string_bytes text.new ≡
        string_bytes text.old ++ capable_words required keys.now) }
{
    write!(text, "capable v1{}", word_if(required, " csum"))?;
    put_keys(text, keys)
}

fn put_join(alloc: Global, text: &mut String, form: &JoinForm) -> Result<(), AllocError>
    ensures { OnOk result (string_bytes text.new ≡ string_bytes text.old ++ join_words form.now) }
{
    match form {
        JoinForm::Syn {
            backup,
            id,
            token,
            nonce,
        } => write!(
            text,
            "join{} id {id} token 0x{token:x} nonce 0x{nonce:x}",
            word_if(*backup, " backup"),
        ),
        JoinForm::Answer {
            backup,
            id,
            hmac,
            nonce,
        } => write!(
            text,
            "join{} id {id} hmac 0x{hmac:x} nonce 0x{nonce:x}",
            word_if(*backup, " backup"),
        ),
        JoinForm::Third { hmac } => {
            text.push_str("join")?;
            put_third(alloc, text, hmac)
        }
    }
}

/// The low half of a number.
fn low_half(number: u64) -> u32
    ensures { result ≡ low_half number }
{
    (number % 0x1_0000_0000) as u32
}

/// A data number relative to the initial one, as wide as it stands; or as it stands, where there is none.
fn number_told(number: DataNumber, initial: Option<u64>) -> u64
    ensures { result ≡ number_told initial number }
{
    match (number, initial) {
        (DataNumber::Whole(number), Some(initial)) => number.wrapping_sub(initial),
        (DataNumber::Whole(number), None) => number,
        (DataNumber::Low(low), Some(initial)) => u64::from(low.wrapping_sub(low_half(initial))),
        (DataNumber::Low(low), None) => u64::from(low),
    }
}

fn put_ack(
    text: &mut String,
    ack: Option<DataNumber>,
    initial: Option<u64>,
) -> Result<(), AllocError>
    ensures { OnOk result (string_bytes text.new ≡ string_bytes text.old ++ ack_words initial ack) }
{
    match ack {
        Some(number) => write!(text, " ack {}", number_told(number, initial)),
        None => Ok(()),
    }
}

fn put_mapping(
    text: &mut String,
    mapping: Option<DssMap>,
    initial: Option<u64>,
) -> Result<(), AllocError>
    ensures { OnOk result (string_bytes text.new ≡
        string_bytes text.old ++ mapping_words initial mapping) }
{
    let Some(map) = mapping else {
        return Ok(());
    };
    let number = number_told(map.number, initial);
    let (relative, length) = (map.relative, map.length);
    write!(text, " seq {number} subseq {relative} len {length}")?;
    put_checksum(text, map.checksum)
}

fn put_dss(
    text: &mut String,
    ack: Option<DataNumber>,
    mapping: Option<DssMap>,
    fin: bool,
    initials: DataInitials,
) -> Result<(), AllocError>
    ensures { OnOk result (string_bytes text.new ≡
        string_bytes text.old ++ dss_words initials ack mapping fin) }
{
    write!(text, "dss{}", word_if(fin, " fin"))?;
    put_ack(text, ack, initials.peer)?;
    put_mapping(text, mapping, initials.own)
}

fn put_v4(text: &mut String, address: [u8; 4]) -> Result<(), AllocError>
    ensures { OnOk result (string_bytes text.new ≡ string_bytes text.old ++ v4_words address) }
{
    let [a, b, c, d] = address;
    write!(text, " {a}.{b}.{c}.{d}")
}

fn put_v6(alloc: Global, text: &mut String, address: &[u8; 16]) -> Result<(), AllocError>
    ensures { OnOk result (string_bytes text.new ≡ string_bytes text.old ++ v6_words address.now) }
{
    let octets = hex::encode(alloc, address)?;
    write!(text, " {octets}")
}

/// An address of four octets in decimal, one of sixteen in hexadecimal.
fn put_address(alloc: Global, text: &mut String, address: &Address) -> Result<(), AllocError>
    ensures { OnOk result (string_bytes text.new ≡
        string_bytes text.old ++ address_words address.now) }
{
    match address {
        Address::V4(octets) => put_v4(text, *octets),
        Address::V6(octets) => put_v6(alloc, text, octets),
    }
}

fn put_port(text: &mut String, port: Option<u16>) -> Result<(), AllocError>
    ensures { OnOk result (string_bytes text.new ≡ string_bytes text.old ++ port_words port) }
{
    match port {
        Some(port) => write!(text, ":{port}"),
        None => Ok(()),
    }
}

fn put_hmac(text: &mut String, hmac: Option<u64>) -> Result<(), AllocError>
    ensures { OnOk result (string_bytes text.new ≡ string_bytes text.old ++ hmac_words hmac) }
{
    match hmac {
        Some(hmac) => write!(text, " hmac 0x{hmac:x}"),
        None => Ok(()),
    }
}

fn put_ids(text: &mut String, ids: &[u8]) -> Result<(), AllocError>
    ensures { OnOk result (string_bytes text.new ≡ string_bytes text.old ++ ids_words ids.now) }
{
    for id in ids {
        write!(text, " {id}")?;
    }
    Ok(())
}

/// The HMAC of the third segment of a join.
fn put_third(alloc: Global, text: &mut String, hmac: &[u8; 20]) -> Result<(), AllocError>
    ensures { OnOk result (string_bytes text.new ≡ string_bytes text.old ++ third_words hmac.now) }
{
    let hmac = hex::encode(alloc, hmac)?;
    write!(text, " hmac 0x{hmac}")
}

fn put_announced(
    alloc: Global,
    text: &mut String,
    address: &Address,
    port: Option<u16>,
    hmac: Option<u64>,
) -> Result<(), AllocError>
    ensures { OnOk result (string_bytes text.new ≡
        string_bytes text.old ++ announced_words address.now port hmac) }
{
    put_address(alloc, text, address)?;
    put_port(text, port)?;
    put_hmac(text, hmac)
}

fn put_removed(text: &mut String, ids: &[u8]) -> Result<(), AllocError>
    ensures { OnOk result (string_bytes text.new ≡ string_bytes text.old ++ removed_words ids.now) }
{
    text.push_str("rem-addr id")?;
    put_ids(text, ids)
}

fn put_key(text: &mut String, key: u64) -> Result<(), AllocError>
    ensures { OnOk result (string_bytes text.new ≡ string_bytes text.old ++ key_told key) }
{
    write!(text, " key 0x{key:x}")
}

fn put_fast_close(text: &mut String, key: u64) -> Result<(), AllocError>
    ensures { OnOk result (string_bytes text.new ≡ string_bytes text.old ++ fast_close_words key) }
{
    text.push_str("fast-close")?;
    put_key(text, key)
}

/// An option of Multipath TCP.
pub(crate) fn put_multipath(
    alloc: Global,
    text: &mut String,
    option: &MpOption<'_>,
    initials: DataInitials,
) -> Result<(), AllocError>
    ensures { OnOk result (string_bytes text.new ≡
        string_bytes text.old ++ value_words initials (value_of option.now)) }
{
    match option {
        MpOption::Capable { flag_a, keys, .. } => put_capable(text, *flag_a, keys),
        MpOption::Join { form } => put_join(alloc, text, form),
        MpOption::Dss { ack, mapping, fin } => put_dss(text, *ack, *mapping, *fin, initials),
        MpOption::AddAddr {
            echo,
            id,
            address,
            port,
            hmac,
        } => {
            write!(text, "add-addr{} id {id}", word_if(*echo, " echo"))?;
            put_announced(alloc, text, address, *port, *hmac)
        }
        MpOption::Remove { ids } => put_removed(text, ids),
        MpOption::Prio { backup } => write!(text, "prio{}", word_if(*backup, " backup")),
        MpOption::Fail { number } => write!(text, "fail seq {number}"),
        MpOption::FastClose { key } => put_fast_close(text, *key),
        MpOption::Reset { transient, reason } => write!(
            text,
            "rst{} reason {reason}",
            word_if(*transient, " transient"),
        ),
    }
}
