ghost use Rattle.std.specs.Prelude.{◌≡◌, ◌+◌, ◌≤◌, length, Bool, if◌then◌else◌};
ghost use Rattle.mptcp_options.specs.Octets.{is_among};
ghost use Rattle.mptcp_options.specs.Value.{meaning_of, LendsIds};
ghost use Rattle.mptcp_options.specs.Address.{is_echo, is_ipv4, has_port, has_hmac, add_addr_lengths, port_place, hmac_place};
ghost use Rattle.mptcp_options.specs.Address.{address_at, port_at, hmac_at, add_addr_body, remove_addr_body};
ghost use Rattle.mptcp_options.specs.Meaning.{IsFramed, subtype, option_meaning};

use crate::body::{Body, flag_if, joined, optional_u16, optional_u64};
use crate::fields::{u16_at, u64_at};
use crate::option::{MpOption, Read};
use crate::subtype::{ADD_ADDR, REMOVE_ADDR};
use key_material::Address;

/// The flag E in the subtype's octet.
const ECHO: u8 = 0x01;

fn is_echo(option: &[u8]) -> bool
    requires { 3 ≤ length option.now }
    ensures { result ≡ is_echo option.now }
{
    option[2] & ECHO != 0
}

fn has_length_of_form(option: &[u8], echo: bool) -> bool
    ensures { result ≡ is_among (length option.now) (add_addr_lengths echo) }
{
    if echo {
        matches!(option.len(), 8 | 10 | 20 | 22)
    } else {
        matches!(option.len(), 16 | 18 | 28 | 30)
    }
}

/// Whether the length is one with an address of four octets.
fn is_ipv4(option: &[u8]) -> bool
    ensures { result ≡ is_ipv4 option.now }
{
    matches!(option.len(), 8 | 10 | 16 | 18)
}

/// Whether the length is one with a port.
fn has_port(option: &[u8]) -> bool
    ensures { result ≡ has_port option.now }
{
    matches!(option.len(), 10 | 18 | 22 | 30)
}

/// Whether the length is one with an HMAC.
fn has_hmac(option: &[u8]) -> bool
    ensures { result ≡ has_hmac option.now }
{
    matches!(option.len(), 16 | 18 | 28 | 30)
}

/// Where the address ends.
fn port_place(option: &[u8]) -> usize
    ensures { result ≡ port_place option.now }
{
    if is_ipv4(option) { 8 } else { 20 }
}

/// Where the HMAC begins, or an echo ends.
fn hmac_place(option: &[u8]) -> usize
    ensures { result ≡ hmac_place option.now }
{
    if has_port(option) {
        port_place(option) + 2
    } else {
        port_place(option)
    }
}

fn address_at(option: &[u8]) -> Address
    requires { port_place option.now ≤ length option.now }
    ensures { result ≡ address_at option.now }
{
    let octets = &option[4..];
    if is_ipv4(option) {
        Address::V4(*octets.first_chunk().unwrap())
    } else {
        Address::V6(*octets.first_chunk().unwrap())
    }
}

fn port_at(option: &[u8]) -> Option<u16>
    requires { hmac_place option.now ≤ length option.now }
    ensures { result ≡ port_at option.now }
{
    has_port(option).then(|| u16_at(option, port_place(option)))
}

fn hmac_at(option: &[u8]) -> Option<u64>
    requires { hmac_place option.now + (if has_hmac option.now then 8 else 0) ≤ length option.now }
    ensures { result ≡ hmac_at option.now }
{
    has_hmac(option).then(|| u64_at(option, hmac_place(option)))
}

/// Reads an ADD_ADDR, whose length tells its form (RFC 8684, section 3.4.1).
#[tactic(auto, using(crate::proofs::AddressMeaning::option_meaning_add_addr))]
pub fn read_add_addr(option: &[u8]) -> Read<'_>
    requires framed { IsFramed option.now }
    requires subtype { subtype option.now ≡ 3 }
    ensures meaning { (checksum : Bool) → meaning_of result ≡ option_meaning option.now checksum }
    ensures lent { LendsIds option.entry result }
{
    let echo = is_echo(option);
    if !has_length_of_form(option, echo) {
        return Read::Malformed;
    }
    Read::Known(MpOption::AddAddr {
        echo,
        id: option[3],
        address: address_at(option),
        port: port_at(option),
        hmac: hmac_at(option),
    })
}

/// Reads a REMOVE_ADDR, which has at least one id (RFC 8684, section 3.4.2).
#[tactic(auto, using(crate::proofs::AddressMeaning::remove_addr_forms))]
pub fn read_remove_addr(option: &[u8]) -> Read<'_>
    requires framed { IsFramed option.now }
    requires subtype { subtype option.now ≡ 4 }
    ensures meaning { (checksum : Bool) → meaning_of result ≡ option_meaning option.now checksum }
    ensures lent { LendsIds option.entry result }
{
    if option.len() < 4 {
        return Read::Malformed;
    }
    Read::Known(MpOption::Remove { ids: &option[3..] })
}

/// The octets of an ADD_ADDR after kind and length (RFC 8684, section 3.4.1).
pub fn add_addr_body(
    echo: bool,
    id: u8,
    address: &Address,
    port: Option<u16>,
    hmac: Option<u64>,
) -> Body
    ensures { result.items ≡ add_addr_body echo id address.now port hmac }
{
    joined(&[
        &[ADD_ADDR << 4 | flag_if(echo, ECHO), id],
        address.octets(),
        optional_u16(port).as_slice(),
        optional_u64(hmac).as_slice(),
    ])
}

/// The octets of a REMOVE_ADDR of at most 37 ids after kind and length (RFC 8684, section 3.4.2).
pub fn remove_addr_body(ids: &[u8]) -> Body
    requires { length ids.now ≤ 37 }
    ensures { result.items ≡ remove_addr_body ids.now }
{
    joined(&[&[REMOVE_ADDR << 4], ids])
}
