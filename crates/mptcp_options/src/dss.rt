ghost use Rattle.std.specs.Prelude.{◌≡◌, ◌+◌, ◌≤◌, length};
ghost use Rattle.octet_text.specs.Octets.{octet};
ghost use Rattle.mptcp_options.specs.Value.{meaning_of, LendsIds};
ghost use Rattle.mptcp_options.specs.Dss.{has_ack, has_mapping, mapping_place, relative_place, dss_end, dss_length};
ghost use Rattle.mptcp_options.specs.Dss.{data_number_length, data_number_at, ack_at, mapping_at, fin_at};
ghost use Rattle.mptcp_options.specs.Dss.{data_number_text, is_whole, ack_text, ack_flags, mapping_text, mapping_flags, dss_body};
ghost use Rattle.mptcp_options.specs.Meaning.{IsFramed, subtype, option_meaning};

use crate::body::{Body, flag_if, joined, optional_u16};
use crate::fields::{u16_at, u32_at, u64_at};
use crate::option::{MpOption, Read};
use crate::subtype::DSS;

/// The mapping ends with the DATA_FIN.
const FLAG_F: u8 = 0x10;

/// The data number of the mapping has eight octets.
const FLAG_WIDE_NUMBER: u8 = 0x08;

/// There is a mapping.
const FLAG_MAPPING: u8 = 0x04;

/// The Data ACK has eight octets.
const FLAG_WIDE_ACK: u8 = 0x02;

/// There is a Data ACK.
const FLAG_ACK: u8 = 0x01;

/// A data sequence number or a Data ACK, as wide as it stands in the option (RFC 8684, section 3.3).
#[derive(Clone, Copy, Debug)]
pub enum DataNumber {
    /// All eight octets.
    Whole(u64),
    /// The low four octets.
    Low(u32),
}

/// The mapping of a DSS (RFC 8684, section 3.3.1).
#[derive(Clone, Copy, Debug)]
pub struct DssMap {
    /// The data sequence number of the first octet.
    pub number: DataNumber,
    /// The subflow sequence number of the first octet, relative to the initial one.
    pub relative: u32,
    /// The data-level length: how many octets are mapped, where a DATA_FIN counts as one. 0 is the infinite mapping.
    pub length: u16,
    /// The checksum, where checksums are used.
    pub checksum: Option<u16>,
}

fn has_ack(flags: u8) -> bool
    ensures { result ≡ has_ack flags }
{
    flags & FLAG_ACK != 0
}

fn has_mapping(flags: u8) -> bool
    ensures { result ≡ has_mapping flags }
{
    flags & FLAG_MAPPING != 0
}

fn data_number_length(wide: bool) -> usize
    ensures { result ≡ data_number_length wide }
{
    if wide { 8 } else { 4 }
}

/// Where the mapping begins, or the option ends without one.
fn mapping_place(flags: u8) -> usize
    ensures { result ≡ mapping_place flags }
{
    if has_ack(flags) {
        4 + data_number_length(flags & FLAG_WIDE_ACK != 0)
    } else {
        4
    }
}

/// Where the fields after the mapping's data number begin.
fn relative_place(flags: u8) -> usize
    ensures { result ≡ relative_place flags }
{
    mapping_place(flags) + data_number_length(flags & FLAG_WIDE_NUMBER != 0)
}

/// Where the option ends, or a checksum begins.
fn dss_end(flags: u8) -> usize
    ensures { result ≡ dss_end flags }
{
    if has_mapping(flags) {
        relative_place(flags) + 6
    } else {
        mapping_place(flags)
    }
}

/// The one length that fits the flags and the use of checksums.
fn dss_length(flags: u8, checksum: bool) -> usize
    ensures { result ≡ dss_length flags checksum }
{
    if has_mapping(flags) && checksum {
        dss_end(flags) + 2
    } else {
        dss_end(flags)
    }
}

fn data_number_at(wide: bool, option: &[u8], place: usize) -> DataNumber
    requires { place + data_number_length wide ≤ length option.now }
    ensures { result ≡ data_number_at wide option.now place }
{
    if wide {
        DataNumber::Whole(u64_at(option, place))
    } else {
        DataNumber::Low(u32_at(option, place))
    }
}

fn ack_at(option: &[u8]) -> Option<DataNumber>
    requires flags { 4 ≤ length option.now }
    requires long { mapping_place (octet option.now 3) ≤ length option.now }
    ensures { result ≡ ack_at option.now }
{
    let flags = option[3];
    if has_ack(flags) {
        Some(data_number_at(flags & FLAG_WIDE_ACK != 0, option, 4))
    } else {
        None
    }
}

fn mapping_at(option: &[u8], checksum: bool) -> Option<DssMap>
    requires flags { 4 ≤ length option.now }
    requires long { length option.now ≡ dss_length (octet option.now 3) checksum }
    ensures { result ≡ mapping_at option.now }
{
    let flags = option[3];
    if !has_mapping(flags) {
        return None;
    }
    let relative = relative_place(flags);
    let end = dss_end(flags);
    Some(DssMap {
        number: data_number_at(flags & FLAG_WIDE_NUMBER != 0, option, mapping_place(flags)),
        relative: u32_at(option, relative),
        length: u16_at(option, relative + 4),
        checksum: if option.len() == end {
            None
        } else {
            Some(u16_at(option, end))
        },
    })
}

/// Reads a DSS, whose flags tell its length (RFC 8684, section 3.3).
#[tactic(auto, using(crate::proofs::DssMeaning::dss_forms))]
pub fn read_dss(option: &[u8], checksum: bool) -> Read<'_>
    requires framed { IsFramed option.now }
    requires subtype { subtype option.now ≡ 2 }
    ensures meaning { meaning_of result ≡ option_meaning option.now checksum }
    ensures lent { LendsIds option.entry result }
{
    if option.len() < 4 {
        return Read::Malformed;
    }
    let flags = option[3];
    if option.len() != dss_length(flags, checksum) {
        return Read::Malformed;
    }
    Read::Known(MpOption::Dss {
        ack: ack_at(option),
        mapping: mapping_at(option, checksum),
        fin: has_mapping(flags) && flags & FLAG_F != 0,
    })
}

fn is_whole(number: &DataNumber) -> bool
    ensures { result ≡ is_whole number.now }
{
    matches!(number, DataNumber::Whole(_))
}

fn data_number_text(number: &DataNumber) -> Body
    ensures text { result.items ≡ data_number_text number.now }
    ensures few { length result.items ≤ 8 }
{
    match number {
        DataNumber::Whole(number) => joined(&[&number.to_be_bytes()]),
        DataNumber::Low(number) => joined(&[&number.to_be_bytes()]),
    }
}

fn ack_text(ack: &Option<DataNumber>) -> Body
    ensures text { result.items ≡ ack_text ack.now }
    ensures few { length result.items ≤ 8 }
{
    match ack {
        None => Body::new(),
        Some(number) => data_number_text(number),
    }
}

fn ack_flags(ack: &Option<DataNumber>) -> u8
    ensures { result ≡ ack_flags ack.now }
{
    match ack {
        None => 0,
        Some(number) => flag_if(is_whole(number), FLAG_WIDE_ACK) | FLAG_ACK,
    }
}

fn mapping_text(mapping: &Option<DssMap>) -> Body
    ensures text { result.items ≡ mapping_text mapping.now }
    ensures few { length result.items ≤ 16 }
{
    match mapping {
        None => Body::new(),
        Some(map) => joined(&[
            data_number_text(&map.number).as_slice(),
            &map.relative.to_be_bytes(),
            &map.length.to_be_bytes(),
            optional_u16(map.checksum).as_slice(),
        ]),
    }
}

fn mapping_flags(mapping: &Option<DssMap>) -> u8
    ensures { result ≡ mapping_flags mapping.now }
{
    match mapping {
        None => 0,
        Some(map) => flag_if(is_whole(&map.number), FLAG_WIDE_NUMBER) | FLAG_MAPPING,
    }
}

/// The octets of a DSS after kind and length (RFC 8684, section 3.3).
pub fn dss_body(ack: &Option<DataNumber>, mapping: &Option<DssMap>, fin: bool) -> Body
    ensures { result.items ≡ dss_body ack.now mapping.now fin }
{
    let flags = flag_if(fin, FLAG_F) | mapping_flags(mapping) | ack_flags(ack);
    joined(&[
        &[DSS << 4, flags],
        ack_text(ack).as_slice(),
        mapping_text(mapping).as_slice(),
    ])
}
