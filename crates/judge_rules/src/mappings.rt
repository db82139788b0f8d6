//! What an option maps, and the rules on one mapping beside what was told before.

ghost use Rattle.std.specs.Ordering.{int_eq};
ghost use Rattle.std.specs.Prelude.{◌≡◌, not, ℤ, pos, neg_ℤ, ◌+◌, ◌^◌, ◌<◌, ◌≤◌, ◌<ℤ◌, ◌≤ℤ◌, IfSome};
ghost use Rattle.mptcp_options.specs.Value.{value_of};
ghost use Rattle.judge_rules.specs.Mappings.{after_line, elsewhere, fin_fault, fin_told, is_too_early, mapped_octets, mapped_place, offer_of, place_on_line, position_near, reaches_past, shift_of, within_fault};

use crate::acks::ToldPlace;
use crate::finding::Finding;
use crate::numbers::place_near;
use mptcp_options::{CapableKeys, DataNumber, MpOption};
use seq_units::POSITION_LIMIT;

/// A mapping as its option tells it: of length 0 it is an infinite one.
#[derive(Clone, Copy)]
pub struct Offer {
    /// The data number of the first octet.
    pub number: DataNumber,
    /// The position of the first octet, modulo 2^32.
    pub relative: u32,
    /// How many octets are mapped, where the DATA_FIN counts as one.
    pub length: u16,
    pub checksum: Option<u16>,
    /// Whether it ends with the DATA_FIN.
    pub fin: bool,
}

/// An infinite mapping: a position, which may lie before the SYN, and its place.
#[derive(Clone, Copy)]
pub struct Line {
    pub position: i64,
    pub place: u64,
}

/// What an option maps, where the data number of place 0 is this: an MP_CAPABLE with data maps it from there and from position 1 on
/// (RFC 8684, section 3.1).
pub fn offer_of(first: u64, option: &MpOption<'_>) -> Option<Offer>
    ensures { result ≡ offer_of first (value_of option.now) }
{
    match option {
        MpOption::Capable {
            keys: CapableKeys::WithData {
                length,
                checksum,
                ..
            },
            ..
        } => Some(Offer {
            number: DataNumber::Whole(first),
            relative: 1,
            length: *length,
            checksum: *checksum,
            fin: false,
        }),
        MpOption::Dss {
            mapping: Some(mapping),
            fin,
            ..
        } => Some(Offer {
            number: mapping.number,
            relative: mapping.relative,
            length: mapping.length,
            checksum: mapping.checksum,
            fin: *fin,
        }),
        _ => None,
    }
}

impl Offer {
    /// How many octets it maps, without the DATA_FIN.
    pub fn octets(&self) -> u64
        ensures value { result ≡ mapped_octets self.now }
        ensures few { result < 2 ^ 16 }
    {
        u64::from(self.length).saturating_sub(u64::from(self.fin))
    }

    /// The place of its first octet, beside the end of the mapped places. `None` where this, or the place behind its last octet, is
    /// none.
    pub fn place(&self, first: u64, top: u64) -> Option<u64>
        requires { top < 2 ^ 63 }
        ensures value { result ≡ mapped_place first top self.now }
        ensures few { IfSome result (λ place. place + mapped_octets self.now < 2 ^ 62) }
    {
        let place = place_near(first, top, &self.number)?;
        if place + self.octets() < POSITION_LIMIT {
            Some(place)
        } else {
            None
        }
    }
}

/// The position nearest this one that a relative number means. It may lie before the SYN.
pub fn position_near(position: u64, relative: u32) -> i64
    requires { position < 2 ^ 62 }
    ensures { result ≡ position_near position relative }
{
    let low = (position & u64::from(u32::MAX)) as u32;
    position as i64 + i64::from(relative.wrapping_sub(low).cast_signed())
}

/// What a mapping that ends behind this place says against the DATA_FIN, by the rule `data-fin`: it has one itself or not, places up
/// to `top` are mapped, and this end was told (RFC 8684, section 3.3.3).
pub fn fin_fault(told: Option<ToldPlace>, top: u64, end: u64, fin: bool) -> Option<Finding>
    ensures { result ≡ fin_fault told top end fin }
{
    match fin_told(told, end, fin) {
        Some(finding) => Some(finding),
        None => is_too_early(top, end, fin),
    }
}

// Against the end that was told.
fn fin_told(told: Option<ToldPlace>, end: u64, fin: bool) -> Option<Finding>
    ensures { result ≡ fin_told told end fin }
{
    let told = told?;
    let (was, packet) = (told.place, told.packet);
    if fin && was != end {
        return Some(Finding::OtherFin {
            place: end,
            was,
            packet,
        });
    }
    if !fin && was < end {
        return Some(Finding::BeyondFin {
            mapped: end,
            was,
            packet,
        });
    }
    None
}

// Places beyond are mapped.
fn is_too_early(top: u64, end: u64, fin: bool) -> Option<Finding>
    ensures { result ≡ is_too_early top end fin }
{
    if fin && end < top {
        Some(Finding::MappedBeyond {
            place: end,
            mapped: top,
        })
    } else {
        None
    }
}

/// Whether payload of so many octets, at this position, isn't within a mapping of so many from a position on, by the rule `within`.
pub fn within_fault(position: u64, len: u64, mapped_from: u64, octets: u64) -> Option<Finding>
    requires some { 0 < len }
    requires mapped { 0 < octets }
    requires end { position + len < 2 ^ 64 }
    requires mapped_end { mapped_from + octets < 2 ^ 64 }
    ensures { result ≡ within_fault position len mapped_from octets }
{
    if mapped_from <= position && position + len <= mapped_from + octets {
        return None;
    }
    Some(Finding::Outside {
        from: position,
        last: position + len - 1,
        mapped_from,
        mapped_last: mapped_from + octets - 1,
    })
}

impl Line {
    /// The place of a position, if it isn't before the line.
    pub fn place_of(&self, position: u64) -> Option<u64>
        requires begins { neg_ℤ (pos (2 ^ 62)) ≤ℤ self.now.position }
        requires position { position < 2 ^ 62 }
        requires place { self.now.place < 2 ^ 62 }
        ensures { result ≡ place_on_line self.now position }
    {
        let position = position as i64;
        if position < self.position {
            return None;
        }
        Some(self.place + (position - self.position) as u64)
    }

    /// Whether a finite mapping on the line's own subflow, which reaches past its position, has another place, by the rule
    /// `infinite` (RFC 8684, section 3.7).
    pub fn is_left_by(&self, position: i64, place: u64, octets: u64) -> bool
        requires begins { neg_ℤ (pos (2 ^ 62)) ≤ℤ self.now.position }
        requires ends { self.now.position <ℤ pos (2 ^ 62) }
        requires line_place { self.now.place < 2 ^ 62 }
        requires low { neg_ℤ (pos (2 ^ 62)) ≤ℤ position }
        requires high { position <ℤ pos (2 ^ 62) }
        requires place { place < 2 ^ 62 }
        requires octets { octets < 2 ^ 16 }
        ensures { result ≡ after_line self.now position place octets }
    {
        reaches_past(self.position, position, octets)
            && differ(
                shift_of(place, position),
                shift_of(self.place, self.position),
            )
    }
}

// Whether so many octets from a position on reach past another one.
fn reaches_past(line: i64, position: i64, octets: u64) -> bool
    requires low { neg_ℤ (pos (2 ^ 62)) ≤ℤ position }
    requires high { position <ℤ pos (2 ^ 62) }
    requires octets { octets < 2 ^ 16 }
    ensures { result ≡ reaches_past line position octets }
{
    line < position + octets as i64
}

fn differ(one: i64, other: i64) -> bool
    ensures { result ≡ not (int_eq one other) }
{
    one != other
}

// Place less position.
fn shift_of(place: u64, position: i64) -> i64
    requires low { neg_ℤ (pos (2 ^ 62)) ≤ℤ position }
    requires high { position <ℤ pos (2 ^ 62) }
    requires place { place < 2 ^ 62 }
    ensures { result ≡ shift_of place position }
{
    place as i64 - position
}

/// Whether a finite mapping on another subflow than that of an infinite one, of which this is the lowest place, goes on past all
/// mapped places and past that one, by the rule `infinite`.
pub fn goes_on_elsewhere(top: u64, line_place: u64, end: u64) -> bool
    ensures { result ≡ elsewhere top line_place end }
{
    top.max(line_place) < end
}
