//! What a segment of a trace carries: its position, its payload, the place of that in the stream, and its Data ACK.

ghost use Rattle.std.specs.Prelude.{◌≡◌, ◌∷◌, ◌++◌, [], ◌^◌, ◌%◌, IfOk, OnOk};
ghost use Rattle.segment_wire.specs.Options.{option_octets};
ghost use Rattle.segment_wire.specs.Reading.{segment_of};
ghost use Rattle.mptcp_options.specs.Meaning.{option_meaning};
ghost use Rattle.link_trace.specs.Carrying.{acknowledged_by, all_carried, base_of, behind, carried_of, carries, carries_nothing, dss_in, dss_read, first_byte, first_number, initial_in, low_half, low_number, mapped, payload_len, place_mapped, place_of, shift_by, shift_told, shifted, shifts_after};
ghost use Rattle.link_trace.specs.Shifts.{shift_in};

use crate::fate::{is_full, is_lost};
use crate::sent::Sent;
use crate::shifts::{Shift, keep_shift, shift_in};
use key_material::idsn;
use mptcp_options::{DataNumber, DssMap, MpOption, Read, read};
use segment_wire::{SegmentRef, addresses_from, parse};
use sides::Side;
use std::alloc::{AllocError, Global};

/// What a segment carries. Positions are counted from the initial number of its side, which is that of the SYN, and places from the
/// first byte of the side's stream, modulo 2^32.
#[derive(Clone, Copy)]
pub struct Carried {
    /// When it was sent, in ticks of a millisecond.
    pub tick: u64,
    /// The number of the path.
    pub path: u8,
    /// The side that sent it.
    pub from: Side,
    /// A line of the script lets it go lost, or the queue of its direction is full.
    pub lost: bool,
    /// The queue is full.
    pub full: bool,
    /// The octets that wait before its direction once it was sent.
    pub queued: u32,
    /// The position of the first octet of the payload, or where it would stand.
    pub position: u32,
    /// Octets of the payload.
    pub len: u32,
    /// The place of the first octet, as the mapping of its piece tells it, or an infinite mapping that its direction of the path sends
    /// under, or on path 0 its position.
    pub place: Option<u32>,
    /// How many bytes of the other side's stream it acknowledges, the DATA_FIN among them.
    pub acknowledged: Option<u32>,
}

/// The numbers from which those of a run count.
#[derive(Clone, Copy)]
pub struct Base {
    /// The low half of the number of the first byte of A's stream.
    pub first_a: u32,
    /// The low half of the number of the first byte of B's stream.
    pub first_b: u32,
    /// Whether checksums of data are used.
    pub checksums: bool,
}

/// The initial sequence numbers of both ends of a path.
#[derive(Clone, Copy)]
pub struct PathInitials {
    pub a: u32,
    pub b: u32,
}

/// The fields of a DSS that a trace is read for.
#[derive(Clone, Copy)]
pub(crate) struct Dss {
    pub ack: Option<DataNumber>,
    pub mapping: Option<DssMap>,
}

fn low_half(number: u64) -> u32
    ensures { result ≡ low_half number }
{
    (number % 0x1_0000_0000) as u32
}

fn low_number(number: DataNumber) -> u32
    ensures { result ≡ low_number number }
{
    match number {
        DataNumber::Whole(number) => low_half(number),
        DataNumber::Low(low) => low,
    }
}

fn behind(number: u32, base: u32) -> u32
    ensures { result ≡ behind number base }
{
    number.wrapping_sub(base)
}

/// The low half of the number of the first byte of the stream of a side with this key (RFC 8684, section 3.1).
fn first_number(key: u64) -> u32
    ensures { result ≡ first_number key }
{
    low_half(idsn(key)).wrapping_add(1)
}

impl Base {
    /// The base of a run with these keys of A and B, which uses checksums of data or doesn't.
    pub fn of(key_a: u64, key_b: u64, checksums: bool) -> Base
        ensures { result ≡ base_of key_a key_b checksums }
    {
        Base {
            first_a: first_number(key_a),
            first_b: first_number(key_b),
            checksums,
        }
    }

    fn first_byte(&self, side: Side) -> u32
        ensures { result ≡ first_byte self.now side }
    {
        match side {
            Side::A => self.first_a,
            Side::B => self.first_b,
        }
    }
}

/// What an option says, where it is a DSS.
fn dss_read(option: &[u8], checksums: bool) -> Option<Dss>
    ensures { result ≡ dss_read (option_meaning option.now checksums) }
{
    match read(option, checksums) {
        Read::Known(MpOption::Dss { ack, mapping, .. }) => Some(Dss { ack, mapping }),
        _ => None,
    }
}

/// What the first DSS of a segment says.
fn dss_of(segment: &SegmentRef<'_>, checksums: bool) -> Dss
    ensures { result ≡ dss_in checksums (option_octets (segment_of segment.now).options) }
{
    for option in segment.options() {
        if let Some(dss) = dss_read(option, checksums) {
            return dss;
        }
    }
    Dss {
        ack: None,
        mapping: None,
    }
}

/// The place that the mapping of a piece gives to a position; an infinite one gives none.
fn mapped(map: &DssMap, first: u32, position: u32) -> Option<u32>
    ensures { result ≡ mapped map.now first position }
{
    if map.length == 0 {
        return None;
    }
    let start = behind(low_number(map.number), first);
    let offset = behind(position, map.relative);
    Some(start.wrapping_add(offset))
}

fn place_mapped(map: Option<DssMap>, first: u32, position: u32) -> Option<u32>
    ensures { result ≡ place_mapped map first position }
{
    match map {
        None => None,
        Some(map) => mapped(&map, first, position),
    }
}

/// The place of a position, which stands so far behind it in a direction of a path that sends without mappings of pieces.
fn shifted(shift: Option<u32>, position: u32) -> Option<u32>
    ensures { result ≡ shifted shift position }
{
    match shift {
        None => None,
        Some(by) => Some(position.wrapping_add(by)),
    }
}

/// The place of a payload: by the mapping of its piece, or else as its direction of the path sends.
fn place_of(map: Option<DssMap>, first: u32, shift: Option<u32>, position: u32) -> Option<u32>
    ensures { result ≡ place_of map first shift position }
{
    match place_mapped(map, first, position) {
        None => shifted(shift, position),
        Some(place) => Some(place),
    }
}

fn acknowledged_by(base: &Base, from: Side, ack: Option<DataNumber>) -> Option<u32>
    ensures { result ≡ acknowledged_by base.now from ack }
{
    match ack {
        None => None,
        Some(number) => Some(behind(low_number(number), base.first_byte(from.peer()))),
    }
}

/// The octets of the payload, of which a segment has less than 2^16.
fn payload_len(segment: &SegmentRef<'_>) -> u32
    ensures { result ≡ payload_len (segment_of segment.now) }
{
    segment.payload().len().min(65_535) as u32
}

/// What a segment carries, of a side with this initial number, after these infinite mappings.
fn carries(
    base: &Base,
    sent: &Sent,
    initial: u32,
    shifts: &[Shift],
    segment: &SegmentRef<'_>,
) -> Carried
    ensures { result ≡ carries base.now sent.now initial shifts.now (segment_of segment.now) }
{
    let dss = dss_of(segment, base.checksums);
    let position = behind(segment.head.seq, initial);
    let shift = shift_in(shifts, sent.path, sent.from);
    Carried {
        tick: sent.tick,
        path: sent.path,
        from: sent.from,
        lost: is_lost(sent.fate.arrival),
        full: is_full(sent.fate.arrival),
        queued: sent.fate.queued,
        position,
        len: payload_len(segment),
        place: place_of(dss.mapping, base.first_byte(sent.from), shift, position),
        acknowledged: acknowledged_by(base, sent.from, dss.ack),
    }
}

/// Octets that are no segment carry nothing.
fn carries_nothing(sent: &Sent) -> Carried
    ensures { result ≡ carries_nothing sent.now }
{
    Carried {
        tick: sent.tick,
        path: sent.path,
        from: sent.from,
        lost: is_lost(sent.fate.arrival),
        full: is_full(sent.fate.arrival),
        queued: sent.fate.queued,
        position: 0,
        len: 0,
        place: None,
        acknowledged: None,
    }
}

/// The initial number of a side on a path, or 0 where there is no such path.
fn initial_in(initials: &[PathInitials], path: u8, side: Side) -> u32
    ensures { result ≡ initial_in initials.now path side }
{
    match (initials.get(usize::from(path)), side) {
        (None, _) => 0,
        (Some(initials), Side::A) => initials.a,
        (Some(initials), Side::B) => initials.b,
    }
}

/// What the infinite mapping of a payload tells.
fn shift_told(map: Option<DssMap>, first: u32, len: u32) -> Option<u32>
    ensures { result ≡ shift_told map first len }
{
    match map {
        None => None,
        Some(map) => {
            if map.length == 0 && len > 0 {
                Some(behind(behind(low_number(map.number), first), map.relative))
            } else {
                None
            }
        }
    }
}

/// How far the place stands behind the position by the infinite mapping that a segment tells, if any.
fn shift_by(base: &Base, from: Side, segment: &SegmentRef<'_>) -> Option<u32>
    ensures { result ≡ shift_by base.now from (segment_of segment.now) }
{
    let dss = dss_of(segment, base.checksums);
    shift_told(dss.mapping, base.first_byte(from), payload_len(segment))
}

/// What a segment carries, whose own infinite mapping is kept with those before it.
fn carry_one(
    base: &Base,
    initials: &[PathInitials],
    shifts: &mut Vec<Shift>,
    sent: &Sent,
) -> Result<Carried, AllocError>
    ensures carried { IfOk result (λ carried.
        carried ≡ carried_of base.now initials.now shifts.new.items sent.now) }
    ensures shifts { OnOk result (shifts.new.items ≡
        shifts_after base.now sent.now shifts.old.items) }
{
    let initial = initial_in(initials, sent.path, sent.from);
    let addresses = addresses_from(sent.path, sent.from);
    match parse(sent.octets.as_bytes(), &addresses) {
        Ok(segment) => {
            let told = shift_by(base, sent.from, &segment);
            keep_shift(shifts, told, sent.path, sent.from)?;
            Ok(carries(base, sent, initial, shifts, &segment))
        }
        Err(_) => Ok(carries_nothing(sent)),
    }
}

/// What each segment of a trace carries, on paths with these initial numbers, path 0 first.
pub fn all_carried(
    alloc: Global,
    base: &Base,
    initials: &[PathInitials],
    trace: &[Sent],
) -> Result<Vec<Carried>, AllocError>
    ensures { IfOk result
        (λ carried. carried.items ≡ all_carried base.now initials.now trace.now) }
{
    let (mut carried, mut shifts) = (Vec::new(alloc), Vec::new(alloc));
    for sent in trace {
        let one = carry_one(base, initials, &mut shifts, sent)?;
        carried.push(one)?;
    }
    Ok(carried)
}
