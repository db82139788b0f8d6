//! A line for each segment, in the words of tcpdump.

ghost use Rattle.std.specs.Prelude.{◌≡◌, ◌++◌, option_map, IfOk, OnOk, string_bytes};
ghost use Rattle.link_trace.specs.Lines.{streams_of, initial_of, initials_of, line_of, lines_of, note_words, number_of, place_words, way_word};
ghost use Rattle.link_trace.specs.Meanings.{meaning_in};
ghost use Rattle.link_trace.specs.Segments.{words_of};

use crate::fate::{is_plain, put_fate};
use crate::meanings::{Syn, agreed, first_syn};
use crate::multipath::DataInitials;
use crate::segment::{Initials, words};
use crate::sent::Sent;
use link_model::SegmentFate;
use segment_wire::addresses_from;
use sides::Side;
use std::alloc::{AllocError, Global};

/// Which way a segment goes.
fn way_word(from: Side) -> &'static str
    ensures { result.now ≡ way_word from }
{
    match from {
        Side::A => "a > b",
        Side::B => "b > a",
    }
}

/// The initial data sequence numbers of both sides, one below those of the first bytes of their streams (RFC 8684, section 3.1).
#[derive(Clone, Copy)]
pub struct InitialData {
    pub a: u64,
    pub b: u64,
}

/// That of a side's stream.
fn initial_of(initials: Option<InitialData>, side: Side) -> Option<u64>
    ensures { result ≡ option_map (initial_of side) initials }
{
    match (initials, side) {
        (None, _) => None,
        (Some(initials), Side::A) => Some(initials.a),
        (Some(initials), Side::B) => Some(initials.b),
    }
}

/// Those of both streams, as a side sees them.
fn streams_of(initials: Option<InitialData>, from: Side) -> DataInitials
    ensures { result ≡ streams_of initials from }
{
    DataInitials {
        own: initial_of(initials, from),
        peer: initial_of(initials, from.peer()),
    }
}

fn number_of(syn: Option<Syn>) -> Option<u32>
    ensures { result ≡ number_of syn }
{
    match syn {
        None => None,
        Some(syn) => Some(syn.number),
    }
}

/// From what the numbers of a segment count.
fn initials_of(initials: Option<InitialData>, trace: &[Sent], sent: &Sent) -> Initials
    ensures { result ≡ initials_of initials trace.now sent.now }
{
    let own = first_syn(trace, sent.path, sent.from);
    let peer = first_syn(trace, sent.path, sent.from.peer());
    Initials {
        own: number_of(own),
        peer: number_of(peer),
        streams: streams_of(initials, sent.from),
        shift: agreed(own, peer),
    }
}

pub(crate) fn put_place(text: &mut String, sent: &Sent) -> Result<(), AllocError>
    ensures { OnOk result (string_bytes text.new ≡ string_bytes text.old ++ place_words sent.now) }
{
    let (tick, path, way) = (sent.tick, sent.path, way_word(sent.from));
    write!(text, "{tick} path {path} {way}: ")
}

pub(crate) fn put_note(text: &mut String, fate: &SegmentFate) -> Result<(), AllocError>
    ensures { OnOk result (string_bytes text.new ≡ string_bytes text.old ++ note_words fate.now) }
{
    if is_plain(fate) {
        return Ok(());
    }
    write!(text, " (")?;
    put_fate(text, fate)?;
    write!(text, ")")
}

pub(crate) fn put_words(
    alloc: Global,
    text: &mut String,
    checksums: bool,
    initials: Option<InitialData>,
    trace: &[Sent],
    sent: &Sent,
) -> Result<(), AllocError>
    ensures { OnOk result (string_bytes text.new ≡
        string_bytes text.old ++ words_of (initials_of initials trace.now sent.now) checksums
        (meaning_in sent.now)) }
{
    let initials = initials_of(initials, trace, sent);
    let addresses = addresses_from(sent.path, sent.from);
    let told = words(
        alloc,
        sent.octets.as_bytes(),
        &addresses,
        &initials,
        checksums,
    )?;
    text.push_str(told.as_str())
}

/// The line of a segment: its tick, its path, its direction, its words, and its fate where that isn't plain.
fn put_line(
    alloc: Global,
    text: &mut String,
    checksums: bool,
    initials: Option<InitialData>,
    trace: &[Sent],
    sent: &Sent,
) -> Result<(), AllocError>
    ensures { OnOk result (string_bytes text.new ≡
        string_bytes text.old ++ line_of checksums initials trace.now sent.now) }
{
    put_place(text, sent)?;
    put_words(alloc, text, checksums, initials, trace, sent)?;
    put_note(text, &sent.fate)?;
    writeln!(text)
}

/// A line for each segment of a trace, over checksums of data or without them: data numbers are relative to these initial ones, or as
/// they stand without any.
pub fn lines(
    alloc: Global,
    checksums: bool,
    initials: Option<InitialData>,
    trace: &[Sent],
) -> Result<Vec<u8>, AllocError>
    ensures { IfOk result (λ text. text.items ≡ lines_of checksums initials trace.now) }
{
    let mut text = String::new(alloc);
    for sent in trace {
        put_line(alloc, &mut text, checksums, initials, trace, sent)?;
    }
    Ok(text.into_bytes())
}
