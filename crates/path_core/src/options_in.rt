//! What the options of a copy say (RFC 8684, section 3).

ghost use Rattle.std.specs.Prelude.{◌+◌, ◌≡◌, ◌<◌, ◌≤◌, not, if◌then◌else◌, ◌++◌, [], ◌∷◌, length, All, IfOk, OnOk};
ghost use Rattle.std.specs.List.{list_any};
ghost use Rattle.std.specs.Option.{option_to_list};
ghost use Rattle.dss_mapping.specs.Learning.{IsWithin};
ghost use Rattle.path_segments.specs.Options.{plain_option};
ghost use Rattle.path_segments.specs.HeardSegments.{heard_value};
ghost use Rattle.path_agenda.specs.Items.{IsFair};
ghost use Rattle.actor_desk.specs.Words.{is_nil};
ghost use Rattle.path_core.specs.DssIn.{held_of};
ghost use Rattle.path_core.specs.OptionsIn.{items_in, items_of, SaysFew, asks_capable, edge_in_payload, owes_by, opens_by, has_data_ack, octets_acked, is_plain_ack};

use crate::addresses::{put_address, put_notice, put_removed};
use crate::dss_in::put_dss;
use crate::mp_capable::put_keys;
use crate::mp_join::put_join;
use crate::profile::Profile;
use dss_mapping::KeptMapping;
use mptcp_options::CapableKeys;
use path_agenda::{Heard, Items, PeerNotice, one_wants_ack};
use path_segments::{HeardOption, HeardSegment, PathOption};
use seq_units::Pos;
use sides::Side;
use std::alloc::{AllocError, Global};
use subflow_tcp::{AckKind, Arrival, Meaning, State};

/// One thing more.
pub(crate) fn put(items: &mut Items, item: Heard)
    requires { length items.old.items < 37 }
    ensures { items.new.items ≡ items.old.items ++ item ∷ [] }
{
    items.push(item);
}

/// What one option says; MP_CAPABLE says nothing on a path that joins.
fn put_option(items: &mut Items, joined: bool, side: Side, window: u32, option: &HeardOption<'_>)
    requires { length items.old.items + length
        (items_in joined side window (plain_option option.now)) ≤ 37 }
    ensures { items.new.items ≡
        items.old.items ++ items_in joined side window (plain_option option.now) }
{
    match *option {
        PathOption::Capable { keys, .. } => {
            if !joined {
                put_keys(items, side, keys);
            }
        }
        PathOption::Join { form } => put_join(items, side, form),
        PathOption::Dss { next, mapping } => put_dss(items, next, window, mapping),
        PathOption::AddAddr {
            echo,
            id,
            address,
            port,
            hmac,
        } => put_address(items, echo, id, address, port, hmac),
        PathOption::Remove { ids } => put_removed(items, ids),
        PathOption::Prio { backup } => put_notice(items, PeerNotice::Prio { backup }),
        PathOption::Fail { .. } => put(items, Heard::Fail),
        PathOption::FastClose { key } => put(items, Heard::FastClose { key }),
        PathOption::Reset { .. } => {}
    }
}

/// A mapping behind the others, where there is one.
fn put_mapping(
    mappings: &mut Vec<KeptMapping>,
    mapping: Option<KeptMapping>,
) -> Result<(), AllocError>
    ensures { OnOk result (mappings.new.items ≡ mappings.old.items ++ option_to_list mapping) }
{
    match mapping {
        Some(mapping) => {
            mappings.push(mapping)?;
            Ok(())
        }
        None => Ok(()),
    }
}

/// All that a copy says to the end of this side, on a path that joins or on path 0, in the order of its options, which are
/// read once: things, in the place of what stood there, and the mappings.
///
/// # Errors
///
/// Only where there is no memory for the mappings.
pub(crate) fn read_options(
    alloc: Global,
    items: &mut Items,
    joined: bool,
    profile: &Profile,
    side: Side,
    heard: &HeardSegment<'_>,
) -> Result<Vec<KeptMapping>, AllocError>
    requires few { SaysFew (heard_value heard.now).options }
    ensures items { OnOk result (items.new.items ≡ items_of joined side (heard_value heard.now)) }
    ensures fair { OnOk result (All IsFair items.new.items) }
    ensures value { IfOk result (λ told. told.items ≡
        held_of profile.now side (heard_value heard.now)) }
    ensures within { IfOk result (λ told. All IsWithin told.items) }
{
    items.clear();
    let mut told = Vec::new(alloc);
    for option in heard.options {
        put_option(items, joined, side, heard.window, &option);
        put_mapping(&mut told, profile.held_in(side, &option))?;
    }
    Ok(told)
}

/// A segment as it is heard without its options.
fn without_options<'a>(heard: &HeardSegment<'a>) -> HeardSegment<'a>
    ensures { heard_value result ≡ record (heard_value heard.now) { options = [] } }
{
    let mut rest = *heard;
    while rest.options.next().is_some() {}
    rest
}

/// What an end hears of a segment; after a fallback no option (RFC 8684, section 3.7).
pub(crate) fn options_heard<'a>(identity: bool, heard: &HeardSegment<'a>) -> HeardSegment<'a>
    ensures { heard_value result ≡
        record (heard_value heard.now)
        { options = (if identity then [] else (heard_value heard.now).options) } }
{
    if identity {
        without_options(heard)
    } else {
        *heard
    }
}

/// An option asks for Multipath TCP: an MP_CAPABLE without a key.
fn is_capable(option: &HeardOption<'_>) -> bool
    ensures { result ≡ asks_capable (plain_option option.now) }
{
    matches!(
        *option,
        PathOption::Capable {
            keys: CapableKeys::NoKey,
            ..
        }
    )
}

/// Whether the SYN that opens path 0 asks for Multipath TCP.
pub(crate) fn asks_capable(heard: &HeardSegment<'_>) -> bool
    ensures { result ≡ list_any asks_capable (heard_value heard.now).options }
{
    for option in heard.options {
        if is_capable(&option) {
            return true;
        }
    }
    false
}

/// The receive edge, where a payload that is taken has the octet there.
pub(crate) fn edge_in_payload(meaning: Meaning, octets: &[u8], edge: Pos) -> Option<Pos>
    ensures { result ≡ edge_in_payload meaning octets.now edge }
{
    match meaning {
        Meaning::Taken { position, .. }
            if position <= edge && edge - position < octets.len() as u64 => { Some(edge) }
        _ => None,
    }
}

/// A copy that is taken may want an acknowledgement by what it says.
pub(crate) fn owes_by(meaning: Meaning, items: &[Heard]) -> bool
    ensures { result ≡ owes_by meaning items.now }
{
    match meaning {
        Meaning::Taken { .. } => one_wants_ack(items),
        _ => false,
    }
}

/// Whether a segment of this meaning establishes the end.
pub(crate) fn opens_by(meaning: Meaning, state: State) -> bool
    ensures { result ≡ opens_by meaning state }
{
    match meaning {
        Meaning::Taken { .. } => state == State::SynReceived,
        Meaning::Accepts { .. } => true,
        _ => false,
    }
}

/// Whether there is an option of Multipath TCP.
pub(crate) fn has_option(heard: &HeardSegment<'_>) -> bool
    ensures { result ≡ not (is_nil (heard_value heard.now).options) }
{
    let mut options = heard.options;
    options.next().is_some()
}

/// A DSS with a Data ACK, whatever that names.
fn is_data_ack(option: &HeardOption<'_>) -> bool
    ensures { result ≡ has_data_ack (plain_option option.now) }
{
    matches!(*option, PathOption::Dss { next: Some(_), .. })
}

/// Whether there is a DSS with a Data ACK.
fn has_data_ack(heard: &HeardSegment<'_>) -> bool
    ensures { result ≡ list_any has_data_ack (heard_value heard.now).options }
{
    for option in heard.options {
        if is_data_ack(&option) {
            return true;
        }
    }
    false
}

/// How many octets of data are acknowledged for the first time; what opens an end acknowledges its SYN alone.
fn octets_acked(arrival: Arrival) -> u64
    ensures { result ≡ octets_acked arrival }
{
    match arrival {
        Arrival::Took {
            ack: AckKind::New(octets),
            ..
        } => octets,
        _ => 0,
    }
}

/// Whether it acknowledges data for the first time, and has no Data ACK.
pub(crate) fn is_plain_ack(arrival: Arrival, heard: &HeardSegment<'_>) -> bool
    ensures { result ≡ is_plain_ack arrival (heard_value heard.now) }
{
    0 < octets_acked(arrival) && !has_data_ack(heard)
}
