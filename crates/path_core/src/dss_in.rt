//! What a DSS that is heard says, and what its mapping and its Data ACK make of the end (RFC 8684, section 3.3).

ghost use Rattle.std.specs.Prelude.{◌+◌, ◌≡◌, ◌<◌, ◌≤◌, ◌&&◌, ◌^◌, if◌then◌else◌, ◌++◌, is_some, ◌∷◌, length, OnOk, OnErr};
ghost use Rattle.std.specs.Option.{option_to_list};
ghost use Rattle.dss_mapping.specs.Mappings.{octets_in};
ghost use Rattle.path_agenda.specs.declared.heard.Heard.TheVariants as says;
ghost use Rattle.path_segments.specs.Options.{plain_option};
ghost use Rattle.actor_desk.specs.Kinds.{CanBeAsked};
ghost use Rattle.fallback_state.specs.declared.fall.Event.TheVariants as events;
ghost use Rattle.path_core.specs.DssIn.{is_mapping, mapping_items, first_items, ack_items, data_fin_items, infinite_items, map_items, checksum_heard, held_if, map_held, key_held, held_in, kept_of, with_learned, with_skipped, counts, is_clash, with_acked, with_data_ack, after_dss, is_acked, mapping_ask, answered_ack, answered_mapping, with_data_fin};
ghost use Rattle.path_core.specs.Octets.{octets};
ghost use Rattle.path_core.specs.Replies.{IsAckBounded};
ghost use Rattle.path_core.specs.State.{end_at, goes_on};
ghost use Rattle.path_core.specs.Fallback.{after_fell, fell_duties};

use crate::breaking::MPTCP_SPECIFIC;
use crate::end::PathEnd;
use crate::options_in::put;
use crate::profile::Profile;
use crate::state::PathState;
use actor_desk::{Ask, Reply};
use dss_mapping::KeptMapping;
use fallback_state::Event;
use mptcp_options::CapableKeys;
use path_agenda::{AskDuty, Duty, Heard, Items};
use path_segments::{HeardMapping, HeardOption, PathMapping, PathOption};
use path_store::PLACE_LIMIT;
use send_book::SendReply;
use seq_units::{Mapping, Pos};
use sides::Side;
use std::alloc::AllocError;

/// How many octets a mapping of this length has: its last number may be the DATA_FIN's (RFC 8684, section 3.3.3).
pub(crate) fn octets_in(length: u16, fin: bool) -> u16
    ensures { result ≡ octets_in length fin }
{
    if fin {
        length.saturating_sub(1)
    } else {
        length
    }
}

/// A mapping counts where it is of so many bytes behind the SYN, all of which have places below 2^62.
pub(crate) fn is_mapping(place: u64, position: Pos, count: u16) -> bool
    ensures { result ≡ is_mapping place position count }
{
    0 < position && place.saturating_add(u64::from(count)) <= PLACE_LIMIT
}

/// A mapping of so many bytes, where it counts.
fn put_mapping(items: &mut Items, place: u64, position: Pos, count: u16, fin: bool)
    requires { length items.old.items + length (mapping_items place position count fin) ≤ 37 }
    ensures { items.new.items ≡ items.old.items ++ mapping_items place position count fin }
{
    if is_mapping(place, position, count) {
        put(items, Heard::Mapping { fin });
    }
}

/// The mapping of the first piece, which stands at place 0 and position 1; one of no octets maps nothing.
pub(crate) fn put_first(items: &mut Items, count: u16)
    requires { length items.old.items + length (first_items count) ≤ 37 }
    ensures { items.new.items ≡ items.old.items ++ first_items count }
{
    if count > 0 {
        put_mapping(items, 0, 1, count, false);
    }
}

/// A Data ACK that names a place.
fn put_ack(items: &mut Items, next: Option<Option<u64>>, window: u32)
    requires { length items.old.items + length (ack_items next window) ≤ 37 }
    ensures { items.new.items ≡ items.old.items ++ ack_items next window }
{
    match next {
        Some(Some(next)) if next < PLACE_LIMIT => put(items, Heard::DataAck { next, window }),
        _ => {}
    }
}

/// The end of the stream, at a place of at most 2^62.
fn put_data_fin(items: &mut Items, place: u64)
    requires { length items.old.items + length (data_fin_items place) ≤ 37 }
    ensures { items.new.items ≡ items.old.items ++ data_fin_items place }
{
    if place <= PLACE_LIMIT {
        put(items, Heard::DataFin { place });
    }
}

/// An infinite mapping, which begins at a place below 2^62.
fn put_infinite(items: &mut Items, place: u64, position: Option<Pos>)
    requires { length items.old.items + length (infinite_items place position) ≤ 37 }
    ensures { items.new.items ≡ items.old.items ++ infinite_items place position }
{
    if place < PLACE_LIMIT {
        put(items, Heard::InfiniteMapping { place, position });
    }
}

/// A mapping or a DATA_FIN that names a place.
fn put_map(items: &mut Items, mapping: Option<HeardMapping>)
    requires { length items.old.items + length (map_items mapping) ≤ 37 }
    ensures { items.new.items ≡ items.old.items ++ map_items mapping }
{
    match mapping {
        Some(
            PathMapping::Bytes {
                place: Some(place),
                position: Some(position),
                length,
                fin,
                ..
            },
        ) => put_mapping(items, place, position, octets_in(length, fin), fin),
        Some(
            PathMapping::End {
                place: Some(place),
                ..
            },
        ) => put_data_fin(items, place),
        Some(
            PathMapping::Infinite {
                place: Some(place),
                position,
            },
        ) => put_infinite(items, place, position),
        _ => {}
    }
}

/// What a DSS says.
pub(crate) fn put_dss(
    items: &mut Items,
    next: Option<Option<u64>>,
    window: u32,
    mapping: Option<HeardMapping>,
)
    requires { length items.old.items +
        (1 + (length (ack_items next window) + length (map_items mapping))) ≤ 37 }
    ensures { items.new.items ≡
        items.old.items ++ says.Dss ∷ (ack_items next window ++ map_items mapping) }
{
    put(items, Heard::Dss);
    put_ack(items, next, window);
    put_map(items, mapping);
}

/// A Data ACK was taken.
fn is_acked(reply: &Reply) -> bool
    ensures { result ≡ is_acked reply.now }
{
    matches!(reply, Reply::Send(SendReply::Acked { .. }))
}

impl Profile {
    /// A mapping of the peer, as it was heard by the end of this side.
    fn kept_of(
        &self,
        side: Side,
        place: u64,
        position: Pos,
        length: u16,
        fin: bool,
        checksum: Option<u16>,
    ) -> KeptMapping
        ensures { result ≡
            kept_of self.now side place position length fin (checksum_heard checksum) }
    {
        let bare = self.bare_mapping(side.peer(), place, position, length);
        KeptMapping {
            pos: position,
            place,
            mapping: Mapping {
                checksum: checksum.unwrap_or(0),
                ..bare
            },
            fin,
        }
    }

    /// A mapping that is heard, as it is kept, where it counts.
    fn held_if(
        &self,
        side: Side,
        place: u64,
        position: Pos,
        length: u16,
        fin: bool,
        checksum: Option<u16>,
    ) -> Option<KeptMapping>
        ensures { option_to_list result ≡ held_if self.now side place position length fin checksum }
    {
        if is_mapping(place, position, octets_in(length, fin)) {
            Some(self.kept_of(side, place, position, length, fin, checksum))
        } else {
            None
        }
    }

    /// The mapping of a DSS.
    fn map_held(&self, side: Side, mapping: Option<HeardMapping>) -> Option<KeptMapping>
        ensures { option_to_list result ≡ map_held self.now side mapping }
    {
        match mapping {
            Some(
                PathMapping::Bytes {
                    place: Some(place),
                    position: Some(position),
                    length,
                    fin,
                    checksum,
                },
            ) => self.held_if(side, place, position, length, fin, checksum),
            _ => None,
        }
    }

    /// The mapping of an MP_CAPABLE with data, which B hears; data of no octets map nothing.
    fn key_held(&self, side: Side, keys: CapableKeys) -> Option<KeptMapping>
        ensures { option_to_list result ≡ key_held self.now side keys }
    {
        match (side, keys) {
            (
                Side::B,
                CapableKeys::WithData {
                    length,
                    checksum,
                    ..
                },
            ) if length > 0 => self.held_if(Side::B, 0, 1, length, false, checksum),
            _ => None,
        }
    }

    /// The mapping that an option says; MP_CAPABLE says none on a path that joins.
    pub(crate) fn held_in(&self, side: Side, option: &HeardOption<'_>) -> Option<KeptMapping>
        ensures { option_to_list result ≡ held_in self.now side (plain_option option.now) }
    {
        match *option {
            PathOption::Capable { keys, .. } if !self.is_joined() => self.key_held(side, keys),
            PathOption::Dss { mapping, .. } => self.map_held(side, mapping),
            _ => None,
        }
    }
}

impl PathEnd {
    /// Mappings and DATA_FINs count once the end has the peer's key.
    pub(crate) fn counts(&self) -> bool
        ensures { result ≡ counts self.now }
    {
        self.modes.peer_key.is_some()
    }

    /// The first mapping that is held gives a position another place.
    pub(crate) fn is_clash(&self) -> bool
        ensures { result ≡ is_clash self.now }
    {
        self.receiving.mappings.held_clashes()
    }

    /// The first mapping that is held is learned where it counts, and is held no longer.
    pub(crate) fn pass_mapping(&mut self)
        ensures { self.new ≡
            (if counts self.old then with_learned self.old else with_skipped self.old) }
    {
        if self.counts() {
            self.receiving.learn_held();
        } else {
            self.receiving.mappings.skip_held();
        }
    }

    /// Bytes of the stream are acknowledged up to a place, where the Data ACK was taken.
    pub(crate) fn take_ack_reply(&mut self, next: u64, reply: &Reply)
        requires { next < 2 ^ 62 }
        ensures { self.new ≡ with_acked next reply.now self.old }
    {
        self.sending.take_ack_reply(next, reply);
        self.hear_data_ack(next);
        self.treated.data_ack_taken = true;
    }

    /// A Data ACK was heard, which covers something or doesn't.
    pub(crate) fn hear_data_ack(&mut self, next: u64)
        ensures { self.new ≡ with_data_ack next self.old }
    {
        self.modes.covered |= 0 < next;
        self.modes.plain_acks = 0;
    }

    /// At A the first DSS clears the end, and answers the third MP_JOIN, which is news for the timer.
    pub(crate) fn pass_dss(&mut self, side: Side)
        ensures { self.new ≡ after_dss side self.old }
    {
        self.sending.news |= self.modes.owes_third;
        self.modes.clear |= side == Side::A;
        self.modes.owes_third = false;
    }
}

impl PathState {
    /// What a mapping asks.
    pub(crate) fn mapping_ask(&self, side: Side) -> Ask
        ensures value { result ≡ mapping_ask octets side self.now }
        ensures able { CanBeAsked result }
    {
        if self.end(side).is_clash() {
            self.break_ask(side, MPTCP_SPECIFIC)
        } else {
            self.fell_ask(side, Event::MappingHeard)
        }
    }

    /// A Data ACK that was taken and covers something is told next.
    pub(crate) fn answer_ack(&mut self, side: Side, next: u64, reply: &Reply)
        requires { next < 2 ^ 62 }
        ensures { self.new ≡ answered_ack side next reply.now self.old }
    {
        self.end_mut(side).take_ack_reply(next, reply);
        if is_acked(reply) && 0 < next {
            self.turns_to(Duty::Ask(AskDuty::AckHeard(side)));
        } else {
            self.done();
        }
    }

    /// A mapping that clashes breaks the path, any other is learned. At an error all is as it was.
    pub(crate) fn answer_mapping(&mut self, side: Side, reply: &Reply) -> Result<(), AllocError>
        requires { IsAckBounded reply.now }
        ensures ok { OnOk result (self.new ≡ answered_mapping octets side reply.now self.old) }
        ensures err { OnErr result (self.new ≡ self.old) }
    {
        if self.end(side).is_clash() {
            return self.answer_break(side, MPTCP_SPECIFIC, reply);
        }
        self.end_mut(side)
            .take_fell_reply(Event::MappingHeard, reply);
        self.end_mut(side).receiving.learn_held();
        self.go_by_verdict(side, reply);
        Ok(())
    }

    /// The end of the stream is told later.
    pub(crate) fn answer_data_fin(&mut self, side: Side, place: u64, reply: &Reply)
        requires { place ≤ 2 ^ 62 }
        ensures { self.new ≡
            goes_on side
            (with_data_fin place (after_fell events.MappingHeard reply.now (end_at side self.old)))
            (fell_duties side reply.now self.old) self.old }
    {
        self.end_mut(side)
            .take_fell_reply(Event::MappingHeard, reply);
        self.end_mut(side).treated.note_data_fin(place);
        self.go_by_verdict(side, reply);
    }
}
