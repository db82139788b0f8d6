//! The bytes that an end's receive edge passes are placed, piece by piece (RFC 8684, section 3.3.1).

ghost use Rattle.std.specs.Prelude.{◌+◌, ◌≡◌, ◌-◌, ◌<◌, ◌≤◌, ◌&&◌, ◌^◌, ◌++◌, min, is_some, true, IfOk, OnOk, length, take, option_map, IfSome};
ghost use Rattle.std.specs.List.{concat};
ghost use Rattle.dss_mapping.specs.Mappings.{mapping_at};
ghost use Rattle.subflow_recv.specs.Receiving.{filled};
ghost use Rattle.path_store.specs.Passing.{some_piece};
ghost use Rattle.actor_desk.specs.Kinds.{CanBeAsked};
ghost use Rattle.path_core.specs.Deliver.{is_placed, piece_from, is_whole, is_right, checked_piece, plain_piece, infinite_piece, mapping_here, mapped_with, piece_with, next_piece, after_piece, forgotten_by, having_asked, is_unmapped, times_unmapped, breaks_by_unmapped, after_unmapped, with_data_fin_reached, after_pieces, is_dropped, is_not_kept, after_keep, after_check, piece_ask, answered_piece, piece_of, refused};
ghost use Rattle.path_core.specs.State.{end_at, with_end};

use crate::breaking::MPTCP_SPECIFIC;
use crate::end::PathEnd;
use crate::profile::Profile;
use crate::state::PathState;
use actor_desk::{Ask, LocalStep, Reply};
use bytes::Bytes;
use dss_mapping::{KeptMapping, Mappings};
use fallback_state::Mode;
use octet_text::Text;
use path_agenda::Agenda;
use path_store::{InOrder, PLACE_LIMIT, covers, has_its_sum, is_there, passing, place_under};
use reassembly_book::{ReassemblyCall, ReassemblyReply};
use seq_units::Pos;
use sides::Side;
use std::alloc::{AllocError, Global};
use subflow_tcp::Parts;

/// Puts the first octets of a part at the end of a text, so many: they are shared where the text has none, and else copied.
fn put_part(alloc: Global, text: &mut Text, part: &Bytes, count: usize) -> Result<(), AllocError>
    requires { count ≤ length part.now }
    ensures { OnOk result (text.new ≡ text.old ++ take count part.now) }
{
    if text.is_empty() {
        *text = Text::of_shared(alloc, part.slice(0..count)?);
        Ok(())
    } else {
        text.append(&part.as_slice()[..count])
    }
}

/// The first octets of these parts, in order, as a text that is shared. They are copied where they stand in more than one part.
fn text_of(alloc: Global, parts: Parts<'_>, count: u64) -> Result<Text, AllocError>
    ensures octets { IfOk result (λ text. text ≡ take count (concat parts.entry)) }
    ensures few { IfOk result (λ text. length text ≤ count) }
{
    let mut text = Text::new(alloc);
    let mut left = count;
    for part in parts {
        if left == 0 {
            return text.share();
        }
        let taken = left.min(part.len() as u64);
        put_part(alloc, &mut text, part, taken as usize)?;
        left -= taken;
    }
    text.share()
}

/// A text, or the other one in its place where both have the same octets and the other one is kept anyhow.
fn or_kept(text: Text, kept: Option<&Text>) -> Result<Text, AllocError>
    ensures { IfOk result (λ same. same ≡ text) }
{
    match kept {
        Some(kept) if *kept == text => kept.copy(),
        _ => Ok(text),
    }
}

/// The mapping of a position.
fn mapping_at(mappings: &Mappings, edge: Pos) -> Option<KeptMapping>
    ensures value { result ≡ mapping_at mappings.now.mappings edge }
    ensures begun { IfSome result (λ kept. kept.pos ≤ edge) }
{
    mappings.mapping_at(edge)
}

/// The bytes were placed.
pub(crate) fn is_placed(reply: &Reply) -> bool
    ensures { result ≡ is_placed reply.now }
{
    matches!(reply, Reply::Reassembly(ReassemblyReply::Placed(_)))
}

impl PathEnd {
    /// How many octets are in order from the edge on.
    fn in_order(&self) -> u64
        ensures value { result ≡ length (filled self.now.tcp.recv.places) }
        ensures bound { self.now.tcp.recv.edge + result ≤ 2 ^ 62 }
    {
        self.tcp.held_end() - self.tcp.edge()
    }

    /// The mapping of the position at the edge; where the peer sends without mappings none counts.
    pub(crate) fn mapping_at_edge(&self) -> Option<KeptMapping>
        ensures value { result ≡ mapping_here self.now }
        ensures begun { IfSome result (λ kept. kept.pos ≤ self.now.tcp.recv.edge) }
    {
        if self.modes.receives_plainly(self.tcp.edge()) {
            None
        } else {
            mapping_at(&self.receiving.mappings, self.tcp.edge())
        }
    }

    /// The whole mapping is there.
    pub(crate) fn is_whole(&self, kept: KeptMapping) -> bool
        ensures { result ≡ is_whole kept self.now.tcp }
    {
        is_there(kept, self.tcp.edge(), self.in_order())
    }

    /// The checksum is that of its octets.
    pub(crate) fn is_right(&self, kept: KeptMapping) -> bool
        ensures { result ≡ is_right kept self.now.tcp }
    {
        has_its_sum(kept, self.tcp.held())
    }

    /// The octets at the edge that a mapping lets pass.
    fn checked_piece(&self, checksums: bool, kept: KeptMapping) -> Option<InOrder>
        requires { kept.pos ≤ self.now.tcp.recv.edge }
        ensures value { option_map (λ found. piece_from found self.now.tcp) result ≡
            checked_piece checksums kept self.now.tcp }
        ensures places { IfSome result (λ found. found.place + found.count ≤ 2 ^ 62) }
    {
        let held = self.in_order();
        passing(checksums, kept, self.tcp.edge(), held, self.tcp.held())
    }

    /// After a fallback: all that is in order, each byte at the place before its position.
    fn plain_piece(&self) -> Option<InOrder>
        ensures value { option_map (λ found. piece_from found self.now.tcp) result ≡
            some_piece (plain_piece self.now.tcp) }
        ensures places { IfSome result (λ found. found.place + found.count ≤ 2 ^ 62) }
    {
        let count = self.in_order();
        if 0 < count {
            let place = self.tcp.edge().saturating_sub(1);
            Some(InOrder { place, count })
        } else {
            None
        }
    }

    /// Under the peer's infinite mapping: all that is in order, with places below 2^62.
    fn infinite_piece(&self) -> Option<InOrder>
        ensures value { option_map (λ found. piece_from found self.now.tcp) result ≡
            infinite_piece self.now.modes.peer_infinite self.now.tcp }
        ensures places { IfSome result (λ found. found.place + found.count ≤ 2 ^ 62) }
    {
        let mapping = self.modes.peer_infinite?;
        let place = place_under(mapping, self.tcp.edge())?;
        let count = PLACE_LIMIT - place;
        if 0 < count.min(self.in_order()) {
            Some(InOrder { place, count })
        } else {
            None
        }
    }

    /// The next bytes to be placed, where the side didn't fall back: with checksums or without.
    fn mapped_piece(&self, checksums: bool) -> Option<InOrder>
        ensures value { option_map (λ found. piece_from found self.now.tcp) result ≡
            mapped_with checksums self.now }
        ensures places { IfSome result (λ found. found.place + found.count ≤ 2 ^ 62) }
    {
        if covers(self.modes.peer_infinite, self.tcp.edge()) {
            return self.infinite_piece();
        }
        match self.mapping_at_edge() {
            Some(kept) => self.checked_piece(checksums, kept),
            None => None,
        }
    }

    /// The next bytes to be placed: with checksums or without.
    fn piece_with(&self, checksums: bool) -> Option<InOrder>
        ensures value { option_map (λ found. piece_from found self.now.tcp) result ≡
            piece_with checksums self.now }
        ensures places { IfSome result (λ found. found.place + found.count ≤ 2 ^ 62) }
    {
        if self.modes.identity {
            self.plain_piece()
        } else {
            self.mapped_piece(checksums)
        }
    }

    /// The next bytes to be placed.
    pub(crate) fn next_piece(&self, profile: &Profile) -> Option<InOrder>
        ensures value { option_map (λ found. piece_from found self.now.tcp) result ≡
            next_piece profile.now self.now }
        ensures places { IfSome result (λ found. found.place + found.count ≤ 2 ^ 62) }
    {
        self.piece_with(profile.spelling().checksums)
    }

    /// The next bytes to be placed, where there are some: their checksum is right, and isn't looked at again.
    #[tactic(auto, using(crate::proofs::Pieces::right_piece))]
    fn right_piece(&self, profile: &Profile) -> Option<InOrder>
        requires { is_some (next_piece profile.now self.now) ≡ true }
        ensures value { option_map (λ found. piece_from found self.now.tcp) result ≡
            next_piece profile.now self.now }
        ensures places { IfSome result (λ found. found.place + found.count ≤ 2 ^ 62) }
    {
        self.piece_with(false)
    }

    /// Whether there are such bytes.
    pub(crate) fn has_piece(&self, profile: &Profile) -> bool
        ensures { result ≡ is_some (next_piece profile.now self.now) }
    {
        self.next_piece(profile).is_some()
    }

    /// The octets of such a piece: of those in order from the edge on at most its count.
    ///
    /// # Errors
    ///
    /// Only where there is no memory for them.
    pub(crate) fn octets_of(&self, alloc: Global, found: InOrder) -> Result<Text, AllocError>
        ensures octets { IfOk result (λ text. text ≡ (piece_from found self.now.tcp).octets) }
        ensures few { IfOk result (λ text. length text ≤ found.count) }
    {
        text_of(alloc, self.tcp.held(), found.count)
    }

    /// The edge passes such a piece, which the book placed; what is to be acknowledged is to be asked.
    pub(crate) fn place(&mut self, found: InOrder)
        ensures { self.new ≡ having_asked (after_piece (piece_from found self.old.tcp) self.old) }
    {
        let to = self.tcp.edge() + found.count.min(self.in_order());
        self.tcp.advance(to);
        self.receiving.mappings.forget_below(to);
        self.have_asked();
    }

    /// A whole mapping with a wrong checksum: all octets from its first position on are forgotten, so that what comes for
    /// them is kept again.
    pub(crate) fn check(&mut self, checksums: bool)
        ensures { self.new ≡ forgotten_by checksums (mapping_here self.old) self.old }
    {
        if let Some(kept) = self.mapping_at_edge() {
            if checksums && self.is_whole(kept) && !self.is_right(kept) {
                self.tcp.forget_from(kept.pos);
            }
        }
    }

    /// Bytes or an end were told.
    pub(crate) fn have_asked(&mut self)
        ensures { self.new ≡ having_asked self.old }
    {
        self.treated.asked = true;
    }

    /// The copy has the byte at the edge, which has no mapping.
    fn is_unmapped(&self) -> bool
        ensures { result ≡ is_unmapped self.now }
    {
        self.treated.held_edge == Some(self.tcp.edge())
            && !self.modes.receives_plainly(self.tcp.edge())
            && self.mapping_at_edge().is_none()
    }

    /// How often it came so, this copy among them.
    fn times_unmapped(&self) -> u64
        ensures { result ≡ times_unmapped self.now }
    {
        self.receiving.times_unmapped(self.tcp.edge())
    }

    /// Whether the octet at the receive edge came for the third time without a mapping, and the side is sure: that breaks the
    /// path.
    pub(crate) fn breaks_by_unmapped(&self) -> bool
        ensures { result ≡ breaks_by_unmapped self.now }
    {
        self.is_unmapped() && self.modes.mode == Mode::Sure && 3 <= self.times_unmapped()
    }

    /// An octet that came without a mapping is counted.
    fn count_unmapped(&mut self)
        ensures { self.new ≡ after_unmapped self.old }
    {
        if self.is_unmapped() {
            let (times, edge) = (self.times_unmapped(), self.tcp.edge());
            self.receiving.note_unmapped(times, edge);
        }
    }

    /// A DATA_FIN behind bytes is told next, where the edge reached it.
    fn reach_data_fin(&mut self)
        ensures { self.new ≡ with_data_fin_reached self.old }
    {
        if let Some(place) = self.receiving.take_reached(self.tcp.edge()) {
            self.treated.note_data_fin(place);
        }
    }

    /// No more bytes can be placed: an octet at the edge without a mapping is counted, and a DATA_FIN behind bytes that the edge
    /// reached is told next.
    pub(crate) fn pass_pieces(&mut self)
        ensures { self.new ≡ after_pieces self.old }
    {
        self.count_unmapped();
        self.reach_data_fin();
    }

    /// B drops the payload of a copy with an option, as long as it has neither both keys nor fell back.
    fn is_dropped(&self, side: Side) -> bool
        ensures { result ≡ is_dropped side self.now }
    {
        let open = self.modes.clear || self.modes.identity;
        side == Side::B && !open && self.treated.has_option
    }

    /// The payload isn't kept: it is dropped, or the peer's FIN was passed.
    fn is_not_kept(&self, side: Side) -> bool
        ensures { result ≡ is_not_kept side self.now }
    {
        self.is_dropped(side) || self.tcp.is_fin_passed()
    }

    /// The payload that is held is kept; B drops it where its copy has an option, as long as the end has neither both keys nor
    /// fell back.
    pub(crate) fn keep(&mut self, side: Side)
        ensures { self.new ≡ after_keep side self.old }
    {
        let dropped = self.is_dropped(side);
        if self.is_not_kept(side) {
            self.treated.held_edge = None;
        }
        if dropped {
            self.tcp.drop_held();
        } else {
            self.tcp.keep_held();
        }
    }
}

impl PathState {
    /// The next bytes to be placed at a side, where there are some.
    fn piece(&self, side: Side) -> Option<InOrder>
        requires { is_some (piece_of side self.now) ≡ true }
        ensures value { option_map (λ found. piece_from found (end_at side self.now).tcp) result ≡
            piece_of side self.now }
        ensures places { IfSome result (λ found. found.place + found.count ≤ 2 ^ 62) }
    {
        self.end(side).right_piece(&self.profile)
    }

    /// The octets of such a piece. Where they are the piece that the other end sent at this position, and still has, they are
    /// shared with it, and what came is let go.
    fn piece_text(&self, side: Side, found: InOrder) -> Result<Text, AllocError>
        ensures octets { IfOk result (λ text. text ≡
            (piece_from found (end_at side self.now).tcp).octets) }
        ensures few { IfOk result (λ text. length text ≤ found.count) }
    {
        let end = self.end(side);
        let octets = end.octets_of(self.alloc, found)?;
        or_kept(octets, self.end(side.peer()).tcp.text_at(end.tcp.edge()))
    }

    /// They are to be placed. Takes memory for them.
    pub(crate) fn piece_ask(&self, side: Side) -> Result<Ask, AllocError>
        requires { is_some (piece_of side self.now) ≡ true }
        ensures ask { IfOk result (λ ask. ask ≡ piece_ask side (piece_of side self.now)) }
        ensures able { IfOk result CanBeAsked }
    {
        match self.piece(side) {
            Some(found) => {
                let bytes = self.piece_text(side, found)?;
                let at = found.place;
                Ok(Ask::Reassembly(side, ReassemblyCall::Place { at, bytes }))
            }
            None => Ok(Ask::Local(LocalStep::End)),
        }
    }

    /// What was placed is behind the edge; what the book refuses breaks the path.
    pub(crate) fn answer_piece(&mut self, side: Side, reply: &Reply)
        requires { is_some (piece_of side self.old) ≡ true }
        ensures { self.new ≡
            answered_piece side (piece_of side self.old) (is_placed reply.now) self.old }
    {
        match self.piece(side) {
            Some(found) => self.answer_found(side, found, reply),
            None => self.refuse(side),
        }
    }

    /// What was placed of these bytes is behind the edge; what the book refuses breaks the path.
    fn answer_found(&mut self, side: Side, found: InOrder, reply: &Reply)
        ensures { self.new ≡
            answered_piece side (Some (piece_from found (end_at side self.old).tcp))
            (is_placed reply.now) self.old }
    {
        if is_placed(reply) {
            self.end_mut(side).place(found);
        } else {
            self.refuse(side);
        }
    }

    /// Octets with a wrong checksum are forgotten.
    pub(crate) fn check(&mut self, side: Side)
        ensures { self.new ≡
            with_end side (after_check self.old.profile (end_at side self.old)) self.old }
    {
        let checksums = self.profile.spelling().checksums;
        self.end_mut(side).check(checksums);
    }

    /// What the book refuses breaks the path.
    pub(crate) fn refuse(&mut self, side: Side)
        ensures { self.new ≡ refused side self.old }
    {
        self.end_mut(side).have_asked();
        self.sets_about(Agenda::breaks(side, MPTCP_SPECIFIC));
    }
}
