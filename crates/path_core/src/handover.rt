//! Handing a segment to the link: the step that tells it, and what it makes of the end and of the link.

ghost use Rattle.std.specs.Prelude.{◌+◌, ◌≡◌, ◌≤◌, ◌^◌, true, is_none, IsOk, IfOk, OnOk, OnErr};
ghost use Rattle.path_segments.specs.Laws.{window_told};
ghost use Rattle.subflow_tcp.specs.Emitting.{after_sending};
ghost use Rattle.actor_desk.specs.Kinds.{CanBeAsked};
ghost use Rattle.link_model.specs.Octets.{after_octets};
ghost use Rattle.segment_wire.specs.Reading.{segment_meaning};
ghost use Rattle.segment_wire.specs.Paths.{addresses_from};
ghost use Rattle.path_core.specs.Said.{plain_said, said_by, sent_kind, CanBeSaid};
ghost use Rattle.path_core.specs.Handover.{end_of, least, edge_told, has_mapping, with_mapping_told, sends, sent_on, handed};
ghost use Rattle.path_core.specs.declared.modes.Modes.{Modes};
ghost use Rattle.path_core.specs.Octets.{octets, made};
ghost use Rattle.path_core.specs.State.{end_at, left, path_of, with_agenda};
ghost use Rattle.path_core.specs.Steps.{passable, settles_down};

use crate::end::PathEnd;
use crate::modes::Modes;
use crate::said::{Said, SegmentKind};
use crate::state::PathState;
use actor_desk::{Ask, LocalStep};
use seq_units::Pos;
use sides::Side;
use std::alloc::AllocError;
use subflow_tcp::Occasion;

/// A segment as it is handed over: its octets, the edge of the window that it tells, and what the end knows after it.
#[derive(Drop)]
pub(crate) struct Handed {
    pub octets: Vec<u8>,
    pub told_edge: u64,
    pub modes: Modes,
}

/// The position behind a segment of data or FIN.
fn end_of(said: &Said<'_>) -> Pos
    ensures { result ≡ end_of (plain_said said.now) }
{
    let fin = if said.outgoing.fin { 1 } else { 0 };
    said.outgoing
        .position
        .saturating_add(said.payload.len() as u64 + fin)
}

/// The least of several positions.
pub(crate) fn least(known: Option<Pos>, position: Pos) -> Option<Pos>
    ensures { result ≡ least known position }
{
    match known {
        Some(known) => Some(known.min(position)),
        None => Some(position),
    }
}

/// The window in octets as a hearer reads it: a SYN tells it up to 65,535, all others in steps of 32 (RFC 7323).
pub(crate) fn window_told(syn: bool, window: u32) -> u32
    ensures value { result ≡ window_told syn window }
    ensures bound { result ≤ window }
{
    if syn {
        window.min(65_535)
    } else {
        window / 32 * 32
    }
}

impl PathEnd {
    /// The edge of the window that a segment of the end tells, a place of the peer's stream; for a reset, which tells none, the
    /// one told last.
    pub(crate) fn edge_told(&self, said: &Said<'_>) -> u64
        ensures value { result ≡ edge_told (plain_said said.now) self.now }
        ensures bound { said.now.window ≤ 2 ^ 20 → result ≤ 2 ^ 62 + 2 ^ 21 }
    {
        if said.outgoing.rst {
            return self.receiving.told_edge();
        }
        let window = window_told(said.outgoing.syn, said.window);
        self.receiving.next() + u64::from(window)
    }

    /// A segment with data or FIN has an infinite mapping, as long as that is owed.
    fn has_mapping(&self, said: &Said<'_>) -> bool
        ensures { result ≡ has_mapping (plain_said said.now) self.now }
    {
        let some = said.outgoing.fin || !said.payload.is_empty();
        self.modes.sends_plainly() && self.owes_mapping() && some
    }

    /// What the end knows after a segment: of those that had the owed infinite mapping the least end is kept (RFC 8684, section
    /// 3.7).
    pub(crate) fn modes_after(&self, said: &Said<'_>) -> Modes
        ensures { result ≡ (with_mapping_told (plain_said said.now) self.now).modes }
    {
        let mut modes = self.modes;
        if self.has_mapping(said) {
            modes.mapped_to = least(modes.mapped_to, end_of(said));
        }
        modes
    }

    /// A segment was sent on this occasion at this tick; it told this edge of the window, at most 2^62 + 2^21, and this is known
    /// after it (`edge_told`, `modes_after`).
    pub(crate) fn having_sent(&mut self, occasion: Occasion, now: u64, told_edge: u64, modes: Modes)
        requires { told_edge ≤ 2 ^ 62 + 2 ^ 21 }
        ensures { self.new ≡ record self.old {
          receiving = record self.old.receiving { told_edge = told_edge };
          modes = modes;
          tcp = after_sending occasion now self.old.tcp;
        } }
    {
        self.receiving.tell_edge(told_edge);
        self.modes = modes;
        self.tcp.sent(occasion, now);
    }
}

impl PathState {
    /// The segment of this kind that the end of a side sends.
    fn said(&self, side: Side, kind: SegmentKind) -> Said<'_>
        ensures value { plain_said result ≡
            said_by kind self.now.profile side (end_at side self.now) }
        ensures can { CanBeSaid self.now.profile.spelling side (plain_said result) }
    {
        self.end(side).said(&self.profile, side, kind)
    }

    /// The step of a segment that is sent. Takes no memory.
    pub(crate) fn sent_step(&self, side: Side, kind: SegmentKind) -> Ask
        ensures value { result ≡
            sends octets side (said_by kind self.now.profile side (end_at side self.now)) self.now }
        ensures able { CanBeAsked result }
    {
        let said = self.said(side, kind);
        Ask::Local(LocalStep::Sent {
            from: side,
            copy: self.link.next_number(side),
            length: said.payload.len() as u32,
            sum: said.sum(self.profile.spelling(), side),
        })
    }

    /// The octets of the segment of this kind, which mean that segment.
    #[tactic(auto, using(crate::proofs::SegmentsTold::made_whole))]
    pub(crate) fn octets_of(&self, side: Side, kind: SegmentKind) -> Result<Vec<u8>, AllocError>
        ensures value { IfOk result (λ text. text.items ≡
            made self.now.profile.spelling side
            (said_by kind self.now.profile side (end_at side self.now))) }
        ensures whole { IfOk result (λ text.
            IsOk (segment_meaning (addresses_from (path_of self.now) side) text.items)) }
    {
        // For the proof: the path is that of its spelling.
        let _path = self.number();
        let said = self.said(side, kind);
        said.octets(self.alloc, self.profile.spelling(), side)
    }

    /// What is handed over with the segment of this kind.
    pub(crate) fn handed(&self, side: Side, kind: SegmentKind) -> Result<Handed, AllocError>
        ensures octets { IfOk result (λ handed. handed.octets.items ≡
            made self.now.profile.spelling side
            (said_by kind self.now.profile side (end_at side self.now))) }
        ensures edge { IfOk result (λ handed. handed.told_edge ≡
            edge_told (said_by kind self.now.profile side (end_at side self.now))
            (end_at side self.now)) }
        ensures bound { IfOk result (λ handed. handed.told_edge ≤ 2 ^ 62 + 2 ^ 21) }
        ensures modes { IfOk result (λ handed. handed.modes ≡
            (with_mapping_told (said_by kind self.now.profile side (end_at side self.now))
            (end_at side self.now)).modes) }
    {
        let said = self.said(side, kind);
        let told_edge = self.end(side).edge_told(&said);
        let modes = self.end(side).modes_after(&said);
        let octets = said.octets(self.alloc, self.profile.spelling(), side)?;
        Ok(Handed {
            octets,
            told_edge,
            modes,
        })
    }

    /// The link takes the octets of the segment of this kind. At an error all is as it was.
    pub(crate) fn hand_octets(
        &mut self,
        side: Side,
        kind: SegmentKind,
        text: Vec<u8>,
    ) -> Result<(), AllocError>
        requires { text.items ≡
            made self.old.profile.spelling side
            (said_by kind self.old.profile side (end_at side self.old)) }
        ensures ok { OnOk result (self.new ≡
            record self.old {
              link = handed octets side (said_by kind self.old.profile side (end_at side self.old))
                  self.old;
            }) }
        ensures err { OnErr result (self.new ≡ self.old) }
    {
        self.link.send_owned(side, text, self.clock.now())?;
        Ok(())
    }

    /// The link takes the segment of this kind. At an error all is as it was.
    pub(crate) fn hand(&mut self, side: Side, kind: SegmentKind) -> Result<(), AllocError>
        ensures ok { OnOk result (self.new ≡
            record self.old {
              link = handed octets side (said_by kind self.old.profile side (end_at side self.old))
                  self.old;
            }) }
        ensures err { OnErr result (self.new ≡ self.old) }
    {
        let Handed {
            octets,
            told_edge: _,
            modes: _,
        } = self.handed(side, kind)?;
        self.hand_octets(side, kind, octets)
    }

    /// The link takes the segment of this kind, the end stays, and the first duty is done. At an error all is as it was.
    pub(crate) fn hand_and_leave(&mut self, side: Side, kind: SegmentKind) -> Result<(), AllocError>
        ensures ok { OnOk result (self.new ≡
            sent_on octets side (said_by kind self.old.profile side (end_at side self.old))
            (end_at side self.old) (left self.old) self.old) }
        ensures err { OnErr result (self.new ≡ self.old) }
    {
        self.hand(side, kind)?;
        self.done();
        Ok(())
    }

    /// The link takes octets from a side at the path's tick, as a segment that the side's end doesn't know of. At an error all is
    /// as it was.
    pub(crate) fn inject(&mut self, from: Side, octets: &[u8]) -> Result<(), AllocError>
        requires { is_none (passable self.old) ≡ true }
        ensures ok { OnOk result (self.new ≡
            settles_down
            (record self.old
            { link = after_octets from octets.now self.old.clock self.old.link })) }
        ensures err { OnErr result (self.new ≡ self.old) }
        ensures rests { is_none (passable self.new) ≡ true }
    {
        self.add(from, octets)?;
        self.settle();
        Ok(())
    }

    /// The link takes these octets from a side. At an error all is as it was.
    fn add(&mut self, from: Side, octets: &[u8]) -> Result<(), AllocError>
        ensures ok { OnOk result (self.new ≡
            record self.old { link = after_octets from octets.now self.old.clock self.old.link }) }
        ensures err { OnErr result (self.new ≡ self.old) }
    {
        self.link.send(from, octets, self.clock.now())?;
        Ok(())
    }

    /// The segment of this kind is sent on this occasion; the agenda stays. At an error all is as it was.
    pub(crate) fn send(
        &mut self,
        side: Side,
        kind: SegmentKind,
        occasion: Occasion,
    ) -> Result<(), AllocError>
        ensures ok { OnOk result (self.new ≡ sent_kind occasion kind side self.old) }
        ensures err { OnErr result (self.new ≡ self.old) }
    {
        let Handed {
            octets,
            told_edge,
            modes,
        } = self.handed(side, kind)?;
        self.hand_octets(side, kind, octets)?;
        let now = self.clock.now();
        self.end_mut(side)
            .having_sent(occasion, now, told_edge, modes);
        Ok(())
    }

    /// The segment of this kind is sent on this occasion, and the first duty is done. At an error all is as it was.
    pub(crate) fn send_and_leave(
        &mut self,
        side: Side,
        kind: SegmentKind,
        occasion: Occasion,
    ) -> Result<(), AllocError>
        ensures ok { OnOk result (self.new ≡
            with_agenda (left self.old) (sent_kind occasion kind side self.old)) }
        ensures err { OnErr result (self.new ≡ self.old) }
    {
        self.send(side, kind, occasion)?;
        self.done();
        Ok(())
    }
}
