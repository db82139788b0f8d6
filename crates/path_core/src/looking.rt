//! What the next step of a path hands to its link, what it takes from it, and its tick.

ghost use Rattle.std.specs.Prelude.{◌≡◌, Some, IsSome, IfOk, option_map, IfSome, length};
ghost use Rattle.link_model.specs.Steps.{arriving, next_number, segment_fate};
ghost use Rattle.path_core.specs.Looking.{send_of, ack_sends, broken_by, arrived, copy_arriving, departing, departing_as, duty_sends, first_sends, heard_sends, mapping_sends, next_arrival, octets_waiting, shown_arriving, step_sends, tick_with, unsent_sends, next_tick, IsSegmentOn};
ghost use Rattle.path_core.specs.Emission.{first_unsent};
ghost use Rattle.path_core.specs.Events.{next_event};
ghost use Rattle.path_core.specs.State.{end_at, path_of};
ghost use Rattle.path_core.specs.Treating.{item_of};

use crate::breaking::{MIDDLEBOX, MPTCP_SPECIFIC};
use crate::events::Event;
use crate::said::SegmentKind;
use crate::state::PathState;
use link_model::{Due, SegmentFate};
use octet_text::Text;
use path_agenda::{Duty, Heard, SendDuty, StepDuty};
use segment_wire::{Addresses, addresses_from};
use sides::Side;
use std::alloc::AllocError;

/// A segment that the next step of a path hands to its link.
#[derive(Drop)]
pub struct Departing {
    /// The side that sends it.
    pub from: Side,
    /// Its number in its direction, the first being 1.
    pub number: u64,
    /// Its octets, as the link takes them.
    pub octets: Text,
    /// What becomes of it.
    pub fate: SegmentFate,
}

/// A copy that arrives by the next step of a path.
#[derive(Clone, Copy)]
pub struct Arriving<'a> {
    /// The side that it goes to.
    pub to: Side,
    /// Its octets, as they arrive.
    pub octets: &'a [u8],
    /// The addresses between which it went.
    pub addresses: Addresses,
}

/// Which segment the end of a side sends.
#[derive(Clone, Copy)]
pub(crate) struct ToSend {
    /// The side of the end.
    pub from: Side,
    /// Which segment it is.
    pub kind: SegmentKind,
}

/// The segment of this kind, which this side sends.
fn to_send(from: Side, kind: SegmentKind) -> ToSend
    ensures { result ≡ record { from = from; kind = kind } }
{
    ToSend { from, kind }
}

/// The segment of a duty that sends one.
pub(crate) fn send_of(duty: SendDuty) -> ToSend
    ensures { Some result ≡ send_of duty }
{
    match duty {
        SendDuty::Update(side) => to_send(side, SegmentKind::Ack),
        SendDuty::Acknowledge(side) => to_send(side, SegmentKind::Ack),
        SendDuty::Syn(side) => to_send(side, SegmentKind::Unsent),
        SendDuty::FastClose(side) => to_send(side, SegmentKind::FastClose),
        SendDuty::Notice(side) => to_send(side, SegmentKind::Notice),
        SendDuty::DataFin(side) => to_send(side, SegmentKind::DataFin),
        SendDuty::Fin(side) => to_send(side, SegmentKind::Fin),
        SendDuty::SynAck(side) => to_send(side, SegmentKind::SynAck),
        SendDuty::Refuse(side) => to_send(side, SegmentKind::Refusal),
        SendDuty::Again(side) => to_send(side, SegmentKind::First),
        SendDuty::Answer(side) => to_send(side, SegmentKind::Answer),
        SendDuty::ResetAnswer(side) => to_send(side, SegmentKind::DeadAnswer),
        SendDuty::Resend(side) => to_send(side, SegmentKind::Resend),
        SendDuty::BreakReset { side, reason } => to_send(
            side,
            SegmentKind::Reset {
                reason: Some(reason),
            },
        ),
        SendDuty::Reset(side) => to_send(side, SegmentKind::Reset { reason: None }),
        SendDuty::ResetNoted(side) => to_send(side, SegmentKind::Reset { reason: None }),
    }
}

impl PathState {
    /// What the first step of a break sends: the reset, unless what is to be acknowledged is asked once more.
    fn broken_by(&self, side: Side, reason: u8) -> Option<ToSend>
        ensures { result ≡ broken_by side reason self.now }
    {
        if self.end(side).treated.asked {
            return None;
        }
        Some(to_send(
            side,
            SegmentKind::Reset {
                reason: Some(reason),
            },
        ))
    }

    /// What a mapping that was heard sends: it breaks the path where it clashes.
    fn mapping_sends(&self, side: Side) -> Option<ToSend>
        ensures { result ≡ mapping_sends side self.now }
    {
        if self.end(side).is_clash() {
            self.broken_by(side, MPTCP_SPECIFIC)
        } else {
            None
        }
    }

    /// What the thing of this number sends.
    fn heard_sends(&self, side: Side, index: u8) -> Option<ToSend>
        ensures { result ≡ heard_sends side (item_of index (end_at side self.now)) self.now }
    {
        match self.end(side).item(index) {
            Some(Heard::Mapping { .. }) => self.mapping_sends(side),
            _ => None,
        }
    }

    /// The first record that is to be sent.
    fn unsent_sends(&self, side: Side) -> Option<ToSend>
        ensures { result ≡ unsent_sends side (first_unsent (end_at side self.now)) }
    {
        match self.end(side).tcp.first_unsent() {
            Some(_) => Some(to_send(side, SegmentKind::Unsent)),
            None => None,
        }
    }

    /// What an acknowledgement without a Data ACK sends: it may break the path.
    fn ack_sends(&self, side: Side) -> Option<ToSend>
        ensures { result ≡ ack_sends side self.now }
    {
        if self.end(side).breaks_by_ack(&self.profile) {
            self.broken_by(side, MIDDLEBOX)
        } else {
            None
        }
    }

    /// Which segment a duty sends that sends, asks or takes an event, as the path stands.
    fn step_sends(&self, duty: StepDuty) -> Option<ToSend>
        ensures { result ≡ step_sends duty self.now }
    {
        match duty {
            StepDuty::Data(side) => self.unsent_sends(side),
            StepDuty::Heard { side, index } => self.heard_sends(side, index),
            StepDuty::PlainAck(side) => self.ack_sends(side),
            StepDuty::Unmapped(side) => self.broken_by(side, MIDDLEBOX),
            _ => None,
        }
    }

    /// Which segment a duty sends, if it sends one.
    fn duty_sends(&self, duty: Duty) -> Option<ToSend>
        ensures { result ≡ duty_sends duty self.now }
    {
        match duty {
            Duty::Send(duty) => Some(send_of(duty)),
            Duty::Step(duty) => self.step_sends(duty),
            _ => None,
        }
    }

    /// Which segment the next step sends, if it sends one.
    fn next_to_send(&self) -> Option<ToSend>
        ensures { result ≡ first_sends self.now.agenda self.now }
    {
        match self.agenda.first() {
            Some(duty) => self.duty_sends(duty),
            None => None,
        }
    }

    /// The number that the link gives to the next segment of a side.
    fn number_next(&self, from: Side) -> u64
        ensures { result ≡ next_number from self.now.link }
    {
        self.link.next_number(from)
    }

    /// What becomes of the segment of this number and of these octets, handed over at the path's tick.
    fn fate_now(&self, from: Side, number: u64, octets: &[u8]) -> SegmentFate
        ensures { result ≡
            segment_fate from number (length octets.now) self.now.clock self.now.link }
    {
        self.link
            .segment_fate(from, number, octets.len() as u64, self.clock.now())
    }

    /// The octets that wait before the link from a side as the round ends.
    pub(crate) fn octets_waiting(&self, side: Side) -> u32
        ensures { result ≡ octets_waiting side self.now }
    {
        self.link.octets_waiting(side, self.clock.until())
    }

    /// The segment as the link takes it.
    fn departing_as(&self, to_send: ToSend) -> Result<Departing, AllocError>
        ensures value { IfOk result (λ d. d ≡ departing_as self.now to_send) }
        ensures whole { IfOk result (IsSegmentOn (path_of self.now)) }
    {
        let ToSend { from, kind } = to_send;
        let number = self.number_next(from);
        let octets = self.octets_of(from, kind)?;
        let fate = self.fate_now(from, number, octets.as_slice());
        Ok(Departing {
            from,
            number,
            octets: Text::from(octets),
            fate,
        })
    }

    /// The segment that the next step hands to the link, if it hands one. The path stays as it is.
    pub(crate) fn outgoing(&self) -> Result<Option<Departing>, AllocError>
        ensures value { IfOk result (λ d. d ≡ departing self.now) }
        ensures whole { IfOk result (λ d. IfSome d (IsSegmentOn (path_of self.now))) }
    {
        match self.next_to_send() {
            Some(to_send) => Ok(Some(self.departing_as(to_send)?)),
            None => Ok(None),
        }
    }

    /// The octets of a copy that is under way.
    fn octets_under_way(&self, due: &Due) -> &[u8]
        requires { IsSome (arriving due.now self.now.link) }
        ensures { IfSome (arriving due.now self.now.link) (λ flight. result.now ≡ flight.carried) }
    {
        self.link.octets(due)
    }

    /// A copy as it arrives.
    #[tactic(auto, using(crate::proofs::SegmentsTold::arrived_is))]
    fn arriving_as(&self, due: &Due) -> Arriving<'_>
        requires { IsSome (arriving due.now self.now.link) }
        ensures { Some (shown_arriving result) ≡ arrived due.now self.now }
    {
        let octets = self.octets_under_way(due);
        Arriving {
            to: due.to,
            octets,
            addresses: addresses_from(self.number(), due.to.peer()),
        }
    }

    /// The copy of the next event, where it is an arrival.
    fn event_arriving(&self) -> Option<Arriving<'_>>
        ensures { option_map shown_arriving result ≡ copy_arriving (next_event self.now) self.now }
    {
        match self.next_event() {
            Some(Event::Arrives(due)) => Some(self.arriving_as(&due)),
            _ => None,
        }
    }

    /// The copy that arrives by the next step, if one does. Takes no memory.
    pub(crate) fn arriving(&self) -> Option<Arriving<'_>>
        ensures { option_map shown_arriving result ≡ next_arrival self.now }
    {
        match self.agenda.first() {
            Some(Duty::Step(StepDuty::Events)) => self.event_arriving(),
            _ => None,
        }
    }

    /// The tick of the next event, where there is one, and never one that is past.
    fn event_tick(&self) -> u64
        ensures { result ≡ tick_with (next_event self.now) self.now }
    {
        match self.next_event() {
            Some(event) => self.clock.now().max(event.tick()),
            None => self.clock.now(),
        }
    }

    /// The tick at which the next step stands.
    pub(crate) fn next_tick(&self) -> u64
        ensures { result ≡ next_tick self.now }
    {
        match self.agenda.first() {
            Some(Duty::Step(StepDuty::Events)) => self.event_tick(),
            _ => self.clock.now(),
        }
    }
}
