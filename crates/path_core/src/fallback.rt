//! Fallback to plain TCP (RFC 8684, section 3.7): what the control book is told of options that are there or missing and of
//! failed checks, its verdict, and infinite mappings both ways.

ghost use Rattle.std.specs.Prelude.{◌≡◌, ◌-◌, ◌<◌, ◌^◌, Some, is_some, OnOk, IfSome, OnErr};
ghost use Rattle.actor_desk.specs.declared.ask.Reply.TheVariants as replies;
ghost use Rattle.fallback_state.specs.declared.fall.Event.TheVariants as events;
ghost use Rattle.actor_desk.specs.Kinds.{CanBeAsked};
ghost use Rattle.path_core.specs.Fallback.{is_fall, mode_in, fell_in, after_fell, lacks_data_ack, breaks_by_ack, plain_ack_stands, with_plain_ack, plain_next, subflow_ack_stands, with_plain_acked, plain_data_stands, check_failed_stands, with_failure, after_check_failed, is_infinite_send, may_go_infinite, infinite_from, infinite_in, with_infinite, with_own_infinite, after_fail_heard, is_infinite_receive, after_infinite, breaks_by, fell_ask, fell_duties, answered_fell, answered_identity, plain_ack_ask, answered_plain_ack, subflow_ack_ask, answered_subflow_ack, answered_check_failed, fail_ask, answered_fail, fail_heard_ask, answered_fail_heard, answered_infinite};
ghost use Rattle.path_core.specs.Deliver.{mapping_here, failing_by};
ghost use Rattle.path_core.specs.State.{end_at, with_agenda};
ghost use Rattle.path_core.specs.Octets.{octets};
ghost use Rattle.path_core.specs.Replies.{IsAckBounded};

use crate::breaking::MIDDLEBOX;
use crate::end::PathEnd;
use crate::modes::Modes;
use crate::profile::Profile;
use crate::state::PathState;
use actor_desk::{Ask, LocalStep, Reply};
use control_book::{ControlCall, ControlReply};
use dss_mapping::KeptMapping;
use fallback_state::{Event, Mode, Verdict};
use path_agenda::{Agenda, AskDuty, Duty};
use path_store::{InfiniteMapping, one_more};
use send_book::{SendCall, SendReply};
use seq_units::Pos;
use sides::Side;
use std::alloc::AllocError;

/// The side fell back to plain TCP.
fn is_fall(reply: &Reply) -> bool
    ensures { result ≡ is_fall reply.now }
{
    matches!(
        reply,
        Reply::Control(ControlReply::Verdict(Verdict::Went(Mode::Identity)))
    )
}

/// What is to be done where a path is broken: where bytes or an end were told, what is to be acknowledged is asked once more.
fn breaks_by(asked: bool, side: Side, reason: u8) -> Agenda
    ensures { result ≡ breaks_by asked side reason }
{
    if asked {
        Agenda::breaks(side, reason)
    } else {
        Agenda::resets(side, reason)
    }
}

/// The side sends by an infinite mapping from now on.
fn is_infinite_send(reply: &Reply) -> bool
    ensures { result ≡ is_infinite_send reply.now }
{
    matches!(
        reply,
        Reply::Control(ControlReply::Verdict(Verdict::Went(
            Mode::InfiniteSend | Mode::InfiniteBoth
        )))
    )
}

/// The side receives by an infinite mapping from now on.
fn is_infinite_receive(reply: &Reply) -> bool
    ensures { result ≡ is_infinite_receive reply.now }
{
    matches!(
        reply,
        Reply::Control(ControlReply::Verdict(Verdict::Went(
            Mode::InfiniteReceive | Mode::InfiniteBoth
        )))
    )
}

impl Modes {
    /// A verdict tells the mode, where it changed.
    fn take_control_reply(&mut self, reply: &ControlReply)
        ensures { self.new ≡ mode_in (replies.Control reply.now) self.old }
    {
        if let ControlReply::Verdict(Verdict::Went(mode)) = *reply {
            self.mode = mode;
        }
    }

    /// A verdict tells the mode.
    fn take_verdict_reply(&mut self, reply: &Reply)
        ensures { self.new ≡ mode_in reply.now self.old }
    {
        if let Reply::Control(reply) = reply {
            self.take_control_reply(reply);
        }
    }

    /// The verdict on an event was told. Where an option is missed on data or on an acknowledgement, the peer may not know of
    /// the fallback: it is told by an infinite mapping.
    pub(crate) fn take_fell_reply(&mut self, event: Event, reply: &Reply)
        ensures { self.new ≡ fell_in event reply.now self.old }
    {
        self.take_verdict_reply(reply);
        match event {
            Event::PlainData | Event::PlainAck => self.owes_mapping |= is_fall(reply),
            _ => {}
        }
    }
}

impl PathEnd {
    /// The verdict on an event was told.
    pub(crate) fn take_fell_reply(&mut self, event: Event, reply: &Reply)
        ensures { self.new ≡ after_fell event reply.now self.old }
    {
        self.modes.take_fell_reply(event, reply);
    }

    /// The copy acknowledges data without a Data ACK, which the side wants.
    fn lacks_data_ack(&self) -> bool
        ensures { result ≡ lacks_data_ack self.now }
    {
        self.treated.plain_ack && !self.modes.sends_plainly()
    }

    /// Whether the copy breaks the path, as it acknowledges data without a Data ACK though the side sends with mappings: a path
    /// that joined, as long as no Data ACK covered something on it; at the third such copy without a Data ACK between them that
    /// of a side that is sure.
    pub(crate) fn breaks_by_ack(&self, profile: &Profile) -> bool
        ensures { result ≡ breaks_by_ack profile.now self.now }
    {
        let joins = profile.is_joined() && !self.modes.covered;
        let third = self.modes.mode == Mode::Sure && 2 <= self.modes.plain_acks;
        self.lacks_data_ack() && (joins || third)
    }

    /// Whether such a copy breaks the path, or is told, since the side is starting (RFC 8684, section 3.7).
    pub(crate) fn plain_ack_stands(&self, profile: &Profile) -> bool
        ensures { result ≡ plain_ack_stands profile.now self.now }
    {
        self.breaks_by_ack(profile) || self.lacks_data_ack() && self.modes.mode == Mode::Starting
    }

    /// A copy that acknowledges data without a Data ACK is counted, up to three.
    pub(crate) fn count_plain_ack(&mut self)
        ensures { self.new ≡ with_plain_ack self.old }
    {
        if self.lacks_data_ack() {
            self.modes.plain_acks = one_more(self.modes.plain_acks);
        }
    }

    /// The verdict on such a copy was told; the copy is counted.
    pub(crate) fn take_plain_ack_reply(&mut self, reply: &Reply)
        ensures { self.new ≡ with_plain_ack (after_fell events.PlainAck reply.now self.old) }
    {
        self.take_fell_reply(Event::PlainAck, reply);
        self.count_plain_ack();
    }

    /// Whether the subflow's acknowledgement is told in the place of a Data ACK: the side sends without mappings, and no Data ACK
    /// of the copy was told (RFC 8684, section 3.7).
    pub(crate) fn subflow_ack_stands(&self) -> bool
        ensures { result ≡ subflow_ack_stands self.now }
    {
        self.plain_next().is_some() && !self.treated.data_ack_taken
    }

    /// How many bytes of the stream the subflow's acknowledgement stands for, where the side sends without mappings: fewer than
    /// 2^62.
    pub(crate) fn plain_next(&self) -> Option<u64>
        ensures value { result ≡ plain_next self.now }
        ensures bound { IfSome result (λ next. next < 2 ^ 62) }
    {
        self.modes.bytes_acknowledged(self.treated.acknowledged())
    }

    /// The subflow's acknowledgement was told: what it stands for is acknowledged, where the send book took that.
    pub(crate) fn take_subflow_ack_reply(&mut self, reply: &Reply)
        ensures { self.new ≡ with_plain_acked reply.now self.old }
    {
        if let Some(next) = self.plain_next() {
            self.sending.take_ack_reply(next, reply);
        }
    }

    /// The next byte came without any option, and the side is starting.
    pub(crate) fn plain_data_stands(&self) -> bool
        ensures { result ≡ plain_data_stands self.now }
    {
        self.treated.held_edge.is_some()
            && !self.treated.has_option
            && self.modes.mode == Mode::Starting
    }

    /// The mapping at the edge, where its octets are all there and aren't those that it was made for.
    fn failing_mapping(&self, checksums: bool) -> Option<KeptMapping>
        ensures { result ≡ failing_by checksums (mapping_here self.now) self.now.tcp }
    {
        let kept = self.mapping_at_edge()?;
        if checksums && self.is_whole(kept) && !self.is_right(kept) {
            Some(kept)
        } else {
            None
        }
    }

    /// Whether a failed check is told: the whole mapping at the edge is there with another checksum, and the peer's mappings
    /// count (RFC 8684, section 3.7).
    pub(crate) fn check_failed_stands(&self, profile: &Profile) -> bool
        ensures { result ≡ check_failed_stands profile.now self.now }
    {
        self.failing_mapping(profile.spelling().checksums).is_some()
            && self.modes.mode.reads_mappings()
    }

    /// Where the side goes on, acknowledgements tell this mapping; where the path is broken, its reset does.
    fn note_failed(&mut self, kept: KeptMapping, reply: &Reply)
        ensures { self.new ≡ with_failure (Some kept) reply.now self.old }
    {
        match *reply {
            Reply::Control(ControlReply::Verdict(Verdict::SendFail)) => {
                self.modes.failed_mapping = Some(kept.place);
            }
            Reply::Control(ControlReply::Verdict(Verdict::BreakPath(_))) => {
                self.treated.failed_mapping = Some(kept.place);
            }
            _ => {}
        }
    }

    /// The verdict on a failed check is noted with the mapping whose check failed, if any.
    fn note_failure(&mut self, failing: Option<KeptMapping>, reply: &Reply)
        ensures { self.new ≡ with_failure failing reply.now self.old }
    {
        if let Some(kept) = failing {
            self.note_failed(kept, reply);
        }
    }

    /// The verdict on a failed check was told: acknowledgements tell the mapping where the side goes on, the reset where the path
    /// is broken. The mapping's octets are forgotten.
    pub(crate) fn take_check_reply(&mut self, checksums: bool, reply: &Reply)
        ensures { self.new ≡ after_check_failed checksums reply.now self.old }
    {
        let failing = self.failing_mapping(checksums);
        self.take_fell_reply(Event::CheckFailed, reply);
        self.note_failure(failing, reply);
        self.check(checksums);
    }

    /// The send book is asked: the path is the side's sole one, and what isn't acknowledged stands together at the end of the record.
    pub(crate) fn may_go_infinite(&self) -> bool
        ensures { result ≡ may_go_infinite self.now }
    {
        self.modes.sole && self.sending.granted.is_tail(self.tcp.nxt())
    }

    /// The infinite mapping from this place on, which the first byte has that isn't acknowledged.
    fn infinite_from(&self, place: u64) -> InfiniteMapping
        ensures { result ≡ infinite_from place self.now }
    {
        let position = self.sending.granted.position_of(self.tcp.nxt(), place);
        InfiniteMapping { position, place }
    }

    /// The infinite mapping that an end goes by, where the book gave its bytes to the path.
    fn infinite_in(&self, reply: &Reply) -> Option<InfiniteMapping>
        ensures { result ≡ infinite_in reply.now self.now }
    {
        match *reply {
            Reply::Send(SendReply::Infinite { from }) => Some(self.infinite_from(from)),
            _ => None,
        }
    }

    /// The send book answered to an MP_FAIL: where it gave its bytes to this path alone, their infinite mapping is kept until the
    /// verdict.
    pub(crate) fn take_book_reply(&mut self, reply: &Reply)
        ensures { self.new ≡ with_infinite reply.now self.old }
    {
        self.treated.infinite_mapping = self.infinite_in(reply);
    }

    /// The side sends by this infinite mapping.
    fn send_infinite(&mut self, mapping: InfiniteMapping)
        ensures { self.new ≡ with_own_infinite mapping self.old }
    {
        self.modes.own_infinite = Some(mapping);
        self.modes.owes_mapping = true;
    }

    /// The verdict on the MP_FAIL was told.
    pub(crate) fn take_fail_reply(&mut self, reply: &Reply)
        ensures { self.new ≡ after_fail_heard reply.now self.old }
    {
        let mapping = self.treated.infinite_mapping;
        let contiguous = mapping.is_some();
        self.take_fell_reply(Event::FailHeard { contiguous }, reply);
        if let Some(mapping) = mapping {
            if is_infinite_send(reply) {
                self.send_infinite(mapping);
            }
        }
    }

    /// The verdict on the infinite mapping was told, which begins at this place and at this position, where its number means one.
    pub(crate) fn take_infinite_reply(&mut self, place: u64, position: Option<Pos>, reply: &Reply)
        ensures { self.new ≡ after_infinite place position reply.now self.old }
    {
        self.take_fell_reply(Event::InfiniteHeard, reply);
        if let Some(position) = position {
            if is_infinite_receive(reply) {
                self.modes.peer_infinite = Some(InfiniteMapping { position, place });
            }
        }
    }
}

impl PathState {
    /// An event is told that may change the mode.
    pub(crate) fn fell_ask(&self, side: Side, event: Event) -> Ask
        ensures value { result ≡ fell_ask side event self.now }
        ensures able { CanBeAsked result }
    {
        Ask::Control(
            side,
            ControlCall::Fell {
                path: self.number(),
                event,
            },
        )
    }

    /// The path is broken with this reason.
    fn break_by_verdict(&mut self, side: Side, reason: u8)
        ensures { self.new ≡
            with_agenda (breaks_by (end_at side self.old).treated.asked side reason) self.old }
    {
        let asked = self.end(side).treated.asked;
        self.sets_about(breaks_by(asked, side, reason));
    }

    /// What is to be done after a verdict: after a fall the send book is told, a path may be broken, and else the duty is done.
    pub(crate) fn go_by_verdict(&mut self, side: Side, reply: &Reply)
        ensures { self.new ≡ with_agenda (fell_duties side reply.now self.old) self.old }
    {
        match *reply {
            Reply::Control(ControlReply::Verdict(Verdict::Went(Mode::Identity))) => {
                self.turns_to(Duty::Ask(AskDuty::GoIdentity(side)));
            }
            Reply::Control(ControlReply::Verdict(Verdict::BreakPath(reason))) => {
                self.break_by_verdict(side, reason);
            }
            _ => self.done(),
        }
    }

    /// The verdict on an event was told.
    pub(crate) fn answer_fell(&mut self, side: Side, event: Event, reply: &Reply)
        ensures { self.new ≡ answered_fell side event reply.now self.old }
    {
        self.end_mut(side).take_fell_reply(event, reply);
        self.go_by_verdict(side, reply);
    }

    /// The send book was told that the side fell back to plain TCP, which the end knows from now on.
    pub(crate) fn answer_identity(&mut self, side: Side)
        ensures { self.new ≡ answered_identity side self.old }
    {
        self.end_mut(side).modes.identity = true;
        self.done();
    }

    /// What an acknowledgement without a Data ACK asks: the first step of a break, or it is told.
    pub(crate) fn plain_ack_ask(&self, side: Side) -> Ask
        ensures value { result ≡ plain_ack_ask octets side self.now }
        ensures able { CanBeAsked result }
    {
        if self.end(side).breaks_by_ack(&self.profile) {
            self.break_ask(side, MIDDLEBOX)
        } else {
            self.fell_ask(side, Event::PlainAck)
        }
    }

    /// An acknowledgement without a Data ACK was answered: the break's first step, or the verdict. At an error all is as it was.
    pub(crate) fn answer_plain_ack(&mut self, side: Side, reply: &Reply) -> Result<(), AllocError>
        requires { IsAckBounded reply.now }
        ensures ok { OnOk result (self.new ≡ answered_plain_ack octets side reply.now self.old) }
        ensures err { OnErr result (self.new ≡ self.old) }
    {
        if self.end(side).breaks_by_ack(&self.profile) {
            return self.answer_break(side, MIDDLEBOX, reply);
        }
        self.go_by_verdict(side, reply);
        self.end_mut(side).take_plain_ack_reply(reply);
        Ok(())
    }

    /// The acknowledgement of the subflow is told.
    pub(crate) fn subflow_ack_ask(&self, side: Side) -> Ask
        ensures value { result ≡ subflow_ack_ask side (end_at side self.now) }
        ensures able { CanBeAsked result }
    {
        let end = self.end(side);
        let window = u64::from(end.treated.window);
        match end.plain_next() {
            Some(next) => Ask::Send(side, SendCall::AckIn { next, window }),
            None => Ask::Local(LocalStep::End),
        }
    }

    /// The send book was told what the subflow acknowledged.
    pub(crate) fn answer_subflow_ack(&mut self, side: Side, reply: &Reply)
        ensures { self.new ≡ answered_subflow_ack side reply.now self.old }
    {
        self.end_mut(side).take_subflow_ack_reply(reply);
        self.done();
    }

    /// The control book answered to the failed check, and the side goes by its verdict.
    pub(crate) fn answer_check_failed(&mut self, side: Side, reply: &Reply)
        ensures { self.new ≡ answered_check_failed side reply.now self.old }
    {
        let checksums = self.profile.spelling().checksums;
        self.go_by_verdict(side, reply);
        self.end_mut(side).take_check_reply(checksums, reply);
    }

    /// An MP_FAIL asks the send book first, or it is told at once that the bytes are scattered.
    pub(crate) fn fail_ask(&self, side: Side) -> Ask
        ensures value { result ≡ fail_ask side self.now }
        ensures able { CanBeAsked result }
    {
        if self.end(side).may_go_infinite() {
            let path = self.number();
            Ask::Send(side, SendCall::GoInfinite { path })
        } else {
            self.fell_ask(side, Event::FailHeard { contiguous: false })
        }
    }

    /// An MP_FAIL was answered, by the send book where it was asked, else by the control book.
    pub(crate) fn answer_fail(&mut self, side: Side, reply: &Reply)
        ensures { self.new ≡ answered_fail side reply.now self.old }
    {
        if self.end(side).may_go_infinite() {
            self.end_mut(side).take_book_reply(reply);
            self.turns_to(Duty::Ask(AskDuty::FailHeard(side)));
        } else {
            self.answer_fell(side, Event::FailHeard { contiguous: false }, reply);
        }
    }

    /// The MP_FAIL is told, and whether the book gave its bytes to this path alone.
    pub(crate) fn fail_heard_ask(&self, side: Side) -> Ask
        ensures value { result ≡ fail_heard_ask side self.now }
        ensures able { CanBeAsked result }
    {
        let contiguous = self.end(side).treated.infinite_mapping.is_some();
        self.fell_ask(side, Event::FailHeard { contiguous })
    }

    /// The control book was told of the MP_FAIL, and the side goes by its verdict.
    pub(crate) fn answer_fail_heard(&mut self, side: Side, reply: &Reply)
        ensures { self.new ≡ answered_fail_heard side reply.now self.old }
    {
        self.end_mut(side).take_fail_reply(reply);
        self.go_by_verdict(side, reply);
    }

    /// The infinite mapping was told.
    pub(crate) fn answer_infinite(
        &mut self,
        side: Side,
        place: u64,
        position: Option<Pos>,
        reply: &Reply,
    )
        ensures { self.new ≡ answered_infinite side place position reply.now self.old }
    {
        self.end_mut(side)
            .take_infinite_reply(place, position, reply);
        self.go_by_verdict(side, reply);
    }
}
