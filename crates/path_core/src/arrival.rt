//! A copy that arrives: what it means to an end, and what it makes of the end at once. The rest is treated duty by duty.

ghost use Rattle.std.specs.Prelude.{◌≡◌, ◌<◌, ◌≤◌, ◌^◌, not, false, if◌then◌else◌, Some, unwrap_or, IfOk, length, option_map, All, OnOk, IfSome, OnErr};
ghost use Rattle.subflow_tcp.specs.Segments as subflow;
ghost use Rattle.path_segments.specs.HeardSegments.{heard_value, IsHeardShort};
ghost use Rattle.path_segments.specs.HeardLent.{IsLow, IsExpected};
ghost use Rattle.path_segments.specs.Heard.{heard_in};
ghost use Rattle.subflow_tcp.specs.Judging.{IsBelow, meaning_of};
ghost use Rattle.subflow_tcp.specs.Taking.{after_arrival, arrival_of, unkept};
ghost use Rattle.path_agenda.specs.Items.{IsFair};
ghost use Rattle.actor_desk.specs.Words.{is_nil};
ghost use Rattle.dss_mapping.specs.Learning.{IsWithin};
ghost use Rattle.sides.specs.Side.{peer};
ghost use Rattle.path_core.specs.Arrival.{copy_of, position_numbered, position_meant, reset_for, position_in, acknowledged_in, template_by, template_judged, with_payload, IsTakenAs, owing_if, asked_in, expected_by, with_held, after_copy, judged_in, segment_heard, template_of, told_at, heard_at, copy_taken};
ghost use Rattle.path_core.specs.OptionsIn.{SaysFew, owes_by, is_plain_ack, items_of};
ghost use Rattle.path_core.specs.Octets.{octets, read};
ghost use Rattle.path_core.specs.Judged.{is_ignored, is_taken, taken_as, judged_of, after_join};
ghost use Rattle.path_core.specs.Treated.{nothing_treated};
ghost use Rattle.path_core.specs.declared.events.Event.TheVariants as event;
ghost use Rattle.path_core.specs.Events.{CanHappen};
ghost use Rattle.path_core.specs.State.{end_at};

use crate::breaking::MPTCP_SPECIFIC;
use crate::end::PathEnd;
use crate::judged::Judged;
use crate::modes::Modes;
use crate::options_in::{
    asks_capable, edge_in_payload, has_option, is_plain_ack, opens_by, options_heard, owes_by,
    read_options,
};
use crate::profile::Profile;
use crate::state::PathState;
use crate::treated::Treated;
use dss_mapping::KeptMapping;
use link_model::Due;
use path_agenda::{Agenda, Heard, Items, place_in_first};
use path_segments::{Expected, HeardPosition, HeardSegment, Spelling, parse_segment};
use seq_units::Pos;
use sides::Side;
use std::alloc::AllocError;
use subflow_tcp::{Arrival, Arriving, Meaning, Outgoing, Subflow};

/// How many positions it occupies.
fn occupied(heard: &HeardSegment<'_>) -> u64
    requires { IsHeardShort (heard_value heard.now) }
    ensures value { result ≡ subflow.occupied (copy_of (heard_value heard.now)) }
    ensures few { result ≤ 65537 }
{
    heard.payload.len() as u64 + u64::from(heard.syn) + u64::from(heard.fin)
}

/// What octets of this side say to an end that expects these positions and places, where they are a segment: 37 things at most.
/// Takes no memory.
pub(crate) fn heard_of<'a>(
    spelling: &Spelling,
    from: Side,
    expected: &Expected,
    octets: &'a [u8],
) -> Option<HeardSegment<'a>>
    requires { IsExpected expected.now }
    ensures value { option_map heard_value result ≡
        heard_in spelling.now from expected.now octets.now }
    ensures short { IfSome result (λ heard. IsHeardShort (heard_value heard)) }
    ensures few { IfSome result (λ heard. SaysFew (heard_value heard).options) }
{
    parse_segment(spelling, from, expected, octets)
}

/// The header and the payload of a segment that is heard.
fn arriving_of<'a>(heard: &HeardSegment<'a>) -> Arriving<'a>
    ensures { subflow.copy_of result ≡ copy_of (heard_value heard.now) }
{
    Arriving {
        position: position_in(heard.position),
        acknowledged: acknowledged_in(heard.acknowledged),
        syn: heard.syn,
        fin: heard.fin,
        rst: heard.rst,
        window: heard.window,
        payload: heard.payload,
    }
}

/// The position that a number means.
fn position_in(heard: HeardPosition) -> Option<Pos>
    ensures { result ≡ position_in heard }
{
    match heard {
        HeardPosition::At(position) => Some(position),
        HeardPosition::Nowhere(_) => None,
    }
}

/// The position that it acknowledges, 0 where its number means none.
fn acknowledged_in(heard: Option<HeardPosition>) -> Option<Pos>
    ensures { result ≡ acknowledged_in heard }
{
    Some(position_in(heard?).unwrap_or(0))
}

/// What is to be done after a copy of this meaning that says so many things, 37 at most.
fn template_by(joined: bool, side: Side, count: usize, meaning: Meaning) -> Agenda
    requires { count ≤ 37 }
    ensures { result ≡ template_by joined side count meaning }
{
    match meaning {
        Meaning::Ignored | Meaning::Unacknowledging => Agenda::emission(side),
        Meaning::Unwanted => Agenda::answers_dead(side),
        Meaning::Opens => Agenda::syn_came(side),
        Meaning::Accepts { .. } if joined => Agenda::join_answered(side),
        Meaning::Accepts { .. } => Agenda::syn_ack_came(side),
        Meaning::RepeatedSyn => Agenda::syn_again(side),
        Meaning::Outside | Meaning::Challenged | Meaning::Ahead => Agenda::answers(side),
        Meaning::Kills => Agenda::leaves(side),
        Meaning::Taken { .. } => Agenda::copy_came(side, count),
    }
}

/// What is to be done after a copy that is this to the end and says so many things, 37 at most.
fn template_judged(joined: bool, side: Side, count: usize, judged: Judged) -> Agenda
    requires { count ≤ 37 }
    ensures { result ≡ template_judged joined side count judged }
{
    match judged {
        Judged::As(meaning) => template_by(joined, side, count, meaning),
        Judged::Asks => Agenda::join_came(side),
        Judged::Lacks => Agenda::refuses(side),
        Judged::Forged => Agenda::resets(side, MPTCP_SPECIFIC),
    }
}

/// The payload of a copy is held where it is taken. At an error all is as it was.
fn hold_payload(tcp: &mut Subflow, meaning: Meaning, payload: &[u8]) -> Result<(), AllocError>
    requires below { IsBelow meaning }
    requires small { length payload.now ≤ 65535 }
    ensures ok { OnOk result (tcp.new ≡ with_payload meaning payload.now tcp.old) }
    ensures err { OnErr result (tcp.new ≡ tcp.old) }
{
    match meaning {
        Meaning::Taken { position, .. } if !payload.is_empty() => tcp.hold(position, payload),
        _ => Ok(()),
    }
}

/// A subflow takes a copy that means this.
fn take_meant(
    tcp: &mut Subflow,
    meaning: Meaning,
    arriving: &Arriving<'_>,
    place: Option<u64>,
    now: u64,
) -> Arrival
    requires taken { IsTakenAs meaning (subflow.copy_of arriving.now) tcp.old }
    requires some { is_ignored meaning ≡ false }
    ensures arrival { result ≡
        arrival_of meaning (unkept place) (subflow.copy_of arriving.now) tcp.old }
    ensures after { tcp.new ≡
        after_arrival meaning (unkept place) now (subflow.copy_of arriving.now) tcp.old }
{
    tcp.take_segment(meaning, arriving, place, now)
}

/// A subflow takes a copy as this: as what it means, or as nothing.
fn take_as(
    tcp: &mut Subflow,
    meaning: Meaning,
    arriving: &Arriving<'_>,
    place: Option<u64>,
    now: u64,
) -> Arrival
    requires { IsTakenAs meaning (subflow.copy_of arriving.now) tcp.old }
    ensures arrival { result ≡
        arrival_of meaning (unkept place) (subflow.copy_of arriving.now) tcp.old }
    ensures after { tcp.new ≡
        after_arrival meaning (unkept place) now (subflow.copy_of arriving.now) tcp.old }
{
    match meaning {
        Meaning::Ignored => Arrival::Dropped,
        _ => take_meant(tcp, meaning, arriving, place, now),
    }
}

/// A copy that is taken may want an acknowledgement by what it says.
fn owe_by(tcp: &mut Subflow, meaning: Meaning, items: &[Heard])
    ensures { tcp.new ≡ owing_if (owes_by meaning items.now) tcp.old }
{
    if owes_by(meaning, items) {
        tcp.ack_due(false);
    }
}

/// What is still to be treated of a copy that was taken so, but for its positions.
fn treat(
    treated: &mut Treated,
    items: &Items,
    opened: bool,
    heard: &HeardSegment<'_>,
    answer: Outgoing,
    arrival: Arrival,
)
    requires { All IsFair items.now.items }
    ensures { treated.new ≡ record nothing_treated {
      items = items.now.items;
      opened = opened;
      has_option = not (is_nil (heard_value heard.now).options);
      answer = Some answer;
      window = (heard_value heard.now).window;
      plain_ack = is_plain_ack arrival (heard_value heard.now);
    } }
{
    treated.begin(items, opened, has_option(heard), answer, heard.window);
    treated.plain_ack = is_plain_ack(arrival, heard);
}

/// What B's end knows of a SYN that opens it: whether that asks for Multipath TCP.
fn asked_in(meaning: Meaning, heard: &HeardSegment<'_>, modes: Modes) -> Modes
    ensures { result ≡ asked_in meaning (heard_value heard.now).options modes }
{
    match meaning {
        Meaning::Opens => Modes {
            capable_asked: asks_capable(heard),
            ..modes
        },
        _ => modes,
    }
}

impl Profile {
    /// The position below 2^32 at which a side's subflow has a number.
    fn position_numbered(&self, side: Side, number: u32) -> Pos
        ensures value { result ≡ position_numbered self.now side number }
        ensures low { result < 2 ^ 32 }
    {
        let initial = match side {
            Side::A => self.spelling().a.initial,
            Side::B => self.spelling().b.initial,
        };
        u64::from(number.wrapping_sub(initial.0))
    }

    /// A position with the number that was heard, whether that names one or not.
    fn position_meant(&self, side: Side, heard: HeardPosition) -> Pos
        ensures value { result ≡ position_meant self.now side heard }
        ensures low { IsLow heard → result < 2 ^ 63 }
    {
        match heard {
            HeardPosition::At(position) => position,
            HeardPosition::Nowhere(number) => self.position_numbered(side, number),
        }
    }

    /// The reset that answers a copy at a dead end: at the number that the copy acknowledges, or else at number 0 with an
    /// acknowledgement of all that it occupies (RFC 9293, section 3.10.7.1).
    pub(crate) fn reset_for(&self, side: Side, heard: &HeardSegment<'_>) -> Outgoing
        requires { IsHeardShort (heard_value heard.now) }
        ensures { result ≡ reset_for self.now side (heard_value heard.now) }
    {
        let (position, acknowledged) = match heard.acknowledged {
            Some(acknowledged) => (self.position_meant(side, acknowledged), None),
            None => {
                let first = self.position_meant(side.peer(), heard.position);
                (
                    self.position_numbered(side, 0),
                    Some(first + occupied(heard)),
                )
            }
        };
        Outgoing {
            position,
            acknowledged,
            syn: false,
            fin: false,
            rst: true,
            length: 0,
        }
    }
}

impl PathEnd {
    /// What the end counts from: positions of its subflow and places of both streams, at most 2^62 + 2^20.
    pub(crate) fn expected(&self) -> Expected
        ensures value { result ≡ expected_by self.now }
        ensures within { IsExpected result }
    {
        // For the proof: what was sent ends at or before position 2^62.
        let _sent = self.tcp.nxt();
        Expected {
            edge: self.tcp.edge(),
            unacknowledged: self.tcp.una(),
            told: self.sending.heard(),
            place: self.receiving.next(),
        }
    }

    /// The payload of a copy is held where it is taken, and its mappings are. At an error all is as it was.
    fn hold(
        &mut self,
        meaning: Meaning,
        heard: &HeardSegment<'_>,
        told: Vec<KeptMapping>,
    ) -> Result<(), AllocError>
        requires below { IsBelow meaning }
        requires small { length heard.now.payload.now ≤ 65535 }
        requires within { All IsWithin told.items }
        ensures ok { OnOk result (self.new ≡
            with_held told.items (heard_value heard.now) meaning self.old) }
        ensures err { OnErr result (self.new ≡ self.old) }
    {
        self.receiving.mappings.make_ready(told.len())?;
        hold_payload(&mut self.tcp, meaning, heard.payload)?;
        self.receiving.mappings.hold(told);
        Ok(())
    }

    /// The position that a copy of this meaning acknowledges, where it is taken: no later one than was sent. Else 0.
    fn acknowledged_by(&self, meaning: Meaning, heard: &HeardSegment<'_>) -> Pos
        requires { IsTakenAs meaning (copy_of (heard_value heard.now)) self.now.tcp }
        ensures value { result ≡
            (if is_taken meaning then unwrap_or (copy_of (heard_value heard.now)).acknowledged 0
            else 0) }
        ensures bound { result ≤ 2 ^ 62 }
    {
        // For the proof: what was sent ends at or before position 2^62.
        let _sent = self.tcp.nxt();
        match meaning {
            Meaning::Taken { acknowledged, .. } => acknowledged,
            _ => 0,
        }
    }

    /// The subflow takes a copy of this meaning, which says these things and acknowledges this position where it is taken; they are
    /// still to be treated.
    fn take_copy_meant(
        &mut self,
        items: &Items,
        now: u64,
        heard: &HeardSegment<'_>,
        meaning: Meaning,
        acknowledged: Pos,
        answer: Outgoing,
    )
        requires fair { All IsFair items.now.items }
        requires acknowledged { acknowledged ≡
            (if is_taken meaning then unwrap_or (copy_of (heard_value heard.now)).acknowledged 0
            else 0) }
        requires near { acknowledged ≤ 2 ^ 62 }
        requires meaning { IsTakenAs meaning (copy_of (heard_value heard.now)) self.old.tcp }
        ensures { self.new ≡
            after_copy items.now.items answer now (heard_value heard.now) meaning self.old }
    {
        let opened = opens_by(meaning, self.tcp.state());
        let held_edge = edge_in_payload(meaning, heard.payload, self.tcp.edge());
        let place = place_in_first(items.as_slice());
        let arrival = take_as(&mut self.tcp, meaning, &arriving_of(heard), place, now);
        owe_by(&mut self.tcp, meaning, items.as_slice());
        treat(&mut self.treated, items, opened, heard, answer, arrival);
        self.treated.note_positions(acknowledged, held_edge);
        self.modes = asked_in(meaning, heard, self.modes);
    }

    /// A copy that is this to the end, and says these things and these mappings, is taken, and is answered so at a dead end.
    /// At an error all is as it was.
    fn take_judged(
        &mut self,
        joined: bool,
        items: &Items,
        now: u64,
        heard: &HeardSegment<'_>,
        meaning: Meaning,
        told: Vec<KeptMapping>,
        answer: Outgoing,
    ) -> Result<(), AllocError>
        requires small { length heard.now.payload.now ≤ 65535 }
        requires within { All IsWithin told.items }
        requires fair { All IsFair items.now.items }
        requires meaning { IsTakenAs meaning (copy_of (heard_value heard.now)) self.old.tcp }
        requires below { IsBelow meaning }
        ensures ok { OnOk result (self.new ≡
            after_copy items.now.items answer now (heard_value heard.now) meaning
            (after_join joined items.now.items meaning
            (with_held told.items (heard_value heard.now) meaning self.old))) }
        ensures err { OnErr result (self.new ≡ self.old) }
    {
        let acknowledged = self.acknowledged_by(meaning, heard);
        self.hold(meaning, heard, told)?;
        self.join_by(joined, items.as_slice(), meaning);
        self.take_copy_meant(items, now, heard, meaning, acknowledged, answer);
        Ok(())
    }

    /// What a copy that says these things is to the end.
    fn judge(&self, joined: bool, heard: &HeardSegment<'_>, items: &[Heard]) -> Judged
        ensures value { result ≡ judged_of joined (heard_value heard.now).rst items.now
            (meaning_of (copy_of (heard_value heard.now)) self.now.tcp) self.now }
        ensures taken { IsTakenAs (taken_as result) (copy_of (heard_value heard.now)) self.now.tcp }
        ensures below { IsBelow (taken_as result) }
    {
        let meaning = self.tcp.meaning(&arriving_of(heard));
        self.judged_of(joined, heard.rst, items, meaning)
    }

    /// A segment is heard by the end of this side at this tick, on a path that joins or on path 0. `items` and `told` are what
    /// `read_options` reads in it, and `answer` the reset of `Profile::reset_for`. Answers what is to be done.
    ///
    /// # Errors
    ///
    /// Only where there is no memory for the payload or the mappings; all is then as it was.
    pub(crate) fn take_segment(
        &mut self,
        joined: bool,
        side: Side,
        now: u64,
        heard: &HeardSegment<'_>,
        items: &Items,
        told: Vec<KeptMapping>,
        answer: Outgoing,
    ) -> Result<Agenda, AllocError>
        requires small { length heard.now.payload.now ≤ 65535 }
        requires within { All IsWithin told.items }
        requires items { items.now.items ≡ items_of joined side (heard_value heard.now) }
        requires fair { All IsFair items.now.items }
        ensures agenda { IfOk result (λ agenda. agenda ≡
            template_of joined side (items_of joined side (heard_value heard.now))
            (judged_in joined side (heard_value heard.now) self.old)) }
        ensures ok { OnOk result (self.new ≡
            segment_heard joined told.items answer side now (heard_value heard.now) self.old) }
        ensures err { OnErr result (self.new ≡ self.old) }
    {
        let judged = self.judge(joined, heard, items.as_slice());
        let count = items.len();
        let meaning = judged.taken_as();
        self.take_judged(joined, items, now, heard, meaning, told, answer)?;
        Ok(template_judged(joined, side, count, judged))
    }
}

impl PathState {
    /// A segment is heard at a side at this tick, which follows the path's. At an error all is as it was.
    fn take_segment(
        &mut self,
        side: Side,
        now: u64,
        heard: &HeardSegment<'_>,
    ) -> Result<(), AllocError>
        requires short { IsHeardShort (heard_value heard.now) }
        requires few { SaysFew (heard_value heard.now).options }
        ensures ok { OnOk result (self.new ≡ told_at now side (heard_value heard.now) self.old) }
        ensures err { OnErr result (self.new ≡ self.old) }
    {
        let answer = self.profile.reset_for(side, heard);
        let joined = self.profile.is_joined();
        let told = read_options(
            self.alloc,
            &mut self.items,
            joined,
            &self.profile,
            side,
            heard,
        )?;
        match side {
            Side::A => {
                self.agenda = self
                    .a
                    .take_segment(joined, side, now, heard, &self.items, told, answer)?;
            }
            Side::B => {
                self.agenda = self
                    .b
                    .take_segment(joined, side, now, heard, &self.items, told, answer)?;
            }
        }
        Ok(())
    }

    /// A segment is heard at a side at this tick; after a fallback its options aren't. At an error all is as it was.
    #[tactic(auto, using(crate::proofs::FewThings::unheard_few))]
    fn take_told_segment(
        &mut self,
        side: Side,
        now: u64,
        heard: &HeardSegment<'_>,
    ) -> Result<(), AllocError>
        requires short { IsHeardShort (heard_value heard.now) }
        requires few { SaysFew (heard_value heard.now).options }
        ensures ok { OnOk result (self.new ≡
            heard_at now side (Some (heard_value heard.now)) self.old) }
        ensures err { OnErr result (self.new ≡ self.old) }
    {
        let heard = options_heard(self.end(side).modes.identity, heard);
        self.take_segment(side, now, &heard)
    }

    /// Octets arrive at a side at this tick: those that are no segment are dropped. At an error all is as it was.
    fn take_octets(&mut self, side: Side, now: u64, octets: &[u8]) -> Result<(), AllocError>
        ensures ok { OnOk result (self.new ≡
            heard_at now side
            (read self.old.profile.spelling (peer side) (expected_by (end_at side self.old))
            octets.now) self.old) }
        ensures err { OnErr result (self.new ≡ self.old) }
    {
        let expected = self.end(side).expected();
        let spelling = *self.profile.spelling();
        match heard_of(&spelling, side.peer(), &expected, octets) {
            Some(heard) => self.take_told_segment(side, now, &heard),
            None => {
                self.sets_about(Agenda::emission(side));
                Ok(())
            }
        }
    }

    /// A copy arrives. At an error all is as it was.
    pub(crate) fn take_copy(&mut self, due: Due) -> Result<(), AllocError>
        requires { CanHappen (event.Arrives due) self.old }
        ensures ok { OnOk result (self.new ≡ copy_taken octets due self.old) }
        ensures err { OnErr result (self.new ≡ self.old) }
    {
        let carried = self.link.share(&due)?;
        let now = self.clock.now().max(due.tick);
        self.take_octets(due.to, now, carried.as_slice())?;
        self.link.deliver(&due);
        self.clock.reach(due.tick);
        Ok(())
    }
}
