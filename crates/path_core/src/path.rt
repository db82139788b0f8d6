//! A path of a connection: it makes steps, and each turn of it ends.

ghost use Rattle.std.specs.Prelude.{◌≡◌, ◌*◌, ◌<◌, ◌≤◌, ◌^◌, false, [], None, IsOk, IfOk, length, option_map, OnOk, IfSome, OnErr};
ghost use Rattle.actor_desk.specs.Bounds.{TakesReply};
ghost use Rattle.actor_desk.specs.Kinds.{CanBeAsked};
ghost use Rattle.link_model.specs.Octets.{after_octets};
ghost use Rattle.link_script.specs.Scripts.{HasRanges};
ghost use Rattle.path_core.specs.Events.{is_dead_path};
ghost use Rattle.path_core.specs.MpJoin.{is_listening};
ghost use Rattle.path_core.specs.Looking.{departing, next_arrival, next_tick, octets_waiting, shown_arriving, retransmission_timeout, slow_start_threshold, smoothed_rtt, congestion_window, IsSegmentOn, IsTold};
ghost use Rattle.path_core.specs.Octets.{octets};
ghost use Rattle.path_core.specs.Replies.{asks_bytes_first, needs_memory_first};
ghost use Rattle.path_core.specs.Start.{first_turn_of};
ghost use Rattle.path_core.specs.State.{end_at, path_of, has_ended};
ghost use Rattle.path_core.specs.Steps.{settles_down, asks_of, takes, next_round};
ghost use Rattle.path_core.specs.Turns.{Ends};

use crate::looking::{Arriving, Departing};
use crate::state::PathState;
use actor_desk::{Actor, Ask, Reply};
use link_script::Script;
use sides::Side;
use std::alloc::{AllocError, Global};
use std::marker::Model;
use subflow_tcp::State;

/// A path of a connection. Its turn is an agenda of duties, the first of which comes to something: to an ask, or to a
/// segment. A segment is on its way for a tick or longer, and so a timeout is.
#[derive(Drop)]
pub struct Path {
    // 7 KiB, which lie in memory of their own, so that an actor is moved cheaply.
    state: Box<PathState>,
}

impl Model for Path {
    ghost use Rattle.std.specs.Prelude.{ℕ, ◌≡◌, true, is_none, List};
    ghost use Rattle.std.specs.Coded.{codes};
    ghost use Rattle.dss_mapping.specs.Mappings.{mappings_code};
    ghost use Rattle.path_core.specs.State.{PathState};
    ghost use Rattle.path_core.specs.Steps.{passable};
    ghost use Rattle.path_core.specs.Turns.{TakesTime};

    ghost Value = { PathState (List ℕ) };

    ghost coded = { Prim.hlevel (codes, mappings_code) };

    ghost view = { λ p. p.state.value };

    ghost invariant = { λ p. (is_none (passable p.state.value) ≡ true) × TakesTime p.state.value };
}

impl Path {
    /// A path of a script, at the start of its first turn: A opens path 0 at once and joins any other one later, and B
    /// listens. Keys, initial sequence numbers and nonces are drawn from the script's seed.
    ///
    /// # Errors
    ///
    /// Only where there is no memory for the path and the script's lines.
    pub fn new(alloc: Global, script: &Script, path: u8) -> Result<Self, AllocError>
        requires ranges { HasRanges script.now }
        requires path { path < length script.now.paths }
        ensures { IfOk result (λ first. first ≡ first_turn_of script.now path) }
    {
        let state = PathState::new(alloc, script, path)?;
        state.takes_time();
        match Box::new(alloc, state) {
            Ok(state) => Ok(Path { state }),
            Err(_) => Err(AllocError),
        }
    }

    /// Its turn ends, whatever replies of the asked kind come, and so does the turn that the next round begins.
    pub(crate) fn turn_ends(&self)
        ensures turn { Ends octets self.now }
        ensures round { Ends octets (next_round self.now) }
    {
        // For the proof: the invariant of the state.
        let _state = &*self.state;
    }

    /// The number of the path, below 16.
    pub fn number(&self) -> u8
        ensures value { result ≡ path_of self.now }
        ensures bound { result < 16 }
    {
        self.state.number()
    }

    /// Whether its turn has ended.
    pub fn has_ended(&self) -> bool
        ensures { result ≡ has_ended self.now }
    {
        self.state.agenda.first().is_none()
    }

    /// The first tick after its round, in ticks of a millisecond. The first round ends at 100.
    pub fn round_end(&self) -> u64
        ensures { result ≡ self.now.until }
    {
        self.state.clock.until()
    }

    /// The tick at which it is, in ticks of a millisecond from the run's beginning.
    pub fn tick(&self) -> u64
        ensures { result ≡ self.now.clock }
    {
        self.state.clock.now()
    }

    /// The tick at which its next step stands, in ticks of a millisecond: that of the line, the copy, the timer or the join that the step
    /// takes, where it takes one, else the tick at which the path is. Its turn being over, that too. Takes no memory.
    pub fn next_tick(&self) -> u64
        ensures { result ≡ next_tick self.now }
    {
        self.state.next_tick()
    }

    /// SRTT of a side's end, the smoothed round-trip time, in whole ticks of a millisecond, rounded down: at most a minute, and
    /// None before the first measurement (RFC 6298, section 2).
    pub fn smoothed_rtt(&self, side: Side) -> Option<u32>
        ensures value { result ≡ smoothed_rtt side self.now }
        ensures bound { IfSome result (λ srtt. srtt ≤ 60000) }
    {
        self.state.end(side).tcp.smoothed_rtt()
    }

    /// RTO of a side's end, the retransmission timeout, in ticks of a millisecond: at least a second (RFC 6298, section 2).
    pub fn retransmission_timeout(&self, side: Side) -> u32
        ensures value { result ≡ retransmission_timeout side self.now }
        ensures least { 1000 ≤ result }
    {
        self.state.end(side).tcp.rto()
    }

    /// ssthresh of a side's end, the slow start threshold, in octets (RFC 5681, section 3.1).
    pub fn slow_start_threshold(&self, side: Side) -> u32
        ensures { result ≡ slow_start_threshold side self.now }
    {
        self.state.end(side).tcp.slow_start_threshold()
    }

    /// cwnd of a side's end, the congestion window, in octets: at most 2^20 (RFC 5681, section 3.1).
    pub fn congestion_window(&self, side: Side) -> u32
        ensures value { result ≡ congestion_window side self.now }
        ensures bound { result ≤ 2 ^ 20 }
    {
        self.state.end(side).tcp.congestion_window()
    }

    /// The octets that wait before its link from a side as its round ends, if nothing more is sent: at most 1,000,000, and 0 where the
    /// direction has no rate.
    pub fn octets_waiting(&self, side: Side) -> u32
        ensures { result ≡ octets_waiting side self.now }
    {
        self.state.octets_waiting(side)
    }

    /// The segment that its next step hands to the link, if it hands one, which the step tells. The path stays as it is.
    ///
    /// # Errors
    ///
    /// Only where there is no memory for its octets.
    pub fn outgoing(&self) -> Result<Option<Departing>, AllocError>
        ensures value { IfOk result (λ d. d ≡ departing self.now) }
        ensures told { IfOk result (λ d. IsTold d self.now) }
        ensures whole { IfOk result (λ d. IfSome d (IsSegmentOn (path_of self.now))) }
    {
        self.state.outgoing()
    }

    /// The copy that arrives by its next step, if one does, lent as it arrives. Takes no memory.
    pub fn arriving(&self) -> Option<Arriving<'_>>
        ensures { option_map shown_arriving result ≡ next_arrival self.now }
    {
        self.state.arriving()
    }

    /// Whether a side's end listens: no SYN has come to it, so that what comes goes to its listener.
    pub fn is_listening(&self, side: Side) -> bool
        ensures { result ≡ is_listening (end_at side self.now).tcp.state }
    {
        matches!(self.state.end(side).tcp.state(), State::Listen)
    }

    /// Whether A's end is dead, and B's end is dead or was never reached.
    pub fn is_dead(&self) -> bool
        ensures { result ≡ is_dead_path self.now }
    {
        self.state.is_dead()
    }

    /// What it asks: nothing where its turn ended. Only an ask that carries bytes takes memory.
    ///
    /// # Errors
    ///
    /// Only where there is no memory for those bytes.
    pub fn ask(&self) -> Result<Option<Ask>, AllocError>
        ensures ask { IfOk result (λ ask. ask ≡ asks_of octets self.now) }
        ensures able { IfOk result (λ ask. IfSome ask CanBeAsked) }
        ensures plain { asks_bytes_first self.now.agenda ≡ false → IsOk result }
    {
        self.state.ask()
    }

    /// Takes the reply to what it asked last. The turn hasn't ended, and the reply is one that the ask can have.
    ///
    /// # Errors
    ///
    /// Only where there is no memory, and the reply needs some: a segment is sent or may be, bytes were granted, a copy arrives,
    /// or something is to be noted to the peer. The path is then as it was.
    pub fn take(&mut self, reply: &Reply) -> Result<(), AllocError>
        requires { TakesReply (asks_of octets self.old) reply.now }
        ensures ok { OnOk result (self.new ≡ takes octets reply.now self.old) }
        ensures err { OnErr result (self.new ≡ self.old) }
        ensures plain { needs_memory_first self.old.agenda reply.now self.old ≡ false →
            IsOk result }
    {
        let taken = self.state.take(reply);
        self.state.takes_time();
        taken
    }

    /// Begins the next round: 100 ticks more. The turn has ended, and fewer than 2^57 rounds were begun so. Takes no
    /// memory.
    pub fn next_round(&mut self)
        requires ended { self.old.agenda ≡ [] }
        requires rounds { self.old.until ≤ 100 * 2 ^ 57 }
        ensures { self.new ≡ next_round self.old }
    {
        self.state.next_round();
        self.state.takes_time();
    }

    /// The link takes octets from a side at the path's tick, as a segment that the side's end doesn't know of. So a test
    /// bench makes an end hear what no peer says; a connection never calls it.
    ///
    /// # Errors
    ///
    /// Only where there is no memory for the copies; the path is then as it was.
    pub fn inject(&mut self, from: Side, octets: &[u8]) -> Result<(), AllocError>
        ensures ok { OnOk result (self.new ≡
            settles_down
            (record self.old
            { link = after_octets from octets.now self.old.clock self.old.link })) }
        ensures err { OnErr result (self.new ≡ self.old) }
    {
        let taken = self.state.inject(from, octets);
        self.state.takes_time();
        taken
    }
}

impl Actor for Path {
    ghost asks = { asks_of octets };

    ghost takes = { takes octets };

    ghost next = { next_round };

    // fewer than 2^57 rounds were begun
    ghost can_begin = { λ path. path.until ≤ 100 * 2 ^ 57 };

    fn ask(&self, _alloc: Global) -> Result<Option<Ask>, AllocError>
        ensures ask { IfOk result (λ ask. ask ≡ asks_of octets self.now) }
        ensures able { IfOk result (λ ask. IfSome ask CanBeAsked) }
    {
        Path::ask(self)
    }

    fn take(&mut self, reply: &Reply) -> Result<(), AllocError>
        requires { TakesReply (asks_of octets self.old) reply.now }
        ensures ok { OnOk result (self.new ≡ takes octets reply.now self.old) }
        ensures err { OnErr result (self.new ≡ self.old) }
    {
        Path::take(self, reply)
    }

    #[tactic(auto, using(crate::proofs::FirstDuty::none_asked))]
    fn next_round(&mut self)
        requires over { asks_of octets self.old ≡ None }
        requires rounds { self.old.until ≤ 100 * 2 ^ 57 }
        ensures { self.new ≡ next_round self.old }
    {
        Path::next_round(self);
    }
}
