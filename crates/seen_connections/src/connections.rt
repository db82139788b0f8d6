//! The flows of a capture, and the connections that they belong to.

ghost use Rattle.std.specs.Prelude.{◌≡◌, ℕ, ◌+◌, ◌<◌, ◌≤◌, ◌∷◌, [], ◌++◌, true, false, None, Some, IfOk, OnOk, OnErr, length, drop, if◌then◌else◌};
ghost use Rattle.std.proofs.Math.ListN.{set};
ghost use Rattle.std.specs.List.{slice_get};
ghost use Rattle.key_material.specs.KeyDigest.{token_of};
ghost use Rattle.capture_reader.specs.Seen.{as_seen};
ghost use Rattle.sides.specs.declared.side.Side.TheVariants.{B};
ghost use Rattle.seen_connections.specs.Flows.{counted};
ghost use Rattle.seen_connections.specs.declared.flow.Flow.{Flow};
ghost use Rattle.seen_connections.specs.Connections.{key_of, begins, begun_with, ended, answer_of, answered, connections_after, known_after, flow_after, followed, gone_on, learnt, nothing_seen, opened_by, resets, started, taken, tied, wrong_token, wrong_token_by, wrong_token_with, instead_of, makes_hmac, IsNext, IsThere};

use crate::asked::{Answer, JoinAnswer, answer_in, asked_in};
use crate::ends::Ends;
use crate::flow::{Belongs, Flow, Opened};
use crate::flow_list::{FlowList, Found};
use crate::known_keys::{KnownKey, KnownKeys};
use capture_reader::SeenSegment;
use key_material::{join_b64, token};
use sides::Side;
use std::alloc::{AllocError, Global};
use std::marker::Model;

/// What is known of a connection beside its flows.
#[derive(Clone, Copy)]
pub struct Keys {
    /// A's key, from the third segment on.
    pub a: Option<u64>,
    pub b: u64,
    pub checksums: bool,
    /// The flow that opened it.
    pub flow: usize,
}

impl Keys {
    /// The key of a side, where it is known.
    pub fn of(&self, side: Side) -> Option<u64>
        ensures { result ≡ key_of side self.now }
    {
        match side {
            Side::A => self.a,
            Side::B => Some(self.b),
        }
    }
}

/// A join whose token no key had, though its SYN/ACK has the HMAC of a connection's keys.
#[derive(Clone, Copy)]
pub struct WrongToken {
    pub belongs: Belongs,
    /// The packet of the SYN.
    pub packet: u32,
    pub expected: u32,
    pub was: u32,
}

/// What a segment is in its flow.
#[derive(Clone, Copy)]
pub struct Place {
    pub flow: usize,
    /// The SYN/ACK that it is has shown that the join's SYN had a wrong token.
    pub wrong_token: Option<WrongToken>,
}

/// What a segment makes of its flow, if it is a SYN/ACK that answers.
#[derive(Clone, Copy)]
pub struct Answered {
    pub belongs: Option<Belongs>,
    pub opened: Option<Opened>,
    pub wrong_token: Option<WrongToken>,
}

/// All flows and connections of a capture so far, in the order in which they began.
#[derive(Drop)]
pub struct SeenConnections {
    flows: FlowList,
    connections: Vec<Keys>,
    known: KnownKeys,
    // The number of the packet that was taken last, 0 before any.
    last: u32,
}

impl Model for SeenConnections {
    ghost use Rattle.seen_connections.specs.Connections.{SeenFlows, IsCounted};

    ghost Value = { SeenFlows };

    ghost view = { λ s. record { flows = s.flows; connections = s.connections.items; known = s.known; last = s.last } };

    ghost invariant = { λ s. IsCounted s.flows s.last };
}

impl SeenConnections {
    /// Nothing was seen.
    pub fn new(alloc: Global) -> Self
        ensures { result ≡ nothing_seen }
    {
        SeenConnections {
            flows: FlowList::new(alloc),
            connections: Vec::new(alloc),
            known: KnownKeys::new(alloc),
            last: 0,
        }
    }

    /// The flows.
    pub fn flows(&self) -> &[Flow]
        ensures { result.now ≡ self.now.flows }
    {
        self.flows.as_slice()
    }

    /// The connections.
    pub fn connections(&self) -> &[Keys]
        ensures { result.now ≡ self.now.connections }
    {
        &self.connections
    }

    /// Takes the segment of a packet, whose number is above that of the last one, and answers what it is in its flow, if it is of one
    /// that is judged. Where `is_good` is false its sum is wrong, and it is counted alone.
    ///
    /// # Errors
    ///
    /// Where memory is wanting, and then nothing was taken.
    pub fn take(
        &mut self,
        packet: u32,
        seen: &SeenSegment<'_>,
        is_good: bool,
    ) -> Result<Option<Place>, AllocError>
        requires { self.old.last < packet }
        ensures ok { IfOk result (λ place. record { now = self.new; place = place } ≡
            taken self.old packet (as_seen seen.now) is_good) }
        ensures err { OnErr result (self.new ≡ self.old) }
    {
        let found = self.flows.between(&Ends::of(seen));
        if is_good && begins(seen, &found) {
            return self.start(packet, seen, &found);
        }
        self.go_on(packet, seen, is_good, &found)
    }

    /// A's key is known from now on.
    ///
    /// # Errors
    ///
    /// Where memory is wanting, and then nothing was learnt.
    pub fn learn(&mut self, connection: usize, a: u64) -> Result<(), AllocError>
        ensures ok { OnOk result (self.new ≡ learnt self.old connection a) }
        ensures err { OnErr result (self.new ≡ self.old) }
    {
        let Some(keys) = keys_at(&self.connections, connection) else {
            return Ok(());
        };
        self.known.learn(KnownKey {
            token: token(a),
            connection,
            side: Side::A,
        })?;
        self.connections[connection] = Keys { a: Some(a), ..keys };
        Ok(())
    }

    // A SYN ends the flow that was found between its ends, and begins one where it asks for Multipath TCP.
    fn start(
        &mut self,
        packet: u32,
        seen: &SeenSegment<'_>,
        found: &Option<Found>,
    ) -> Result<Option<Place>, AllocError>
        requires there { IsThere self.old.flows found.now }
        requires order { self.old.last < packet }
        ensures ok { IfOk result (λ place. record { now = self.new; place = place } ≡
            started self.old packet (as_seen seen.now) found.now) }
        ensures err { OnErr result (self.new ≡ self.old) }
    {
        let Some(opening) = asked_in(&seen.segment) else {
            self.end(packet, found);
            return Ok(None);
        };
        let belongs = self.known.belongs(&opening);
        let flow = self
            .flows
            .begin(Flow::begun(packet, seen, opening, belongs))?;
        self.last = packet;
        Ok(Some(Place {
            flow,
            wrong_token: None,
        }))
    }

    // The flow that was found is over.
    fn end(&mut self, packet: u32, found: &Option<Found>)
        requires there { IsThere self.old.flows found.now }
        requires order { self.old.last < packet }
        ensures { self.new ≡ record self.old {
          flows = ended found.now self.old.flows;
          last = packet;
        } }
    {
        match found {
            Some(found) => {
                let flow = self.over(found);
                self.put(packet, found, flow);
            }
            None => self.last = packet,
        }
    }

    // A segment that begins no flow.
    fn go_on(
        &mut self,
        packet: u32,
        seen: &SeenSegment<'_>,
        is_good: bool,
        found: &Option<Found>,
    ) -> Result<Option<Place>, AllocError>
        requires there { IsThere self.old.flows found.now }
        requires order { self.old.last < packet }
        ensures ok { IfOk result (λ place. record { now = self.new; place = place } ≡
            gone_on self.old packet (as_seen seen.now) is_good found.now) }
        ensures err { OnErr result (self.new ≡ self.old) }
    {
        let Some(found) = found else {
            self.last = packet;
            return Ok(None);
        };
        let flow = self.counted(packet, found, seen.is_cut, is_good);
        if !is_good {
            self.put(packet, found, flow);
            return Ok(None);
        }
        self.follow(packet, seen, found, &flow)
    }

    // A flow that was found, with one packet more.
    fn counted(&self, packet: u32, found: &Found, is_cut: bool, is_good: bool) -> Flow
        requires there { slice_get self.now.flows found.now.index ≡ Some found.now.flow }
        requires order { self.now.last < packet }
        ensures value { result ≡ counted is_cut is_good found.now.flow }
        ensures next { IsNext found.now.flow result }
    {
        // For the proof: what is known of the counts.
        let _flows = &self.flows;
        found.flow.counted(is_cut, is_good)
    }

    // A flow that was found, and is over.
    fn over(&self, found: &Found) -> Flow
        requires { slice_get self.now.flows found.now.index ≡ Some found.now.flow }
        ensures value { result ≡ record found.now.flow { is_over = true } }
        ensures next { IsNext found.now.flow result }
    {
        // For the proof: what is known of the counts.
        let _flows = &self.flows;
        Flow {
            is_over: true,
            ..found.flow
        }
    }

    // A segment whose sum is good, of a flow that was found and counts it now.
    fn follow(
        &mut self,
        packet: u32,
        seen: &SeenSegment<'_>,
        found: &Found,
        flow: &Flow,
    ) -> Result<Option<Place>, AllocError>
        requires there { slice_get self.old.flows found.now.index ≡ Some found.now.flow }
        requires order { self.old.last < packet }
        requires next { IsNext found.now.flow flow.now }
        ensures ok { IfOk result (λ place. record { now = self.new; place = place } ≡
            followed self.old packet (as_seen seen.now) found.now.index flow.now) }
        ensures err { OnErr result (self.new ≡ self.old) }
    {
        let answer = answer_of(seen, flow);
        let answered = self.answer(found.index, seen, flow, &answer)?;
        self.put(packet, found, flow_after(seen, &answered, flow));
        Ok(Some(Place {
            flow: found.index,
            wrong_token: answered.wrong_token,
        }))
    }

    // Puts a flow in the place of one that was found.
    fn put(&mut self, packet: u32, found: &Found, flow: Flow)
        requires there { slice_get self.old.flows found.now.index ≡ Some found.now.flow }
        requires order { self.old.last < packet }
        requires next { IsNext found.now.flow flow }
        ensures { self.new ≡ record self.old {
          flows = set self.old.flows found.now.index flow;
          last = packet;
        } }
    {
        self.flows.change(found, flow);
        self.last = packet;
    }

    // What an answer makes of the connections, and is to make of its flow.
    fn answer(
        &mut self,
        index: usize,
        seen: &SeenSegment<'_>,
        flow: &Flow,
        answer: &Option<Answer>,
    ) -> Result<Answered, AllocError>
        ensures value { IfOk result
            (λ value. value ≡ answered self.old (as_seen seen.now) flow.now answer.now) }
        ensures ok { OnOk result (self.new ≡ record self.old {
          connections = connections_after self.old index answer.now;
          known = known_after self.old answer.now;
        }) }
        ensures err { OnErr result (self.new ≡ self.old) }
    {
        match answer {
            None => Ok(Answered {
                belongs: flow.belongs,
                opened: flow.opened,
                wrong_token: None,
            }),
            Some(Answer::Key { key, checksums }) => {
                let connection = self.connections.len();
                self.connect(index, *key, *checksums)?;
                Ok(Answered {
                    belongs: Some(Belongs {
                        connection,
                        opener: Side::A,
                    }),
                    opened: Some(opened_by(seen, 0)),
                    wrong_token: None,
                })
            }
            Some(Answer::Join { join }) => {
                let wrong = wrong_token(&self.connections, flow.first, join);
                Ok(tied(opened_by(seen, join.answer), flow.belongs, wrong))
            }
        }
    }

    // A connection begins, with B's key.
    fn connect(&mut self, flow: usize, key: u64, checksums: bool) -> Result<(), AllocError>
        ensures ok { OnOk result (self.new ≡ record self.old {
          connections = self.old.connections ++ record { a = None; b = key; checksums = checksums; flow = flow } ∷ [];
          known = self.old.known ++ record { token = token_of key; connection = length self.old.connections; side = B } ∷ [];
        }) }
        ensures err { OnErr result (self.new ≡ self.old) }
    {
        self.connections.reserve(1)?;
        self.known.learn(KnownKey {
            token: token(key),
            connection: self.connections.len(),
            side: Side::B,
        })?;
        let keys = Keys {
            a: None,
            b: key,
            checksums,
            flow,
        };
        match self.connections.push(keys) {
            Ok(()) => Ok(()),
            Err(_) => unreachable!(),
        }
    }
}

// What is known of a connection, if there is one with this number.
fn keys_at(connections: &[Keys], connection: usize) -> Option<Keys>
    ensures { result ≡ slice_get connections.now connection }
{
    connections.get(connection).copied()
}

// Whether a segment is a SYN that isn't again that of the flow between its ends.
fn begins(seen: &SeenSegment<'_>, found: &Option<Found>) -> bool
    ensures { result ≡ begins (as_seen seen.now) found.now }
{
    let head = &seen.segment.head;
    if !head.syn || head.ack_set || head.rst {
        return false;
    }
    match found {
        Some(found) => !found.flow.is_begun_by(seen),
        None => true,
    }
}

// What a segment answers to the SYN of its flow: a SYN/ACK of the other end, where none opened the flow before.
fn answer_of(seen: &SeenSegment<'_>, flow: &Flow) -> Option<Answer>
    ensures { result ≡ answer_of (as_seen seen.now) flow.now }
{
    let head = &seen.segment.head;
    if !head.syn || !head.ack_set || flow.opened.is_some() {
        return None;
    }
    if seen.source != flow.other || !flow.is_acknowledged_by(head.ack) {
        return None;
    }
    answer_in(&flow.opening, &seen.segment)
}

// The numbers of both positions 0, as a SYN/ACK tells them, with its nonce.
fn opened_by(seen: &SeenSegment<'_>, nonce: u32) -> Opened
    ensures { result ≡ opened_by (as_seen seen.now) nonce }
{
    Opened {
        opener_base: seen.segment.head.ack.wrapping_sub(1),
        other_base: seen.segment.head.seq,
        nonce,
    }
}

// A flow behind an answer and a reset.
fn flow_after(seen: &SeenSegment<'_>, answered: &Answered, flow: &Flow) -> Flow
    ensures value { result ≡ flow_after (as_seen seen.now) answered.now flow.now }
    ensures next { (was : Flow) → IsNext was flow.now → IsNext was result }
{
    let resets = seen.segment.head.rst && seen.source == flow.other;
    Flow {
        belongs: answered.belongs,
        opened: answered.opened,
        was_reset: flow.was_reset || resets,
        ..*flow
    }
}

// A join's flow is open. Where its token named no connection it is that of the wrong token.
fn tied(opened: Opened, belongs: Option<Belongs>, wrong_token: Option<WrongToken>) -> Answered
    ensures { result ≡ tied opened belongs wrong_token }
{
    match (belongs, wrong_token) {
        (Some(belongs), _) => Answered {
            belongs: Some(belongs),
            opened: Some(opened),
            wrong_token: None,
        },
        (None, Some(wrong)) => Answered {
            belongs: Some(wrong.belongs),
            opened: Some(opened),
            wrong_token: Some(wrong),
        },
        (None, None) => Answered {
            belongs: None,
            opened: Some(opened),
            wrong_token: None,
        },
    }
}

// The wrong token of a join, by the first connection whose keys make the HMAC of its SYN/ACK.
fn wrong_token(connections: &[Keys], packet: u32, join: &JoinAnswer) -> Option<WrongToken>
    ensures { result ≡ wrong_token 0 connections.now packet join.now }
{
    for (index, keys) in connections.iter().enumerate() {
        if let Some(wrong) = wrong_token_by(index, keys, packet, join) {
            return Some(wrong);
        }
    }
    None
}

// The wrong token of a join, if the keys of one connection make the HMAC of its SYN/ACK.
fn wrong_token_by(
    connection: usize,
    keys: &Keys,
    packet: u32,
    join: &JoinAnswer,
) -> Option<WrongToken>
    ensures { result ≡ wrong_token_by connection keys.now packet join.now }
{
    match keys.a {
        Some(a) => wrong_token_with(connection, a, keys.b, packet, join),
        None => None,
    }
}

// The wrong token of a join by both keys of a connection: B as the receiver is tried before A.
fn wrong_token_with(
    connection: usize,
    a: u64,
    b: u64,
    packet: u32,
    join: &JoinAnswer,
) -> Option<WrongToken>
    ensures { result ≡ wrong_token_with connection a b packet join.now }
{
    if makes_hmac(a, b, join) {
        return Some(instead_of(connection, Side::A, b, packet, join));
    }
    if makes_hmac(b, a, join) {
        return Some(instead_of(connection, Side::B, a, packet, join));
    }
    None
}

// Whether the keys of both sides make the HMAC of a SYN/ACK, where this one opened the join.
#[tactic(auto, unfolding(crate::specs::Connections::makes_hmac))]
fn makes_hmac(opener: u64, receiver: u64, join: &JoinAnswer) -> bool
    ensures { result ≡ makes_hmac opener receiver join.now }
{
    join_b64(opener, receiver, join.nonce, join.answer) == join.hmac
}

// The token of a join, instead of that of the receiver's key.
fn instead_of(
    connection: usize,
    opener: Side,
    key: u64,
    packet: u32,
    join: &JoinAnswer,
) -> WrongToken
    ensures { result ≡ instead_of connection opener key packet join.now }
{
    WrongToken {
        belongs: Belongs { connection, opener },
        packet,
        expected: token(key),
        was: join.token,
    }
}
