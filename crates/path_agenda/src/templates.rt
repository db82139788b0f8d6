//! What is to be done in a turn, and after each kind of event. A rule that is added to one of them has to be a duty.

ghost use Rattle.std.specs.Prelude.{◌≡◌, ◌≤◌, ◌++◌, ◌∷◌, [], length};
ghost use Rattle.path_agenda.specs.Agenda.{heard_and, rest_of_turn, emission, emission_and, start_of_turn, syn_came, syn_ack_came, join_came, refuses, join_answered, payload_came, copy_came, syn_again, answers, answers_dead, expired, expired_for_ever, announces, withdraws, stops, leaves, breaks, resets};

use crate::agenda::Agenda;
use crate::duty::{AskDuty, Duty, SendDuty, SilentDuty, StepDuty};
use arrayvec::ArrayVec;
use sides::Side;

impl Agenda {
    /// What follows what the ends do: the events of the round, and then the end of the turn.
    pub fn rest_of_turn() -> Self
        ensures { result ≡ rest_of_turn }
    {
        Agenda::of(&[Duty::Step(StepDuty::Events), Duty::End])
    }

    /// What follows every event at an end: what it sends, and then the next events.
    pub fn emission(side: Side) -> Self
        ensures { result ≡ emission side }
    {
        Agenda::before_emission(&[], side)
    }

    /// A turn, from its start: a path that had to wait asks to join, and both ends look at how their sides stand, tell
    /// their windows, and send what they may.
    pub fn start_of_turn() -> Self
        ensures { result ≡ start_of_turn }
    {
        let (a, b) = (Side::A, Side::B);
        Agenda::of_parts(
            &[
                Duty::Ask(AskDuty::JoinAgain),
                Duty::Step(StepDuty::Look(a)),
                Duty::Step(StepDuty::Look(b)),
                Duty::Ask(AskDuty::Window(a)),
                Duty::Send(SendDuty::Update(a)),
                Duty::Ask(AskDuty::Window(b)),
                Duty::Send(SendDuty::Update(b)),
                Duty::Ask(AskDuty::LeaveNoted(a)),
                Duty::Send(SendDuty::ResetNoted(a)),
            ],
            &sends(a),
            &[
                Duty::Ask(AskDuty::LeaveNoted(b)),
                Duty::Send(SendDuty::ResetNoted(b)),
            ],
            &sends(b),
        )
    }

    /// An agenda of these duties, 63 at most, and then what an end sends.
    fn before_emission(first: &[Duty], side: Side) -> Self
        requires { length first.now ≤ 63 }
        ensures { result ≡ first.now ++ emission side }
    {
        Agenda::of_parts(first, &[], &[], &sends(side))
    }

    /// One duty, and then the rest of the turn.
    fn before_rest(duty: Duty) -> Self
        ensures { result ≡ duty ∷ rest_of_turn }
    {
        Agenda::of(&[duty, Duty::Step(StepDuty::Events), Duty::End])
    }

    /// The SYN of the peer came: its window is told, and that it doesn't ask for Multipath TCP, and then the SYN/ACK goes out.
    pub fn syn_came(side: Side) -> Self
        ensures { result ≡ syn_came side }
    {
        Agenda::before_emission(
            &[
                Duty::Ask(AskDuty::SynHeard(side)),
                Duty::Ask(AskDuty::PlainHandshake(side)),
                Duty::Send(SendDuty::SynAck(side)),
            ],
            side,
        )
    }

    /// The SYN/ACK came: its window is told, the peer's key, and that the path lives; then it is acknowledged.
    pub fn syn_ack_came(side: Side) -> Self
        ensures { result ≡ syn_ack_came side }
    {
        Agenda::before_emission(
            &[
                Duty::Ask(AskDuty::SynAnswered(side)),
                Duty::Ask(AskDuty::PeerKey(side)),
                Duty::Ask(AskDuty::Live(side)),
                Duty::Send(SendDuty::Acknowledge(side)),
            ],
            side,
        )
    }

    /// The SYN of a path that joins came, with an MP_JOIN: it is asked whether it may (RFC 8684, section 3.2).
    pub fn join_came(side: Side) -> Self
        ensures { result ≡ join_came side }
    {
        Agenda::before_emission(&[Duty::Ask(AskDuty::JoinHeard(side))], side)
    }

    /// The SYN of a path that joins came without an MP_JOIN: it is refused.
    pub fn refuses(side: Side) -> Self
        ensures { result ≡ refuses side }
    {
        Agenda::before_emission(&[Duty::Send(SendDuty::Refuse(side))], side)
    }

    /// The SYN/ACK of a path that joins came: it is told that the path lives, and then the SYN/ACK is acknowledged.
    pub fn join_answered(side: Side) -> Self
        ensures { result ≡ join_answered side }
    {
        Agenda::before_emission(
            &[
                Duty::Ask(AskDuty::Live(side)),
                Duty::Send(SendDuty::Acknowledge(side)),
            ],
            side,
        )
    }

    /// A copy is taken, which says so many things, 37 at most.
    #[tactic(auto, using(crate::proofs::Things::heard_first))]
    pub fn copy_came(side: Side, count: usize) -> Self
        requires { count ≤ 37 }
        ensures { result ≡ copy_came side count }
    {
        Agenda::of_parts(
            &[
                Duty::Ask(AskDuty::Opened(side)),
                Duty::Ask(AskDuty::Live(side)),
            ],
            things_heard(side, count).as_slice(),
            &payload_came(side),
            &sends(side),
        )
    }

    /// The SYN came again: so does the SYN/ACK.
    pub fn syn_again(side: Side) -> Self
        ensures { result ≡ syn_again side }
    {
        Agenda::before_emission(&[Duty::Send(SendDuty::SynAck(side))], side)
    }

    /// A copy came that is answered.
    pub fn answers(side: Side) -> Self
        ensures { result ≡ answers side }
    {
        Agenda::before_emission(&[Duty::Send(SendDuty::Answer(side))], side)
    }

    /// A copy came at a dead end, which answers by a reset.
    pub fn answers_dead(side: Side) -> Self
        ensures { result ≡ answers_dead side }
    {
        Agenda::before_rest(Duty::Send(SendDuty::ResetAnswer(side)))
    }

    /// The timer ran out: what isn't acknowledged is given back, and what was lost is sent again.
    pub fn expired(side: Side) -> Self
        ensures { result ≡ expired side }
    {
        Agenda::before_emission(
            &[
                Duty::Ask(AskDuty::Return(side)),
                Duty::Send(SendDuty::Resend(side)),
            ],
            side,
        )
    }

    /// The timer ran out for the sixth time in a row: a reset, and nothing more is sent.
    pub fn expired_for_ever(side: Side) -> Self
        ensures { result ≡ expired_for_ever side }
    {
        Agenda::before_rest(Duty::Send(SendDuty::Reset(side)))
    }

    /// The side is to announce the address of this id (RFC 8684, section 3.4.1): it is told, and then the side's end sends
    /// what it may.
    pub fn announces(side: Side, id: u8) -> Self
        ensures { result ≡ announces side id }
    {
        Agenda::before_emission(&[Duty::Ask(AskDuty::Announce { side, id })], side)
    }

    /// The side takes the address of this id back (RFC 8684, section 3.4.2): it is told, and then the side's end sends what
    /// it may.
    pub fn withdraws(side: Side, id: u8) -> Self
        ensures { result ≡ withdraws side id }
    {
        Agenda::before_emission(&[Duty::Ask(AskDuty::Withdraw { side, id })], side)
    }

    /// The peer closed the connection at once (RFC 8684, section 3.5): both books are told, and the end is reset.
    pub fn stops(side: Side) -> Self
        ensures { result ≡ stops side }
    {
        Agenda::of(&[
            Duty::Ask(AskDuty::AbortSend(side)),
            Duty::Ask(AskDuty::AbortReceive(side)),
            Duty::Send(SendDuty::Reset(side)),
            Duty::Step(StepDuty::Events),
            Duty::End,
        ])
    }

    /// The end died: it leaves.
    pub fn leaves(side: Side) -> Self
        ensures { result ≡ leaves side }
    {
        Agenda::before_rest(Duty::Ask(AskDuty::Leave(side)))
    }

    /// The path breaks, with this reason (RFC 8684, section 3.6): it is asked once more what is to be acknowledged.
    pub fn breaks(side: Side, reason: u8) -> Self
        ensures { result ≡ breaks side reason }
    {
        Agenda::before_rest(Duty::Ask(AskDuty::BreakAck { side, reason }))
    }

    /// The path breaks, and what is to be acknowledged was told: a reset with this reason (RFC 8684, section 3.6).
    pub fn resets(side: Side, reason: u8) -> Self
        ensures { result ≡ resets side reason }
    {
        Agenda::before_rest(Duty::Send(SendDuty::BreakReset { side, reason }))
    }
}

/// A duty for each of the things that a copy says, in their order.
fn things_heard(side: Side, count: usize) -> ArrayVec<Duty, 37>
    requires { count ≤ 37 }
    ensures { result.items ≡ heard_and side 0 count [] }
{
    let mut things = ArrayVec::new();
    for index in 0..count {
        things.push(Duty::Step(StepDuty::Heard {
            side,
            index: index as u8,
        }));
    }
    things
}

/// What an end sends, in its order; then its timer is settled.
fn sends(side: Side) -> [Duty; 7]
    ensures { result ≡ emission_and side [] }
{
    [
        Duty::Send(SendDuty::Syn(side)),
        Duty::Send(SendDuty::FastClose(side)),
        Duty::Send(SendDuty::Notice(side)),
        Duty::Step(StepDuty::Data(side)),
        Duty::Send(SendDuty::DataFin(side)),
        Duty::Send(SendDuty::Fin(side)),
        Duty::Silent(SilentDuty::Timer(side)),
    ]
}

/// What follows what a copy says: its acknowledgement, its payload, and the answers.
fn payload_came(side: Side) -> [Duty; 16]
    ensures { result ++ emission side ≡ payload_came side }
{
    [
        Duty::Step(StepDuty::PlainAck(side)),
        Duty::Ask(AskDuty::SubflowAck(side)),
        Duty::Ask(AskDuty::PlainData(side)),
        Duty::Silent(SilentDuty::Keep(side)),
        Duty::Ask(AskDuty::Edge(side)),
        Duty::Ask(AskDuty::CheckFailed(side)),
        Duty::Step(StepDuty::Unmapped(side)),
        Duty::Ask(AskDuty::HeardFin { side, index: 0 }),
        Duty::Ask(AskDuty::HeardFin { side, index: 1 }),
        Duty::Ask(AskDuty::HeardFin { side, index: 2 }),
        Duty::Silent(SilentDuty::PassFin(side)),
        Duty::Ask(AskDuty::SubflowFin(side)),
        Duty::Ask(AskDuty::AckOut(side)),
        Duty::Ask(AskDuty::Rate(side)),
        Duty::Send(SendDuty::Acknowledge(side)),
        Duty::Send(SendDuty::Again(side)),
    ]
}
