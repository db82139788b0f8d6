//! How a further path joins the connection: what its MP_JOINs say, what the control books are asked and answer, and what follows
//! from it (RFC 8684, section 3.2).

ghost use Rattle.std.specs.Prelude.{◌+◌, ◌≡◌, ◌<◌, ◌≤◌, if◌then◌else◌, ◌++◌, is_some, length};
ghost use Rattle.sides.specs.declared.side.Side.TheVariants.{A, B};
ghost use Rattle.actor_desk.specs.Kinds.{CanBeAsked};
ghost use Rattle.subflow_tcp.specs.Opening.{after_begin};
ghost use Rattle.subflow_tcp.specs.States.{is_waiting};
ghost use Rattle.path_core.specs.MpJoin.{join_asked, third_in, peer_key_of, join_options, third_options, join_answer, is_third_right, mode_refused, join_begin_ask, after_joining_syn, with_keys, with_mode_refused, opened_by, joined_by, join_items, keys_begun, is_never, answered_join_again, join_begun, joins_at_tick, is_join_pending, join_heard_ask, join_taken, asked_at, answered_join_heard};
ghost use Rattle.path_core.specs.Said.{options_by};

use crate::end::PathEnd;
use crate::modes::Modes;
use crate::options_in::put;
use crate::profile::Profile;
use crate::state::PathState;
use crate::unnumbered::unnumbered;
use actor_desk::{Ask, LocalStep, Reply};
use control_book::{ControlCall, ControlReply};
use fallback_state::Mode;
use join_handshake::{
    JoinAnswer, JoinSyn, answer_option, client_answer, server_syn, server_third, syn_option,
    third_option,
};
use key_material::token;
use mptcp_options::{JoinForm, MpOption};
use path_agenda::{Agenda, AskDuty, Duty, Heard, Items, JoinStep, KeyPair, SendDuty, join_heard};
use path_segments::SaidOption;
use sides::Side;
use subflow_tcp::{Arriving, Meaning, State, Subflow};

/// What A asks for by its SYN, where that has an MP_JOIN.
pub(crate) fn join_asked(items: &[Heard]) -> Option<JoinSyn>
    ensures { result ≡ join_asked items.now }
{
    match join_heard(JoinStep::Syn, items) {
        Some(form) => server_syn(Some(&MpOption::Join { form })).ok(),
        None => None,
    }
}

/// The HMAC of the third MP_JOIN.
fn third_in(items: &[Heard]) -> Option<[u8; 20]>
    ensures { result ≡ third_in items.now }
{
    match join_heard(JoinStep::Third, items) {
        Some(JoinForm::Third { hmac }) => Some(hmac),
        _ => None,
    }
}

/// Whether there is a third MP_JOIN.
pub(crate) fn has_third(items: &[Heard]) -> bool
    ensures { result ≡ is_some (third_in items.now) }
{
    third_in(items).is_some()
}

/// The mode that a refusal tells, or else this one.
fn mode_refused(reply: &Reply, other: Mode) -> Mode
    ensures { result ≡ mode_refused reply.now other }
{
    match *reply {
        Reply::Control(ControlReply::Never(mode)) => mode,
        Reply::Control(ControlReply::Fallen(mode)) => mode,
        _ => other,
    }
}

/// A's control book is asked whether the path of this number, below 16, may join the connection (RFC 8684, section 3.2).
pub(crate) fn join_begin_ask(path: u8) -> Ask
    requires { path < 16 }
    ensures value { result ≡ join_begin_ask path }
    ensures able { CanBeAsked result }
{
    Ask::Control(Side::A, ControlCall::JoinBegin { path })
}

/// The waiting end opens.
fn begin(tcp: &mut Subflow)
    ensures { tcp.new ≡ (if is_waiting tcp.old.state then after_begin tcp.old else tcp.old) }
{
    match tcp.state() {
        State::Waiting => tcp.begin(),
        _ => {}
    }
}

/// The listening end takes the SYN of a path that joins, which told this window.
fn take_joining_syn(tcp: &mut Subflow, window: u32, now: u64)
    ensures { tcp.new ≡ after_joining_syn window tcp.old }
{
    let arriving = Arriving {
        position: Some(0),
        acknowledged: None,
        syn: true,
        fin: false,
        rst: false,
        window,
        payload: &[],
    };
    match tcp.state() {
        State::Listen => {
            tcp.take_segment(Meaning::Opens, &arriving, None, now);
        }
        _ => {}
    }
}

/// What MP_JOIN says: A hears the answer to its SYN, and B the SYN and the third segment.
pub(crate) fn put_join(items: &mut Items, side: Side, form: JoinForm)
    requires { length items.old.items + length (join_items side form) ≤ 37 }
    ensures { items.new.items ≡ items.old.items ++ join_items side form }
{
    match (side, form) {
        (Side::A, JoinForm::Answer { .. }) => put(items, Heard::Join { form }),
        (Side::B, JoinForm::Syn { .. } | JoinForm::Third { .. }) => put(
            items,
            Heard::Join { form },
        ),
        _ => {}
    }
}

/// A path that may join goes on by these keys.
fn keys_begun(reply: &Reply) -> Option<KeyPair>
    ensures { result ≡ keys_begun reply.now }
{
    match *reply {
        Reply::Control(ControlReply::Begin { own, peer }) => Some(KeyPair { own, peer }),
        _ => None,
    }
}

/// The path won't be joined.
fn is_never(reply: &Reply) -> bool
    ensures { result ≡ is_never reply.now }
{
    matches!(reply, Reply::Control(ControlReply::Never(_)))
}

impl Profile {
    ghost use Rattle.path_core.specs.MpJoin.{is_joined};

    /// Whether the path joins the connection; path 0 opens it.
    pub(crate) fn is_joined(&self) -> bool
        ensures { result ≡ is_joined self.now }
    {
        0 < self.spelling().path
    }
}

impl Modes {
    /// The peer's key, which a path that joins has from its control book; 0 before.
    pub(crate) fn peer_key_of(&self) -> u64
        ensures { result ≡ peer_key_of self.now }
    {
        self.peer_key.unwrap_or(0)
    }

    /// On A's SYN: B's token, A's nonce and the script's flag.
    fn syn_join(&self, profile: &Profile) -> Option<SaidOption>
        ensures { options_by result ≡ join_options profile.now A self.now }
    {
        let (backup, id) = (profile.is_backup(), profile.spelling().path);
        unnumbered(syn_option(backup, id, token(self.peer_key_of()), self.own_nonce))
    }

    /// On B's SYN/ACK: B's HMAC and nonce, and the script's flag.
    fn answer_join(&self, profile: &Profile) -> Option<SaidOption>
        ensures { options_by result ≡ join_options profile.now B self.now }
    {
        let (own, peer) = (self.own_key, self.peer_key_of());
        let (backup, id) = (profile.is_backup(), profile.spelling().path);
        let option = answer_option(peer, own, self.peer_nonce, self.own_nonce, backup, id);
        unnumbered(option)
    }

    /// What the SYN or the SYN/ACK of a path that joins says.
    pub(crate) fn join_option(&self, profile: &Profile, side: Side) -> Option<SaidOption>
        ensures { options_by result ≡ join_options profile.now side self.now }
    {
        match side {
            Side::A => self.syn_join(profile),
            Side::B => self.answer_join(profile),
        }
    }

    /// On what A sends then: A's HMAC.
    pub(crate) fn third_option(&self) -> Option<SaidOption>
        ensures { options_by result ≡ third_options self.now }
    {
        let (own, peer) = (self.own_key, self.peer_key_of());
        unnumbered(third_option(own, peer, self.own_nonce, self.peer_nonce))
    }

    /// What B answers, where the HMAC is B's.
    pub(crate) fn join_answer(&self, items: &[Heard]) -> Option<JoinAnswer>
        ensures { result ≡ join_answer items.now self.now }
    {
        let (own, peer) = (self.own_key, self.peer_key_of());
        match join_heard(JoinStep::Answer, items) {
            Some(form) => {
                let heard = MpOption::Join { form };
                client_answer(own, peer, self.own_nonce, Some(&heard)).ok()
            }
            None => None,
        }
    }

    /// Whether there is a third MP_JOIN, and its HMAC is A's.
    pub(crate) fn is_third_right(&self, items: &[Heard]) -> bool
        ensures { result ≡ is_third_right items.now self.now }
    {
        let (own, peer) = (self.own_key, self.peer_key_of());
        match join_heard(JoinStep::Third, items) {
            Some(form) => {
                let heard = MpOption::Join { form };
                server_third(peer, own, self.peer_nonce, self.own_nonce, Some(&heard)).is_ok()
            }
            None => false,
        }
    }

    /// The control book told both keys.
    fn begin(&mut self, keys: KeyPair)
        ensures { self.new ≡ with_keys keys self.old }
    {
        self.own_key = keys.own;
        self.peer_key = Some(keys.peer);
    }
}

impl PathEnd {
    /// A refusal tells the mode that keeps the side from joining.
    pub(crate) fn take_refusal_reply(&mut self, reply: &Reply)
        ensures { self.new ≡ with_mode_refused reply.now self.old }
    {
        self.modes.mode = mode_refused(reply, self.modes.mode);
    }

    /// The waiting end opens by these keys; without keys it waits on.
    pub(crate) fn open(&mut self, keys: Option<KeyPair>)
        ensures { self.new ≡ opened_by keys self.old }
    {
        if let Some(keys) = keys {
            begin(&mut self.tcp);
            self.modes.begin(keys);
        }
    }

    /// The path may join: the SYN is taken, and B has A's nonce and flag, and both keys.
    pub(crate) fn join(&mut self, keys: KeyPair, asked: JoinSyn, now: u64)
        ensures { self.new ≡ joined_by keys asked self.old }
    {
        take_joining_syn(&mut self.tcp, self.treated.window, now);
        self.modes.begin(keys);
        self.modes.peer_nonce = asked.nonce;
        self.modes.backup_heard = asked.backup;
    }
}

impl PathState {
    /// A had to wait at the path's tick, and asks again in each turn.
    pub(crate) fn is_join_pending(&self) -> bool
        ensures { result ≡ is_join_pending self.now }
    {
        self.a.tcp.state() == State::Waiting && self.joined_at.is_none()
    }

    /// A's end opens, or waits on, or it is dead where the path won't be joined.
    fn begin_join(&mut self, reply: &Reply)
        ensures { self.new ≡ join_begun reply.now self.old.agenda self.old.agenda self.old }
    {
        if is_never(reply) {
            self.a.die();
            self.a.take_refusal_reply(reply);
        } else {
            self.a.open(keys_begun(reply));
        }
    }

    /// A asked again whether the path may join.
    pub(crate) fn answer_join_again(&mut self, reply: &Reply)
        ensures { self.new ≡ answered_join_again reply.now self.old }
    {
        self.begin_join(reply);
        if is_never(reply) {
            self.turns_to(Duty::Ask(AskDuty::Leave(Side::A)));
        } else {
            self.done();
        }
    }

    /// A asked at the path's tick whether it may join.
    pub(crate) fn join_at_tick(&mut self, reply: &Reply)
        ensures { self.new ≡ joins_at_tick reply.now self.old }
    {
        self.joined_at = None;
        self.begin_join(reply);
        if is_never(reply) {
            self.sets_about(Agenda::leaves(Side::A));
        } else {
            self.sets_about(Agenda::emission(Side::A));
        }
    }

    /// What A asks for by its SYN.
    pub(crate) fn asked_at(&self, side: Side) -> Option<JoinSyn>
        ensures { result ≡ asked_at side self.now }
    {
        join_asked(self.end(side).treated.items())
    }

    /// The control book is asked whether the path may join.
    pub(crate) fn join_heard_ask(&self, side: Side) -> Ask
        ensures value { result ≡ join_heard_ask side (asked_at side self.now) self.now }
        ensures able { CanBeAsked result }
    {
        match self.asked_at(side) {
            Some(asked) => Ask::Control(
                side,
                ControlCall::JoinHeard {
                    path: self.number(),
                    token: asked.token,
                },
            ),
            None => Ask::Local(LocalStep::End),
        }
    }

    /// The SYN/ACK goes out next, or the reset that refuses the path.
    fn take_join(&mut self, side: Side, asked: Option<JoinSyn>, reply: &Reply)
        ensures { self.new ≡ join_taken side (keys_begun reply.now) asked reply.now self.old }
    {
        match (keys_begun(reply), asked) {
            (Some(keys), Some(asked)) => {
                let now = self.clock.now();
                self.end_mut(side).join(keys, asked, now);
                self.turns_to(Duty::Send(SendDuty::SynAck(side)));
            }
            (None, Some(_)) => {
                self.end_mut(side).take_refusal_reply(reply);
                self.turns_to(Duty::Send(SendDuty::Refuse(side)));
            }
            (_, None) => self.turns_to(Duty::Send(SendDuty::Refuse(side))),
        }
    }

    /// The control book answered whether the path may join.
    pub(crate) fn answer_join_heard(&mut self, side: Side, reply: &Reply)
        ensures { self.new ≡ answered_join_heard side reply.now self.old }
    {
        self.take_join(side, self.asked_at(side), reply);
    }
}
