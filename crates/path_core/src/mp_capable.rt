//! How path 0 opens: SYN, SYN/ACK, and the keys of both sides (RFC 8684, section 3.1).

ghost use Rattle.std.specs.Prelude.{◌+◌, ◌≡◌, ◌<◌, ◌≤◌, ◌++◌, [], Some, ◌∷◌, length};
ghost use Rattle.path_agenda.specs.Items.{key_heard, keys_heard};
ghost use Rattle.path_agenda.specs.declared.heard.Heard.TheVariants as says;
ghost use Rattle.actor_desk.specs.Kinds.{CanBeAsked};
ghost use Rattle.path_core.specs.MpCapable.{keys_in, is_plain_syn, is_opened_by_keys, is_opened_plainly, peer_key_stands, after_keys, key_items, keys_ask, syn_window_ask, peer_key_ask, answered_peer_key, opened_ask, answered_opened, live_ask};
ghost use Rattle.path_core.specs.State.{end_at, goes_on, left};

use crate::dss_in::put_first;
use crate::end::PathEnd;
use crate::modes::Modes;
use crate::options_in::put;
use crate::state::PathState;
use crate::treated::Treated;
use actor_desk::{Ask, LocalStep, Reply};
use control_book::{ControlCall, ControlReply};
use fallback_state::{Event, Mode};
use mptcp_options::CapableKeys;
use path_agenda::{Heard, Items, KeyPair, key_heard, keys_heard};
use send_book::SendCall;
use sides::Side;

/// What MP_CAPABLE says by its keys.
pub(crate) fn put_keys(items: &mut Items, side: Side, keys: CapableKeys)
    requires { length items.old.items + length (key_items side keys) ≤ 37 }
    ensures { items.new.items ≡ items.old.items ++ key_items side keys }
{
    match (side, keys) {
        (Side::A, CapableKeys::Sender { sender }) => put(items, Heard::PeerKey { key: sender }),
        (Side::B, CapableKeys::Both { sender, receiver }) => {
            put_both(items, receiver, sender);
        }
        (
            Side::B,
            CapableKeys::WithData {
                sender,
                receiver,
                length,
                ..
            },
        ) => {
            put_both(items, receiver, sender);
            put_first(items, length);
        }
        _ => {}
    }
}

/// Both keys.
fn put_both(items: &mut Items, own: u64, peer: u64)
    requires { length items.old.items < 37 }
    ensures { items.new.items ≡ items.old.items ++ says.Keys own peer ∷ [] }
{
    put(items, Heard::Keys { own, peer });
}

/// The control book is told of these keys.
pub(crate) fn keys_ask(side: Side, keys: Option<KeyPair>) -> Ask
    ensures value { result ≡ keys_ask side keys }
    ensures able { CanBeAsked result }
{
    match keys {
        Some(KeyPair { own, peer }) => Ask::Control(side, ControlCall::Keys { own, peer }),
        None => Ask::Local(LocalStep::End),
    }
}

impl Treated {
    /// The peer's key, where the copy told it alone.
    pub(crate) fn key_heard(&self) -> Option<u64>
        ensures { result ≡ key_heard self.now.items }
    {
        key_heard(self.items())
    }

    /// Both keys, where the copy told them.
    pub(crate) fn keys_heard(&self) -> Option<KeyPair>
        ensures { result ≡ keys_heard self.now.items }
    {
        keys_heard(self.items())
    }
}

impl Modes {
    /// Where the control book noted the keys, the peer's is kept, and the end may send a DSS from now on.
    pub(crate) fn take_keys_reply(&mut self, reply: &Reply, keys: Option<KeyPair>)
        ensures { self.new ≡ keys_in reply.now keys self.old }
    {
        if let (Reply::Control(ControlReply::Noted), Some(keys)) = (reply, keys) {
            self.peer_key = Some(keys.peer);
            self.clear = true;
        }
    }
}

impl PathEnd {
    /// The copy that is treated established the end, and has both keys.
    pub(crate) fn is_opened_by_keys(&self) -> bool
        ensures { result ≡ is_opened_by_keys self.now }
    {
        self.treated.opened && self.treated.keys_heard().is_some()
    }

    /// The keys of the copy were told.
    pub(crate) fn take_keys_reply(&mut self, reply: &Reply, keys: Option<KeyPair>)
        ensures { self.new ≡ after_keys reply.now keys self.old }
    {
        self.modes.take_keys_reply(reply, keys);
        self.treated.keys_told = true;
    }

    /// The copy that is treated established the end, has no option, and the side is starting.
    pub(crate) fn is_opened_plainly(&self) -> bool
        ensures { result ≡ is_opened_plainly self.now }
    {
        self.treated.opened && !self.treated.has_option && self.modes.mode == Mode::Starting
    }

    /// The SYN doesn't ask for Multipath TCP, and the side is starting.
    pub(crate) fn is_plain_syn(&self) -> bool
        ensures { result ≡ is_plain_syn self.now }
    {
        !self.modes.capable_asked && self.modes.mode == Mode::Starting
    }

    /// The SYN/ACK tells the peer's key, or the side is starting and is told that there is none.
    pub(crate) fn peer_key_stands(&self) -> bool
        ensures { result ≡ peer_key_stands self.now }
    {
        self.treated.key_heard().is_some() || self.modes.mode == Mode::Starting
    }
}

impl PathState {
    /// The window of the SYN is told: it acknowledges nothing.
    pub(crate) fn syn_window_ask(&self, side: Side) -> Ask
        ensures value { result ≡ syn_window_ask side (end_at side self.now) }
        ensures able { CanBeAsked result }
    {
        Ask::Send(
            side,
            SendCall::AckIn {
                next: 0,
                window: u64::from(self.end(side).tcp.told_window()),
            },
        )
    }

    /// The peer's key is told, or that there is none.
    pub(crate) fn peer_key_ask(&self, side: Side) -> Ask
        ensures value { result ≡
            peer_key_ask side (key_heard (end_at side self.now).treated.items) self.now }
        ensures able { CanBeAsked result }
    {
        match self.end(side).treated.key_heard() {
            Some(key) => Ask::Control(side, ControlCall::PeerKey { key }),
            None => self.fell_ask(side, Event::PlainHandshake),
        }
    }

    /// The control book was told the peer's key.
    pub(crate) fn answer_peer_key(&mut self, side: Side, reply: &Reply)
        ensures { self.new ≡
            answered_peer_key side (key_heard (end_at side self.old).treated.items) reply.now
            self.old }
    {
        match self.end(side).treated.key_heard() {
            Some(key) => {
                self.end_mut(side).modes.peer_key = Some(key);
                self.done();
            }
            None => self.answer_fell(side, Event::PlainHandshake, reply),
        }
    }

    /// Both keys are told, or that no option came.
    pub(crate) fn opened_ask(&self, side: Side) -> Ask
        ensures value { result ≡
            opened_ask side (keys_heard (end_at side self.now).treated.items) self.now }
        ensures able { CanBeAsked result }
    {
        match self.end(side).treated.keys_heard() {
            Some(keys) => keys_ask(side, Some(keys)),
            None => self.fell_ask(side, Event::PlainHandshake),
        }
    }

    /// The control book was told how the connection was opened.
    pub(crate) fn answer_opened(&mut self, side: Side, reply: &Reply)
        ensures { self.new ≡
            answered_opened side (keys_heard (end_at side self.old).treated.items) reply.now
            self.old }
    {
        match self.end(side).treated.keys_heard() {
            Some(keys) => {
                self.end_mut(side).take_keys_reply(reply, Some(keys));
                self.done();
            }
            None => self.answer_fell(side, Event::PlainHandshake, reply),
        }
    }

    /// The control book is told that the path lives, as a backup where the peer's SYN said so.
    pub(crate) fn live_ask(&self, side: Side) -> Ask
        ensures value { result ≡ live_ask side self.now }
        ensures able { CanBeAsked result }
    {
        Ask::Control(
            side,
            ControlCall::Live {
                path: self.number(),
                backup: self.end(side).modes.backup_heard,
            },
        )
    }

    /// Both keys were told.
    pub(crate) fn answer_keys(&mut self, side: Side, keys: KeyPair, reply: &Reply)
        ensures { self.new ≡
            goes_on side (after_keys reply.now (Some keys) (end_at side self.old)) (left self.old)
            self.old }
    {
        self.end_mut(side).take_keys_reply(reply, Some(keys));
        self.done();
    }
}
