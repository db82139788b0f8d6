//! The control book: what it keeps, what it answers, and what each call changes.
ghost use Rattle.std.specs.Prelude.{◌≡◌, OnOk, OnErr, IfOk};

use crate::call::{ControlCall, ControlReply, Notice};
use crate::notices::{
    address_notice, carrier, is_path, is_sure, no_withdrawals, peer_or_zero, set_withdrawal,
    withdraw_on, withdrawals_on,
};
use crate::registry::{
    PathState, Phase, lowest_living, opening_paths, rows_with, set_phase, set_removed, set_row,
    sole, standby, stands, state_of,
};
use address_manager::{AddressManager, Heard, IdSet};
use fallback_state::{Event, Fall, Mode, fall_step};
use key_material::{Address, add_addr64, token};
use linked_increase::Row;
use sides::Side;
use stamped_book::Book;
use std::alloc::{AllocError, Global};
use std::marker::Model;

/// The two keys of a connection.
#[derive(Clone, Copy)]
pub struct Keys {
    /// The side's own key.
    pub own: u64,
    /// The peer's key, once it came.
    pub peer: Option<u64>,
}

/// What is still to be told on which path.
#[derive(Clone, Copy)]
pub struct Notices {
    /// The path that tells the fast close.
    pub carrier: Option<u8>,
    /// For each path the ids of the addresses that are to be taken back on it.
    pub withdrawals: [IdSet; 16],
}

/// The control book of one side.
#[derive(Drop)]
pub struct ControlBook {
    alloc: Global,
    /// Which side this is.
    side: Side,
    /// Its key, and the peer's.
    keys: Keys,
    /// How it stands to Multipath TCP.
    fall: Fall,
    /// Its paths, by their numbers.
    paths: [PathState; 16],
    /// The addresses, and which paths are backups.
    addresses: AddressManager<Address>,
    /// What is still to be told: 4 KiB, which lie in memory of their own, so that a book is moved cheaply.
    notices: Box<Notices>,
}

impl Model for ControlBook {
    ghost use Rattle.control_book.specs.Control.{Control};

    ghost Value = { Control };

    ghost view = { λ b.
        record {
          side = b.side;
          keys = b.keys;
          fall = b.fall;
          paths = b.paths;
          addresses = b.addresses;
          notices = b.notices.value;
        } };
}

impl ControlBook {
    ghost use Rattle.control_book.specs.Control.{new_control};
    ghost use Rattle.control_book.specs.Steps.{after_look, after_peer_key, after_keys, after_fell, after_join_begin, after_join_heard, after_live, after_dead, after_backup, after_rate, after_announce, after_withdraw, after_heard, after_echoed, after_removed, after_fast_close, after_fast_heard, is_known, after_event};
    ghost use Rattle.control_book.specs.Replies.{carries, resets, announcement, notice_on, look_reply, keys_reply, fell_reply, begin, may_join, join_waits, join_begin_reply, join_heard_reply, rate_reply, is_right, address_reply, fast_heard_reply};

    /// The book of a side whose connection opens, with the side's own key: starting, unconfirmed, not joined and nothing
    /// failed; path 0 opens, and no other lives or opens.
    pub fn new(alloc: Global, side: Side, key: u64) -> Result<Self, AllocError>
        ensures { IfOk result (λ book. book ≡ new_control side key) }
    {
        Ok(ControlBook {
            alloc,
            side,
            keys: Keys {
                own: key,
                peer: None,
            },
            fall: Fall::opening(),
            paths: opening_paths(),
            addresses: AddressManager::new(alloc),
            notices: Box::new(
                alloc,
                Notices {
                    carrier: None,
                    withdrawals: no_withdrawals(),
                },
            )?,
        })
    }

    fn carries(&self, path: u8) -> bool
        ensures { result ≡ carries self.now path }
    {
        self.notices.carrier == Some(path)
    }

    fn resets(&self, path: u8) -> bool
        ensures { result ≡ resets self.now path }
    {
        matches!(self.fall.mode, Mode::Aborted) && !self.carries(path)
            || state_of(&self.paths, path).removed
    }

    fn announcement(&self, path: u8) -> Option<u8>
        ensures { result ≡ announcement self.now path }
    {
        if self.fall.confirmed && is_path(lowest_living(&self.paths), path) {
            self.addresses.first_announced()
        } else {
            None
        }
    }

    /// What the path has to tell or to do.
    fn notice_on(&self, path: u8) -> Notice
        ensures { result ≡ notice_on self.now path }
    {
        if self.resets(path) {
            return Notice::Reset;
        }
        if self.carries(path) {
            return Notice::Carrier {
                key: peer_or_zero(self.keys.peer),
            };
        }
        address_notice(
            self.announcement(path),
            withdrawals_on(&self.notices.withdrawals, path).lowest(),
        )
    }

    fn look_reply(&self, path: u8) -> ControlReply
        ensures { result ≡ look_reply path self.now }
    {
        ControlReply::Standing {
            mode: self.fall.mode,
            standby: standby(&self.paths, &self.addresses, path),
            sole: sole(&self.paths, path),
            notice: self.notice_on(path),
        }
    }

    fn begin(&self) -> ControlReply
        ensures { result ≡ begin self.now }
    {
        ControlReply::Begin {
            own: self.keys.own,
            peer: peer_or_zero(self.keys.peer),
        }
    }

    /// Whether a join may begin: the side is sure, and no check of it failed (RFC 8684, section 3.7).
    fn may_join(&self) -> bool
        ensures { result ≡ may_join self.now }
    {
        is_sure(self.fall.mode) && self.fall.failed.is_none()
    }

    /// Whether a join has to wait: the side is starting, path 0 lives or opens, and no check failed.
    fn join_waits(&self) -> bool
        ensures { result ≡ join_waits self.now }
    {
        self.fall.mode.is_starting() && stands(&self.paths, 0) && self.fall.failed.is_none()
    }

    fn join_begin_reply(&self) -> ControlReply
        ensures { result ≡ join_begin_reply self.now }
    {
        if self.may_join() {
            return self.begin();
        }
        if self.join_waits() {
            return ControlReply::NotYet;
        }
        ControlReply::Never(self.fall.mode)
    }

    fn join_heard_reply(&self, asked: u32) -> ControlReply
        ensures { result ≡ join_heard_reply asked self.now }
    {
        let own = token(self.keys.own);
        if asked != own {
            return ControlReply::UnknownToken { own };
        }
        if !self.fall.confirmed {
            return ControlReply::NotConfirmed;
        }
        if self.fall.mode.is_starting() || is_sure(self.fall.mode) {
            return self.begin();
        }
        ControlReply::Fallen(self.fall.mode)
    }

    fn rate_reply(&self, path: u8, window: u32, rtt: u32) -> Result<ControlReply, AllocError>
        ensures { IfOk result (λ reply. reply ≡ rate_reply path window rtt self.now) }
    {
        let rows = rows_with(self.alloc, &self.paths, Row { path, window, rtt })?;
        Ok(ControlReply::Rows(rows))
    }

    fn is_right(&self, id: u8, address: &Address, port: u16, hmac: u64) -> bool
        ensures { result ≡ is_right id address.now port hmac self.now }
    {
        let peer = peer_or_zero(self.keys.peer);
        hmac == add_addr64(peer, self.keys.own, id, address, port)
    }

    fn address_reply(&self, id: u8, address: Address, port: u16, hmac: u64) -> ControlReply
        ensures { result ≡ address_reply id address port hmac self.now }
    {
        let right = self.is_right(id, &address, port, hmac);
        match self.addresses.answer(id, address, right) {
            Heard::Echo => ControlReply::Echo,
            Heard::BadHmac => ControlReply::BadHmac,
            Heard::Known => ControlReply::Known,
        }
    }

    fn keys_reply(&self, own: u64) -> ControlReply
        ensures { result ≡ keys_reply own self.now }
    {
        if own == self.keys.own {
            ControlReply::Noted
        } else {
            ControlReply::KeysDiffer { own: self.keys.own }
        }
    }

    fn fell_reply(&self, path: u8, event: Event) -> ControlReply
        ensures { result ≡ fell_reply path event self.now }
    {
        let (_, verdict) = fall_step(&self.fall, path, sole(&self.paths, path), event);
        ControlReply::Verdict(verdict)
    }

    fn fast_heard_reply(&self, key: u64) -> ControlReply
        ensures { result ≡ fast_heard_reply key self.now }
    {
        if key == self.keys.own {
            ControlReply::Stopped
        } else {
            ControlReply::OtherKey { own: self.keys.own }
        }
    }

    /// Whether the id is that of a path which lives or opens, or of a kept or announced address.
    fn is_known(&self, id: u8) -> bool
        ensures { result ≡ is_known id self.now }
    {
        stands(&self.paths, id) || self.addresses.knows(id)
    }

    fn take_event(&mut self, path: u8, sole: bool, event: Event)
        ensures { self.new ≡ after_event path sole event self.old }
    {
        let (fall, _) = fall_step(&self.fall, path, sole, event);
        self.fall = fall;
    }

    fn look(&mut self, path: u8)
        ensures { self.new ≡ after_look path self.old }
    {
        if let Notice::Withdraw(id) = self.notice_on(path) {
            set_withdrawal(&mut self.notices.withdrawals, path, id, false);
        }
    }

    fn take_keys(&mut self, own: u64, peer: u64)
        ensures { self.new ≡ after_keys own peer self.old }
    {
        if own == self.keys.own {
            self.keys.peer = Some(peer);
            self.take_event(0, false, Event::KeysHeard);
        }
    }

    fn peer_key(&mut self, key: u64)
        ensures { self.new ≡ after_peer_key key self.old }
    {
        self.keys.peer = Some(key);
    }

    fn dead(&mut self, path: u8)
        ensures { self.new ≡ after_dead path self.old }
    {
        set_phase(&mut self.paths, path, Phase::Idle);
    }

    fn backup(&mut self, path: u8, on: bool)
        ensures { self.new ≡ after_backup path on self.old }
    {
        self.addresses.priority(path, on);
    }

    fn rate(&mut self, path: u8, window: u32, rtt: u32)
        ensures { self.new ≡ after_rate path window rtt self.old }
    {
        set_row(&mut self.paths, path, Row { path, window, rtt });
    }

    fn fell(&mut self, path: u8, event: Event)
        ensures { self.new ≡ after_fell path event self.old }
    {
        let sole = sole(&self.paths, path);
        self.take_event(path, sole, event);
    }

    fn join_begin(&mut self, path: u8)
        ensures { self.new ≡ after_join_begin path self.old }
    {
        if self.may_join() {
            set_phase(&mut self.paths, path, Phase::Opening);
            self.fall.joined = true;
        }
    }

    fn join_heard(&mut self, asked: u32)
        ensures { self.new ≡ after_join_heard asked self.old }
    {
        if asked == token(self.keys.own)
            && self.fall.confirmed
            && (self.fall.mode.is_starting() || is_sure(self.fall.mode))
        {
            self.fall.joined = true;
        }
    }

    fn live(&mut self, path: u8, backup: bool)
        ensures { self.new ≡ after_live path backup self.old }
    {
        set_phase(&mut self.paths, path, Phase::Living);
        self.addresses.priority(path, backup);
    }

    fn announce(&mut self, id: u8) -> Result<(), AllocError>
        ensures ok { OnOk result (self.new ≡ after_announce id self.old) }
        ensures err { OnErr result (self.new ≡ self.old) }
    {
        self.addresses.announce(id, Address::V4([10, 0, id, 2]))?;
        Ok(())
    }

    fn withdraw(&mut self, id: u8)
        ensures { self.new ≡ after_withdraw id self.old }
    {
        if self.is_known(id) {
            withdraw_on(&mut self.notices.withdrawals, &self.paths, id);
            set_removed(&mut self.paths, id);
        }
    }

    fn heard(&mut self, id: u8, address: Address, port: u16, hmac: u64) -> Result<(), AllocError>
        ensures ok { OnOk result (self.new ≡ after_heard id address port hmac self.old) }
        ensures err { OnErr result (self.new ≡ self.old) }
    {
        let right = self.is_right(id, &address, port, hmac);
        self.addresses.heard(id, address, right)?;
        Ok(())
    }

    fn echoed(&mut self, id: u8)
        ensures { self.new ≡ after_echoed id self.old }
    {
        if self.is_known(id) {
            self.addresses.echoed(id);
        }
    }

    fn removed(&mut self, id: u8)
        ensures { self.new ≡ after_removed id self.old }
    {
        if self.is_known(id) {
            let _ = self.addresses.removed(id);
            set_removed(&mut self.paths, id);
        }
    }

    fn fast_close(&mut self)
        ensures { self.new ≡ after_fast_close self.old }
    {
        self.notices.carrier = carrier(self.keys.peer, &self.paths);
        self.take_event(0, false, Event::Stop);
    }

    fn fast_heard(&mut self, key: u64)
        ensures { self.new ≡ after_fast_heard key self.old }
    {
        if key == self.keys.own {
            self.take_event(0, false, Event::Stop);
        }
    }
}

impl ControlBook {
    ghost use Rattle.control_book.specs.Replies.{reply_to};
    ghost use Rattle.control_book.specs.Steps.{after};

    /// What the call is answered.
    fn reply(&self, call: &ControlCall) -> Result<ControlReply, AllocError>
        ensures { IfOk result (λ reply. reply ≡ reply_to self.now call.now) }
    {
        match *call {
            ControlCall::Look { path } => Ok(self.look_reply(path)),
            ControlCall::Keys { own, .. } => Ok(self.keys_reply(own)),
            ControlCall::Fell { path, event } => Ok(self.fell_reply(path, event)),
            ControlCall::JoinBegin { .. } => Ok(self.join_begin_reply()),
            ControlCall::JoinHeard { token, .. } => Ok(self.join_heard_reply(token)),
            ControlCall::Rate { path, window, rtt } => self.rate_reply(path, window, rtt),
            ControlCall::Heard {
                id,
                address,
                port,
                hmac,
            } => Ok(self.address_reply(id, address, port, hmac)),
            ControlCall::FastHeard { key } => Ok(self.fast_heard_reply(key)),
            _ => Ok(ControlReply::Noted),
        }
    }

    /// What the call changes.
    fn change(&mut self, call: &ControlCall) -> Result<(), AllocError>
        ensures ok { OnOk result (self.new ≡ after self.old call.now) }
        ensures err { OnErr result (self.new ≡ self.old) }
    {
        match *call {
            ControlCall::Announce { id } => return self.announce(id),
            ControlCall::Heard {
                id,
                address,
                port,
                hmac,
            } => return self.heard(id, address, port, hmac),
            ControlCall::Look { path } => self.look(path),
            ControlCall::PeerKey { key } => self.peer_key(key),
            ControlCall::Keys { own, peer } => self.take_keys(own, peer),
            ControlCall::Fell { path, event } => self.fell(path, event),
            ControlCall::JoinBegin { path } => self.join_begin(path),
            ControlCall::JoinHeard { token, .. } => self.join_heard(token),
            ControlCall::Live { path, backup } => self.live(path, backup),
            ControlCall::Dead { path } => self.dead(path),
            ControlCall::Backup { path, on } => self.backup(path, on),
            ControlCall::Rate { path, window, rtt } => self.rate(path, window, rtt),
            ControlCall::Withdraw { id } => self.withdraw(id),
            ControlCall::Echoed { id } => self.echoed(id),
            ControlCall::Removed { id } => self.removed(id),
            ControlCall::FastClose => self.fast_close(),
            ControlCall::FastHeard { key } => self.fast_heard(key),
        }
        Ok(())
    }
}

impl Book for ControlBook {
    type Call = ControlCall;

    type Reply = ControlReply;

    ghost use Rattle.control_book.specs.Calls.{can_ask};
    ghost use Rattle.control_book.specs.Replies.{reply_to};
    ghost use Rattle.control_book.specs.Steps.{after};
    ghost use Rattle.control_book.specs.OpeningStays.{opening, opening_stays};

    ghost can_ask = { can_ask };

    ghost reply_to = { reply_to };

    ghost after = { after };

    ghost opening = { opening };

    fn copy(call: &ControlCall) -> Result<ControlCall, AllocError> {
        Ok(*call)
    }

    fn answer(&self, call: &ControlCall) -> Result<ControlReply, AllocError> {
        self.reply(call)
    }

    fn apply(&mut self, call: &ControlCall) -> Result<ControlReply, AllocError> {
        let reply = self.reply(call)?;
        self.change(call)?;
        Ok(reply)
    }

    fn apply_answered(
        &mut self,
        call: &ControlCall,
        answered: &ControlReply,
    ) -> Result<ControlReply, AllocError> {
        let reply = answered.copy()?;
        self.change(call)?;
        Ok(reply)
    }

    ghost opening_stays = { opening_stays };
}
