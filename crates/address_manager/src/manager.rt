ghost use Rattle.std.specs.Prelude.{◌≡◌, true, false, OnOk, OnErr, IfOk, slice_set};

use crate::id_set::IdSet;
use indexmap::IndexMap;
use std::alloc::{AllocError, Global};
use std::marker::Model;

/// What a side answers to an announced address.
#[derive(Clone, Copy)]
pub enum Heard {
    /// The address is kept now, and is echoed.
    Echo,
    /// The HMAC is wrong; the address is passed over.
    BadHmac,
    /// The address is kept under that id already; it is echoed again.
    Known,
}

/// The addresses that a side announced and that it keeps of the peer, by their ids, and the paths that are backups. An
/// address is of any type `A` whose `==` tells whether two of them are one.
#[derive(Drop)]
pub struct AddressManager<A> {
    /// What this side announced.
    announced: IndexMap<u8, A>,
    /// What the peer announced, in the order in which it was first kept.
    kept: IndexMap<u8, A>,
    /// The ids whose announcements have not ended.
    due: IdSet,
    /// The paths that are backups.
    backups: IdSet,
}

impl<A> Model for AddressManager<A> {
    ghost use Rattle.address_manager.specs.Addresses.{Addresses};

    ghost Value = { Addresses A };

    ghost view = { λ m.
        record {
          announced = m.announced.entries;
          kept = m.kept.entries;
          due = m.due;
          backups = m.backups;
        } };
}

impl<A: Copy + Eq> AddressManager<A> {
    ghost use Rattle.address_manager.specs.Addresses.{no_addresses, knows};
    ghost use Rattle.address_manager.specs.IdSet.{is_member, lowest};
    ghost use Rattle.address_manager.specs.Steps.{after_announce, heard_reply, after_heard, after_removed};

    /// No address, and no backup.
    pub fn new(alloc: Global) -> Self
        ensures { result ≡ no_addresses }
    {
        AddressManager {
            announced: IndexMap::new(alloc),
            kept: IndexMap::new(alloc),
            due: IdSet::new(),
            backups: IdSet::new(),
        }
    }

    /// Announces an address under an id, until [`AddressManager::echoed`] or [`AddressManager::removed`] of that id. An
    /// address of that id that was announced before is replaced. Where there is no memory, all is as before.
    pub fn announce(&mut self, id: u8, address: A) -> Result<(), AllocError>
        ensures ok { OnOk result (self.new ≡ after_announce id address self.old) }
        ensures err { OnErr result (self.new ≡ self.old) }
    {
        self.announced.insert(id, address)?;
        self.due.set(id, true);
        Ok(())
    }

    /// Takes an address that the peer announced under an id; `right` tells whether its HMAC is right. A right one is kept,
    /// in place of another one of that id. Where there is no memory, all is as before (RFC 8684, section 3.4.1).
    pub fn heard(&mut self, id: u8, address: A, right: bool) -> Result<Heard, AllocError>
        ensures reply { IfOk result (λ reply. reply ≡ heard_reply A.eq id address right self.old) }
        ensures ok { OnOk result (self.new ≡ after_heard id address right self.old) }
        ensures err { OnErr result (self.new ≡ self.old) }
    {
        let reply = self.answer(id, address, right);
        if right {
            self.kept.insert(id, address)?;
        }
        Ok(reply)
    }

    /// What [`AddressManager::heard`] answers to these.
    pub fn answer(&self, id: u8, address: A, right: bool) -> Heard
        ensures { result ≡ heard_reply A.eq id address right self.now }
    {
        if !right {
            return Heard::BadHmac;
        }
        match self.kept.get(&id) {
            Some(kept) if *kept == address => Heard::Known,
            _ => Heard::Echo,
        }
    }

    /// The peer echoed the id: its announcement has ended. The address stays an announced one.
    pub fn echoed(&mut self, id: u8)
        ensures { self.new ≡ record self.old { due = slice_set self.old.due id false } }
    {
        self.due.set(id, false);
    }

    /// Drops the announced and the kept address of that id, with its announcement; true exactly where there was one.
    pub fn removed(&mut self, id: u8) -> bool
        ensures known { result ≡ knows id self.old }
        ensures after { self.new ≡ after_removed id self.old }
    {
        let announced = self.announced.shift_remove(&id).is_some();
        let kept = self.kept.shift_remove(&id).is_some();
        self.due.set(id, false);
        announced || kept
    }

    /// The path is a backup from now on, or it is not.
    pub fn priority(&mut self, path: u8, on: bool)
        ensures { self.new ≡ record self.old { backups = slice_set self.old.backups path on } }
    {
        self.backups.set(path, on);
    }

    /// The lowest id whose announcement has not ended; none where there is none.
    pub fn first_announced(&self) -> Option<u8>
        ensures { result ≡ lowest self.now.due }
    {
        self.due.lowest()
    }

    /// Whether an address of that id is announced or kept.
    pub fn knows(&self, id: u8) -> bool
        ensures { result ≡ knows id self.now }
    {
        self.announced.contains_key(&id) || self.kept.contains_key(&id)
    }

    /// What [`AddressManager::priority`] told last of the path, and false before.
    pub fn is_backup(&self, path: u8) -> bool
        ensures { result ≡ is_member self.now.backups path }
    {
        self.backups.contains(path)
    }
}
