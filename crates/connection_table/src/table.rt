//! The connections of a listener.

ghost use Rattle.std.specs.Prelude.{◌≡◌, ◌<◌, ◌≤◌, ◌++◌, ◌∷◌, [], ◌↔◌, ◌==◌, Err, None, Some, length, position, IfOk, IsSomeAnd, OnOk, OnErr};
ghost use Rattle.link_script.specs.Scripts.{HasRanges};
ghost use Rattle.connection_table.specs.Routing.{join_token};
ghost use Rattle.connection_table.specs.Routes.{route_by};
ghost use Rattle.connection_table.specs.Tables.{Entry, StandsAlone, entry_at, holder_of, key_token, opened_entry};

use crate::admitting::AdmitFault;
use crate::list::MOST_CONNECTIONS;
use crate::route::Route;
use crate::routing::join_token;
use crate::slot::{Slot, token_of};
use run_log::Turn;
use run_outside::Input;
use segment_wire::Addresses;
use std::alloc::Global;
use std::marker::Model;
use world_core::World;

/// Up to 64 connections whose B sides share one listener. Each has a number, counted from 0, and B's keys of no two have the same
/// token.
///
/// The world of each that hasn't failed is what its own input and turns come to: no call for another one changes it.
#[derive(Drop)]
pub struct ConnectionTable {
    pub(crate) slots: Vec<Slot>,
}

impl Model for ConnectionTable {
    ghost use Rattle.dss_mapping.specs.Mappings.{mappings_code};
    ghost use Rattle.std.specs.Coded.{codes};
    ghost use Rattle.std.specs.Prelude.{List};
    ghost use Rattle.connection_table.specs.Tables.{Entry, IsTable};

    ghost Value = { List Entry };

    ghost coded = { Prim.hlevel (codes, mappings_code) };

    ghost view = { λ table. table.slots.items };

    ghost invariant = { λ table. IsTable table.slots.items };
}

/// The first connection with this token.
fn holder_of(slots: &[Slot], token: u32) -> Option<usize>
    ensures { result ≡ holder_of token slots.now }
{
    slots.iter().position(|slot| slot.token() == token)
}

impl ConnectionTable {
    /// A table without connections, which takes no memory.
    pub fn new(alloc: Global) -> ConnectionTable
        ensures { result ≡ [] }
    {
        ConnectionTable {
            slots: Vec::new(alloc),
        }
    }

    /// Lets the connections go, with all that they hold.
    pub fn close(self) {}

    /// How many connections there are: at most 64.
    pub fn len(&self) -> u8
        ensures count { result ≡ length self.now }
        ensures few { result ≤ 64 }
    {
        self.slots.len() as u8
    }

    /// Whether there are none.
    pub fn is_empty(&self) -> bool
        ensures { result ≡ (length self.now == 0) }
    {
        self.slots.is_empty()
    }

    /// The connection whose B has the key of this token.
    fn holder(&self, token: u32) -> Option<u8>
        ensures { result ≡ holder_of token self.now }
    {
        match holder_of(&self.slots, token) {
            Some(holder) => Some(holder as u8),
            None => None,
        }
    }

    /// Puts a connection before its first step behind the others, and answers its number. The input is copied.
    ///
    /// # Errors
    ///
    /// `Full` exactly where 64 connections are there; else `SameToken` exactly where one of them has the token of B's key, with that
    /// one's number. Else only `Memory`. At an error nothing has changed.
    pub fn admit(&mut self, input: &Input) -> Result<u8, AdmitFault>
        requires { HasRanges input.now.script }
        ensures number { IfOk result (λ number. number ≡ length self.old) }
        ensures ok { OnOk result (self.new ≡ self.old ++ opened_entry input.now ∷ []) }
        ensures full { (result ≡ Err AdmitFault.Full) ↔ (length self.old ≡ 64) }
        ensures same { (holder : _) → (result ≡ Err (AdmitFault.SameToken holder))
            ↔ ((length self.old < 64)
            × (holder_of (key_token input.now.script) self.old ≡ Some holder)) }
        ensures err { OnErr result (self.new ≡ self.old) }
    {
        if self.slots.len() == MOST_CONNECTIONS {
            return Err(AdmitFault::Full);
        }
        if let Some(holder) = self.holder(token_of(&input.script)) {
            return Err(AdmitFault::SameToken { holder });
        }
        let number = self.len();
        let slot = Slot::open(*self.slots.allocator(), input)?;
        self.slots.push(slot)?;
        Ok(number)
    }

    /// Where octets go that come to the listener between these addresses: to the connection that they ask to join, by the token of the
    /// first MP_JOIN of a SYN without ACK (RFC 8684, section 3.2). Answers for all octets, and takes no memory.
    pub fn route(&self, octets: &[u8], addresses: &Addresses) -> Route
        ensures { result ≡ route_by (join_token addresses.now octets.now) self.now }
    {
        match join_token(octets, addresses) {
            None => Route::NotJoin,
            Some(token) => match self.holder(token) {
                Some(holder) => Route::To(holder),
                None => Route::Unknown { token },
            },
        }
    }

    /// What a connection began with, lent.
    pub fn input(&self, connection: u8) -> &Input
        requires { connection < length self.now }
        ensures { IsSomeAnd (entry_at connection self.now) (λ entry. result.now ≡ entry.input) }
    {
        self.slots[usize::from(connection)].input()
    }

    /// The turns that were made on a connection, lent: each step that was made, and each end of a round.
    pub fn turns(&self, connection: u8) -> &[Turn]
        requires { connection < length self.now }
        ensures { IsSomeAnd (entry_at connection self.now) (λ entry. result.now ≡ entry.turns) }
    {
        self.slots[usize::from(connection)].turns()
    }

    /// A connection, lent. Unless it failed for want of memory, it is what its own input and turns come to.
    pub fn world(&self, connection: u8) -> &World
        requires { connection < length self.now }
        ensures world { IsSomeAnd (entry_at connection self.now)
            (λ entry. result.now ≡ entry.world) }
        ensures alone { IsSomeAnd (entry_at connection self.now) StandsAlone }
    {
        self.slots[usize::from(connection)].world()
    }
}
