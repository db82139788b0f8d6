//! Steps of a connection in a table.

ghost use Rattle.std.specs.Prelude.{◌≡◌, ◌≢◌, ◌⊎◌, ◌<◌, ℕ, length, IfOk, IsSomeAnd, OnOk, OnErr};
ghost use Rattle.world_core.specs.Steps.{StampRises, is_made, next_note, stepped_by};
ghost use Rattle.world_laws.specs.Worlds.{is_going};
ghost use Rattle.connection_table.specs.Routes.{home_of};
ghost use Rattle.connection_table.specs.Steps.{IsStopped, after_end, after_step, ends};
ghost use Rattle.connection_table.specs.Tables.{Entry, IsShortEntry, Stands, StandsAlone, entry_at, with_entry};

use crate::route::Route;
use crate::slot::Slot;
use crate::table::ConnectionTable;
use std::alloc::AllocError;
use world_core::Stepped;

impl ConnectionTable {
    /// The connection at which a step is made: where a segment comes to B's listener that asks to join one, that one, and else the
    /// given one.
    fn home_of(&self, connection: u8, actor: u8) -> u8
        requires { connection < length self.now }
        ensures home { result ≡ home_of connection actor self.now }
        ensures within { result < length self.now }
        ensures alone { IsSomeAnd (entry_at connection self.now) StandsAlone }
    {
        let Some(arriving) = self.slots[usize::from(connection)].arriving_at_listener(actor) else {
            return connection;
        };
        match self.route(arriving.octets, &arriving.addresses) {
            Route::To(home) => home,
            Route::Unknown { .. } | Route::NotJoin => connection,
        }
    }

    /// Makes one step of an actor of a connection, and answers its note, or that its turn has ended. A segment that comes to B where
    /// its end of that path still listens, and asks to join, is routed by its token. Where both files are shorter than 2^31 - 2
    /// octets, that names this connection.
    ///
    /// # Errors
    ///
    /// Where there is no memory. Either nothing has changed, or that connection has failed, with its outcome and the list of each actor
    /// as they were, and each later step of it answers so too.
    pub fn step(&mut self, connection: u8, actor: u8) -> Result<Stepped, AllocError>
        requires { connection < length self.old }
        ensures told { IfOk result (λ stepped.
            IsSomeAnd (entry_at (home_of connection actor self.old) self.old)
            (λ entry. stepped ≡ stepped_by (next_note actor entry.world.state))) }
        ensures going { IfOk result (λ stepped.
            IsSomeAnd (entry_at (home_of connection actor self.old) self.old)
            (λ entry. is_made stepped ≡ is_going actor entry.world.state)) }
        ensures ok { OnOk result (IsSomeAnd (entry_at (home_of connection actor self.old) self.old)
            (λ entry. self.new ≡
            with_entry (home_of connection actor self.old) (after_step actor entry) self.old)) }
        // A step that was made raises the greatest stamp that the actor knows.
        ensures rises { OnOk result
            (IsSomeAnd (entry_at (home_of connection actor self.old) self.old)
            (λ entry. StampRises actor entry.world.state
            (after_step actor entry).world.state)) }
        ensures stood { OnOk result
            (IsSomeAnd (entry_at (home_of connection actor self.old) self.old) Stands) }
        ensures home { IsSomeAnd (entry_at connection self.old) (λ entry.
            IsShortEntry entry → home_of connection actor self.old ≡ connection) }
        ensures others { (other : ℕ) → other ≢ home_of connection actor self.old
            → entry_at other self.new ≡ entry_at other self.old }
        ensures err { OnErr result ((self.new ≡ self.old)
            ⊎ IsSomeAnd (entry_at (home_of connection actor self.old) self.old)
            (λ entry. IsSomeAnd (entry_at (home_of connection actor self.old) self.new)
            (IsStopped entry))) }
        ensures many { length self.new ≡ length self.old }
    {
        let home = self.home_of(connection, actor);
        self.slots[usize::from(home)].step(actor)
    }

    /// Ends the round of a connection where each of its turns has ended and it hasn't failed. Else the answer is false, and nothing
    /// changes. Takes no memory.
    pub fn end_round(&mut self, connection: u8) -> bool
        requires { connection < length self.old }
        ensures over { IsSomeAnd (entry_at connection self.old) (λ entry. result ≡ ends entry) }
        ensures next { IsSomeAnd (entry_at connection self.old) (λ entry.
            self.new ≡ with_entry connection (after_end entry) self.old) }
        ensures others { (other : ℕ) → other ≢ connection
            → entry_at other self.new ≡ entry_at other self.old }
    {
        self.slots[usize::from(connection)].end_round()
    }
}
