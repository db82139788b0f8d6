//! One book in a table of its own, and the seats at it.
ghost use Rattle.std.specs.Prelude.{◌≡◌, ◌+◌, ◌-◌, ◌<◌, ◌≤◌, ◌++◌, ◌∷◌, ◌||◌, ◌%◌, ◌^◌, [], Bool, true, false, Some, IfOk, IfErr};
ghost use Rattle.stamped_book.specs.Journal.{Journaled, book_of};
ghost use Rattle.stamped_book.specs.declared.stamped.Entry.{Entry};
ghost use Rattle.ruled_desk.specs.Growing.{HasLastStamp, grown};

use crate::answering::Answering;
use crate::held::Held;
use crate::rule::{Add, AllParts, BookView, Draw, Look, OnePart, Ruled, Serve, ServeFull};
use actor_desk::Kept;
use atomic_table::{Refused, Seat, Table};
use stamped_book::{Book, Stamped};
use std::alloc::Global;
use std::hint;
use std::marker::Model;
use std::snapshot::Snapshot;
use std::sync::{Mutex, MutexGuard, Wait};

// How often who waits at a door looks before it sleeps. A call takes less time than that.
const LOOKS: u32 = 300;

/// A seat at the table of a book.
pub(crate) type BookSeat<O> = Seat<Option<Held<O>>, BookView<O>>;

/// A book in a table of its own. Contracts see which table it is, and the book as it was put there.
#[derive(Drop)]
pub struct RuledLock<O: Kept + Drop> {
    table: Table<Option<Held<O>>, BookView<O>, Snapshot<Held<O>>, Ruled, Global>,
    // One thread at a time is past the door, from before its ticket is drawn until the next one is served.
    door: Mutex<()>,
}

impl<O: Kept + Drop> Model for RuledLock<O> {
    ghost use Rattle.std.specs.Prelude.{◌≡◌};
    ghost use Rattle.ruled_desk.specs.Seats.{Locked};

    ghost Value = { Locked O O.Call O.Reply };

    ghost view = { λ l. record {
      table = l.table.shared.table_id;
      start = l.table.shared.key.value;
    } };

    ghost invariant = { λ l. (l.table.shared.table_id.words ≡ 3) ×
        (l.table.shared.table_id.slots ≡ 1) };
}

/// A seat that neither waits nor has the book. Contracts see which table it is at, its parts of 1,024, the entries that it
/// added, and whether it notes that the journal is full.
#[derive(Drop)]
pub struct RestingSeat<O: Kept> {
    pub(crate) seat: BookSeat<O>,
}

impl<O: Kept> Model for RestingSeat<O> {
    ghost use Rattle.std.specs.Prelude.{◌≡◌, []};
    ghost use Rattle.ruled_desk.specs.Rule.{IsAtRest};
    ghost use Rattle.ruled_desk.specs.Seats.{Seated, seated};

    ghost Value = { Seated O.Call O.Reply };

    ghost view = { λ s. seated s.seat.table_id s.seat.me.0.parts s.seat.me.0.own s.seat.me.0.full };

    ghost invariant = { λ s. IsAtRest s.seat.me.0 × (s.seat.me.1 ≡ []) };
}

// The book of a slot that no table took.
fn taken_back<O: Answering + Drop>(mut slots: Vec<Option<Held<O>>>) -> Stamped<O>
    requires { (book : Journaled O O.Call O.Reply) × (slots.items ≡ Some book ∷ []) }
    ensures { slots.items ≡ Some result ∷ [] }
{
    match slots.pop() {
        Some(Some(held)) => held.into_book(),
        Some(None) => unreachable!(),
        None => unreachable!(),
    }
}

impl<O: Answering + Drop> RuledLock<O> {
    ghost use Rattle.ruled_desk.specs.Rule.{HasOneMore, HasTaken, HasTurn, IsAtRest, IsBack, IsDone, IsDrawn, IsServed, IsWaiting};
    ghost use Rattle.ruled_desk.specs.Seats.{GainsJust, seated};

    /// Puts the book into a table. The first seat has all of its 1,024 parts. Where there is no memory, the book comes back.
    pub fn open(alloc: Global, book: Stamped<O>) -> Result<(Self, RestingSeat<O>), Stamped<O>>
        requires { O.sound (book_of O.reply_to O.after book) }
        ensures start { IfOk result (λ opened. opened.0.start ≡ book) }
        ensures seat { IfOk result (λ opened. opened.1 ≡ seated opened.0.table 1024 [] false) }
        ensures err { IfErr result (λ back. back ≡ book) }
    {
        let held = Held::new(book);
        let key = Snapshot::of(&held);
        let mut slots = match Vec::with_capacity(alloc, 1) {
            Ok(slots) => slots,
            Err(_) => return Err(held.into_book()),
        };
        slots.push_reserved(Some(held));
        match Table::new(alloc, &[0, 0, 0], slots, &key) {
            Ok((table, seat)) => Ok((
                RuledLock {
                    table,
                    door: Mutex::new(()),
                },
                RestingSeat { seat },
            )),
            Err(Refused { slots }) => Err(taken_back(slots)),
        }
    }

    /// A new seat with one part of another one's.
    pub fn split(&self, seat: &mut RestingSeat<O>) -> RestingSeat<O>
        requires table { seat.old.table ≡ self.now.table }
        requires parts { 2 ≤ seat.old.parts }
        ensures left { seat.new ≡ record seat.old { parts = seat.old.parts - 1 } }
        ensures new { result ≡ seated seat.old.table 1 [] false }
    {
        RestingSeat {
            seat: self.table.shared.split_seat::<OnePart>(&mut seat.seat),
        }
    }

    /// A seat's parts, entries and notes go over to another.
    pub fn join(&self, seat: &mut RestingSeat<O>, other: RestingSeat<O>)
        requires table { seat.old.table ≡ self.now.table }
        requires other { other.table ≡ self.now.table }
        requires parts { 1 ≤ seat.old.parts }
        ensures { seat.new ≡
            seated seat.old.table (seat.old.parts + other.parts) (seat.old.own ++ other.own)
            (seat.old.full || other.full) }
    {
        let RestingSeat { seat: ended } = other;
        self.table
            .shared
            .join_seat::<AllParts>(&mut seat.seat, ended);
    }

    /// Takes the book out of its table, with the seat that has all parts.
    pub fn close(self, seat: RestingSeat<O>) -> Stamped<O>
        requires table { seat.table ≡ self.table }
        requires parts { 1024 ≤ seat.parts }
        ensures gains { GainsJust self.start result seat.own seat.full }
        ensures sound { O.sound (book_of O.reply_to O.after result) }
    {
        let RuledLock { table, door: _ } = self;
        let RestingSeat { seat } = seat;
        let mut closed = table.close_with(seat);
        let slot = closed.take(0);
        closed.free();
        match slot {
            Some(held) => held.into_book(),
            None => unreachable!(),
        }
    }

    /// Takes the book out of its table as it was put there, with the seat that has all parts and has added nothing.
    pub fn undo(self, seat: RestingSeat<O>) -> Stamped<O>
        requires { seat ≡ seated self.table 1024 [] false }
        ensures { result ≡ self.start }
    {
        self.close(seat)
    }

    /// Draws a ticket.
    pub(crate) fn draw(&self, seat: &mut BookSeat<O>) -> u64
        requires table { seat.old.table_id ≡ self.now.table }
        requires rests { IsAtRest seat.old.me.0 }
        requires parts { 1 ≤ seat.old.me.0.parts }
        ensures table { seat.new.table_id ≡ seat.old.table_id }
        ensures drawn { IsDrawn seat.old.me result seat.new.me }
    {
        self.table.shared.fetch_add::<Draw>(seat, 0, 1)
    }

    /// Whether the ticket is served. Then the seat has the book.
    pub(crate) fn look(&self, seat: &mut BookSeat<O>, ticket: u64) -> bool
        requires table { seat.old.table_id ≡ self.now.table }
        requires waits { IsWaiting seat.old.me ticket }
        ensures table { seat.new.table_id ≡ seat.old.table_id }
        ensures taken { result ≡ true → HasTaken seat.old.me seat.new.me }
        ensures still { result ≡ false → seat.new.me ≡ seat.old.me }
    {
        self.table.shared.load::<Look>(seat, 1) == ticket
    }

    /// Waits until nobody else is past the door. A thread that runs may go before those that sleep there.
    pub(crate) fn pass_door<R: Wait>(&self, rt: &R) -> MutexGuard<'_, ()> {
        for _ in 0..LOOKS {
            if let Some(guard) = self.door.try_lock() {
                return guard;
            }
            hint::spin_loop();
        }
        self.door.lock(rt)
    }

    /// Takes the book out of the slot.
    pub(crate) fn take_out(&self, seat: &mut BookSeat<O>) -> Held<O>
        requires table { seat.old.table_id ≡ self.now.table }
        requires slot { (book : Journaled O O.Call O.Reply) × (seat.old.me.0.took ≡ book ∷ []) ×
            (seat.old.me.1 ≡ (0, Some book) ∷ []) }
        ensures table { seat.new.table_id ≡ seat.old.table_id }
        ensures view { seat.new.me.0 ≡ seat.old.me.0 }
        ensures turn { HasTurn seat.new.me result }
    {
        match self.table.shared.exchange(seat, 0, None) {
            Some(held) => held,
            None => unreachable!(),
        }
    }

    // Serves the next ticket, and notes where it is so that the journal is full.
    fn serve(&self, seat: &mut BookSeat<O>, full: bool)
        requires table { seat.old.table_id ≡ self.now.table }
        requires back { IsBack full seat.old.me }
        ensures table { seat.new.table_id ≡ seat.old.table_id }
        ensures served { IsServed full seat.old.me seat.new.me }
    {
        if full {
            self.table.shared.fetch_add::<ServeFull>(seat, 1, 1);
        } else {
            self.table.shared.fetch_add::<Serve>(seat, 1, 1);
        }
    }

    /// Puts the book back with the entry that it has more, which is the seat's own from then on, and serves the next ticket.
    pub(crate) fn put_entry(&self, seat: &mut BookSeat<O>, held: Held<O>)
        requires table { seat.old.table_id ≡ self.now.table }
        requires more { HasOneMore seat.old.me held }
        ensures table { seat.new.table_id ≡ seat.old.table_id }
        ensures done { (book : Journaled O O.Call O.Reply) (entry : Entry O.Call O.Reply) →
            HasTurn seat.old.me book → held ≡ grown book (entry ∷ []) →
            IsDone (entry ∷ []) false seat.old.me seat.new.me }
    {
        self.table.shared.exchange(seat, 0, Some(held));
        self.table.shared.fetch_add::<Add>(seat, 2, 1);
        self.serve(seat, false);
    }

    /// Puts the book back as it was taken, and serves the next ticket.
    pub(crate) fn put_back(&self, seat: &mut BookSeat<O>, held: Held<O>)
        requires table { seat.old.table_id ≡ self.now.table }
        requires turn { HasTurn seat.old.me held }
        ensures table { seat.new.table_id ≡ seat.old.table_id }
        ensures done { IsDone [] false seat.old.me seat.new.me }
    {
        self.table.shared.exchange(seat, 0, Some(held));
        self.serve(seat, false);
    }

    /// Puts the book back as it was taken, serves the next ticket, and notes where it is so that the journal is full.
    pub(crate) fn put_refused(&self, seat: &mut BookSeat<O>, held: Held<O>)
        requires table { seat.old.table_id ≡ self.now.table }
        requires turn { HasTurn seat.old.me held }
        ensures table { seat.new.table_id ≡ seat.old.table_id }
        ensures done { (full : Bool) × IsDone [] full seat.old.me seat.new.me ×
            (HasLastStamp held.journal → full ≡ true) }
    {
        if held.is_full() {
            self.put_back_full(seat, held);
        } else {
            self.put_back(seat, held);
        }
    }

    // Puts the full book back as it was taken, notes that it is full, and serves the next ticket.
    fn put_back_full(&self, seat: &mut BookSeat<O>, held: Held<O>)
        requires table { seat.old.table_id ≡ self.now.table }
        requires turn { HasTurn seat.old.me held }
        requires last { HasLastStamp held.journal }
        ensures table { seat.new.table_id ≡ seat.old.table_id }
        ensures done { IsDone [] true seat.old.me seat.new.me }
    {
        self.table.shared.exchange(seat, 0, Some(held));
        self.serve(seat, true);
    }
}
