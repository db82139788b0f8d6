//! The six books, each in a table of its own, the root that knows who is out, and the passes of actors.
ghost use Rattle.std.specs.Prelude.{◌≡◌, ℕ, true, false, IfOk, IfErr, slice_set};
ghost use Rattle.stamped_book.specs.Journal.{book_of};
ghost use Rattle.actor_desk.specs.Books.{all_six, books_in};
ghost use Rattle.actor_desk.specs.Bounds.{AreSmall};
ghost use Rattle.ruled_desk.specs.Seats.{AreFresh};
ghost use Rattle.ruled_desk.specs.Parts.{EachHas, both_seats, known_in, new_seats, one_part_less};
ghost use Rattle.ruled_desk.specs.SixSeats.{AllGainJust, AreOf, all_known, given_to, is_out, nobody_out, nothing_known};

use crate::answering::Answering;
use crate::lock::{RestingSeat, RuledLock};
use crate::seats::Seats;
use actor_desk::Books;
use control_book::ControlBook;
use reassembly_book::ReassemblyBook;
use send_book::SendBook;
use stamped_book::Stamped;
use std::alloc::{AllocError, Global};
use std::marker::Model;

/// Why no desk was opened.
#[derive(Drop)]
pub struct OpenFault {
    /// The books, as they were given.
    pub books: Books,
    /// There is no memory for their tables.
    pub fault: AllocError,
}

/// The six books of a connection, each in a table of its own. Contracts see the tables, and each book as it was given.
#[derive(Drop)]
pub struct RuledDesk {
    pub(crate) send_a: RuledLock<SendBook>,
    pub(crate) send_b: RuledLock<SendBook>,
    pub(crate) reassembly_a: RuledLock<ReassemblyBook>,
    pub(crate) reassembly_b: RuledLock<ReassemblyBook>,
    pub(crate) control_a: RuledLock<ControlBook>,
    pub(crate) control_b: RuledLock<ControlBook>,
}

impl Model for RuledDesk {
    ghost use Rattle.ruled_desk.specs.SixSeats.{SixLocked};

    ghost Value = { SixLocked };

    ghost view = { λ d. record {
      send_a = d.send_a;
      send_b = d.send_b;
      reassembly_a = d.reassembly_a;
      reassembly_b = d.reassembly_b;
      control_a = d.control_a;
      control_b = d.control_b;
    } };
}

/// The pass of an actor: the entries of its own calls at each book, and of which books it notes that the journal is full.
#[derive(Drop)]
pub struct RuledPass {
    actor: u8,
    pub(crate) seats: Seats,
}

impl Model for RuledPass {
    ghost use Rattle.ruled_desk.specs.Parts.{EachHas, known_in};
    ghost use Rattle.ruled_desk.specs.SixSeats.{Passed};

    ghost Value = { Passed };

    ghost view = { λ p. record { actor = p.actor; books = known_in p.seats } };

    ghost invariant = { λ p. EachHas 1 p.seats };
}

/// The root of a desk: of which actors a pass is out, and what it knows of the passes that came back.
#[derive(Drop)]
pub struct RootPass {
    // One for each number that an actor can have.
    out: [bool; 256],
    seats: Seats,
}

impl Model for RootPass {
    ghost use Rattle.ruled_desk.specs.Parts.{AreLeft, known_in};
    ghost use Rattle.ruled_desk.specs.SixSeats.{Rooted};

    ghost Value = { Rooted };

    ghost view = { λ r. record { out = r.out; books = known_in r.seats } };

    // Each pass that is out has one part of each table at least.
    ghost invariant = { λ r. AreLeft r.out r.seats };
}

// Two books of one kind in tables, with the first seat of each.
#[derive(Drop)]
struct Opened<O: Answering + Drop> {
    first: RuledLock<O>,
    first_seat: RestingSeat<O>,
    second: RuledLock<O>,
    second_seat: RestingSeat<O>,
}

// Both books in tables, or neither.
fn open_both<O: Answering + Drop>(
    alloc: Global,
    first: Stamped<O>,
    second: Stamped<O>,
) -> Result<Opened<O>, (Stamped<O>, Stamped<O>)>
    requires first { O.sound (book_of O.reply_to O.after first) }
    requires second { O.sound (book_of O.reply_to O.after second) }
    ensures first { IfOk result (λ opened. opened.first.start ≡ first) }
    ensures second { IfOk result (λ opened. opened.second.start ≡ second) }
    ensures fresh { IfOk result (λ opened.
        AreFresh opened.first opened.first_seat opened.second opened.second_seat) }
    ensures back { IfErr result (λ back. (back.0 ≡ first) × (back.1 ≡ second)) }
{
    let (first, first_seat) = match RuledLock::open(alloc, first) {
        Ok(opened) => opened,
        Err(first) => return Err((first, second)),
    };
    match RuledLock::open(alloc, second) {
        Ok((second, second_seat)) => Ok(Opened {
            first,
            first_seat,
            second,
            second_seat,
        }),
        Err(second) => Err((first.undo(first_seat), second)),
    }
}

// Takes both books out of their tables, as they were put there.
fn undo_both<O: Answering + Drop>(opened: Opened<O>) -> (Stamped<O>, Stamped<O>)
    requires { AreFresh opened.first opened.first_seat opened.second opened.second_seat }
    ensures first { result.0 ≡ opened.first.start }
    ensures second { result.1 ≡ opened.second.start }
{
    let Opened {
        first,
        first_seat,
        second,
        second_seat,
    } = opened;
    (first.undo(first_seat), second.undo(second_seat))
}

// The books as they were given.
fn given_back(
    send: (Stamped<SendBook>, Stamped<SendBook>),
    reassembly: (Stamped<ReassemblyBook>, Stamped<ReassemblyBook>),
    control: (Stamped<ControlBook>, Stamped<ControlBook>),
) -> OpenFault
    requires { AreSmall (books_in
        (all_six send.0 send.1 reassembly.0 reassembly.1 control.0 control.1)) }
    ensures { result.books ≡ all_six send.0 send.1 reassembly.0 reassembly.1 control.0 control.1 }
{
    let (send_a, send_b) = send;
    let (reassembly_a, reassembly_b) = reassembly;
    let (control_a, control_b) = control;
    OpenFault {
        books: Books {
            send_a,
            send_b,
            reassembly_a,
            reassembly_b,
            control_a,
            control_b,
        },
        fault: AllocError,
    }
}

// A desk of six tables, and its root.
fn desk_of(
    send: Opened<SendBook>,
    reassembly: Opened<ReassemblyBook>,
    control: Opened<ControlBook>,
) -> (RuledDesk, RootPass)
    requires send { AreFresh send.first send.first_seat send.second send.second_seat }
    requires reassembly { AreFresh reassembly.first reassembly.first_seat
        reassembly.second reassembly.second_seat }
    requires control { AreFresh control.first control.first_seat
        control.second control.second_seat }
    ensures given { given_to result.0 ≡
        all_six send.first.start send.second.start reassembly.first.start reassembly.second.start
        control.first.start control.second.start }
    ensures root { result.1 ≡ record { out = nobody_out; books = nothing_known result.0 } }
{
    (
        RuledDesk {
            send_a: send.first,
            send_b: send.second,
            reassembly_a: reassembly.first,
            reassembly_b: reassembly.second,
            control_a: control.first,
            control_b: control.second,
        },
        RootPass {
            out: [false; 256],
            seats: Seats {
                send_a: send.first_seat,
                send_b: send.second_seat,
                reassembly_a: reassembly.first_seat,
                reassembly_b: reassembly.second_seat,
                control_a: control.first_seat,
                control_b: control.second_seat,
            },
        },
    )
}

impl RuledDesk {
    /// Puts each book into a table of its own. Where there is no memory for the tables, the books come back as they were.
    pub fn open(alloc: Global, books: Books) -> Result<(RuledDesk, RootPass), OpenFault>
        ensures given { IfOk result (λ opened. given_to opened.0 ≡ books) }
        ensures root { IfOk result (λ opened.
            opened.1 ≡ record { out = nobody_out; books = nothing_known opened.0 }) }
        ensures back { IfErr result (λ fault. fault.books ≡ books) }
    {
        let Books {
            send_a,
            send_b,
            reassembly_a,
            reassembly_b,
            control_a,
            control_b,
        } = books;
        let send = match open_both(alloc, send_a, send_b) {
            Ok(send) => send,
            Err(send) => {
                return Err(given_back(send, (reassembly_a, reassembly_b), (control_a, control_b)));
            }
        };
        let reassembly = match open_both(alloc, reassembly_a, reassembly_b) {
            Ok(reassembly) => reassembly,
            Err(reassembly) => {
                return Err(given_back(undo_both(send), reassembly, (control_a, control_b)));
            }
        };
        match open_both(alloc, control_a, control_b) {
            Ok(control) => Ok(desk_of(send, reassembly, control)),
            Err(control) => Err(given_back(undo_both(send), undo_both(reassembly), control)),
        }
    }

    // A new seat at each table, with one part of another's.
    fn split_seats(&self, seats: &mut Seats) -> Seats
        requires of { AreOf self.now (known_in seats.old) }
        requires parts { EachHas 2 seats.old }
        ensures left { seats.new ≡ one_part_less seats.old }
        ensures new { result ≡ new_seats self.now }
    {
        Seats {
            send_a: self.send_a.split(&mut seats.send_a),
            send_b: self.send_b.split(&mut seats.send_b),
            reassembly_a: self.reassembly_a.split(&mut seats.reassembly_a),
            reassembly_b: self.reassembly_b.split(&mut seats.reassembly_b),
            control_a: self.control_a.split(&mut seats.control_a),
            control_b: self.control_b.split(&mut seats.control_b),
        }
    }

    // The parts, entries and notes of the seats go over to others.
    fn join_seats(&self, seats: &mut Seats, ended: Seats)
        requires of { AreOf self.now (known_in seats.old) }
        requires ended { AreOf self.now (known_in ended) }
        requires parts { EachHas 1 seats.old }
        ensures { seats.new ≡ both_seats seats.old ended }
    {
        self.send_a.join(&mut seats.send_a, ended.send_a);
        self.send_b.join(&mut seats.send_b, ended.send_b);
        self.reassembly_a
            .join(&mut seats.reassembly_a, ended.reassembly_a);
        self.reassembly_b
            .join(&mut seats.reassembly_b, ended.reassembly_b);
        self.control_a.join(&mut seats.control_a, ended.control_a);
        self.control_b.join(&mut seats.control_b, ended.control_b);
    }

    // The books, taken out of their tables with the seats that have all parts.
    fn close_seats(self, seats: Seats) -> Books
        requires of { AreOf self (known_in seats) }
        requires parts { EachHas 1024 seats }
        ensures { AllGainJust (given_to self) result (known_in seats) }
    {
        let RuledDesk {
            send_a,
            send_b,
            reassembly_a,
            reassembly_b,
            control_a,
            control_b,
        } = self;
        Books {
            send_a: send_a.close(seats.send_a),
            send_b: send_b.close(seats.send_b),
            reassembly_a: reassembly_a.close(seats.reassembly_a),
            reassembly_b: reassembly_b.close(seats.reassembly_b),
            control_a: control_a.close(seats.control_a),
            control_b: control_b.close(seats.control_b),
        }
    }

    /// A pass for an actor, with no entries and no notes.
    pub fn split(&self, root: &mut RootPass, actor: u8) -> RuledPass
        requires root { AreOf self.now root.old.books }
        requires home { is_out root.old.out actor ≡ false }
        ensures root { root.new ≡ record root.old { out = slice_set root.old.out actor true } }
        ensures pass { result ≡ record { actor = actor; books = nothing_known self.now } }
    {
        let seats = self.split_seats(&mut root.seats);
        root.out[actor as usize] = true;
        RuledPass { actor, seats }
    }

    /// The pass of an actor comes back. The root knows its entries, and its notes.
    pub fn join(&self, root: &mut RootPass, pass: RuledPass)
        requires root { AreOf self.now root.old.books }
        requires pass { AreOf self.now pass.books }
        ensures { root.new ≡ record {
          out = slice_set root.old.out pass.actor false;
          books = all_known root.old.books pass.books;
        } }
    {
        let RuledPass { actor, seats } = pass;
        self.join_seats(&mut root.seats, seats);
        root.out[actor as usize] = false;
    }

    /// The books, no more in tables. Each has the opening value that it had, and its journal gained the entries that the root
    /// knows, each as often and no others. A journal that the root knows as full has an entry with the stamp 2^62 - 1.
    pub fn close(self, root: RootPass) -> Books
        requires root { AreOf self root.books }
        requires home { (actor : ℕ) → is_out root.out actor ≡ false }
        ensures { AllGainJust (given_to self) result root.books }
    {
        let RootPass { out: _, seats } = root;
        self.close_seats(seats)
    }
}
