//! The steps at a berth's table.
ghost use Rattle.std.specs.Prelude.{◌≡◌, ◌∷◌, [], true, false, Some, None};
ghost use Rattle.berth.specs.declared.rule.View.TheVariants.{Awaits, Free, Opened, Rests, Works};

use crate::rule::{Berthed, Deed, Fetch, Finish, Give, Open, Recall, Rest, Stay, Take, View};
use atomic_table::{Seat, Table};
use std::alloc::Global;
use std::marker::Model;
use std::sync::{Arc, Wait};
use std::time::Duration;

/// Until the worker has come.
pub(crate) const NOBODY: u64 = 4;

const REST: u64 = 0;

const WORK: u64 = 1;

const DONE: u64 = 2;

const OVER: u64 = 3;

const BEGUN: u64 = 5;

/// A seat at the table of a berth.
pub(crate) type BerthSeat<W> = Seat<Option<W>, View<W>>;

pub(crate) type BerthTable<W, D> = Table<Option<W>, View<W>, (), Berthed<D>, Global>;

/// The table of a berth. Contracts see which table it is.
#[derive(Drop)]
pub(crate) struct Berth<W: Drop, D: Deed<W>> {
    pub(crate) table: Arc<BerthTable<W, D>, Global>,
}

impl<W: Drop, D: Deed<W>> Model for Berth<W, D> {
    ghost use Rattle.std.specs.Prelude.{◌≡◌};
    ghost use Rattle.std.specs.Arc.{arc_value};
    ghost use Rattle.atomic_table.specs.Seated.{TableId};

    ghost Value = { TableId };

    ghost view = { λ b. (arc_value b.table).shared.table_id };

    ghost invariant = { λ b. ((arc_value b.table).shared.table_id.words ≡ 1) ×
        ((arc_value b.table).shared.table_id.slots ≡ 1) };
}

impl<W: Drop, D: Deed<W>> Berth<W, D> {
    ghost use Rattle.berth.specs.Rule.{HasBack, HasDone, HasJob};

    /// Whether the worker is at rest. Then the giver has the slot.
    pub(crate) fn open_slot(&self, seat: &mut BerthSeat<W>) -> bool
        requires table { seat.old.table_id ≡ self.now }
        requires rests { seat.old.me ≡ (Rests, []) }
        ensures table { seat.new.table_id ≡ seat.old.table_id }
        ensures opened { result ≡ true → seat.new.me ≡ (Opened, (0, None) ∷ []) }
        ensures still { result ≡ false → seat.new.me ≡ (Rests, []) }
    {
        self.table.shared.load::<Open>(seat, 0) == REST
    }

    /// Gives the job.
    pub(crate) fn give(&self, seat: &mut BerthSeat<W>, job: W)
        requires table { seat.old.table_id ≡ self.now }
        requires opened { seat.old.me ≡ (Opened, (0, None) ∷ []) }
        requires may { D.may job }
        ensures table { seat.new.table_id ≡ seat.old.table_id }
        ensures given { seat.new.me ≡ (Awaits job, []) }
    {
        self.table.shared.exchange(seat, 0, Some(job));
        self.table.shared.store::<Give>(seat, 0, WORK);
    }

    /// Wakes the other one, if it sleeps.
    pub(crate) fn wake(&self) {
        self.table.shared.wake_one(0);
    }

    /// Takes the job that is out back, where nobody has begun it. Then the giver has the slot.
    pub(crate) fn is_recalled(&self, seat: &mut BerthSeat<W>) -> bool
        requires table { seat.old.table_id ≡ self.now }
        requires awaits { (job : W) × (seat.old.me ≡ (Awaits job, [])) }
        ensures table { seat.new.table_id ≡ seat.old.table_id }
        ensures back { result ≡ true → HasBack seat.old.me.0 seat.new.me }
        ensures still { result ≡ false → seat.new.me ≡ seat.old.me }
    {
        let found = self
            .table
            .shared
            .compare_exchange::<Recall>(seat, 0, WORK, REST);
        found == WORK
    }

    /// Whether the job that is out is done. Then the giver has the slot.
    pub(crate) fn is_done(&self, seat: &mut BerthSeat<W>) -> bool
        requires table { seat.old.table_id ≡ self.now }
        requires awaits { (job : W) × (seat.old.me ≡ (Awaits job, [])) }
        ensures table { seat.new.table_id ≡ seat.old.table_id }
        ensures done { result ≡ true → HasDone D.does seat.old.me.0 seat.new.me }
        ensures still { result ≡ false → seat.new.me ≡ seat.old.me }
    {
        self.table.shared.load::<Fetch<D>>(seat, 0) == DONE
    }

    /// Takes what lies in the slot.
    pub(crate) fn take_back(&self, seat: &mut BerthSeat<W>) -> W
        requires table { seat.old.table_id ≡ self.now }
        requires done { (done : W) × (seat.old.me ≡ (Opened, (0, Some done) ∷ [])) }
        ensures table { seat.new.table_id ≡ seat.old.table_id }
        ensures was { seat.old.me ≡ (Opened, (0, Some result) ∷ []) }
        ensures rests { seat.new.me ≡ (Rests, []) }
    {
        match self.table.shared.exchange(seat, 0, None) {
            Some(job) => {
                self.table.shared.store::<Rest>(seat, 0, REST);
                job
            }
            None => unreachable!(),
        }
    }

    /// Tells the worker that no more work comes.
    pub(crate) fn end(&self, seat: &mut BerthSeat<W>)
        requires table { seat.old.table_id ≡ self.now }
        requires rests { seat.old.me ≡ (Rests, []) }
    {
        self.table.shared.store::<Stay>(seat, 0, OVER);
        self.wake();
    }

    /// The worker has come, unless no more work comes. Wakes the giver.
    pub(crate) fn arrive(&self, seat: &mut BerthSeat<W>)
        requires table { seat.old.table_id ≡ self.now }
        requires free { seat.old.me ≡ (Free, []) }
        ensures table { seat.new.table_id ≡ seat.old.table_id }
        ensures free { seat.new.me ≡ (Free, []) }
    {
        self.table
            .shared
            .compare_exchange::<Stay>(seat, 0, NOBODY, REST);
        self.wake();
    }

    /// Whether the worker has come.
    pub(crate) fn has_come(&self) -> bool {
        self.table.shared.peek(0) != NOBODY
    }

    /// Sleeps while the worker hasn't come, for a hundredth of a second at most; it may also return for no reason.
    pub(crate) fn sleep_until_come<R: Wait>(&self, rt: &R) {
        self.table
            .shared
            .park_timeout(rt, 0, NOBODY as u32, Duration::from_millis(10));
    }

    /// Begins the work, where there is some. Then the worker has the job.
    pub(crate) fn is_work(&self, seat: &mut BerthSeat<W>) -> bool
        requires table { seat.old.table_id ≡ self.now }
        requires free { seat.old.me ≡ (Free, []) }
        ensures table { seat.new.table_id ≡ seat.old.table_id }
        ensures work { result ≡ true → HasJob D.may seat.new.me }
        ensures still { result ≡ false → seat.new.me ≡ (Free, []) }
    {
        let found = self
            .table
            .shared
            .compare_exchange::<Take<D>>(seat, 0, WORK, BEGUN);
        found == WORK
    }

    /// Takes the job out of the slot.
    pub(crate) fn take_job(&self, seat: &mut BerthSeat<W>) -> W
        requires table { seat.old.table_id ≡ self.now }
        requires work { HasJob D.may seat.old.me }
        ensures table { seat.new.table_id ≡ seat.old.table_id }
        ensures may { D.may result }
        ensures works { seat.new.me ≡ (Works result, (0, None) ∷ []) }
    {
        match self.table.shared.exchange(seat, 0, None) {
            Some(job) => job,
            None => unreachable!(),
        }
    }

    /// Puts what the worker made of its job into the slot, and wakes the giver.
    pub(crate) fn finish(&self, seat: &mut BerthSeat<W>, done: W)
        requires table { seat.old.table_id ≡ self.now }
        requires works { (job : W) × (seat.old.me ≡ (Works job, (0, None) ∷ [])) × D.does job done }
        ensures table { seat.new.table_id ≡ seat.old.table_id }
        ensures free { seat.new.me ≡ (Free, []) }
    {
        self.table.shared.exchange(seat, 0, Some(done));
        self.table.shared.store::<Finish>(seat, 0, DONE);
        self.wake();
    }

    /// Whether no more work comes.
    pub(crate) fn is_over(&self) -> bool {
        self.table.shared.peek(0) == OVER
    }

    /// Sleeps while the work isn't done; it may also return for no reason. A worker that hasn't begun it is woken.
    pub(crate) fn sleep_until_done<R: Wait>(&self, rt: &R) {
        let word = self.table.shared.peek(0);
        if word == WORK {
            self.wake();
            self.table.shared.park(rt, 0, WORK as u32);
        }
        if word == BEGUN {
            self.table.shared.park(rt, 0, BEGUN as u32);
        }
    }

    /// Sleeps while there is no news for the worker; it may also return for no reason.
    pub(crate) fn sleep_until_work<R: Wait>(&self, rt: &R) {
        let word = self.table.shared.peek(0);
        if word == REST || word == DONE {
            self.table.shared.park(rt, 0, word as u32);
        }
    }
}
