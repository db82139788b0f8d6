//! The two ends of a berth: who gives jobs, and the worker.
ghost use Rattle.std.specs.Prelude.{◌≡◌, None, Some, IfOk, IfErr, IfSome, OnOk, OnSome};

use crate::rule::{Deed, Ends};
use crate::table::{Berth, BerthSeat, NOBODY};
use atomic_table::Table;
use std::alloc::{AllocError, Global};
use std::marker::Model;
use std::sync::{Arc, Wait};

/// Who gives jobs to a worker. Contracts see the job that is out, as it was given.
#[derive(Drop)]
pub struct Giver<W: Drop, D: Deed<W>> {
    berth: Berth<W, D>,
    seat: BerthSeat<W>,
    // How many jobs were taken back since the worker last did one, and that one.
    recalled: u32,
}

// A worker is woken for its first job, and for each 256th in a row that it left; one that is awake takes what is there.
const SELDOM: u32 = 256;

impl<W: Drop, D: Deed<W>> Model for Giver<W, D> {
    ghost use Rattle.std.specs.Prelude.{◌≡◌, Option};
    ghost use Rattle.berth.specs.Rule.{giver, job_of};

    ghost Value = { Option W };

    ghost view = { λ g. job_of g.seat.me.0 };

    ghost invariant = { λ g. (g.seat.table_id ≡ g.berth) ×
        (g.seat.me ≡ giver (job_of g.seat.me.0)) };
}

/// Who does the jobs. Contracts see the job that it has, as it was given.
#[derive(Drop)]
pub struct Worker<W: Drop, D: Deed<W>> {
    berth: Berth<W, D>,
    seat: BerthSeat<W>,
}

impl<W: Drop, D: Deed<W>> Model for Worker<W, D> {
    ghost use Rattle.std.specs.Prelude.{◌≡◌, Option};
    ghost use Rattle.berth.specs.Rule.{job_of, worker};

    ghost Value = { Option W };

    ghost view = { λ w. job_of w.seat.me.0 };

    ghost invariant = { λ w. (w.seat.table_id ≡ w.berth) ×
        (w.seat.me ≡ worker (job_of w.seat.me.0)) };
}

/// A berth's two ends; no job is out, and the worker has none.
pub fn open_berth<W: Drop, D: Deed<W>>(
    alloc: Global,
) -> Result<(Giver<W, D>, Worker<W, D>), AllocError>
    ensures { IfOk result (λ ends. (ends.0 ≡ None) × (ends.1 ≡ None)) }
{
    let (table, mut gives) = Table::vacant(alloc, &[NOBODY], 1, &())?;
    let works = table.shared.split_seat::<Ends>(&mut gives);
    let table = Arc::new(alloc, table)?;
    let theirs = Arc::try_clone(&table)?;
    Ok((
        Giver {
            berth: Berth { table },
            seat: gives,
            recalled: 0,
        },
        Worker {
            berth: Berth { table: theirs },
            seat: works,
        },
    ))
}

impl<W: Drop, D: Deed<W>> Giver<W, D> {
    /// Waits until the worker has come, for two seconds at most: whether it has. One for which no thread could be made doesn't come.
    pub fn meet<R: Wait>(&self, rt: &R) -> bool {
        self.berth.wait_until_come(rt)
    }

    // The worker is woken seldom: a turn is shorter than to wake it, and who gives it waits for it or makes it.
    fn wake(&self) {
        if self.recalled % SELDOM == 0 {
            self.berth.wake();
        }
    }

    /// Gives the worker a job. Where the worker has not come yet, the job comes back as it was.
    pub fn offer(&mut self, job: W) -> Result<(), W>
        requires rests { self.old ≡ None }
        requires may { D.may job }
        ensures out { OnOk result (self.new ≡ Some job) }
        ensures back { IfErr result (λ back. back ≡ job) }
        ensures still { IfErr result (λ back. self.new ≡ None) }
    {
        if self.berth.open_slot(&mut self.seat) {
            self.berth.give(&mut self.seat, job);
            self.wake();
            Ok(())
        } else {
            Err(job)
        }
    }

    /// What the worker made of the job that is out. It waits until the job is done.
    pub fn fetch<R: Wait>(&mut self, rt: &R) -> W
        requires { (job : W) × (self.old ≡ Some job) }
        ensures done { IfSome self.old (λ job. D.does job result) }
        ensures rests { self.new ≡ None }
    {
        self.berth.wait_until_done(rt, &mut self.seat);
        self.recalled = 1;
        self.berth.take_back(&mut self.seat)
    }

    /// The job that is out, as it was given, where the worker hasn't begun it.
    pub fn recall(&mut self) -> Option<W>
        requires { (job : W) × (self.old ≡ Some job) }
        ensures back { IfSome result (λ job. self.old ≡ Some job) }
        ensures rests { OnSome result (self.new ≡ None) }
        ensures still { result ≡ None → self.new ≡ self.old }
    {
        if self.berth.is_recalled(&mut self.seat) {
            self.recalled = self.recalled.saturating_add(1);
            Some(self.berth.take_back(&mut self.seat))
        } else {
            None
        }
    }

    /// No more work comes, and the worker is told so.
    pub fn dismiss(self)
        requires { self ≡ None }
    {
        let Giver {
            berth,
            mut seat,
            recalled: _,
        } = self;
        berth.end(&mut seat);
    }
}

impl<W: Drop, D: Deed<W>> Worker<W, D> {
    /// The worker has come: jobs that are offered from now on are given to it.
    pub fn arrive(&mut self)
        requires { self.old ≡ None }
        ensures { self.new ≡ None }
    {
        self.berth.arrive(&mut self.seat);
    }

    /// The next job, which it waits for; none where no more work comes.
    pub fn next<R: Wait>(&mut self, rt: &R) -> Option<W>
        requires { self.old ≡ None }
        ensures job { self.new ≡ result }
        ensures may { IfSome result (λ job. D.may job) }
    {
        self.berth.wait_for_work(rt, &mut self.seat)
    }

    /// The job is done, and this is what was made of it.
    pub fn finish(&mut self, done: W)
        requires { (job : W) × (self.old ≡ Some job) × D.does job done }
        ensures { self.new ≡ None }
    {
        self.berth.finish(&mut self.seat, done);
    }
}
