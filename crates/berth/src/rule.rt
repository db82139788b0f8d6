//! The rule of a berth's table: who has the slot, and what lies in it.
//!
//! The table has one word and one slot. The word is 4 until the worker has come, 0 at rest, 1 while there is work that nobody has
//! begun, 5 while the worker does it, 2 once it is done, and 3 when no more work comes.

use atomic_table::{Play, Split, TableRule};
use std::marker::PhantomData;

/// What may be given to a worker, and what it makes of it.
pub trait Deed<W> {
    /// The job may be given.
    ghost may: { W → Type 0 };
    /// Of a job as it was given, and as it comes back.
    ghost does: { W → W → Type 0 };
}

/// What a seat at the table knows. No value of it is made.
pub enum View<W> {
    /// The two seats are still one.
    Both,
    /// The giver's: no job is out.
    Rests,
    /// The giver's: it has the slot.
    Opened,
    /// The giver's: this job is out.
    Awaits(W),
    /// The worker's: it has no job.
    Free,
    /// The worker's: it has this job, and the slot.
    Works(W),
}

/// The rule of a berth's table.
pub struct Berthed<D> {
    deed: PhantomData<D>,
}

impl<W, D: Deed<W>> TableRule<Option<W>, View<W>, ()> for Berthed<D> {
    ghost use Rattle.berth.specs.Rule.{IsBerthed};
    ghost use Rattle.berth.specs.declared.rule.View.TheVariants.{Both};

    ghost holds = { λ key. IsBerthed D.may D.does };

    ghost first = { λ key. Both };
}

/// The one seat becomes the giver's and the worker's.
pub struct Ends;

impl<W> Split<View<W>> for Ends {
    ghost use Rattle.berth.specs.declared.rule.View.TheVariants.{Free, Rests};

    ghost left = { λ v. Rests };

    ghost right = { λ v. Free };
}

/// The giver looks whether the worker is at rest, and has the slot then.
pub struct Open;

impl<W> Play<Option<W>, View<W>> for Open {
    ghost use Rattle.berth.specs.Rule.{IsOpened};

    ghost then = { λ step. IsOpened };
}

/// The job in the slot is given.
pub struct Give;

impl<W> Play<Option<W>, View<W>> for Give {
    ghost use Rattle.berth.specs.Rule.{IsGiven};

    ghost then = { λ step. IsGiven };
}

/// The giver takes the job back where nobody has begun it, and has the slot then.
pub struct Recall;

impl<W> Play<Option<W>, View<W>> for Recall {
    ghost use Rattle.berth.specs.Rule.{IsRecalled};

    ghost then = { λ step. IsRecalled };
}

/// The giver looks whether the job is done, and has the slot then.
pub struct Fetch<D> {
    deed: PhantomData<D>,
}

impl<W, D: Deed<W>> Play<Option<W>, View<W>> for Fetch<D> {
    ghost use Rattle.berth.specs.Rule.{IsFetched};

    ghost then = { λ step. IsFetched D.does };
}

/// The empty slot is given back.
pub struct Rest;

impl<W> Play<Option<W>, View<W>> for Rest {
    ghost use Rattle.berth.specs.Rule.{AtRest};

    ghost then = { λ step me found. AtRest };
}

/// What the seat knows stays as it is.
pub struct Stay;

impl<W> Play<Option<W>, View<W>> for Stay {
    ghost use Rattle.berth.specs.Rule.{IsSame};

    ghost then = { λ step me found. IsSame me };
}

/// The worker looks whether there is work, and has the job then.
pub struct Take<D> {
    deed: PhantomData<D>,
}

impl<W, D: Deed<W>> Play<Option<W>, View<W>> for Take<D> {
    ghost use Rattle.berth.specs.Rule.{IsTaken};

    ghost then = { λ step. IsTaken D.may };
}

/// The job in the slot is done.
pub struct Finish;

impl<W> Play<Option<W>, View<W>> for Finish {
    ghost use Rattle.berth.specs.Rule.{IsFree};

    ghost then = { λ step me found. IsFree };
}
