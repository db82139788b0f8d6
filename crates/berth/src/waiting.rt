//! The calls that may wait.
ghost use Rattle.std.specs.Prelude.{◌≡◌, ◌∷◌, [], true, None, Some, MatchOption};
ghost use Rattle.berth.specs.Rule.{HasDone, worker};
ghost use Rattle.berth.specs.declared.rule.View.TheVariants.{Awaits, Free};

use crate::rule::Deed;
use crate::table::{Berth, BerthSeat};
use std::hint;
use std::sync::Wait;

// How often who waits looks before it sleeps.
const LOOKS: u32 = 64;

// How often the giver looks whether the worker has come; it sleeps a hundredth of a second after each.
const VISITS: u32 = 200;

impl<W: Drop, D: Deed<W>> Berth<W, D> {
    // A turn of the giver's waiting: how many turns it waited.
    fn rest_until_done<R: Wait>(&self, rt: &R, turns: u32) -> u32 {
        if turns < LOOKS {
            hint::spin_loop();
            turns + 1
        } else {
            self.sleep_until_done(rt);
            turns
        }
    }

    // A turn of the worker's waiting: how many turns it waited.
    fn rest_until_work<R: Wait>(&self, rt: &R, turns: u32) -> u32 {
        if turns < LOOKS {
            hint::spin_loop();
            turns + 1
        } else {
            self.sleep_until_work(rt);
            turns
        }
    }

    /// Waits until the worker has come, for two seconds at most: whether it has.
    pub(crate) fn wait_until_come<R: Wait>(&self, rt: &R) -> bool {
        for _ in 0..VISITS {
            if self.has_come() {
                return true;
            }
            self.sleep_until_come(rt);
        }
        false
    }

    /// Waits until the job that is out is done. Then the giver has the slot.
    pub(crate) fn wait_until_done<R: Wait>(&self, rt: &R, seat: &mut BerthSeat<W>)
        requires table { seat.old.table_id ≡ self.now }
        requires awaits { (job : W) × (seat.old.me ≡ (Awaits job, [])) }
        ensures table { seat.new.table_id ≡ seat.old.table_id }
        ensures done { HasDone D.does seat.old.me.0 seat.new.me }
    {
        let mut turns = 0;
        for _ in rt.forever() {
            if self.is_done(seat) {
                return;
            }
            turns = self.rest_until_done(rt, turns);
        }
        unreachable!()
    }

    /// Waits until there is work, and takes the job; none where no more work comes.
    pub(crate) fn wait_for_work<R: Wait>(&self, rt: &R, seat: &mut BerthSeat<W>) -> Option<W>
        requires table { seat.old.table_id ≡ self.now }
        requires free { seat.old.me ≡ (Free, []) }
        ensures table { seat.new.table_id ≡ seat.old.table_id }
        ensures works { seat.new.me ≡ worker result }
        ensures may { MatchOption result (Unit {0}) (λ job. D.may job) }
    {
        let mut turns = 0;
        for _ in rt.forever() {
            if self.is_work(seat) {
                return Some(self.take_job(seat));
            }
            if self.is_over() {
                return None;
            }
            turns = self.rest_until_work(rt, turns);
        }
        unreachable!()
    }
}
