//! Passes for all riders of a desk.
ghost use Rattle.std.specs.Prelude.{◌≡◌, ◌≤◌, ℕ, false, All, length, map};
ghost use Rattle.ruled_desk.specs.Riding.{AreNumbered, HasPass, all_joined, given_pass, joined_with, pass_taken};
ghost use Rattle.ruled_desk.specs.SixSeats.{AreOf, is_out, passed_back, passed_out};

use crate::desk::{RootPass, RuledDesk};
use crate::rider::Mounted;

impl RuledDesk {
    // A pass for one rider.
    fn give_pass<A>(&self, root: &mut RootPass, rider: &mut Mounted<A>)
        requires root { AreOf self.now root.old.books }
        requires home { is_out root.old.out rider.old.crew.pass.actor ≡ false }
        ensures root { root.new ≡ passed_out rider.old.crew.pass.actor root.old }
        ensures rider { rider.new ≡ given_pass self.now rider.old }
    {
        let rider = &mut *rider.rider;
        rider.pass = Some(self.split(root, rider.crew.pass.actor));
    }

    // The pass of one rider comes back.
    fn take_pass<A>(&self, root: &mut RootPass, rider: &mut Mounted<A>)
        requires root { AreOf self.now root.old.books }
        requires pass { HasPass self.now rider.old }
        ensures root { root.new ≡
            passed_back rider.old.crew.pass.actor (joined_with root.old rider.old.pass) }
        ensures rider { rider.new ≡ pass_taken rider.old }
    {
        match rider.rider.pass.take() {
            Some(pass) => self.join(root, pass),
            None => unreachable!(),
        }
    }

    /// A pass for each rider. The riders are the actors from 0 on, and no pass is out.
    pub fn split_all<A>(&self, root: &mut RootPass, riders: &mut [Mounted<A>])
        requires root { AreOf self.now root.old.books }
        requires home { (actor : ℕ) → is_out root.old.out actor ≡ false }
        requires numbered { AreNumbered 0 riders.old }
        ensures riders { riders.new ≡ map (given_pass self.now) riders.old }
        ensures books { root.new.books ≡ root.old.books }
        ensures others { (actor : ℕ) → length riders.old ≤ actor →
            is_out root.new.out actor ≡ false }
    {
        for rider in riders.iter_mut() {
            self.give_pass(root, rider);
        }
    }

    /// The pass of each rider comes back. The riders are the actors from 0 on, and no other pass is out.
    pub fn join_all<A>(&self, root: &mut RootPass, riders: &mut [Mounted<A>])
        requires root { AreOf self.now root.old.books }
        requires passes { All (HasPass self.now) riders.old }
        requires numbered { AreNumbered 0 riders.old }
        requires others { (actor : ℕ) → length riders.old ≤ actor →
            is_out root.old.out actor ≡ false }
        ensures riders { riders.new ≡ map pass_taken riders.old }
        ensures books { root.new.books ≡ all_joined root.old.books riders.old }
        ensures root { AreOf self.now root.new.books }
        ensures home { (actor : ℕ) → is_out root.new.out actor ≡ false }
    {
        for rider in riders.iter_mut() {
            self.take_pass(root, rider);
        }
    }
}
