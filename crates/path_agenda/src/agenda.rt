//! What is still to be done in a turn, one duty after the other.

ghost use Rattle.std.specs.Prelude.{◌≡◌, ◌≤◌, ◌+◌, ◌++◌, drop, length};
ghost use Rattle.path_agenda.specs.Agenda.{rest_of_turn};
ghost use Rattle.path_agenda.specs.Words.{first_of, replaced};

use crate::duty::{Duty, StepDuty};
use arrayvec::ArrayVec;
use std::marker::Model;

/// The duties of a turn, the first of which comes to something. There are at most 72, those that are done among them.
#[derive(Drop)]
pub struct Agenda {
    duties: ArrayVec<Duty, 72>,
    /// How many of the duties are done, from the first on.
    done: usize,
}

impl Model for Agenda {
    ghost use Rattle.std.specs.Prelude.{◌≤◌, List, drop, length};
    ghost use Rattle.path_agenda.specs.declared.duty.Duty.{Duty};

    ghost Value = { List Duty };

    ghost view = { λ agenda. drop agenda.done agenda.duties.items };

    ghost invariant = { λ agenda. agenda.done ≤ length agenda.duties.items };
}

impl Agenda {
    /// An agenda of these duties, in this order: at most 72. Takes no memory.
    pub fn of(duties: &[Duty]) -> Self
        requires { length duties.now ≤ 72 }
        ensures { result ≡ duties.now }
    {
        let mut listed = ArrayVec::new();
        listed.try_extend_from_slice(duties).unwrap();
        Agenda {
            duties: listed,
            done: 0,
        }
    }

    /// An agenda of duties in four parts, one behind the other, and then the rest of the turn: at most 70 in all before it. Takes
    /// no memory.
    pub(crate) fn of_parts(first: &[Duty], second: &[Duty], third: &[Duty], fourth: &[Duty]) -> Self
        requires { length first.now + length second.now + length third.now + length fourth.now ≤
            70 }
        ensures { result ≡
            first.now ++ (second.now ++ (third.now ++ (fourth.now ++ rest_of_turn))) }
    {
        let mut listed = ArrayVec::new();
        listed.try_extend_from_slice(first).unwrap();
        listed.try_extend_from_slice(second).unwrap();
        listed.try_extend_from_slice(third).unwrap();
        listed.try_extend_from_slice(fourth).unwrap();
        listed.push(Duty::Step(StepDuty::Events));
        listed.push(Duty::End);
        Agenda {
            duties: listed,
            done: 0,
        }
    }

    /// The duty that stands first, where there is one.
    pub fn first(&self) -> Option<Duty>
        ensures { result ≡ first_of self.now }
    {
        self.duties.as_slice().get(self.done).copied()
    }

    /// The first duty is done; an agenda with none stays as it is.
    pub fn pop(&mut self)
        ensures { self.new ≡ drop 1 self.old }
    {
        if self.done < self.duties.len() {
            self.done += 1;
        }
    }

    /// Another duty stands in the place of the first; an agenda with none stays as it is.
    pub fn replace_first(&mut self, duty: Duty)
        ensures { self.new ≡ replaced duty self.old }
    {
        if self.done < self.duties.len() {
            self.duties[self.done] = duty;
        }
    }
}
