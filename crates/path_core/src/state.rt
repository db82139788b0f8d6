//! The state of a path: its two ends, its link, and what is still to be done in its turn.

ghost use Rattle.std.specs.Prelude.{◌≡◌, ◌<◌};
ghost use Rattle.std.specs.Borrow.{sem};
ghost use Rattle.actor_desk.specs.Words.{tail_of};
ghost use Rattle.path_agenda.specs.Words.{replaced};
ghost use Rattle.path_core.specs.Turns.{TakesTime};

use crate::end::PathEnd;
use crate::profile::Profile;
use link_model::Link;
use path_agenda::{Agenda, Clock, Duty, Items};
use path_store::LineLeft;
use sides::Side;
use std::alloc::Global;
use std::collections::VecDeque;
use std::marker::Model;

/// The state of a path. Its turn is an agenda of duties; the rules are methods of it, and of its ends.
#[derive(Drop)]
pub(crate) struct PathState {
    pub(crate) alloc: Global,
    pub(crate) profile: Profile,
    pub(crate) link: Link,
    pub(crate) clock: Clock,
    /// The lines of the script that aren't taken yet, in the order of their ticks.
    pub(crate) lines: VecDeque<LineLeft>,
    /// The tick at which A joins the path to the connection, as long as that is to come.
    pub(crate) joined_at: Option<u64>,
    pub(crate) a: PathEnd,
    pub(crate) b: PathEnd,
    pub(crate) agenda: Agenda,
    /// What the copy that was taken last says. It is read anew from each copy, and nothing of it is left over.
    pub(crate) items: Items,
}

impl Model for PathState {
    ghost use Rattle.std.specs.Prelude.{ℕ, ◌≡◌, List};
    ghost use Rattle.std.specs.Coded.{codes};
    ghost use Rattle.dss_mapping.specs.Mappings.{mappings_code};
    ghost use Rattle.path_core.specs.State.{PathState};

    ghost Value = { PathState (List ℕ) };

    ghost coded = { Prim.hlevel (codes, mappings_code) };

    ghost view = { λ p. record {
      profile = p.profile;
      link = p.link;
      clock = p.clock.tick;
      until = p.clock.until;
      lines = p.lines.items;
      joined_at = p.joined_at;
      a = p.a;
      b = p.b;
      agenda = p.agenda;
    } };

    ghost invariant = { λ p. p.profile.spelling.path ≡ p.link.path };
}

impl PathState {
    ghost use Rattle.path_core.specs.Lending.{LendsEnd};
    ghost use Rattle.path_core.specs.State.{end_at, with_agenda, path_of};

    /// The end of a side.
    pub(crate) fn end(&self, side: Side) -> &PathEnd
        ensures { result.now ≡ end_at side self.now }
    {
        match side {
            Side::A => &self.a,
            Side::B => &self.b,
        }
    }

    /// The end of a side, lent.
    pub(crate) fn end_mut(&mut self, side: Side) -> &mut PathEnd
        ensures* writes_back { sem 𝓛 (LendsEnd self.entry side result) }
        ensures value { result.now ≡ end_at side self.old }
    {
        match side {
            Side::A => &mut self.a,
            Side::B => &mut self.b,
        }
    }

    /// The number of the path, below 16.
    pub(crate) fn number(&self) -> u8
        ensures value { result ≡ path_of self.now }
        ensures bound { result < 16 }
    {
        self.profile.spelling().path
    }

    /// A segment is on its way for a tick or longer, and so a timeout is.
    #[tactic(auto, using(crate::proofs::Grants::takes_time))]
    pub(crate) fn takes_time(&self)
        ensures { TakesTime self.now }
    {
        // For the proof: the delay is within its limits.
        let _delay = self.link.delay();
        let (_a, _b) = (self.a.tcp.rto(), self.b.tcp.rto());
    }

    /// The first duty is done.
    #[tactic(auto, using(crate::proofs::FirstDuty::rest_is))]
    pub(crate) fn done(&mut self)
        ensures { self.new ≡ with_agenda (tail_of self.old.agenda) self.old }
    {
        self.agenda.pop();
    }

    /// Another duty stands in the place of the first.
    pub(crate) fn turns_to(&mut self, duty: Duty)
        ensures { self.new ≡ with_agenda (replaced duty self.old.agenda) self.old }
    {
        self.agenda.replace_first(duty);
    }

    /// The duties of this agenda are to be done, and no others.
    pub(crate) fn sets_about(&mut self, agenda: Agenda)
        ensures { self.new ≡ with_agenda agenda self.old }
    {
        self.agenda = agenda;
    }
}
