//! What a copy is to an end of a path.

ghost use Rattle.std.specs.Prelude.{◌≡◌};
ghost use Rattle.path_core.specs.Judged.{is_passed_over, is_forged, join_judged, judged_of, taken_as, with_answer, after_join};

use crate::end::PathEnd;
use crate::modes::Modes;
use crate::mp_join::{has_third, join_asked};
use join_handshake::JoinAnswer;
use path_agenda::Heard;
use subflow_tcp::{Meaning, State};

/// What a copy is to an end. At an end of path 0 it is what it means to the subflow.
#[derive(Clone, Copy)]
pub enum Judged {
    /// What it means to the subflow, or less.
    As(Meaning),
    /// A SYN that asks to join the path to the connection (RFC 8684, section 3.2).
    Asks,
    /// A SYN without an MP_JOIN, on a path that joins.
    Lacks,
    /// A copy that joins the path by a wrong HMAC, or answers a join without one.
    Forged,
}

impl Judged {
    /// What the subflow takes it as: as nothing, where it waits for the control book or is refused.
    pub(crate) fn taken_as(self) -> Meaning
        ensures { result ≡ taken_as self }
    {
        match self {
            Judged::As(meaning) => meaning,
            Judged::Asks | Judged::Lacks | Judged::Forged => Meaning::Ignored,
        }
    }
}

impl Modes {
    /// A has B's nonce and flag now, and owes the third MP_JOIN.
    fn take_answer(&mut self, answer: Option<JoinAnswer>)
        ensures { self.new ≡ with_answer answer self.old }
    {
        if let Some(answer) = answer {
            self.peer_nonce = answer.nonce;
            self.backup_heard = answer.backup;
            self.owes_third = true;
        }
    }
}

impl PathEnd {
    /// B's end of a path that joins passes a copy over in silence until the third MP_JOIN comes, unless it is a reset.
    fn is_passed_over(&self, rst: bool, items: &[Heard]) -> bool
        ensures { result ≡ is_passed_over rst items.now self.now }
    {
        self.tcp.state() == State::SynReceived && !rst && !has_third(items)
    }

    /// The third MP_JOIN isn't A's.
    fn is_forged(&self, items: &[Heard]) -> bool
        ensures { result ≡ is_forged items.now self.now }
    {
        self.tcp.state() == State::SynReceived && !self.modes.is_third_right(items)
    }

    /// What a copy of this meaning is to the end of a path that joins.
    fn join_judged(&self, rst: bool, items: &[Heard], meaning: Meaning) -> Judged
        ensures { result ≡ join_judged rst items.now meaning self.now }
    {
        match meaning {
            Meaning::Opens if join_asked(items).is_some() => Judged::Asks,
            Meaning::Opens => Judged::Lacks,
            Meaning::Accepts { .. } if self.modes.join_answer(items).is_none() => Judged::Forged,
            Meaning::Accepts { .. } | Meaning::RepeatedSyn => Judged::As(meaning),
            _ if self.is_passed_over(rst, items) => Judged::As(Meaning::Ignored),
            Meaning::Taken { .. } if self.is_forged(items) => Judged::Forged,
            _ => Judged::As(meaning),
        }
    }

    /// What a copy of this meaning is to the end.
    pub(crate) fn judged_of(
        &self,
        joined: bool,
        rst: bool,
        items: &[Heard],
        meaning: Meaning,
    ) -> Judged
        ensures { result ≡ judged_of joined rst items.now meaning self.now }
    {
        if joined {
            self.join_judged(rst, items, meaning)
        } else {
            Judged::As(meaning)
        }
    }

    /// What a copy of this meaning tells of the join.
    pub(crate) fn join_by(&mut self, joined: bool, items: &[Heard], meaning: Meaning)
        ensures { self.new ≡ after_join joined items.now meaning self.old }
    {
        if !joined {
            return;
        }
        match meaning {
            Meaning::Accepts { .. } => {
                let answer = self.modes.join_answer(items);
                self.modes.take_answer(answer);
            }
            Meaning::Taken { .. } => {
                self.modes.clear |= self.tcp.state() == State::SynReceived;
            }
            _ => {}
        }
    }
}
