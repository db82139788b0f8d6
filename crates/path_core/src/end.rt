//! One end of a path: what it keeps, by concern, and how it dies. The subflow is `subflow_tcp`'s own.

ghost use Rattle.std.specs.Prelude.{◌≡◌, ◌-◌};
ghost use Rattle.subflow_tcp.specs.States.{is_dead};
ghost use Rattle.path_core.specs.End.{died};
ghost use Rattle.path_core.specs.Events.{is_dead_or_listening};

use crate::modes::Modes;
use crate::notices::Notices;
use crate::sending::Sending;
use crate::treated::Treated;
use path_store::Receiving;
use std::alloc::Global;
use std::marker::Model;
use subflow_tcp::{State, Subflow};

/// One end of a path: its subflow, its own stream, the peer's, the mode, the copy that it treats, and what it has to note.
#[derive(Drop)]
pub(crate) struct PathEnd {
    /// The subflow, by positions (RFC 9293).
    pub tcp: Subflow,
    /// The side's own stream, by places (RFC 8684, section 3.3.2).
    pub sending: Sending,
    /// The peer's stream, by places (RFC 8684, section 3.3.1).
    pub receiving: Receiving,
    /// The side's mode, keys and nonces.
    pub modes: Modes,
    /// The copy that is treated.
    pub treated: Treated,
    /// What is to be told to the peer beside the streams, or to be done.
    pub notices: Notices,
}

impl Model for PathEnd {
    ghost use Rattle.std.specs.Coded.{codes};
    ghost use Rattle.dss_mapping.specs.Mappings.{mappings_code};
    ghost use Rattle.path_core.specs.End.{PathEnd};

    ghost Value = { PathEnd };

    ghost coded = { Prim.hlevel (codes, mappings_code) };

    ghost view = { λ e. record {
      tcp = e.tcp;
      sending = e.sending;
      receiving = e.receiving.receiving;
      modes = e.modes;
      treated = e.treated;
      notices = e.notices;
    } };
}

impl PathEnd {
    ghost use Rattle.path_core.specs.End.{opening_end};

    /// An end of which nothing happened yet. Takes no memory.
    pub(crate) fn new(alloc: Global, tcp: Subflow, own_key: u64, own_nonce: u32) -> Self
        ensures { result ≡ opening_end tcp own_key own_nonce }
    {
        PathEnd {
            tcp,
            sending: Sending::new(alloc),
            receiving: Receiving::new(alloc),
            modes: Modes::new(own_key, own_nonce),
            treated: Treated::nothing(),
            notices: Notices::new(alloc),
        }
    }

    /// Nothing is sent, kept, noted or awaited any more.
    pub(crate) fn die(&mut self)
        ensures { self.new ≡ died self.old }
    {
        self.tcp.kill(false);
        self.treated = Treated::nothing();
        self.notices.let_go();
    }

    /// Whether it is dead.
    pub(crate) fn is_dead(&self) -> bool
        ensures { result ≡ is_dead self.now.tcp.state }
    {
        matches!(self.tcp.state(), State::Dead)
    }

    /// Whether it is dead, or still listens.
    pub(crate) fn is_dead_or_listening(&self) -> bool
        ensures { result ≡ is_dead_or_listening self.now.tcp.state }
    {
        matches!(self.tcp.state(), State::Dead | State::Listen)
    }
}
