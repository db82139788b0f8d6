//! What an end has to tell its peer beside its streams, or to do (RFC 8684, sections 3.3.8, 3.4 and 3.5).

ghost use Rattle.std.specs.Prelude.{◌≡◌, true, false, OnOk, OnErr, IsOk};

use control_book::Notice;
use path_agenda::OwnNotice;
use std::alloc::{AllocError, Global};
use std::collections::VecDeque;
use std::marker::Model;

/// What an end has to tell its peer beside its streams, or to do.
#[derive(Drop)]
pub(crate) struct Notices {
    /// What is to be noted to the peer, in its order.
    queue: VecDeque<OwnNotice>,
    /// The peer's key, where this end carries the fast close (section 3.5).
    pub carrier: Option<u64>,
    /// MP_FASTCLOSE was sent.
    pub fast_closed: bool,
    /// The end is to be reset.
    pub reset: bool,
}

impl Model for Notices {
    ghost use Rattle.path_core.specs.Notices.{Notices};

    ghost Value = { Notices };

    ghost view = { λ n. record {
      queue = n.queue.items;
      carrier = n.carrier;
      fast_closed = n.fast_closed;
      reset = n.reset;
    } };
}

impl Notices {
    ghost use Rattle.path_core.specs.Notices.{no_notices, queued, without_first, after_notice, queues, is_carried};
    ghost use Rattle.path_agenda.specs.Words.{first_of};

    /// Nothing is to be told or done. Takes no memory.
    pub(crate) fn new(alloc: Global) -> Self
        ensures { result ≡ no_notices }
    {
        Notices {
            queue: VecDeque::new(alloc),
            carrier: None,
            fast_closed: false,
            reset: false,
        }
    }

    /// The end died: nothing is to be told or done any more.
    pub(crate) fn let_go(&mut self)
        ensures { self.new ≡ no_notices }
    {
        self.queue.clear();
        self.carrier = None;
        self.fast_closed = false;
        self.reset = false;
    }

    /// MP_FASTCLOSE is to be sent, and never was.
    pub(crate) fn is_carried(&self) -> bool
        ensures { result ≡ is_carried self.now }
    {
        self.carrier.is_some() && !self.fast_closed
    }

    /// What is to be noted first.
    pub(crate) fn first(&self) -> Option<OwnNotice>
        ensures { result ≡ first_of self.now.queue }
    {
        let notice = self.queue.front()?;
        Some(*notice)
    }

    /// The first of what is to be noted was sent, and leaves the queue; an empty queue stays.
    pub(crate) fn drop_first(&mut self)
        ensures { self.new ≡ without_first self.old }
    {
        self.queue.pop_front();
    }

    /// A notice is to be told behind all others. At an error all is as it was.
    pub(crate) fn push(&mut self, notice: OwnNotice) -> Result<(), AllocError>
        ensures ok { OnOk result (self.new ≡ queued notice self.old) }
        ensures err { OnErr result (self.new ≡ self.old) }
    {
        if self.queue.push_back(notice).is_err() {
            return Err(AllocError);
        }
        Ok(())
    }

    /// The control book told this, where the end can announce an address now or can't. At an error all is as it was.
    ///
    /// # Errors
    ///
    /// Only where there is no memory, and something is to be noted to the peer.
    pub(crate) fn take(&mut self, notice: Notice, may: bool) -> Result<(), AllocError>
        ensures ok { OnOk result (self.new ≡ after_notice notice may self.old) }
        ensures err { OnErr result (self.new ≡ self.old) }
        ensures plain { queues notice may ≡ false → IsOk result }
    {
        match notice {
            Notice::Announce(id) if may => return self.push(OwnNotice::AddAddr { id }),
            Notice::Withdraw(id) => return self.push(OwnNotice::Removes { id }),
            Notice::Carrier { key } if !self.fast_closed => self.carrier = Some(key),
            Notice::Reset => self.reset = true,
            Notice::Nothing | Notice::Announce(_) | Notice::Carrier { .. } => {}
        }
        Ok(())
    }
}
