//! The calls that were made on an outside, for contracts alone. They take no memory, and nothing is done at run time.

ghost use Rattle.std.specs.Prelude.{◌≡◌, List, [], ◌∷◌, ◌++◌};
ghost use Rattle.std.specs.Borrow.{ftrue};
ghost use Rattle.outside_kit.specs.Calls.{Made};
ghost use Rattle.message_pipe.specs.CallCode.{made_code};

use outside_kit::Port;
use std::marker::Model;

/// A call, and whether it succeeded.
#[derive(Clone, Copy)]
pub(crate) enum MadeCall<'a> {
    Load {
        name: &'a str,
        ok: bool,
    },
    Bind {
        port: Port,
        name: &'a str,
        ok: bool,
    },
    Put {
        port: Port,
        piece: &'a [u8],
        ok: bool,
    },
}

/// The calls that were made, in order, which only contracts read.
#[derive(Drop)]
pub(crate) struct Trace {
    ghost calls: { List Made } by { made_code },
}

impl Model for Trace {
    ghost also_owns = { λ _. ftrue };
}

impl Trace {
    ghost use Rattle.message_pipe.specs.Noted.{noted};

    /// No call yet.
    pub(crate) fn new() -> Trace
        ensures { result.calls ≡ [] }
    {
        Trace {}
    }

    /// The calls so far, and one more behind them.
    #[inline(always)]
    pub(crate) fn then(&self, _made: &MadeCall<'_>) -> Trace
        ensures { result.calls ≡ self.now.calls ++ noted _made.now ∷ [] }
    {
        Trace {}
    }
}
