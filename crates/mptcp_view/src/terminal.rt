//! How far the turns of a log are made, told on a terminal.

use run_trace::Progress;
use std::io::IsTerminal;
use std::time::Instant;

/// Standard error, as one who looks on at a terminal. It is told once a second, all in one line.
#[derive(Drop)]
pub struct Terminal<'a> {
    rt: &'a HostRuntime,
    /// When the program began, where standard error is a terminal.
    begun: Option<Instant>,
    /// How many seconds had passed when it was told last.
    told: u64,
}

impl<'a> Terminal<'a> {
    /// Nothing was told yet.
    pub fn new(rt: &'a HostRuntime) -> Self {
        let mut begun = None;
        if rt.stderr().is_terminal() {
            begun = Instant::now(rt).ok();
        }
        Terminal { rt, begun, told: 0 }
    }

    /// The whole seconds since the program began, or 0 where nobody looks on.
    fn seconds(&self) -> u64 {
        let Some(begun) = self.begun else {
            return 0;
        };
        match begun.elapsed(self.rt) {
            Ok(passed) => passed.as_secs(),
            Err(_) => 0,
        }
    }

    /// Ends the line, where one was begun.
    pub fn end(&self) {
        if self.told > 0 {
            let _ = eprintln!(self.rt);
        }
    }
}

impl Progress for Terminal<'_> {
    fn made(&mut self, turns: u64, of: usize) {
        let seconds = self.seconds();
        if seconds > self.told {
            self.told = seconds;
            let _ = eprint!(self.rt; "\rmptcp_view: {turns} of {of} turns are made");
        }
    }
}
