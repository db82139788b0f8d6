//! What a command line asks for.

/// Which work is asked for, with what that work alone needs. Rounds are the most that are made.
#[derive(Clone, Copy)]
pub enum Mode<'a> {
    /// Rounds with a thread for each actor.
    Run {
        /// 1 to 65,536.
        rounds: u32,
    },
    /// Rounds in which the actors take whole turns, one after the other.
    Serial {
        /// 1 to 65,536.
        rounds: u32,
    },
    /// Rounds in which the applications take whole turns, and then that path makes a step whose next one is earliest.
    Timed {
        /// 1 to 65,536.
        rounds: u32,
    },
    /// The steps of a log, in its order.
    Replay {
        /// The name of the log; not empty.
        order: &'a str,
    },
    /// As `Serial`, over an input that is made from a number; nothing is loaded.
    Bench {
        /// 1 to 65,536.
        rounds: u32,
        /// The number of the made input, 1 to 256.
        number: u16,
    },
}

/// A command line: the mode, and the names of what is read and written. No name is empty.
#[derive(Clone, Copy)]
pub struct CommandLine<'a> {
    /// Which work is asked for.
    pub mode: Mode<'a>,
    /// The name of the script.
    pub script: &'a str,
    /// The name of what A sends.
    pub file_a: &'a str,
    /// The name of what B sends.
    pub file_b: &'a str,
    /// The name under which the octets that B reads are written.
    pub read_by_b: &'a str,
    /// The name under which the octets that A reads are written.
    pub read_by_a: &'a str,
}
