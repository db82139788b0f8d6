//! The limits of what a script may say. Ticks are milliseconds of the run's clock.

ghost use Rattle.std.specs.Prelude.{◌≡◌};
ghost use Rattle.link_script.specs.Numbers.{is_within};

/// The least and the greatest value of a number.
#[derive(Clone, Copy)]
pub struct Limits {
    pub least: u64,
    pub most: u64,
}

impl Limits {
    /// Whether a number lies within, the two ends included.
    pub fn contains(&self, number: u64) -> bool
        ensures { result ≡ is_within self.now number }
    {
        self.least <= number && number <= self.most
    }
}

/// How many lines the text of a script has at most, those that are passed over among them.
pub const MOST_LINES: u64 = 4096;

/// How many digits a number has at most, leading zeros among them.
pub const MOST_DIGITS: usize = 20;

/// The seed of keys, nonces and initial sequence numbers.
pub const SEEDS: Limits = Limits {
    least: 0,
    most: u64::MAX,
};

/// The seed of a script that tells none.
pub const DEFAULT_SEED: u64 = 1;

/// Octets of a send buffer, and of a receive buffer.
pub const BUFFERS: Limits = Limits {
    least: 4096,
    most: 1_048_576,
};

/// The octets of each buffer of a script that tells none.
pub const DEFAULT_BUFFER: u64 = 65_536;

/// The number of a path.
pub const PATH_NUMBERS: Limits = Limits { least: 0, most: 15 };

/// The number of the path that opens the connection.
pub const FIRST_PATH_NUMBER: Limits = Limits { least: 0, most: 0 };

/// Octets of a maximum segment size.
pub const SEGMENT_SIZES: Limits = Limits {
    least: 200,
    most: 1460,
};

/// Ticks that a segment takes from one end of a link to the other.
pub const DELAYS: Limits = Limits {
    least: 1,
    most: 200,
};

/// The number of a segment among those that a link takes in one direction, counted from 1.
pub const SEGMENT_NUMBERS: Limits = Limits {
    least: 1,
    most: 1_000_000,
};

/// Ticks by which a segment is late, or its second copy later than the first.
pub const LATENESSES: Limits = Limits {
    least: 0,
    most: 100_000,
};

/// Octets that a direction of a link hands on in a tick.
pub const RATES: Limits = Limits {
    least: 10,
    most: 1_000_000,
};

/// Octets that wait before a direction of a link at most.
pub const QUEUES: Limits = Limits {
    least: 1500,
    most: 1_000_000,
};

/// How many of a million segments are lost.
pub const LOSS_PARTS: Limits = Limits {
    least: 0,
    most: 1_000_000,
};

/// Ticks that a segment waits at most, drawn by the seed.
pub const JITTERS: Limits = Limits {
    least: 0,
    most: 100_000,
};

/// A tick of the longest run, which has 65,536 rounds of 100 ticks.
pub const RUN_TICKS: Limits = Limits {
    least: 0,
    most: 6_553_599,
};

/// The identifier of an address (RFC 8684, section 3.4.1).
pub const ADDRESS_IDS: Limits = Limits {
    least: 0,
    most: 255,
};
