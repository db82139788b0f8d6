//! The congestion window of an end, and the duplicates that it hears (RFC 5681, section 3).
ghost use Rattle.std.specs.Prelude.{◌≡◌, ◌<◌, ◌≤◌, ◌-◌, IfSome};
ghost use Rattle.loss_recovery.specs.Windows.{opening, counted, is_growth_linked, acknowledged, is_third, duplicated, without_duplicates, with_told, expired, after_growth, is_same_told, without_pending};

use reno_window::Reno;

/// What a copy told of the other direction: a duplicate tells the same again.
#[derive(Clone, Copy)]
pub struct Told {
    /// The place that its Data ACK named.
    pub place: Option<u64>,
    /// Its window, in octets.
    pub window: u32,
}

/// What an end's window is to grow by: the caller tells that, with the windows of all paths at hand.
#[derive(Clone, Copy, Debug)]
pub struct Pending {
    /// The octets that were newly acknowledged, at least 1 and at most 2^20.
    pub acked: u32,
    /// The window before that, in octets.
    pub window: u32,
    /// The smoothed round-trip time in ticks, at least 1; 1,000 until it is known.
    pub rtt: u32,
}

/// How much an end may have under way, and what it heard of losses.
#[derive(Clone, Copy)]
pub struct Congestion {
    /// The congestion window.
    pub reno: Reno,
    /// The duplicates in a row, up to the third.
    pub duplicates: u8,
    /// What the last copy told.
    pub told: Told,
    /// The growth that is still to be told.
    pub pending: Option<Pending>,
}

/// As many octets as the window counts: at most 2^20.
fn counted(octets: u64) -> u32
    ensures value { result ≡ counted octets }
    ensures bound { result ≤ 1048576 }
{
    octets.min(1_048_576) as u32
}

impl Congestion {
    /// The window of an end that opens, whose segments have `mss` octets, at least one.
    pub fn new(mss: u16) -> Self
        requires { 0 < mss }
        ensures { result ≡ opening mss }
    {
        Congestion {
            reno: Reno::new(mss),
            duplicates: 0,
            told: Told {
                place: None,
                window: 0,
            },
            pending: None,
        }
    }

    /// Whether an acknowledgement of so many new octets makes the window grow by what the caller tells: it is in
    /// congestion avoidance.
    fn is_growth_linked(&self, octets: u64) -> bool
        ensures { result ≡ is_growth_linked octets self.now.reno }
    {
        octets > 0 && !self.reno.in_fast_recovery() && self.reno.ssthresh() <= self.reno.window()
    }

    /// Something new was acknowledged, so many octets of data among it, at a round-trip time of `rtt` ticks.
    pub fn acknowledged(&mut self, octets: u64, rtt: u32)
        ensures { self.new ≡ acknowledged octets rtt self.old }
    {
        self.duplicates = 0;
        if self.is_growth_linked(octets) {
            self.pending = Some(Pending {
                acked: counted(octets),
                window: self.reno.window(),
                rtt,
            });
        } else {
            self.reno.acked(counted(octets), 0);
        }
    }

    /// A duplicate came with so many octets under way. Answers whether it is the third in a row.
    pub fn duplicated(&mut self, flight: u32) -> bool
        ensures value { self.new ≡ duplicated flight self.old }
        ensures third { result ≡ is_third self.old }
    {
        if self.reno.in_fast_recovery() {
            self.reno.more_duplicate();
            return false;
        }
        if self.duplicates < 2 {
            self.duplicates += 1;
            return false;
        }
        self.duplicates = 3;
        self.reno.third_duplicate(flight);
        true
    }

    /// A copy came that is neither a duplicate nor acknowledges something new: the row of duplicates ends.
    pub fn end_row(&mut self)
        ensures { self.new ≡ without_duplicates self.old }
    {
        self.duplicates = 0;
    }

    /// What a copy told, for the comparison with the next one.
    pub fn tell(&mut self, told: Told)
        ensures { self.new ≡ with_told told self.old }
    {
        self.told = told;
    }

    /// The timer ran out with so many octets under way; `again` tells that the first record was the first one at an
    /// earlier expiry too.
    pub fn expired(&mut self, flight: u32, again: bool)
        ensures { self.new ≡ expired flight again self.old }
    {
        self.duplicates = 0;
        self.reno.expired(flight, again);
    }

    /// No growth is to be told any more.
    pub fn forget_growth(&mut self)
        ensures { self.new ≡ without_pending self.old }
    {
        self.pending = None;
    }

    /// How many octets the window has room for beside so many under way.
    pub fn room(&self, flight: u64) -> u32
        ensures value { result ≡ self.now.reno.window - flight }
        ensures bound { result ≤ 1048576 }
    {
        let window = self.reno.window();
        u64::from(window).saturating_sub(flight) as u32
    }

    /// The growth that was to be told, in octets. Without one to be told nothing changes.
    pub fn grow(&mut self, growth: u32)
        ensures { self.new ≡ after_growth growth self.old }
    {
        if let Some(pending) = self.pending {
            self.reno.acked(pending.acked, growth);
            self.pending = None;
        }
    }
}

impl Told {
    /// Whether the other copy told the same.
    pub fn is_same(self, other: Told) -> bool
        ensures { result ≡ is_same_told self other }
    {
        self.place == other.place && self.window == other.window
    }
}
