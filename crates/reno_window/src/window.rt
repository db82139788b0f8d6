//! The congestion window and what each event makes of it.
ghost use Rattle.std.specs.Prelude.{◌≡◌, ◌<◌, ◌≤◌, ◌*◌, ◌-◌, ◌^◌};
ghost use Rattle.reno_window.specs.Rules.{segments_at_first};

use std::marker::Model;

/// The greatest congestion window, in octets: 2^20.
pub const MAX_WINDOW: u32 = 1_048_576;

/// The congestion window of one sender (RFC 5681).
#[derive(Clone, Copy)]
pub struct Reno {
    /// SMSS, the most octets of one segment.
    mss: u32,
    /// cwnd, from one segment to [`MAX_WINDOW`].
    window: u32,
    /// Below this the window grows by slow start. At least two segments.
    ssthresh: u32,
    /// A third duplicate came, and nothing new was acknowledged since, nor did the timer expire.
    in_fast_recovery: bool,
}

impl Model for Reno {
    ghost use Rattle.reno_window.specs.Window.{Window};

    ghost Value = { Window };

    ghost use Rattle.reno_window.specs.Rules.{IsSound};

    ghost view = { λ w.
        record {
          mss = w.mss;
          window = w.window;
          ssthresh = w.ssthresh;
          in_fast_recovery =
              w.in_fast_recovery;
        } };

    ghost invariant = { λ w. IsSound w.mss w.window w.ssthresh };

    ghost inverse = { λ w.
        record {
          mss = w.mss;
          window = w.window;
          ssthresh = w.ssthresh;
          in_fast_recovery =
              w.in_fast_recovery;
        } };
}

/// How many segments of so many octets the first window has.
fn segments_at_first(mss: u16) -> u32
    ensures { result ≡ segments_at_first mss }
{
    if mss <= 1_095 {
        4
    } else if mss <= 2_190 {
        3
    } else {
        2
    }
}

impl Reno {
    ghost use Rattle.reno_window.specs.Rules.{IsCongestionWindow, opening, grown, ssthresh_after_loss, after_ack, after_third_duplicate, after_more_duplicate, after_expiry};

    /// The window of a connection that begins, at a segment size of `mss` octets, which is not 0: four segments of at
    /// most 1,095 octets, three of at most 2,190, or two greater ones (section 3.1).
    pub fn new(mss: u16) -> Self
        requires { 0 < mss }
        ensures { result ≡ opening mss }
    {
        let smss = u32::from(mss);
        Reno {
            mss: smss,
            window: segments_at_first(mss) * smss,
            ssthresh: MAX_WINDOW,
            in_fast_recovery: false,
        }
    }

    /// Takes an acknowledgement of `bytes` new octets. It ends a fast recovery (section 3.2, step 6). Else the window
    /// grows, below ssthresh by slow start, at most by one segment, and from there on by `growth` octets
    /// (section 3.1).
    pub fn acked(&mut self, bytes: u32, growth: u32)
        ensures { self.new ≡ after_ack bytes growth self.old }
    {
        if self.in_fast_recovery {
            self.in_fast_recovery = false;
            self.window = self.ssthresh.min(MAX_WINDOW);
        } else if self.window < self.ssthresh {
            self.grow(bytes.min(self.mss));
        } else {
            self.grow(growth);
        }
    }

    /// The third duplicate in a row, with `flight` octets sent and not acknowledged: a fast recovery begins
    /// (section 3.2, steps 2 and 3).
    pub fn third_duplicate(&mut self, flight: u32)
        ensures { self.new ≡ after_third_duplicate flight self.old }
    {
        self.ssthresh = self.ssthresh_after_loss(flight);
        self.window = (self.ssthresh + 3 * self.mss).min(MAX_WINDOW);
        self.in_fast_recovery = true;
    }

    /// A further duplicate: one more segment has left the network (section 3.2, step 4).
    pub fn more_duplicate(&mut self)
        ensures { self.new ≡ after_more_duplicate self.old }
    {
        self.grow(self.mss);
    }

    /// The retransmission timer expired, with `flight` octets sent and not acknowledged. `again` tells that a segment
    /// is unacknowledged and that the first such one was sent again at an earlier expiry: then ssthresh stays (section 3.1).
    pub fn expired(&mut self, flight: u32, again: bool)
        ensures { self.new ≡ after_expiry flight again self.old }
    {
        if !again {
            self.ssthresh = self.ssthresh_after_loss(flight);
        }
        self.window = self.mss;
        self.in_fast_recovery = false;
    }

    /// Grows the window by so many octets, up to its cap.
    fn grow(&mut self, octets: u32)
        ensures { self.new ≡ grown octets self.old }
    {
        self.window = self.window.saturating_add(octets).min(MAX_WINDOW);
    }

    /// What a loss makes of ssthresh: half of the flight, and no less than two segments (section 3.1, equation 4).
    fn ssthresh_after_loss(&self, flight: u32) -> u32
        ensures value { result ≡ ssthresh_after_loss flight self.now }
        ensures fits { result < 2 ^ 31 }
    {
        (flight / 2).max(2 * self.mss)
    }

    /// How many octets the window has room for beside `flight` octets sent and not acknowledged.
    pub fn room(&self, flight: u32) -> u32
        ensures { result ≡ self.now.window - flight }
    {
        self.window.saturating_sub(flight)
    }

    /// cwnd, the congestion window, from one segment to [`MAX_WINDOW`].
    pub fn window(&self) -> u32
        ensures value { result ≡ self.now.window }
        ensures within { IsCongestionWindow self.now.mss result }
    {
        self.window
    }

    /// The slow start threshold, at least two segments.
    pub fn ssthresh(&self) -> u32
        ensures value { result ≡ self.now.ssthresh }
        ensures least { 2 * self.now.mss ≤ result }
    {
        self.ssthresh
    }

    /// Whether a third duplicate came, and nothing new was acknowledged since, nor did the timer expire.
    pub fn in_fast_recovery(&self) -> bool
        ensures { result ≡ self.now.in_fast_recovery }
    {
        self.in_fast_recovery
    }
}
