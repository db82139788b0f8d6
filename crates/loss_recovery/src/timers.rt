//! The retransmission timer of an end, and what decides when it runs out (RFC 6298, section 5).
ghost use Rattle.std.specs.Prelude.{◌≡◌, ◌+◌, ◌-◌, ◌^◌, ◌<◌, ◌≤◌, IfSome};
ghost use Rattle.loss_recovery.specs.Timers.{opening, heard, measured, settled, expired, stopped, time_since, rtt_told};

use rtt_timer::Rtt;

/// When an end sends again. Times are ticks of a millisecond.
#[derive(Clone, Copy)]
pub struct Timing {
    /// The round-trip times, and the timeout that follows from them.
    pub rtt: Rtt,
    /// The tick at which the running timer expires; none runs without a reason.
    pub timer: Option<u64>,
    /// The expiries in a row, without an acceptable segment of the peer in between.
    pub expiries: u8,
    /// Something new was acknowledged since the timer was settled last.
    pub news: bool,
}

/// The time since a tick, as a sample: at most a minute.
fn time_since(first: u64, now: u64) -> u32
    ensures value { result ≡ time_since first now }
    ensures bound { result ≤ 60000 }
{
    now.saturating_sub(first).min(60_000) as u32
}

impl Timing {
    /// No sample, no timer.
    pub fn new() -> Self
        ensures { result ≡ opening }
    {
        Timing {
            rtt: Rtt::new(),
            timer: None,
            expiries: 0,
            news: false,
        }
    }

    /// An acceptable segment came.
    pub fn heard(&mut self)
        ensures { self.new ≡ heard self.old }
    {
        self.expiries = 0;
    }

    /// Something new was acknowledged; what gives a sample was sent at the tick `since`.
    pub fn measured(&mut self, since: Option<u64>, now: u64)
        ensures { self.new ≡ measured since now self.old }
    {
        self.news = true;
        if let Some(first) = since {
            self.rtt.sample(time_since(first, now));
        }
    }

    /// The timer after an emission: whether there is a reason for it to run, and whether it is to start anew.
    pub fn settle(&mut self, reason: bool, restart: bool, now: u64)
        requires { now < 2 ^ 64 - 2 ^ 20 }
        ensures { self.new ≡ settled reason restart now self.old }
    {
        if !reason {
            self.timer = None;
        } else if self.timer.is_none() || self.news || restart {
            self.timer = Some(now + u64::from(self.rtt.rto()));
        }
        self.news = false;
    }

    /// The timer ran out, not for the sixth time in a row: the timeout is doubled, and the timer starts anew.
    pub fn expire(&mut self, now: u64)
        requires time { now < 2 ^ 64 - 2 ^ 20 }
        requires few { self.old.expiries < 5 }
        ensures value { self.new ≡ expired now self.old }
        ensures later { IfSome self.new.timer (λ tick. now + 1000 ≤ tick) }
    {
        self.expiries += 1;
        self.rtt.expire();
        self.timer = Some(now + u64::from(self.rtt.rto()));
    }

    /// No timer runs any more.
    pub fn stop(&mut self)
        ensures { self.new ≡ stopped self.old }
    {
        self.timer = None;
    }

    /// The round-trip time to tell, in ticks: at least 1, and 1,000 without a sample.
    pub fn rtt_told(&self) -> u32
        ensures value { result ≡ rtt_told self.now }
        ensures least { 1 ≤ result }
        ensures most { result ≤ 60000 }
    {
        match self.rtt.srtt() {
            Some(srtt) => srtt.max(1),
            None => 1_000,
        }
    }
}
