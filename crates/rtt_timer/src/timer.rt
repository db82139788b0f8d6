//! The timer: what it waits, by the samples and the expiries so far.
ghost use Rattle.std.specs.Prelude.{◌≡◌, ◌≤◌, IfSome};

use crate::estimate::{Estimate, MAX_RTO};
use std::marker::Model;

/// The timeout until the first sample, in ticks: one second (RFC 6298, rule 2.1).
pub const INITIAL_RTO: u32 = 1_000;

/// The retransmission timer of one end (RFC 6298).
#[derive(Clone, Copy)]
pub struct Rtt {
    /// What the samples say; none until the first one.
    estimate: Option<Estimate>,
    /// The timeout, in ticks.
    rto: u32,
}

impl Model for Rtt {
    ghost use Rattle.std.specs.Option.{ForSome};
    ghost use Rattle.rtt_timer.specs.Timer.{Timer};

    ghost Value = { Timer };

    ghost use Rattle.rtt_timer.specs.Estimates.{IsMeasured, IsWithinBounds};

    ghost view = { λ t. record { estimate = t.estimate; rto = t.rto } };

    ghost invariant = { λ t. ForSome t.estimate IsMeasured × IsWithinBounds t.rto };

    ghost inverse = { λ t. record { estimate = t.estimate; rto = t.rto } };
}

impl Rtt {
    ghost use Rattle.std.specs.Option.{option_map};
    ghost use Rattle.rtt_timer.specs.Estimates.{IsWithinBounds, srtt_of};
    ghost use Rattle.rtt_timer.specs.Rules.{opening, after_sample, after_expiry};

    /// A timer that has had no sample and no expiry.
    pub fn new() -> Self
        ensures { result ≡ opening }
    {
        Rtt {
            estimate: None,
            rto: INITIAL_RTO,
        }
    }

    /// Takes a round-trip time of `r` ticks, at most [`MAX_SAMPLE`] (rules 2.2 and 2.3). The timeout follows from
    /// it anew, whatever the expiries made of it.
    pub fn sample(&mut self, r: u32)
        requires { r ≤ 60000 }
        ensures { self.new ≡ after_sample r self.old }
    {
        let estimate = match self.estimate {
            None => Estimate::first(r),
            Some(estimate) => estimate.next(r),
        };
        self.estimate = Some(estimate);
        self.rto = estimate.rto();
    }

    /// Backs off after an expiry: the timeout doubles, up to [`MAX_RTO`] (rule 5.5).
    pub fn expire(&mut self)
        ensures { self.new ≡ after_expiry self.old }
    {
        self.rto = (2 * self.rto).min(MAX_RTO);
    }

    /// The retransmission timeout, in ticks, from `MIN_RTO` to [`MAX_RTO`].
    pub fn rto(&self) -> u32
        ensures value { result ≡ self.now.rto }
        ensures within { IsWithinBounds result }
    {
        self.rto
    }

    /// The smoothed round-trip time in whole ticks, rounded down, at most [`MAX_SAMPLE`]; none until the first sample.
    pub fn srtt(&self) -> Option<u32>
        ensures value { result ≡ option_map srtt_of self.now.estimate }
        ensures bound { IfSome result (λ srtt. srtt ≤ 60000) }
    {
        self.estimate.map(|estimate| estimate.srtt())
    }
}

impl Default for Rtt {
    ghost use Rattle.rtt_timer.specs.Rules.{opening};

    ghost is_default = { λ t. t ≡ opening };

    fn default() -> Self {
        Self::new()
    }
}
