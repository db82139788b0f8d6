//! The smoothed round-trip time and its variation (RFC 6298, section 2).
ghost use Rattle.std.specs.Prelude.{◌≡◌, ◌≤◌};

/// The longest round-trip time that a sample may tell, in ticks: one minute. A caller that measured a longer one
/// passes this.
pub const MAX_SAMPLE: u32 = 60_000;

/// The least retransmission timeout: one second (RFC 6298, rule 2.4).
pub const MIN_RTO: u32 = 1_000;

/// The greatest retransmission timeout: one minute (RFC 6298, rule 2.5).
pub const MAX_RTO: u32 = 60_000;

/// The granularity G of the clock, in ticks.
pub const CLOCK_GRANULARITY: u32 = 1;

/// What the samples so far say about the round-trip time. Both means are whole numbers of fractions of a tick: each
/// sample rounds them up, by less than one such fraction.
#[derive(Clone, Copy)]
pub struct Estimate {
    /// SRTT, the smoothed round-trip time, in eighths of a tick.
    pub srtt_eighths: u32,
    /// RTTVAR, the round-trip time variation, in quarters of a tick.
    pub rttvar_quarters: u32,
}

impl Estimate {
    ghost use Rattle.rtt_timer.specs.Estimates.{IsMeasured, first_estimate, next_estimate, srtt_of, rto_of};

    /// The estimate after the first sample, of `r` ticks: SRTT is `r`, RTTVAR is half of it (rule 2.2).
    pub(crate) fn first(r: u32) -> Self
        requires { r ≤ 60000 }
        ensures value { result ≡ first_estimate r }
        ensures measured { IsMeasured result }
    {
        Estimate {
            srtt_eighths: 8 * r,
            rttvar_quarters: 2 * r,
        }
    }

    /// The estimate after one more sample, of `r` ticks (rule 2.3). RTTVAR comes first, by the SRTT from before.
    pub(crate) fn next(self, r: u32) -> Self
        requires sample { r ≤ 60000 }
        requires measured { IsMeasured self }
        ensures value { result ≡ next_estimate r self }
        ensures measured { IsMeasured result }
    {
        let deviation = self.srtt().abs_diff(r);
        Estimate {
            srtt_eighths: self.srtt_eighths - self.srtt_eighths / 8 + r,
            rttvar_quarters: self.rttvar_quarters - self.rttvar_quarters / 4 + deviation,
        }
    }

    /// SRTT in whole ticks, rounded down.
    pub fn srtt(self) -> u32
        ensures { result ≡ srtt_of self }
    {
        self.srtt_eighths / 8
    }

    /// The timeout by this estimate, in ticks: SRTT and four times RTTVAR, within the bounds.
    pub(crate) fn rto(self) -> u32
        requires { IsMeasured self }
        ensures { result ≡ rto_of self }
    {
        (self.srtt() + self.rttvar_quarters.max(CLOCK_GRANULARITY)).clamp(MIN_RTO, MAX_RTO)
    }
}
