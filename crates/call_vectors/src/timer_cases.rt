//! `rtt STEP ..`: the retransmission timeout as a timer opens and after each step, and then the smoothed round-trip time, in
//! ticks. A step is a sample of so many ticks, or `expire`.

use crate::steps::{Steps, put_steps};
use case_fields::Case;
use rtt_timer::{MAX_SAMPLE, Rtt};

pub fn rtt(case: &mut Case) {
    let mut timer = Rtt::new();
    case.tell(&timer.rto());
    put_steps(case, &mut timer);
    case.tell_behind(" ", &timer.srtt());
}

impl Steps for Rtt {
    fn step(&mut self, case: &mut Case, name: &str) {
        match name.parse::<u32>() {
            Ok(ticks) if ticks <= MAX_SAMPLE => self.sample(ticks),
            Err(_) if name == "expire" => self.expire(),
            _ => case.refuse(),
        }
        case.tell(&self.rto());
    }
}
