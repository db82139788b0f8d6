//! `reno MSS STEP ..`: the congestion window, the slow start threshold and whether there is a fast recovery, with `/` between
//! them, as a window opens and after each step. A step is `acked:OCTETS:GROWTH`, `steady:COUNT` for so many acknowledgements of
//! a segment each, `third:FLIGHT`, `more`, `expired:FLIGHT:AGAIN`, or `room:FLIGHT`, whose answer is the room.

use crate::steps::{Steps, put_steps};
use case_fields::Case;
use reno_window::Reno;

/// A congestion window, and the octets of a segment.
#[derive(Drop)]
struct Window {
    reno: Reno,
    mss: u16,
}

pub fn reno(case: &mut Case) {
    let mss: u16 = case.number();
    if mss == 0 {
        return case.refuse();
    }
    let mut window = Window {
        reno: Reno::new(mss),
        mss,
    };
    put_state(case, &window.reno);
    put_steps(case, &mut window);
}

fn put_state(case: &mut Case, reno: &Reno) {
    let (window, ssthresh) = (u64::from(reno.window()), u64::from(reno.ssthresh()));
    case.put_numbers("/", &[window, ssthresh]);
    case.tell_behind("/", &reno.in_fast_recovery());
}

impl Steps for Window {
    fn step(&mut self, case: &mut Case, name: &str) {
        if name == "room" {
            let room = self.reno.room(case.number());
            return case.tell(&room);
        }
        change(case, &mut self.reno, self.mss, name);
        put_state(case, &self.reno);
    }
}

fn change(case: &mut Case, reno: &mut Reno, mss: u16, name: &str) {
    match name {
        "acked" => {
            let (octets, growth) = (case.number(), case.number());
            reno.acked(octets, growth);
        }
        "steady" => acknowledge_often(reno, mss, case.number()),
        "third" => reno.third_duplicate(case.number()),
        "more" => reno.more_duplicate(),
        "expired" => {
            let (flight, again) = (case.number(), case.truth());
            reno.expired(flight, again);
        }
        _ => case.refuse(),
    }
}

fn acknowledge_often(reno: &mut Reno, mss: u16, count: u16) {
    for _ in 0..count {
        reno.acked(u32::from(mss), 0);
    }
}
