//! `link STEP ..: SCRIPT`: what the link of path 0 answers: `send:SIDE:TICK:OCTETS` the number of the segment, `due` the next copy
//! as `TICK/SIDE/NUMBER`, or `None`, and `deliver` its octets; at `cut` all that is under way is lost.

ghost use Rattle.std.specs.Prelude.{◌<◌, ◌^◌, IsSome};

use crate::spelling_cases::side_of;
use crate::steps::{Steps, put_steps};
use case_fields::Case;
use link_model::{Due, Link};
use sides::Side;

pub fn link(case: &mut Case, link: &mut Link) {
    put_steps(case, link);
}

impl Steps for Link {
    fn step(&mut self, case: &mut Case, name: &str) {
        match name {
            "send" => send(case, self),
            "due" => put_due(case, self.due()),
            "deliver" => deliver(case, self),
            "cut" => {
                self.cut();
                case.put("cut");
            }
            _ => case.refuse(),
        }
    }
}

fn send(case: &mut Case, link: &mut Link) {
    let from = side_of(case);
    let now: u32 = case.number();
    let octets = case.octets();
    case.tell_made(link.send(from, octets.as_slice(), u64::from(now)));
}

fn put_due(case: &mut Case, due: Option<Due>) {
    match due {
        Some(
            Due {
                tick,
                to: Side::A,
                copy,
            },
        ) => case.put_numbers("/a/", &[tick, copy]),
        Some(
            Due {
                tick,
                to: Side::B,
                copy,
            },
        ) => case.put_numbers("/b/", &[tick, copy]),
        None => case.put("None"),
    }
}

fn deliver(case: &mut Case, link: &mut Link) {
    match link.due() {
        Some(due) => case.put_digits(link.deliver(&due).as_slice()),
        None => case.refuse(),
    }
}
