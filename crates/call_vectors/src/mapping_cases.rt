//! `mappings STEP ..`: what each step of the mappings of a subflow answers, from none on: `learn:POSITION:PLACE:LENGTH`,
//! `infinite:POSITION:PLACE`, `place:POSITION`, `first:POSITION` (the position, place and length of the mapping that was
//! learned first), `forget:POSITION`; `hold:POSITION:PLACE:LENGTH`, and of what is held `clashes`, `learn-held`, `skip-held`.
//!
//! `checksum NUMBER RELATIVE LENGTH OCTETS`: the checksum of a mapping and its data.

ghost use Rattle.std.specs.Prelude.{◌≤◌, ◌+◌, ◌^◌};

use crate::steps::{Steps, put_steps};
use case_fields::Case;
use dss_checksum::DssSum;
use dss_mapping::{KeptMapping, Mappings};
use seq_units::Mapping;

/// The last place that a case names.
const LAST: u64 = 1 << 61;

pub fn checksum(case: &mut Case) {
    let mapping = Mapping {
        number: case.number(),
        relative: case.number(),
        length: case.number(),
        checksum: 0,
    };
    let octets = case.octets();
    put_checksum(case, &mapping, octets.as_slice());
}

fn put_checksum(case: &mut Case, mapping: &Mapping, octets: &[u8]) {
    if octets.len() > 65_535 {
        return case.refuse();
    }
    let mut sum = DssSum::new(mapping);
    sum.add(octets);
    case.tell(&sum.make());
}

pub fn mappings(case: &mut Case) {
    let mut mappings = Mappings::new(case.alloc);
    put_steps(case, &mut mappings);
}

impl Steps for Mappings {
    fn step(&mut self, case: &mut Case, name: &str) {
        match name {
            "learn" => learn(case, self),
            "infinite" => infinite(case, self),
            "place" => put_place(case, self),
            "first" => put_first(case, self),
            "forget" => self.forget_below(case.number()),
            "hold" => hold(case, self),
            "clashes" => case.tell(&self.held_clashes()),
            "learn-held" => self.learn_held(),
            "skip-held" => self.skip_held(),
            _ => case.refuse(),
        }
    }
}

/// The mapping of so many octets.
fn mapping_of(length: u16) -> Mapping {
    Mapping {
        number: 1,
        relative: 1,
        length,
        checksum: 0,
    }
}

fn learn(case: &mut Case, mappings: &mut Mappings) {
    let (pos, place): (u64, u64) = (case.number(), case.number());
    let mapping = mapping_of(case.number());
    if place > LAST {
        return case.refuse();
    }
    case.tell_made(mappings.learn(pos, place, &mapping));
}

fn infinite(case: &mut Case, mappings: &mut Mappings) {
    let (pos, place): (u64, u64) = (case.number(), case.number());
    if place > LAST {
        return case.refuse();
    }
    case.tell(&mappings.infinite(pos, place));
}

fn put_place(case: &mut Case, mappings: &Mappings) {
    let place = mappings.place_of(case.number());
    case.tell(&place);
}

fn put_first(case: &mut Case, mappings: &Mappings) {
    match mappings.mapping_at(case.number()) {
        Some(kept) => {
            let length = u64::from(kept.mapping.length);
            case.put_numbers("/", &[kept.pos, kept.place, length]);
        }
        None => case.put("None"),
    }
}

fn hold(case: &mut Case, mappings: &mut Mappings) {
    let kept = KeptMapping {
        pos: case.number(),
        place: case.number(),
        mapping: mapping_of(case.number()),
        fin: false,
    };
    if kept.place > LAST {
        return case.refuse();
    }
    if mappings.make_ready(1).is_err() {
        return case.fail();
    }
    match Vec::from_array(case.alloc, [kept]) {
        Ok(told) => mappings.hold(told),
        Err(_) => case.fail(),
    }
}
