//! What a line settles, as the key of a table.

ghost use Rattle.std.specs.Prelude.{◌≡◌};
ghost use Rattle.link_script.specs.Settled.{side_number, key_of_segment, key_of_direction, key_alone, key_of};

use crate::place::Subject;
use crate::script::{Direction, Segment};
use sides::Side;
use std::hash::{Hash, Hasher};

/// A subject in numbers: its kind, and the path, the side and the number of the segment of which it is, where it is of one.
#[derive(Clone, Copy)]
pub struct Settled {
    pub kind: u8,
    pub path: u8,
    pub side: u8,
    pub number: u32,
}

impl PartialEq for Settled {
    ghost use Rattle.link_script.specs.Settled.{same_key, same_key-partial};

    ghost eq = { same_key };

    ghost laws = { same_key-partial };

    fn eq(&self, other: &Settled) -> bool {
        (self.kind == other.kind && self.path == other.path)
            && (self.side == other.side && self.number == other.number)
    }
}

impl Eq for Settled {
    ghost use Rattle.link_script.specs.Settled.{same_key-equal};

    ghost laws = { same_key-equal };
}

impl Hash for Settled {
    ghost use Rattle.link_script.specs.Settled.{key_fed, same_key-fed};

    ghost hash_input = { key_fed };

    ghost respects_eq = { same_key-fed };

    fn hash<H: Hasher>(&self, state: &mut H) {
        state.write_u8(self.kind);
        state.write_u8(self.path);
        state.write_u8(self.side);
        state.write_u32(self.number);
    }
}

fn side_number(side: Side) -> u8
    ensures { result ≡ side_number side }
{
    match side {
        Side::A => 0,
        Side::B => 1,
    }
}

fn of_segment(kind: u8, segment: Segment) -> Settled
    ensures { result ≡ key_of_segment kind segment }
{
    Settled {
        kind,
        path: segment.path,
        side: side_number(segment.from),
        number: segment.number,
    }
}

fn of_direction(kind: u8, direction: Direction) -> Settled
    ensures { result ≡ key_of_direction kind direction }
{
    Settled {
        kind,
        path: direction.path,
        side: side_number(direction.from),
        number: 0,
    }
}

fn alone(kind: u8) -> Settled
    ensures { result ≡ key_alone kind }
{
    Settled {
        kind,
        path: 0,
        side: 0,
        number: 0,
    }
}

/// The key of a subject.
pub fn key_of(subject: Subject) -> Settled
    ensures { result ≡ key_of subject }
{
    match subject {
        Subject::Seed => alone(0),
        Subject::Checksum => alone(1),
        Subject::Short => alone(2),
        Subject::Buffer => alone(3),
        Subject::Arrival(segment) => of_segment(4, segment),
        Subject::Options(segment) => of_segment(5, segment),
        Subject::Payload(segment) => of_segment(6, segment),
        Subject::AllOptions { path, from } => Settled {
            kind: 7,
            path,
            side: side_number(from),
            number: 0,
        },
        Subject::Death { path } => Settled {
            kind: 8,
            path,
            side: 0,
            number: 0,
        },
        Subject::FastClose { side } => Settled {
            kind: 9,
            path: 0,
            side: side_number(side),
            number: 0,
        },
        Subject::Rate(direction) => of_direction(10, direction),
        Subject::Loss(direction) => of_direction(11, direction),
        Subject::Jitter(direction) => of_direction(12, direction),
    }
}
