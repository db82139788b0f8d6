//! Between which addresses and ports the segments of a path go.

ghost use Rattle.std.specs.Prelude.{◌≡◌};
ghost use Rattle.segment_wire.specs.Paths.{addresses_from, port_of};

use crate::head::Addresses;
use sides::Side;

/// The port that B listens on.
const PORT_OF_B: u16 = 5_001;

/// The port of A on path 0. Path i has the i-th port behind it.
const FIRST_PORT_OF_A: u16 = 40_000;

/// The addresses of what a side sends on a path: path i is between 10.0.i.1 at A and 10.0.i.2 at B.
pub fn addresses_from(path: u8, from: Side) -> Addresses
    ensures { result ≡ addresses_from path from }
{
    let a = [10, 0, path, 1];
    let b = [10, 0, path, 2];
    match from {
        Side::A => Addresses {
            source: a,
            destination: b,
        },
        Side::B => Addresses {
            source: b,
            destination: a,
        },
    }
}

/// The port of a side on a path: 40000 + i of A on path i, and 5001 of B.
pub fn port_of(path: u8, side: Side) -> u16
    ensures { result ≡ port_of path side }
{
    match side {
        Side::A => FIRST_PORT_OF_A + u16::from(path),
        Side::B => PORT_OF_B,
    }
}
