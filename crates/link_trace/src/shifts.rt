//! Directions that send without mappings of pieces: how far each place stands behind its position.

ghost use Rattle.std.specs.Prelude.{◌≡◌, OnOk};
ghost use Rattle.link_trace.specs.Shifts.{is_in_force, shift_in, with_shift};

use sides::Side;
use std::alloc::AllocError;

/// How far each place of a direction of a path stands behind its position, modulo 2^32, by an infinite mapping (RFC 8684, section
/// 3.7).
#[derive(Clone, Copy)]
pub(crate) struct Shift {
    pub path: u8,
    pub from: Side,
    pub by: u32,
}

/// By the first infinite mapping of this direction; on path 0 the place of a position is one less without one, as with the first
/// payload and in plain TCP.
pub fn shift_in(shifts: &[Shift], path: u8, from: Side) -> Option<u32>
    ensures { result ≡ shift_in shifts.now path from }
{
    for shift in shifts {
        if shift.path == path && shift.from == from {
            return Some(shift.by);
        }
    }
    if path == 0 { Some(u32::MAX) } else { None }
}

fn is_in_force(shift: Option<u32>, by: u32) -> bool
    ensures { result ≡ is_in_force shift by }
{
    match shift {
        None => false,
        Some(other) => other == by,
    }
}

/// Keeps the infinite mapping that a segment told, where it says something new.
pub fn keep_shift(
    shifts: &mut Vec<Shift>,
    told: Option<u32>,
    path: u8,
    from: Side,
) -> Result<(), AllocError>
    ensures { OnOk result (shifts.new.items ≡ with_shift told path from shifts.old.items) }
{
    let Some(by) = told else {
        return Ok(());
    };
    if is_in_force(shift_in(shifts, path, from), by) {
        return Ok(());
    }
    shifts.push(Shift { path, from, by })?;
    Ok(())
}
