//! Where positions lie.

ghost use Rattle.std.specs.List.{list_any};
ghost use Rattle.std.specs.Prelude.{ℕ, pos, int_lt, ◌^◌, ◌<◌, ◌≤◌, Bool, not, ◌||◌, IfSome};
ghost use Rattle.seen_octets.specs.Places.{IsStretch};
ghost use Rattle.seen_streams.specs.Content.{is_mapped_by, is_on_line, maps};
ghost use Rattle.seen_streams.specs.Shows.{lane_of, IsLineBounded};
ghost use Rattle.seen_streams.specs.State.{line_place, place_of};
ghost use Rattle.seen_streams.specs.Placing.{IsPlaced};

use crate::lane::Lane;
use crate::told::{Learnt, ToldMapping, natural};
use judge_rules::Line;
use seen_octets::Stretch;

/// Positions from one on, up to `end`, which is none of them: the first has this place and the next ones the next, or none has one.
#[derive(Clone, Copy)]
pub struct PlacedStretch {
    pub end: u64,
    pub place: Option<u64>,
}

/// The places of positions from one on, below another, as far as they follow one another.
pub(crate) fn places_from(lane: &Lane, from: u64, to: u64) -> PlacedStretch
    requires some { from < to }
    requires few { to ≤ 2 ^ 62 }
    ensures { IsPlaced (place_of (lane_of lane.now)) from to result }
{
    match lane.places.first_behind(from) {
        Some(run) if run.from <= from => PlacedStretch {
            end: run.to.min(to),
            place: Some(run.image_at(from)),
        },
        Some(run) => line_from(lane.line, from, run.from.min(to)),
        None => line_from(lane.line, from, to),
    }
}

// The place of a position by the infinite mapping alone, and where that stretch ends.
#[tactic(auto, using(crate::proofs::Lines::placed_on, crate::proofs::Lines::placed_before))]
fn line_from(line: Option<Line>, from: u64, to: u64) -> PlacedStretch
    requires some { from < to }
    requires few { to ≤ 2 ^ 62 }
    requires line { IfSome line IsLineBounded }
    ensures { IsPlaced (line_place line) from to result }
{
    let Some(line) = line else {
        return PlacedStretch {
            end: to,
            place: None,
        };
    };
    match line.place_of(from) {
        Some(place) => PlacedStretch {
            end: to,
            place: Some(place),
        },
        None => PlacedStretch {
            end: to.min(natural(line.position)),
            place: None,
        },
    }
}

/// Whether positions from one on, below another, are mapped by what a segment told, as far as all are or none is.
pub(crate) fn mapped_from(learnt: &Learnt, lane: &Lane, from: u64, to: u64) -> Stretch
    requires { from < to }
    ensures { IsStretch (is_mapped_by learnt.now.mappings.items learnt.now.has_line
        (lane_of lane.now).line) from to result }
{
    let one = by_mappings(&learnt.mappings, from, to);
    let other = by_line(learnt.has_line, lane.line(), from, to);
    either(&one, &other)
}

/// Whether positions from one on, below another, were seen, as far as all were or none was.
pub(crate) fn seen_from(lane: &Lane, from: u64, to: u64) -> Stretch
    requires { from < to }
    ensures { IsStretch (lane_of lane.now).seen from to result }
{
    lane.seen.stretch(from, to)
}

// Places that are marked by one of two, from the same one on.
#[tactic(auto, using(crate::proofs::Stretches::either_of))]
fn either(one: &Stretch, other: &Stretch) -> Stretch
    ensures { (one_marked other_marked : ℕ → Bool) (from to : ℕ) →
        IsStretch one_marked from to one.now → IsStretch other_marked from to other.now
        → IsStretch (λ p. one_marked p || other_marked p) from to result }
{
    Stretch {
        end: one.end.min(other.end),
        marked: one.marked || other.marked,
    }
}

// Whether positions are on a line that a segment told.
fn by_line(has_line: bool, line: Option<Line>, from: u64, to: u64) -> Stretch
    requires { from < to }
    ensures { IsStretch (is_on_line has_line line) from to result }
{
    match line {
        Some(line) if has_line => from_begin(line.position, from, to),
        _ => Stretch {
            end: to,
            marked: false,
        },
    }
}

// Whether positions aren't before one.
#[tactic(auto, using(crate::proofs::Lines::not_begun, crate::proofs::Lines::has_begun))]
fn from_begin(begin: i64, from: u64, to: u64) -> Stretch
    requires { from < to }
    ensures { IsStretch (λ p. not (int_lt (pos p) begin)) from to result }
{
    let begin = natural(begin);
    if from < begin {
        Stretch {
            end: to.min(begin),
            marked: false,
        }
    } else {
        Stretch {
            end: to,
            marked: true,
        }
    }
}

// Whether positions are of one of these mappings.
fn by_mappings(mappings: &[ToldMapping], from: u64, to: u64) -> Stretch
    requires some { from < to }
    ensures { IsStretch (λ p. list_any (maps p) mappings.now) from to result }
{
    let mut stretch = Stretch {
        end: to,
        marked: false,
    };
    for mapping in mappings {
        stretch = either(&stretch, &by_mapping(mapping, from, to));
    }
    stretch
}

// Whether positions are of a mapping.
fn by_mapping(mapping: &ToldMapping, from: u64, to: u64) -> Stretch
    requires some { from < to }
    ensures { IsStretch (λ p. maps p mapping.now) from to result }
{
    let begin = natural(mapping.position);
    let end = begin + mapping.octets();
    if from < begin {
        Stretch {
            end: to.min(begin),
            marked: false,
        }
    } else if from < end {
        Stretch {
            end: to.min(end),
            marked: true,
        }
    } else {
        Stretch {
            end: to,
            marked: false,
        }
    }
}
