//! Changes of the marks that a book keeps. Each one that needs memory takes it first.
ghost use Rattle.std.specs.Prelude.{◌≡◌, ◌≤◌, map, IfOk, OnOk};
ghost use Rattle.range_marks.specs.Marks.{marks_len, followed_by, part};
ghost use Rattle.send_book.specs.Kept.{after_move, moved, HasPath};

use crate::call::Span;
use crate::mark::ByteMark;
use crate::runs::{Move, append_moved};
use range_marks::RangeMarks;
use std::alloc::{AllocError, Global};

/// Appends the marks of the places below `to`, from where `new` ends, each moved.
fn append_part(
    new: &mut RangeMarks<ByteMark>,
    marks: &RangeMarks<ByteMark>,
    to: u64,
    change: Move,
) -> Result<(), AllocError>
    requires path { HasPath change }
    requires kept { marks.now.forgotten ≤ marks_len new.old }
    requires order { marks_len new.old ≤ to }
    requires within { to ≤ marks_len marks.now }
    ensures marks { OnOk result (new.new ≡
        followed_by (map (moved change) (part (marks_len new.old) to marks.now)) new.old) }
    ensures len { OnOk result (marks_len new.new ≡ to) }
{
    // For the proof: there are fewer than 2^63 marks.
    let _len = marks.len();
    append_moved(new, marks.runs(), to, change)?;
    Ok(())
}

/// A copy of the marks, of which those of the span are moved.
pub(crate) fn moved(
    alloc: Global,
    marks: &RangeMarks<ByteMark>,
    span: Span,
    change: Move,
) -> Result<RangeMarks<ByteMark>, AllocError>
    requires path { HasPath change }
    requires kept { marks.now.forgotten ≤ span.from }
    requires order { span.from ≤ span.to }
    requires within { span.to ≤ marks_len marks.now }
    ensures { IfOk result (λ new. new ≡ after_move change span marks.now) }
{
    let len = marks.len();
    let forgotten = marks.forgotten();
    let mut new = RangeMarks::new(alloc);
    new.extend(forgotten, ByteMark::Acked)?;
    append_part(&mut new, marks, span.from, Move::Keep)?;
    append_part(&mut new, marks, span.to, change)?;
    append_part(&mut new, marks, len, Move::Keep)?;
    new.drop_front(forgotten);
    Ok(new)
}
