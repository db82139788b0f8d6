ghost use Rattle.std.specs.Prelude.{◌≡◌, ◌^◌, ◌<◌, IfOk};
ghost use Rattle.range_marks.specs.Marks.{marks_len};

use range_marks::RangeMarks;
use std::alloc::{AllocError, Global};

/// Marks of so many places, one `false`, the next `true`, and so on.
pub fn alternating(alloc: Global, places: u64) -> Result<RangeMarks<bool>, AllocError>
    requires { places < 2 ^ 63 }
    ensures { IfOk result (λ marks. marks_len marks ≡ places) }
{
    let mut marks = RangeMarks::new(alloc);
    for place in 0..places {
        marks.extend(1, place % 2 == 1)?;
    }
    Ok(marks)
}
