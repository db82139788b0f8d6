//! `grow MSS ACKED PATH WINDOW RTT ..`: alpha of these paths, scaled, and then what the window of each grows by where so many
//! octets are acknowledged on it.

ghost use Rattle.std.specs.Prelude.{◌≤◌, All};
ghost use Rattle.linked_increase.specs.Paths.{IsInRange};

use case_fields::Case;
use linked_increase::{MAX_ACKED, MAX_MSS, Row, Rows};

pub fn grow(case: &mut Case) {
    let mss: u32 = case.number();
    let acked: u32 = case.number();
    if mss > MAX_MSS || acked > MAX_ACKED {
        return case.refuse();
    }
    let rows = rows_of(case);
    put_growths(case, mss, acked, &rows);
}

/// The row of the next three fields, if there is one.
fn row_of(case: &mut Case) -> Option<Row> {
    if !case.has_more() {
        return None;
    }
    Some(Row {
        path: case.number(),
        window: case.number(),
        rtt: case.number(),
    })
}

/// The rows that the fields tell, three fields a row.
fn rows_of(case: &mut Case) -> Rows
    ensures { All IsInRange result }
{
    let mut rows = Rows::new(case.alloc);
    for place in 0..17u8 {
        let Some(row) = row_of(case) else {
            break;
        };
        if rows.is_full() || !row.is_in_range() {
            case.refuse();
            break;
        }
        if rows.push(row).is_err() {
            case.fail();
            break;
        }
    }
    rows
}

/// alpha, and the growth of each row.
fn put_growths(case: &mut Case, mss: u32, acked: u32, rows: &Rows)
    requires rows { All IsInRange rows.now }
    requires mss { mss ≤ 1460 }
    requires acked { acked ≤ 1048576 }
{
    let slice = rows.listed();
    if slice.is_empty() {
        return case.refuse();
    }
    case.tell(&linked_increase::alpha(rows));
    for index in 0..slice.len() {
        case.tell_behind(
            " ",
            &linked_increase::growth(&slice[index], rows, mss, acked),
        );
    }
}
