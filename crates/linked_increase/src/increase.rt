//! alpha and the increase of one path, in integers.
ghost use Rattle.std.specs.Prelude.{◌≡◌, ◌<◌, ◌≤◌, ◌^◌, length, All, Contains};
ghost use Rattle.linked_increase.specs.Fraction.{whole, times, floor_of};
ghost use Rattle.linked_increase.specs.Paths.{IsInRange, total, leader};
ghost use Rattle.linked_increase.specs.Exact.{exact_alpha, increase_alone};
ghost use Rattle.linked_increase.specs.Scaled.{scaled_sum, alpha_of, growth_of};

use crate::rows::{MAX_WINDOW, Row, Rows};

/// alpha_scale, by which alpha is multiplied so that an integer keeps its fraction (RFC 6356, section 4.1).
pub const ALPHA_SCALE: u128 = 512;

/// The greatest segment size, in octets.
pub const MAX_MSS: u32 = 1_460;

/// The most octets that one acknowledgement covers.
pub const MAX_ACKED: u32 = MAX_WINDOW;

/// alpha, scaled by [`ALPHA_SCALE`]: how aggressive all paths are together (RFC 6356, section 3).
///
/// There is at least one row, and each is in range.
pub fn alpha(rows: &Rows) -> u128
    requires some { 0 < length rows.now }
    requires in_range { All IsInRange rows.now }
    ensures value { result ≡ alpha_of rows.now }
    ensures at_least { floor_of (times (whole 512) (exact_alpha rows.now)) ≤ result }
    ensures bound { result ≤ 2 ^ 53 }
{
    let rows = rows.listed();
    let lead = leader(rows).unwrap();
    let sum = u128::from(scaled_sum(lead, rows));
    ALPHA_SCALE * u128::from(total(rows)) * u128::from(lead.window) / (sum * sum)
}

/// How many octets the window of the path in `row` grows by in congestion avoidance, where an acknowledgement covers
/// `acked` new octets, at segments of `mss` octets (RFC 6356, section 3). It is one of the rows, and each is in range.
#[tactic(auto, unfolding(crate::specs::Scaled::growth_of))]
pub fn growth(row: &Row, rows: &Rows, mss: u32, acked: u32) -> u32
    requires among { Contains rows.now row.now }
    requires in_range { All IsInRange rows.now }
    requires mss { mss ≤ 1460 }
    requires acked { acked ≤ 1048576 }
    ensures value { result ≡ growth_of row.now rows.now mss acked }
    ensures no_faster { result ≤ floor_of (increase_alone row.now mss acked) }
{
    let octets = acked * mss;
    let alone = u128::from(octets / row.window);
    let total = total(rows.listed());
    let linked = alpha(rows) * u128::from(octets) / (u128::from(total) * ALPHA_SCALE);
    linked.min(alone) as u32
}

/// The row that goes before all others; none where there is no row.
fn leader(rows: &[Row]) -> Option<Row>
    ensures { result ≡ leader rows.now }
{
    rows.iter().copied().reduce(|lead, row| lead.leading(row))
}

/// The windows of all rows together, in octets.
fn total(rows: &[Row]) -> u64
    requires few { length rows.now ≤ 16 }
    requires in_range { All IsInRange rows.now }
    ensures value { result ≡ total rows.now }
    ensures bound { result ≤ 2 ^ 24 }
{
    rows.iter().map(|row| u64::from(row.window)).sum()
}

/// The sum of rtt_m * window / rtt over the rows, each term rounded down, m being the row that leads.
fn scaled_sum(lead: Row, rows: &[Row]) -> u64
    requires few { length rows.now ≤ 16 }
    requires lead { IsInRange lead }
    requires in_range { All IsInRange rows.now }
    ensures value { result ≡ scaled_sum lead rows.now }
    ensures bound { result ≤ 2 ^ 40 }
{
    rows.iter()
        .map(|row| u64::from(lead.rtt) * u64::from(row.window) / u64::from(row.rtt))
        .sum()
}
