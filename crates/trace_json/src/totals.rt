//! The sums of each direction of each path as objects.

ghost use Rattle.std.specs.Prelude.{◌≡◌, map, IfOk, OnOk};
ghost use Rattle.serde_json.specs.View.{members_view, view};
ghost use Rattle.trace_json.specs.Totals.{octets_data, rate_data, row_data, rows_data, with_counts, with_row};

use crate::fields::{Member, object, put, put_members, side_letter};
use link_trace::{Rate, Row};
use serde_json::{Map, Value};
use std::alloc::{AllocError, Global};

/// Octets of payload, by whether they were sent before.
fn octets_value(alloc: Global, row: &Row) -> Result<Value, AllocError>
    ensures { IfOk result (λ value. view value ≡ octets_data row.now) }
{
    let members = [
        Member::Number("again", row.again),
        Member::Number("all", row.octets),
        Member::Number("moved", row.moved),
        Member::Number("new", row.fresh),
    ];
    object(alloc, &members)
}

/// What the end that sends measures.
fn rate_value(alloc: Global, rate: Rate) -> Result<Value, AllocError>
    ensures { IfOk result (λ value. view value ≡ rate_data rate) }
{
    let members = [
        Member::NumberOrNull("rtt", rate.rtt.map(u64::from)),
        Member::Number("ssthresh", u64::from(rate.threshold)),
        Member::Number("timeout", u64::from(rate.timeout)),
        Member::Number("window", u64::from(rate.window)),
    ];
    object(alloc, &members)
}

fn put_counts(alloc: Global, map: &mut Map<String, Value>, row: &Row) -> Result<(), AllocError>
    ensures { OnOk result (members_view map.new.entries ≡
        with_counts row.now (members_view map.old.entries)) }
{
    let members = [
        Member::NumberOrNull("first", row.first),
        Member::Text("from", side_letter(row.from)),
        Member::NumberOrNull("last", row.last),
        Member::Number("lost", row.lost as u64),
        Member::Number("path", row.path as u64),
        Member::Number("segments", row.segments as u64),
    ];
    put_members(alloc, map, &members)
}

fn put_row(alloc: Global, map: &mut Map<String, Value>, row: &Row) -> Result<(), AllocError>
    ensures { OnOk result (members_view map.new.entries ≡
        with_row row.now (members_view map.old.entries)) }
{
    put_counts(alloc, map, row)?;
    let octets = octets_value(alloc, row)?;
    serde_json::put(map, alloc, "octets", octets)?;
    let rate = rate_value(alloc, row.rate)?;
    serde_json::put(map, alloc, "rate", rate)
}

#[tactic(auto, unfolding(crate::specs::Totals::row_data))]
fn row_value(alloc: Global, row: &Row) -> Result<Value, AllocError>
    ensures { IfOk result (λ value. view value ≡ row_data row.now) }
{
    let mut map = Map::new(alloc);
    put_row(alloc, &mut map, row)?;
    Ok(Value::Object(map))
}

/// Each row, in its order.
pub fn rows_list(alloc: Global, rows: &[Row]) -> Result<Vec<Value>, AllocError>
    ensures { IfOk result (λ list. map view list.items ≡ rows_data rows.now) }
{
    let mut list = Vec::new(alloc);
    for row in rows {
        let value = row_value(alloc, row)?;
        put(&mut list, value)?;
    }
    Ok(list)
}
