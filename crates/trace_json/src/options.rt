//! The options of a segment as objects.

ghost use Rattle.std.specs.Prelude.{◌≡◌, codes, map, IfOk};
ghost use Rattle.serde_json.specs.View.{view};
ghost use Rattle.segment_wire.specs.Options.{option_octets};
ghost use Rattle.segment_wire.specs.Reading.{segment_of};
ghost use Rattle.trace_json.specs.Options.{kind_data, multipath_data, named_data, option_data, options_data, scale_data, size_data};

use crate::fields::{Member, object, put};
use crate::multipath::multipath_value;
use mptcp_options::{Read, read};
use segment_wire::SegmentRef;
use segment_wire::options::{mss, window_scale};
use serde_json::Value;
use std::alloc::{AllocError, Global};

/// An option of which no more is told than its kind.
fn kind_value(alloc: Global, option: &[u8]) -> Result<Value, AllocError>
    ensures { IfOk result (λ value. view value ≡ kind_data option.now) }
{
    match option.first() {
        Some(kind) => {
            let kind = Member::Number("kind", u64::from(*kind));
            object(alloc, &[kind, Member::Text("name", "unknown")])
        }
        None => object(alloc, &[Member::Text("name", "unknown")]),
    }
}

fn size_value(alloc: Global, size: u16) -> Result<Value, AllocError>
    ensures { IfOk result (λ value. view value ≡ size_data size) }
{
    let size = Member::Number("size", u64::from(size));
    object(alloc, &[Member::Text("name", "MSS"), size])
}

fn scale_value(alloc: Global, shift: u8) -> Result<Value, AllocError>
    ensures { IfOk result (λ value. view value ≡ scale_data shift) }
{
    let shift = Member::Number("shift", u64::from(shift));
    object(alloc, &[Member::Text("name", "WSCALE"), shift])
}

fn malformed_value(alloc: Global) -> Result<Value, AllocError>
    ensures { IfOk result (λ value. view value ≡ named_data (codes "malformed")) }
{
    object(alloc, &[Member::Text("name", "malformed")])
}

/// An option that is neither the maximum segment size nor the window scale.
fn other_value(alloc: Global, option: &[u8], checksums: bool) -> Result<Value, AllocError>
    ensures { IfOk result (λ value. view value ≡ multipath_data option.now checksums) }
{
    match read(option, checksums) {
        Read::Known(option) => multipath_value(alloc, &option),
        Read::Malformed => malformed_value(alloc),
        Read::Unknown => kind_value(alloc, option),
    }
}

fn option_value(alloc: Global, option: &[u8], checksums: bool) -> Result<Value, AllocError>
    ensures { IfOk result (λ value. view value ≡ option_data checksums option.now) }
{
    if let Some(size) = mss(option) {
        return size_value(alloc, size);
    }
    if let Some(shift) = window_scale(option) {
        return scale_value(alloc, shift);
    }
    other_value(alloc, option, checksums)
}

/// All options of a segment, in their order.
pub fn options_list(
    alloc: Global,
    segment: &SegmentRef<'_>,
    checksums: bool,
) -> Result<Vec<Value>, AllocError>
    ensures { IfOk result (λ list. map view list.items ≡
        options_data checksums (option_octets (segment_of segment.now).options)) }
{
    let mut list = Vec::new(alloc);
    for option in segment.options() {
        let value = option_value(alloc, option, checksums)?;
        put(&mut list, value)?;
    }
    Ok(list)
}
