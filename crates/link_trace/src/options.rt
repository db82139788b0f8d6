//! The options of a segment, each by its name.

ghost use Rattle.std.specs.Prelude.{◌≡◌, ◌++◌, true, OnOk, string_bytes};
ghost use Rattle.segment_wire.specs.Options.{option_octets};
ghost use Rattle.segment_wire.specs.Reading.{segment_of};
ghost use Rattle.link_trace.specs.Options.{kind_words, list_words, option_words, multipath_words, before_words};

use crate::multipath::{DataInitials, put_multipath};
use mptcp_options::{Read, read};
use segment_wire::SegmentRef;
use segment_wire::options::{mss, window_scale};
use std::alloc::{AllocError, Global};

/// An option of which no more is told than its kind.
fn put_kind(text: &mut String, option: &[u8]) -> Result<(), AllocError>
    ensures { OnOk result (string_bytes text.new ≡ string_bytes text.old ++ kind_words option.now) }
{
    match option.first() {
        Some(kind) => write!(text, "unknown-{kind}"),
        None => text.push_str("unknown"),
    }
}

/// An option that is neither the maximum segment size nor the window scale.
fn put_other(
    alloc: Global,
    text: &mut String,
    option: &[u8],
    checksums: bool,
    initials: DataInitials,
) -> Result<(), AllocError>
    ensures { OnOk result (string_bytes text.new ≡
        string_bytes text.old ++ multipath_words initials option.now checksums) }
{
    match read(option, checksums) {
        Read::Known(option) => {
            text.push_str("mptcp ")?;
            put_multipath(alloc, text, &option, initials)
        }
        Read::Malformed => text.push_str("mptcp malformed"),
        Read::Unknown => put_kind(text, option),
    }
}

fn put_option(
    alloc: Global,
    text: &mut String,
    option: &[u8],
    checksums: bool,
    initials: DataInitials,
) -> Result<(), AllocError>
    ensures { OnOk result (string_bytes text.new ≡
        string_bytes text.old ++ option_words initials checksums option.now) }
{
    if let Some(size) = mss(option) {
        return write!(text, "mss {size}");
    }
    if let Some(shift) = window_scale(option) {
        return write!(text, "wscale {shift}");
    }
    put_other(alloc, text, option, checksums, initials)
}

/// What stands before an option.
fn put_before(text: &mut String, is_first: bool) -> Result<(), AllocError>
    ensures { OnOk result (string_bytes text.new ≡ string_bytes text.old ++ before_words is_first) }
{
    if is_first {
        text.push_str(", options [")
    } else {
        text.push_str(",")
    }
}

/// All options of a segment, or nothing where it has none.
pub(crate) fn put_options(
    alloc: Global,
    text: &mut String,
    segment: &SegmentRef<'_>,
    checksums: bool,
    initials: DataInitials,
) -> Result<(), AllocError>
    ensures { OnOk result (string_bytes text.new ≡
        string_bytes text.old ++ list_words initials checksums true
        (option_octets (segment_of segment.now).options)) }
{
    let mut is_first = true;
    for option in segment.options() {
        put_before(text, is_first)?;
        put_option(alloc, text, option, checksums, initials)?;
        is_first = false;
    }
    if is_first { Ok(()) } else { text.push_str("]") }
}
