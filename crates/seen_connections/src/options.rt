//! The options of a captured segment, in their order.

ghost use Rattle.std.specs.Prelude.{◌≡◌, ◌++◌, map, IfOk, OnOk};
ghost use Rattle.mptcp_options.specs.Meaning.{option_meaning};
ghost use Rattle.segment_wire.specs.Options.{option_octets};
ghost use Rattle.segment_wire.specs.Reading.{segment_of};
ghost use Rattle.seen_connections.specs.SeenOptions.{as_value, seen_as, each_seen, seen_options};

use mptcp_options::{MpOption, Read, read};
use segment_wire::SegmentRef;
use segment_wire::options::broken_part;
use std::alloc::{AllocError, Global};

/// An option as it was seen.
#[derive(Clone, Copy)]
pub enum SeenOption<'a> {
    /// An option of Multipath TCP.
    Known(MpOption<'a>),
    /// An option of kind 30 that has no form, or all octets from an option on that isn't whole.
    Broken(&'a [u8]),
}

/// The options of Multipath TCP of a segment, where checksums are used or not, and those that have no form. Other options, and
/// those that a reader passes over, are left out.
///
/// # Errors
///
/// Where memory is wanting.
pub fn seen_options<'a>(
    alloc: Global,
    segment: &SegmentRef<'a>,
    checksums: bool,
) -> Result<Vec<SeenOption<'a>>, AllocError>
    ensures { IfOk result (λ seen. map as_value seen.items ≡ seen_options checksums
        (segment_of segment.now).options) }
{
    let mut seen = read_options(alloc, segment, checksums)?;
    let broken = broken_part(segment.option_octets());
    if !broken.is_empty() {
        seen.push(SeenOption::Broken(broken))?;
    }
    Ok(seen)
}

// Those that are whole.
fn read_options<'a>(
    alloc: Global,
    segment: &SegmentRef<'a>,
    checksums: bool,
) -> Result<Vec<SeenOption<'a>>, AllocError>
    ensures { IfOk result (λ seen. map as_value seen.items ≡
        each_seen checksums (option_octets (segment_of segment.now).options)) }
{
    let mut seen = Vec::new(alloc);
    for option in segment.options() {
        see(&mut seen, option, checksums)?;
    }
    Ok(seen)
}

// Adds what an option is, unless it is passed over.
fn see<'a>(
    seen: &mut Vec<SeenOption<'a>>,
    option: &'a [u8],
    checksums: bool,
) -> Result<(), AllocError>
    ensures { OnOk result (map as_value seen.new.items ≡
        map as_value seen.old.items ++ seen_as (option_meaning option.now checksums) option.now) }
{
    match read(option, checksums) {
        Read::Known(known) => seen.push(SeenOption::Known(known))?,
        Read::Malformed => seen.push(SeenOption::Broken(option))?,
        Read::Unknown => {}
    }
    Ok(())
}
