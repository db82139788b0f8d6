//! Which segments can be said.

ghost use Rattle.std.specs.Prelude.{◌≡◌, ◌≤◌, ◌↔◌, length, All, IsTrue, is_some, IfSome};
ghost use Rattle.mptcp_options.specs.Capable.{KeysHaveForm};
ghost use Rattle.path_segments.specs.Options.{said_mapping};
ghost use Rattle.path_segments.specs.Spelled.{plain, options_text, unpadded_options, CanSay, CanSayOption};

use crate::segment::{PathMapping, PathOption, SaidOption, SaidSegment};
use crate::spelling::Spelling;
use mptcp_options::{CapableKeys, octets_of};
use sides::Side;

/// Whether a side can say this segment: the number of the path is at most 15, the window at most 2^20 octets, and the
/// payload at most 65,475 octets; each option has a form of its subtype, with a checksum exactly where checksums are
/// used; and all options together have at most 40 octets.
pub fn can_say(spelling: &Spelling, from: Side, segment: &SaidSegment<'_>) -> bool
    ensures exact { IsTrue result ↔ CanSay spelling.now from (plain segment.now) }
{
    spelling.path <= 15
        && segment.window <= 1 << 20
        && segment.payload.len() <= 65_475
        && can_say_each(spelling, from, segment.options)
        && have_room(spelling, from, segment)
}

/// Whether each of the options can be said.
fn can_say_each(spelling: &Spelling, from: Side, options: &[SaidOption]) -> bool
    ensures { IsTrue result ↔ All (CanSayOption spelling.now from) options.now }
{
    for option in options {
        if !spelling.can_say_option(from, option) {
            return false;
        }
    }
    true
}

/// Whether the options, each of which can be said, have at most 40 octets with those of a SYN.
fn have_room(spelling: &Spelling, from: Side, segment: &SaidSegment<'_>) -> bool
    requires { All (CanSayOption spelling.now from) (plain segment.now).options }
    ensures { IsTrue result ↔
        (length (unpadded_options spelling.now from (plain segment.now)) ≤ 40) }
{
    let room = if segment.mss.is_some() { 32 } else { 40 };
    are_within(spelling, from, segment.options, room)
}

/// Whether the options, each of which can be said, have at most so many octets.
fn are_within(spelling: &Spelling, from: Side, options: &[SaidOption], room: usize) -> bool
    requires { All (CanSayOption spelling.now from) options.now }
    ensures { IsTrue result ↔
        (length (options_text spelling.now from options.now) ≤ room) }
{
    let mut left = room;
    for option in options {
        let len = octets_of(&spelling.said_option(from, option), spelling.checksums).len();
        if left < len {
            return false;
        }
        left -= len;
    }
    true
}

impl Spelling {
    fn can_say_option(&self, from: Side, option: &SaidOption) -> bool
        ensures { IsTrue result ↔ CanSayOption self.now from option.now }
    {
        match option {
            PathOption::Capable { keys, .. } => keys_have_form(self.checksums, keys),
            PathOption::Dss { mapping, .. } => self.can_map(from, mapping),
            PathOption::AddAddr { echo, hmac, .. } => hmac.is_some() != *echo,
            PathOption::Remove { ids } => has_room_for(&ids[..]),
            PathOption::Join { .. }
            | PathOption::Fail { .. }
            | PathOption::Prio { .. }
            | PathOption::FastClose { .. }
            | PathOption::Reset { .. } => true,
        }
    }

    /// Whether the mapping, if any, can be said.
    fn can_map(&self, from: Side, mapping: &Option<PathMapping<u64>>) -> bool
        ensures { IsTrue result ↔
            IfSome mapping.now
            (λ m. is_some (said_mapping self.now from m).checksum ≡ self.now.checksums) }
    {
        match *mapping {
            Some(PathMapping::Bytes { checksum, .. } | PathMapping::End { checksum, .. }) => {
                checksum.is_some() == self.checksums
            }
            Some(PathMapping::Infinite { .. }) | None => true,
        }
    }
}

/// Whether a REMOVE_ADDR of at most 40 octets holds these ids, of which one at least is there (RFC 8684, section 3.4.2).
fn has_room_for(ids: &[u8]) -> bool
    ensures { IsTrue result ↔ (1 ≤ length ids.now) × (length ids.now ≤ 37) }
{
    1 <= ids.len() && ids.len() <= 37
}

fn keys_have_form(checksums: bool, keys: &CapableKeys) -> bool
    ensures { IsTrue result ↔ KeysHaveForm checksums keys.now }
{
    match keys {
        CapableKeys::WithData { checksum, .. } => checksum.is_some() == checksums,
        _ => true,
    }
}
