//! A segment as it is heard: nothing is copied, and its options are read one by one.

ghost use Rattle.std.specs.Prelude.{◌≡◌, ◌+◌, ◌^◌, ◌≤◌};
ghost use Rattle.std.specs.Iterator.{YieldsFirstBy, item_count};
ghost use Rattle.segment_wire.specs.OptionFront.{octets_alone, options_left};
ghost use Rattle.mptcp_options.specs.Value.{value_of};
ghost use Rattle.path_segments.specs.Heard.{known_in};
ghost use Rattle.path_segments.specs.HeardLent.{IsExpected};
ghost use Rattle.path_segments.specs.Options.{plain_option};

use crate::expected::Expected;
use crate::hearing::HeardOption;
use crate::position::HeardPosition;
use crate::segment::PathSegment;
use crate::spelling::Spelling;
use mptcp_options::{MpOption, Read, read};
use segment_wire::PlainOptions;
use sides::Side;

/// The options of a segment that is heard, in their order: those that are known, by places and positions.
#[derive(Clone, Copy)]
pub struct HeardOptions<'a> {
    left: PlainOptions<'a>,
    spelling: Spelling,
    from: Side,
    expected: Expected,
    ghost edge: { expected.edge ≤ 2 ^ 62 + 2 ^ 20 },
    ghost unacknowledged: { expected.unacknowledged ≤ 2 ^ 62 + 2 ^ 20 },
    ghost told: { expected.told ≤ 2 ^ 62 + 2 ^ 20 },
    ghost place: { expected.place ≤ 2 ^ 62 + 2 ^ 20 },
}

/// A segment that is heard.
pub type HeardSegment<'a> = PathSegment<HeardPosition, HeardOptions<'a>, &'a [u8]>;

impl<'a> Iterator for HeardOptions<'a> {
    ghost use Rattle.path_segments.specs.HeardSegments.{heard_left};

    type Item = HeardOption<'a>;

    ghost next_gives = { YieldsFirstBy plain_option heard_left };

    ghost remaining = { item_count heard_left };

    fn next(&mut self) -> Option<HeardOption<'a>> {
        match next_known(&mut self.left, self.spelling.checksums) {
            Some(option) => Some(
                self.spelling
                    .heard_option(self.from, &self.expected, &option),
            ),
            None => None,
        }
    }
}

impl<'a> HeardOptions<'a> {
    ghost use Rattle.path_segments.specs.Heard.{heard_options};
    ghost use Rattle.path_segments.specs.HeardSegments.{heard_left};

    /// What these options say.
    pub(crate) fn of(
        options: PlainOptions<'a>,
        spelling: &Spelling,
        from: Side,
        expected: &Expected,
    ) -> Self
        requires { IsExpected expected.now }
        ensures { heard_left result ≡
            heard_options spelling.now from expected.now
            (octets_alone (options_left options.entry)) }
    {
        HeardOptions {
            left: options,
            spelling: *spelling,
            from,
            expected: *expected,
        }
    }
}

/// The next option that is known.
fn next_known<'a>(left: &mut PlainOptions<'a>, checksums: bool) -> Option<MpOption<'a>>
    ensures { YieldsFirstBy value_of (λ options.
        known_in checksums (octets_alone (options_left options))) left.old result left.new }
{
    while let Some(octets) = left.next() {
        if let Read::Known(option) = read(octets, checksums) {
            return Some(option);
        }
    }
    None
}
