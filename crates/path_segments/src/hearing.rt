//! What octets say, by positions and places.

ghost use Rattle.std.specs.Prelude.{◌≡◌, ◌<◌, ◌≤◌, ◌+◌, ◌^◌, option_map, IfSome};
ghost use Rattle.sides.specs.Side.{peer};
ghost use Rattle.mptcp_options.specs.Value.{value_of};
ghost use Rattle.path_segments.specs.Heard.{position_heard, number_means, number_heard, place_behind, place_heard, heard_mapping, heard_option};
ghost use Rattle.path_segments.specs.HeardLent.{IsExpected, IsLow};
ghost use Rattle.path_segments.specs.Options.{plain_option};

use crate::expected::Expected;
use crate::position::HeardPosition;
use crate::segment::{PathMapping, PathOption};
use crate::spelling::Spelling;
use mptcp_options::{DataNumber, DssMap, MpOption};
use seq_units::{Pos, Seq32, Seq64, near32, near64, number64, widen};
use sides::Side;

/// A mapping that is heard: each number by what it means, if it means any.
pub type HeardMapping = PathMapping<Option<u64>>;

/// An option that is heard. The ids of a REMOVE_ADDR are lent.
pub type HeardOption<'a> = PathOption<Option<u64>, &'a [u8]>;

impl Spelling {
    /// The position of a side's subflow that a number means beside the expected one.
    fn position_heard(&self, side: Side, expected: Pos, number: u32) -> Option<Pos>
        requires { expected ≤ 2 ^ 62 + 2 ^ 20 }
        ensures value { result ≡ position_heard self.now side expected number }
        ensures bound { IfSome result (λ position. position < 2 ^ 63) }
    {
        near32(self.numbers(side).initial, expected, Seq32(number))
    }

    /// What a number of a header means beside the expected position.
    pub(crate) fn number_means(&self, side: Side, expected: Pos, number: u32) -> HeardPosition
        requires { expected ≤ 2 ^ 62 + 2 ^ 20 }
        ensures value { result ≡ number_means self.now side expected number }
        ensures low { IsLow result }
    {
        match self.position_heard(side, expected, number) {
            Some(position) => HeardPosition::At(position),
            None => HeardPosition::Nowhere(number),
        }
    }

    /// The place of a side's stream that a data number means beside the expected one.
    #[tactic(auto, unfolding(crate::specs::Heard::place_heard))]
    fn place_heard(&self, side: Side, expected: u64, number: DataNumber) -> Option<u64>
        requires { expected ≤ 2 ^ 62 + 2 ^ 20 }
        ensures { result ≡ place_heard self.now side expected number }
    {
        let base = self.numbers(side).idsn;
        let whole = self.number_heard(side, expected, number);
        match near64(base, expected + 1, Seq64(whole)) {
            Some(position) => place_behind(position),
            None => None,
        }
    }

    /// All 64 bits of a data number.
    fn number_heard(&self, side: Side, expected: u64, number: DataNumber) -> u64
        requires { expected ≤ 2 ^ 62 + 2 ^ 20 }
        ensures { result ≡ number_heard self.now side expected number }
    {
        match number {
            DataNumber::Whole(number) => number,
            DataNumber::Low(low) => {
                widen(number64(self.numbers(side).idsn, expected + 1), low).0
            }
        }
    }

    #[tactic(auto, unfolding(crate::specs::Heard::heard_mapping))]
    fn heard_mapping(&self, from: Side, expected: &Expected, map: DssMap, fin: bool) -> HeardMapping
        requires place { expected.now.place ≤ 2 ^ 62 + 2 ^ 20 }
        requires edge { expected.now.edge ≤ 2 ^ 62 + 2 ^ 20 }
        ensures { result ≡ heard_mapping self.now from expected.now map fin }
    {
        let place = self.place_heard(from, expected.place, map.number);
        let position = near32(Seq32(0), expected.edge, Seq32(map.relative));
        if map.length == 0 {
            return PathMapping::Infinite { place, position };
        }
        if fin && map.relative == 0 && map.length == 1 {
            return PathMapping::End {
                place,
                checksum: map.checksum,
            };
        }
        PathMapping::Bytes {
            place,
            position,
            length: map.length,
            fin,
            checksum: map.checksum,
        }
    }

    fn heard_ack(
        &self,
        from: Side,
        expected: &Expected,
        ack: Option<DataNumber>,
    ) -> Option<Option<u64>>
        requires { expected.now.told ≤ 2 ^ 62 + 2 ^ 20 }
        ensures { result ≡ option_map (place_heard self.now (peer from) expected.now.told) ack }
    {
        match ack {
            None => None,
            Some(number) => Some(self.place_heard(from.peer(), expected.told, number)),
        }
    }

    fn heard_mapping_of(
        &self,
        from: Side,
        expected: &Expected,
        mapping: Option<DssMap>,
        fin: bool,
    ) -> Option<HeardMapping>
        requires place { expected.now.place ≤ 2 ^ 62 + 2 ^ 20 }
        requires edge { expected.now.edge ≤ 2 ^ 62 + 2 ^ 20 }
        ensures { result ≡
            option_map (λ map. heard_mapping self.now from expected.now map fin) mapping }
    {
        match mapping {
            None => None,
            Some(map) => Some(self.heard_mapping(from, expected, map, fin)),
        }
    }

    /// What an option of the octets says.
    pub(crate) fn heard_option<'a>(
        &self,
        from: Side,
        expected: &Expected,
        option: &MpOption<'a>,
    ) -> HeardOption<'a>
        requires { IsExpected expected.now }
        ensures { plain_option result ≡
            heard_option self.now from expected.now (value_of option.now) }
    {
        match *option {
            MpOption::Capable {
                flag_a,
                flag_c,
                keys,
            } => PathOption::Capable {
                flag_a,
                flag_c,
                keys,
            },
            MpOption::Join { form } => PathOption::Join { form },
            MpOption::Dss { ack, mapping, fin } => PathOption::Dss {
                next: self.heard_ack(from, expected, ack),
                mapping: self.heard_mapping_of(from, expected, mapping, fin),
            },
            MpOption::AddAddr {
                echo,
                id,
                address,
                port,
                hmac,
            } => PathOption::AddAddr {
                echo,
                id,
                address,
                port,
                hmac,
            },
            MpOption::Remove { ids } => PathOption::Remove { ids },
            MpOption::Prio { backup } => PathOption::Prio { backup },
            MpOption::Fail { number } => PathOption::Fail {
                place: self.place_heard(from.peer(), expected.told, DataNumber::Whole(number)),
            },
            MpOption::FastClose { key } => PathOption::FastClose { key },
            MpOption::Reset { transient, reason } => PathOption::Reset { transient, reason },
        }
    }
}

/// The place behind a position: the initial data number has none.
fn place_behind(position: Pos) -> Option<u64>
    ensures { result ≡ place_behind position }
{
    if position > 0 {
        Some(position - 1)
    } else {
        None
    }
}
