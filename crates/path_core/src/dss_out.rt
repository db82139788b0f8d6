//! What a DSS says on data: the mapping of a piece, that of the DATA_FIN, an infinite one (RFC 8684, sections 3.3.1, 3.3.3 and
//! 3.7).

ghost use Rattle.std.specs.Prelude.{◌≡◌, ◌≤◌, Some, None, length};
ghost use Rattle.sides.specs.declared.side.Side.TheVariants.{A};
ghost use Rattle.subflow_send.specs.Records.{record_of};
ghost use Rattle.path_segments.specs.Spelling.{whole_number};
ghost use Rattle.dss_checksum.specs.Checksum.{dss_checksum};
ghost use Rattle.path_core.specs.DssOut.{bare_mapping, checksum_in, mapping_of, place_numbered, checksum_told, data_fin_mapping, piece_mapping, fail_beside, owes_mapping, plain_options, infinite_options, mapped_options, first_piece_options, piece_options, fin_options};
ghost use Rattle.path_core.specs.Modes.{receives_infinite};
ghost use Rattle.path_core.specs.Said.{options_by};

use crate::end::PathEnd;
use crate::modes::Modes;
use crate::profile::Profile;
use crate::unnumbered::unnumbered;
use capable_handshake::first_data_option;
use data_close::fin_number;
use dss_checksum::DssSum;
use fallback_state::Mode;
use path_segments::{PathMapping, PathOption, SaidOption, relative_number};
use path_store::InfiniteMapping;
use seq_units::{Mapping, Pos};
use sides::Side;
use subflow_tcp::RecordRef;

impl Profile {
    /// The mapping of `length` bytes of a side's stream, before there is a checksum.
    pub(crate) fn bare_mapping(&self, side: Side, place: u64, position: Pos, length: u16) -> Mapping
        ensures { result ≡ bare_mapping self.now side place position length }
    {
        Mapping {
            number: self.spelling().whole_number(side, place),
            relative: relative_number(position),
            length,
            checksum: 0,
        }
    }

    /// The checksum of a mapping and its bytes, where checksums are used (RFC 8684, section 3.3.1).
    fn checksum_in(&self, mapping: &Mapping, octets: &[u8]) -> u16
        requires { length octets.now ≤ 65535 }
        ensures { result ≡ checksum_in self.now mapping.now octets.now }
    {
        if self.spelling().checksums {
            checksum_of(mapping, octets)
        } else {
            0
        }
    }

    /// The mapping that a granted piece has for ever: at most 65,535 octets, from this place and this position on; its checksum
    /// is 0 where none are used (RFC 8684, section 3.3.1).
    pub(crate) fn mapping_of(&self, side: Side, place: u64, position: Pos, octets: &[u8]) -> Mapping
        requires { length octets.now ≤ 65535 }
        ensures { result ≡ mapping_of self.now side place position octets.now }
    {
        let bare = self.bare_mapping(side, place, position, octets.len() as u16);
        Mapping {
            checksum: self.checksum_in(&bare, octets),
            ..bare
        }
    }

    /// The place that the first number of a mapping stands for.
    fn place_numbered(&self, side: Side, number: u64) -> u64
        ensures { result ≡ place_numbered self.now side number }
    {
        number.wrapping_sub(self.spelling().whole_number(side, 0))
    }

    /// A checksum stands in an option exactly where checksums are used.
    fn checksum_told(&self, checksum: u16) -> Option<u16>
        ensures { result ≡ checksum_told self.now checksum }
    {
        self.spelling().checksums.then_some(checksum)
    }

    /// The data number of the DATA_FIN that has this place.
    fn data_fin_number(&self, side: Side, place: u64) -> u64
        ensures { result ≡ whole_number self.now.spelling side place }
    {
        let spelling = self.spelling();
        match side {
            Side::A => fin_number(spelling.a.idsn.0, place),
            Side::B => fin_number(spelling.b.idsn.0, place),
        }
    }

    /// The mapping of the DATA_FIN without data: relative number 0 and length 1 (RFC 8684, section 3.3.3).
    pub(crate) fn data_fin_mapping(&self, side: Side, fin: Option<u64>) -> Option<PathMapping<u64>>
        ensures { result ≡ data_fin_mapping self.now side fin }
    {
        let place = fin?;
        let bare = Mapping {
            number: self.data_fin_number(side, place),
            relative: 0,
            length: 1,
            checksum: 0,
        };
        let checksum = self.checksum_in(&bare, &[]);
        Some(PathMapping::End {
            place,
            checksum: self.checksum_told(checksum),
        })
    }

    /// On data: the mapping that the piece was granted with.
    fn piece_mapping(&self, side: Side, lent: &RecordRef<'_>) -> PathMapping<u64>
        ensures { result ≡ piece_mapping self.now side (record_of lent.now) }
    {
        PathMapping::Bytes {
            place: self.place_numbered(side, lent.mapping.number),
            position: lent.pos,
            length: lent.mapping.length,
            fin: false,
            checksum: self.checksum_told(lent.mapping.checksum),
        }
    }
}

/// The checksum of a mapping and its bytes.
pub(crate) fn checksum_of(mapping: &Mapping, octets: &[u8]) -> u16
    requires { length octets.now ≤ 65535 }
    ensures { result ≡ dss_checksum mapping.now octets.now }
{
    let mut sum = DssSum::new(mapping);
    sum.add(octets);
    sum.make()
}

impl Modes {
    /// The failed check is told until the peer's infinite mapping came (RFC 8684, section 3.7).
    fn fail_option(&self) -> Option<SaidOption>
        ensures { options_by result ≡ fail_beside None self.now }
    {
        if receives_infinite(self.mode) {
            return None;
        }
        let place = self.failed_mapping?;
        Some(PathOption::Fail { place })
    }

    /// Each acknowledgement tells it that has no DATA_FIN.
    pub(crate) fn fail_beside(&self, fin: Option<u64>) -> Option<SaidOption>
        ensures { options_by result ≡ fail_beside fin self.now }
    {
        match fin {
            Some(_) => None,
            None => self.fail_option(),
        }
    }
}

/// The peer's infinite mapping came.
fn receives_infinite(mode: Mode) -> bool
    ensures { result ≡ receives_infinite mode }
{
    matches!(mode, Mode::InfiniteReceive | Mode::InfiniteBoth)
}

impl PathEnd {
    /// The infinite mapping is owed, and no segment that had it is acknowledged.
    pub(crate) fn owes_mapping(&self) -> bool
        ensures { result ≡ owes_mapping self.now }
    {
        let reached = match self.modes.mapped_to {
            Some(to) => to <= self.tcp.una(),
            None => false,
        };
        self.modes.owes_mapping && !reached
    }

    /// On data and FIN after a fallback: the infinite mapping from this position on, as long as it is owed (RFC 8684,
    /// section 3.7).
    fn plain_option(&self, position: Pos) -> Option<SaidOption>
        ensures value { options_by result ≡ plain_options position self.now }
    {
        if self.owes_mapping() {
            let place = position.saturating_sub(1);
            Some(PathOption::Dss {
                next: None,
                mapping: Some(PathMapping::Infinite { place, position }),
            })
        } else {
            None
        }
    }

    /// A's first piece carries both keys, until A may send a DSS.
    #[tactic(auto, using(crate::proofs::Handshakes::first_is_said))]
    fn first_piece_option(&self, profile: &Profile, lent: &RecordRef<'_>) -> Option<SaidOption>
        ensures value { options_by result ≡
            first_piece_options profile.now self.now.modes.peer_key (record_of lent.now) self.now }
    {
        let receiver = self.modes.peer_key?;
        let checksum = profile.checksum_told(lent.mapping.checksum);
        let (sender, length) = (self.modes.own_key, lent.mapping.length);
        unnumbered(first_data_option(sender, receiver, length, checksum))
    }

    /// On data and FIN after the peer's MP_FAIL: the infinite mapping, as long as it is owed (RFC 8684, section 3.7).
    fn infinite_option(&self, mapping: InfiniteMapping) -> Option<SaidOption>
        ensures value { options_by result ≡ infinite_options mapping self.now }
    {
        let InfiniteMapping { place, position } = mapping;
        Some(PathOption::Dss {
            next: Some(self.receiving.next()),
            mapping: self
                .owes_mapping()
                .then_some(PathMapping::Infinite { place, position }),
        })
    }

    /// On data that has a mapping of its own.
    fn mapped_option(
        &self,
        profile: &Profile,
        side: Side,
        lent: &RecordRef<'_>,
    ) -> Option<SaidOption>
        ensures value { options_by result ≡
            mapped_options profile.now side (record_of lent.now) self.now }
    {
        if side == Side::A && !self.modes.clear && lent.pos == 1 {
            return self.first_piece_option(profile, lent);
        }
        Some(PathOption::Dss {
            next: Some(self.receiving.next()),
            mapping: Some(profile.piece_mapping(side, lent)),
        })
    }

    /// On data.
    pub(crate) fn piece_option(
        &self,
        profile: &Profile,
        side: Side,
        lent: &RecordRef<'_>,
    ) -> Option<SaidOption>
        ensures value { options_by result ≡
            piece_options profile.now side (record_of lent.now) self.now }
    {
        if self.modes.identity {
            return self.plain_option(lent.pos);
        }
        match self.modes.own_infinite {
            Some(mapping) => self.infinite_option(mapping),
            None => self.mapped_option(profile, side, lent),
        }
    }

    /// On the FIN at this position.
    pub(crate) fn fin_option(&self, position: Pos) -> Option<SaidOption>
        ensures value { options_by result ≡ fin_options position self.now }
    {
        if self.modes.identity {
            return self.plain_option(position);
        }
        match self.modes.own_infinite {
            Some(mapping) => self.infinite_option(mapping),
            None => Some(PathOption::Dss {
                next: Some(self.receiving.next()),
                mapping: None,
            }),
        }
    }
}
