//! An option of a path as the option of the octets.

ghost use Rattle.std.specs.Prelude.{◌≡◌, option_map};
ghost use Rattle.sides.specs.Side.{peer};
ghost use Rattle.mptcp_options.specs.Value.{value_of};
ghost use Rattle.path_segments.specs.Options.{said_option, said_mapping, mapping_ends_stream, relative_number};
ghost use Rattle.path_segments.specs.Spelling.{data_number};

use crate::segment::{PathMapping, PathOption, SaidOption};
use crate::spelling::Spelling;
use mptcp_options::{DataNumber, DssMap, MpOption};
use seq_units::{Pos, Seq32, number32};
use sides::Side;

impl Spelling {
    /// The option of the octets that a side says this one by.
    pub(crate) fn said_option<'a>(&self, from: Side, option: &'a SaidOption) -> MpOption<'a>
        ensures { value_of result ≡ said_option self.now from option.now }
    {
        match option {
            PathOption::Capable {
                flag_a,
                flag_c,
                keys,
            } => MpOption::Capable {
                flag_a: *flag_a,
                flag_c: *flag_c,
                keys: *keys,
            },
            PathOption::Join { form } => MpOption::Join { form: *form },
            PathOption::Dss { next, mapping } => MpOption::Dss {
                ack: self.said_ack(from, *next),
                mapping: self.said_mapping_of(from, *mapping),
                fin: ends_stream(*mapping),
            },
            PathOption::AddAddr {
                echo,
                id,
                address,
                port,
                hmac,
            } => MpOption::AddAddr {
                echo: *echo,
                id: *id,
                address: *address,
                port: *port,
                hmac: *hmac,
            },
            PathOption::Remove { ids } => MpOption::Remove { ids: &ids[..] },
            PathOption::Prio { backup } => MpOption::Prio { backup: *backup },
            PathOption::Fail { place } => MpOption::Fail {
                number: self.whole_number(from.peer(), *place),
            },
            PathOption::FastClose { key } => MpOption::FastClose { key: *key },
            PathOption::Reset { transient, reason } => MpOption::Reset {
                transient: *transient,
                reason: *reason,
            },
        }
    }

    fn said_ack(&self, from: Side, next: Option<u64>) -> Option<DataNumber>
        ensures { result ≡ option_map (data_number self.now (peer from)) next }
    {
        match next {
            None => None,
            Some(next) => Some(self.data_number(from.peer(), next)),
        }
    }

    fn said_mapping_of(&self, from: Side, mapping: Option<PathMapping<u64>>) -> Option<DssMap>
        ensures { result ≡ option_map (said_mapping self.now from) mapping }
    {
        match mapping {
            None => None,
            Some(mapping) => Some(self.said_mapping(from, mapping)),
        }
    }

    fn said_mapping(&self, from: Side, mapping: PathMapping<u64>) -> DssMap
        ensures { result ≡ said_mapping self.now from mapping }
    {
        match mapping {
            PathMapping::Bytes {
                place,
                position,
                length,
                fin: _,
                checksum,
            } => DssMap {
                number: self.data_number(from, place),
                relative: relative_number(position),
                length,
                checksum,
            },
            PathMapping::End { place, checksum } => DssMap {
                number: self.data_number(from, place),
                relative: 0,
                length: 1,
                checksum,
            },
            PathMapping::Infinite { place, position } => DssMap {
                number: self.data_number(from, place),
                relative: relative_number(position),
                length: 0,
                checksum: self.checksums.then_some(0),
            },
        }
    }
}

/// The relative subflow sequence number of a position (RFC 8684, section 3.3.1).
pub fn relative_number(position: Pos) -> u32
    ensures { result ≡ relative_number position }
{
    number32(Seq32(0), position).0
}

/// Whether the mapping ends with the DATA_FIN.
fn ends_stream(mapping: Option<PathMapping<u64>>) -> bool
    ensures { result ≡ mapping_ends_stream mapping }
{
    match mapping {
        Some(PathMapping::Bytes { fin, .. }) => fin,
        Some(PathMapping::End { .. }) => true,
        Some(PathMapping::Infinite { .. }) | None => false,
    }
}
