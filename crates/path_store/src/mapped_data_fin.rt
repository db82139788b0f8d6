//! The end of the peer's stream behind the bytes of a mapping.

ghost use Rattle.std.specs.Prelude.{◌≡◌, ◌≤◌, ◌^◌, IfSome};
ghost use Rattle.dss_mapping.specs.Learning.{IsWithin};
ghost use Rattle.path_store.specs.Receiving.{data_fin_behind};

use dss_mapping::KeptMapping;
use seq_units::Pos;

/// A DATA_FIN behind the bytes of a mapping (RFC 8684, section 3.3.3).
#[derive(Clone, Copy)]
pub struct MappedDataFin {
    /// The position behind those bytes.
    pub position: Pos,
    /// The end of the stream: the place behind those of the bytes.
    pub place: u64,
}

/// The DATA_FIN behind the bytes of this mapping, or else the one that waited before.
pub(crate) fn data_fin_behind(
    kept: Option<KeptMapping>,
    other: Option<MappedDataFin>,
) -> Option<MappedDataFin>
    requires within { IfSome kept IsWithin }
    requires bound { IfSome other (λ fin. fin.place ≤ 2 ^ 62) }
    ensures value { result ≡ data_fin_behind kept other }
    ensures bound { IfSome result (λ fin. fin.place ≤ 2 ^ 62) }
{
    match kept {
        Some(kept) if kept.fin => {
            let octets = u64::from(kept.octets());
            Some(MappedDataFin {
                position: kept.pos.saturating_add(octets),
                place: kept.place + octets,
            })
        }
        _ => other,
    }
}
