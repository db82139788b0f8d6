ghost use Rattle.std.specs.Prelude.{◌≡◌, ◌^◌};
ghost use Rattle.data_close.specs.DataFin.{data_number};

/// The data sequence number of the DATA_FIN behind `written` bytes: it takes the number after the last byte, and the
/// first byte has that after the initial number `idsn` (RFC 8684, sections 3.1 and 3.3.3).
pub fn fin_number(idsn: u64, written: u64) -> u64
    ensures { result ≡ data_number idsn written }
{
    idsn.wrapping_add(written).wrapping_add(1)
}
