//! The numbers of an option, by the place of their first octet, in network order.

ghost use Rattle.std.specs.Prelude.{◌≡◌, ◌+◌, ◌≤◌, length};
ghost use Rattle.std.specs.Int.{w16, w32, w64};
ghost use Rattle.octet_text.specs.Octets.{number_at};

pub fn u16_at(octets: &[u8], place: usize) -> u16
    requires { place + 2 ≤ length octets.now }
    ensures { result ≡ number_at w16 octets.now place }
{
    u16::from_be_bytes(*octets[place..].first_chunk().unwrap())
}

pub fn u32_at(octets: &[u8], place: usize) -> u32
    requires { place + 4 ≤ length octets.now }
    ensures { result ≡ number_at w32 octets.now place }
{
    u32::from_be_bytes(*octets[place..].first_chunk().unwrap())
}

pub fn u64_at(octets: &[u8], place: usize) -> u64
    requires { place + 8 ≤ length octets.now }
    ensures { result ≡ number_at w64 octets.now place }
{
    u64::from_be_bytes(*octets[place..].first_chunk().unwrap())
}
