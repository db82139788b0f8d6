//! The order of octets in the numbers of a capture.

ghost use Rattle.std.specs.Prelude.{◌≡◌, ◌+◌, ◌≤◌, drop, length};
ghost use Rattle.std.specs.Int.{w16, w32};
ghost use Rattle.octet_text.specs.Octets.{number_at};
ghost use Rattle.capture_reader.specs.Order.{short_in, word_in};

/// Whether the highest octet of a number comes first, or the lowest.
#[derive(Clone, Copy)]
pub enum ByteOrder {
    BigEndian,
    LittleEndian,
}

impl ByteOrder {
    /// The number of 16 bits that begins at a place.
    #[tactic(auto, unfolding(crate::specs::Order::short_in))]
    pub fn u16_at(self, octets: &[u8], place: usize) -> u16
        requires { place + 2 ≤ length octets.now }
        ensures { result ≡ short_in self octets.now place }
    {
        let field = *octets[place..].first_chunk().unwrap();
        match self {
            ByteOrder::BigEndian => u16::from_be_bytes(field),
            ByteOrder::LittleEndian => u16::from_le_bytes(field),
        }
    }

    /// The number of 32 bits that begins at a place.
    #[tactic(auto, unfolding(crate::specs::Order::word_in))]
    pub fn u32_at(self, octets: &[u8], place: usize) -> u32
        requires { place + 4 ≤ length octets.now }
        ensures { result ≡ word_in self octets.now place }
    {
        let field = *octets[place..].first_chunk().unwrap();
        match self {
            ByteOrder::BigEndian => u32::from_be_bytes(field),
            ByteOrder::LittleEndian => u32::from_le_bytes(field),
        }
    }
}

/// The number of 16 bits that begins at a place of a packet, in the order of the network.
pub fn u16_at(octets: &[u8], place: usize) -> u16
    requires { place + 2 ≤ length octets.now }
    ensures { result ≡ number_at w16 octets.now place }
{
    u16::from_be_bytes(*octets[place..].first_chunk().unwrap())
}

/// The octets from a place on.
pub fn rest_from(octets: &[u8], place: usize) -> &[u8]
    requires { place ≤ length octets.now }
    ensures { result.now ≡ drop place octets.now }
{
    &octets[place..]
}
