ghost use Rattle.std.specs.Prelude.{◌≡◌, ◌≤◌, length};

/// An address that a side announces: its octets in network order.
#[derive(Clone, Copy, Debug, PartialEq, Eq)]
pub enum Address {
    V4([u8; 4]),
    V6([u8; 16]),
}

impl Address {
    ghost use Rattle.key_material.specs.Address.{octets_of};

    /// The 4 or 16 octets of the address, in network order.
    pub fn octets(&self) -> &[u8]
        ensures octets { result.now ≡ octets_of self.now }
        ensures few { length result.now ≤ 16 }
    {
        match self {
            Address::V4(octets) => octets,
            Address::V6(octets) => octets,
        }
    }
}
