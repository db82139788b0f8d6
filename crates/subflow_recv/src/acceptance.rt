ghost use Rattle.std.specs.Prelude.{◌≡◌};
ghost use Rattle.subflow_recv.specs.Receiving.{new_octets};

/// What became of a payload.
#[derive(Clone, Copy, Debug)]
pub enum Acceptance {
    /// Some of its octets are in the window, and so many of these were not kept before.
    Kept(u64),
    /// None of its octets is in the window, and what is kept has not changed.
    Outside,
}

impl Acceptance {
    /// How many octets are kept that were not kept before.
    pub fn new_octets(self) -> u64
        ensures { result ≡ new_octets self }
    {
        match self {
            Acceptance::Kept(new) => new,
            Acceptance::Outside => 0,
        }
    }
}
