ghost use Rattle.std.specs.Prelude.{◌≡◌};

/// One of the two ends of a connection: A opens it, B listens.
#[derive(Clone, Copy, Debug, PartialEq, Eq)]
pub enum Side {
    A,
    B,
}

impl Side {
    ghost use Rattle.sides.specs.Side.{peer, side_word};

    /// The side at the other end.
    pub fn peer(self) -> Side
        ensures { result ≡ peer self }
    {
        match self {
            Side::A => Side::B,
            Side::B => Side::A,
        }
    }

    /// Its word in scripts and logs.
    pub fn word(self) -> &'static str
        ensures { result.now ≡ side_word self }
    {
        match self {
            Side::A => "a",
            Side::B => "b",
        }
    }
}
