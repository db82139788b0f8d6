//! The ends of a segment, as the key of a table.

ghost use Rattle.std.specs.Prelude.{◌≡◌};
ghost use Rattle.key_material.specs.Address.{octets_of};
ghost use Rattle.capture_reader.specs.Seen.{as_seen};
ghost use Rattle.seen_connections.specs.SameEnds.{same_ends, ends_in, turned};

use capture_reader::{End, SeenSegment};
use std::hash::{Hash, Hasher};

/// Who sends, and to whom.
#[derive(Clone, Copy)]
pub struct Ends {
    pub from: End,
    pub to: End,
}

impl Ends {
    /// The ends of a segment.
    pub fn of(seen: &SeenSegment<'_>) -> Ends
        ensures { result ≡ ends_in (as_seen seen.now) }
    {
        Ends {
            from: seen.source,
            to: seen.destination,
        }
    }

    /// The other direction.
    pub fn turned(&self) -> Ends
        ensures { result ≡ turned self.now }
    {
        Ends {
            from: self.to,
            to: self.from,
        }
    }
}

impl PartialEq for Ends {
    ghost use Rattle.seen_connections.specs.SameEnds.{same_ends};
    ghost use Rattle.seen_connections.specs.EndsDecided.{same_ends-partial};

    ghost eq = { same_ends };

    ghost laws = { same_ends-partial };

    fn eq(&self, other: &Ends) -> bool {
        self.from == other.from && self.to == other.to
    }
}

impl Eq for Ends {
    ghost use Rattle.seen_connections.specs.EndsDecided.{same_ends-equal};

    ghost laws = { same_ends-equal };
}

impl Hash for Ends {
    ghost use Rattle.seen_connections.specs.EndsDecided.{ends_fed, same_ends-fed};

    ghost hash_input = { ends_fed };

    ghost respects_eq = { same_ends-fed };

    fn hash<H: Hasher>(&self, state: &mut H) {
        state.write(self.from.address.octets());
        state.write_u16(self.from.port);
        state.write(self.to.address.octets());
        state.write_u16(self.to.port);
    }
}
