ghost use Rattle.std.specs.Prelude.{◌≡◌, slice_set, ◌<◌, ◌≤◌, length, IfSome};
ghost use Rattle.address_manager.specs.IdSet.{lowest};

use std::marker::Model;

/// A set of ids, which are numbers of one octet, as address ids and path numbers are. It takes no memory. Contracts see
/// the list that says of each id whether it is in the set. The lowest one is kept, and not searched for.
#[derive(Clone, Copy)]
pub struct IdSet {
    members: [bool; 256],
    first: Option<u8>,
}

impl Model for IdSet {
    ghost use Rattle.std.proofs.Common.{ap, sym};
    ghost use Rattle.std.specs.Prelude.{◌≡◌, List, Bool};
    ghost use Rattle.address_manager.specs.IdSet.{lowest};

    ghost Value = { List Bool };

    ghost view = { λ s. s.members };

    ghost invariant = { λ s. s.first ≡ lowest s.members };

    ghost inverse = { λ members. record { members = members; first = lowest members } };

    ghost inverse_ok = { λ s is. ap (λ id. record { members = s.members; first = id }) (sym is) };
}

impl IdSet {
    ghost use Rattle.address_manager.specs.IdSet.{no_ids, is_member};

    /// No id.
    #[tactic(auto, unfolding(crate::specs::IdSet::no_ids))]
    pub fn new() -> Self
        ensures { result ≡ no_ids }
    {
        IdSet {
            members: [false; 256],
            first: None,
        }
    }

    /// Whether the id is in the set.
    pub fn contains(&self, id: u8) -> bool
        ensures { result ≡ is_member self.now id }
    {
        self.members[id as usize]
    }

    /// Puts the id into the set, or leaves it out.
    pub fn set(&mut self, id: u8, member: bool)
        ensures { self.new ≡ slice_set self.old id member }
    {
        self.members[id as usize] = member;
        self.first = lowest_of(&self.members);
    }

    /// The lowest id in the set; none where it is empty.
    pub fn lowest(&self) -> Option<u8>
        ensures { result ≡ lowest self.now }
    {
        self.first
    }
}

/// The lowest id that is a member.
fn lowest_of(members: &[bool; 256]) -> Option<u8>
    ensures { result ≡ lowest members.now }
{
    match first_member(members) {
        Some(id) => Some(id as u8),
        None => None,
    }
}

/// The first place that says that its id is in the set.
fn first_member(members: &[bool]) -> Option<usize>
    requires { length members.now ≤ 256 }
    ensures value { result ≡ lowest members.now }
    ensures bound { IfSome result (λ id. id < 256) }
{
    members.iter().position(|member| *member)
}
