//! The paths of a connection, and what is about to arrive on them.

ghost use Rattle.std.specs.Prelude.{◌≡◌, option_map};
ghost use Rattle.path_core.specs.Looking.{shown_arriving};
ghost use Rattle.world_core.specs.Looking.{arriving_at, listens_at, member_path, path_at};

use crate::member::{Crew, Member};
use crate::world::World;
use path_core::{Arriving, Path};
use sides::Side;

// The path, where it is one.
fn member_path(member: &Member) -> Option<&Path>
    ensures { option_map (λ path. path.now) result ≡ member_path member.entry.now }
{
    match member {
        Member::App(_) => None,
        Member::Path(path) => Some(path),
    }
}

// The path that the actor of this number is.
fn path_at(crew: &[Crew], actor: usize) -> Option<&Path>
    ensures { option_map (λ path. path.now) result ≡ path_at actor crew.entry.now }
{
    match crew.get(actor) {
        Some(crew) => member_path(&crew.member),
        None => None,
    }
}

impl World {
    /// The path that an actor is; none where it is an application, or there is no such actor.
    pub fn path(&self, actor: u8) -> Option<&Path>
        ensures { option_map (λ path. path.now) result ≡ path_at actor self.entry.now.state.crew }
    {
        path_at(&self.crew, usize::from(actor))
    }

    /// The copy that arrives by the next step of an actor, where it is a path and that is an arrival, lent as it arrives. Takes no
    /// memory.
    pub fn arriving(&self, actor: u8) -> Option<Arriving<'_>>
        ensures { option_map shown_arriving result ≡ arriving_at actor self.entry.now.state.crew }
    {
        match self.path(actor) {
            Some(path) => path.arriving(),
            None => None,
        }
    }
    /// Whether an actor is a path whose B end listens: no SYN has come to it.
    pub fn listens(&self, actor: u8) -> bool
        ensures { result ≡ listens_at actor self.entry.now.state.crew }
    {
        match self.path(actor) {
            Some(path) => path.is_listening(Side::B),
            None => false,
        }
    }
}
