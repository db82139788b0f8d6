//! Actors: an application, or a path.

ghost use Rattle.std.specs.Prelude.{◌≡◌};
ghost use Rattle.world_laws.specs.Actors.{is_over};
ghost use Rattle.world_laws.specs.Outcomes.{is_no_live_path};

use path_core::Path;
use stream_apps::App;

/// An actor of a connection.
pub type Member = world_laws::Member<App, Path>;

/// An actor with its pass and its list of steps.
pub type Crew = actor_desk::Crew<Member>;

/// Whether its turn ended.
pub(crate) fn is_over(member: &Member) -> bool
    ensures { result ≡ is_over member.now }
{
    match member {
        Member::App(app) => app.has_ended(),
        Member::Path(path) => path.has_ended(),
    }
}

/// Whether it is no path, or one whose ends are both dead.
pub(crate) fn is_no_live_path(member: &Member) -> bool
    ensures { result ≡ is_no_live_path member.now }
{
    match member {
        Member::App(_) => true,
        Member::Path(path) => path.is_dead(),
    }
}
