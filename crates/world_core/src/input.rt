//! What a connection begins with.

ghost use Rattle.std.specs.Prelude.{◌≡◌, ◌<◌, ◌+◌, ◌++◌, ◌∷◌, [], length, IfOk, OnOk};
ghost use Rattle.link_script.specs.Scripts.{HasRanges};
ghost use Rattle.path_core.specs.Start.{key_of, first_turn_of};
ghost use Rattle.stream_apps.specs.Starts.{fast_close_of, first_app_turn};
ghost use Rattle.world_core.specs.Kept.{standing};
ghost use Rattle.world_laws.specs.declared.member.Member.TheVariants as members;
ghost use Rattle.world_laws.specs.Openings.{new_crew, opened_world, paths_from, start_of};
ghost use Rattle.actor_desk.specs.Books.{unasked};
ghost use Rattle.actor_desk.specs.Desk.{opened_books};

use crate::member::{Crew, Member};
use crate::world::World;
use actor_desk::{Books, Notes};
use link_script::Script;
use octet_text::Text;
use path_core::{Path, key_of};
use run_outside::Input;
use sides::Side;
use stamped_book::Pass;
use std::alloc::{AllocError, Global};
use stream_apps::App;

// The books before the first call.
fn opened_books(alloc: Global, script: &Script) -> Result<Books, AllocError>
    requires { HasRanges script.now }
    ensures { IfOk result (λ books. books ≡
        unasked
        (opened_books script.now.buffer (key_of script.now.seed 0) (key_of script.now.seed 2))) }
{
    let (key_a, key_b) = (key_of(script.seed, 0), key_of(script.seed, 2));
    Books::open(alloc, script.buffer, key_a, key_b)
}

// The application of a side, which has made no step.
fn new_app(script: &Script, side: Side, file: &Text) -> Result<Member, AllocError>
    requires { HasRanges script.now }
    ensures { IfOk result (λ member. member ≡
        members.App
        (first_app_turn side script.now.buffer file.now (fast_close_of side script.now.lines))) }
{
    let file = file.copy()?;
    Ok(Member::App(App::new(script, side, file)))
}

// A path that has made no step.
fn new_path(alloc: Global, script: &Script, path: u8) -> Result<Member, AllocError>
    requires ranges { HasRanges script.now }
    requires path { path < length script.now.paths }
    ensures { IfOk result (λ member. member ≡ members.Path (first_turn_of script.now path)) }
{
    Ok(Member::Path(Path::new(alloc, script, path)?))
}

// An actor that has made no step.
fn new_crew(alloc: Global, number: u8, member: Member) -> Crew
    ensures { result ≡ new_crew number member }
{
    Crew {
        member,
        pass: Pass {
            actor: number,
            stamp: 0,
        },
        list: Notes::new(alloc),
        refused: None,
    }
}

// Puts the application of a side, the actor of this number.
fn put_app(
    alloc: Global,
    script: &Script,
    number: u8,
    side: Side,
    file: &Text,
    crew: &mut Vec<Crew>,
) -> Result<(), AllocError>
    requires { HasRanges script.now }
    ensures { OnOk result (crew.new.items ≡ crew.old.items ++ new_crew number (members.App
        (first_app_turn side script.now.buffer file.now (fast_close_of side
        script.now.lines))) ∷ []) }
{
    let member = new_app(script, side, file)?;
    crew.push(new_crew(alloc, number, member))?;
    Ok(())
}

// Puts a path.
fn put_path(
    alloc: Global,
    script: &Script,
    path: u8,
    crew: &mut Vec<Crew>,
) -> Result<(), AllocError>
    requires ranges { HasRanges script.now }
    requires path { path < length script.now.paths }
    ensures { OnOk result (crew.new.items ≡ crew.old.items ++ new_crew (2 + path) (members.Path
        (first_turn_of script.now path)) ∷ []) }
{
    let member = new_path(alloc, script, path)?;
    crew.push(new_crew(alloc, 2 + path, member))?;
    Ok(())
}

// Puts each path.
fn put_paths(alloc: Global, input: &Input, crew: &mut Vec<Crew>) -> Result<(), AllocError>
    requires { HasRanges input.now.script }
    ensures { OnOk result (crew.new.items ≡ crew.old.items ++ paths_from
        (start_of input.now.script input.now.file_a input.now.file_b) 0
        (start_of input.now.script input.now.file_a input.now.file_b).paths) }
{
    for path in 0..input.script.paths.as_slice().len() as u8 {
        put_path(alloc, &input.script, path, crew)?;
    }
    Ok(())
}

// Puts the two applications and the paths of the script.
fn put_crew(alloc: Global, input: &Input, crew: &mut Vec<Crew>) -> Result<(), AllocError>
    requires { HasRanges input.now.script }
    ensures { OnOk result (crew.new.items ≡ crew.old.items ++
        (opened_world (start_of input.now.script input.now.file_a input.now.file_b)).crew) }
{
    put_app(alloc, &input.script, 0, Side::A, &input.file_a, crew)?;
    put_app(alloc, &input.script, 1, Side::B, &input.file_b, crew)?;
    put_paths(alloc, input, crew)
}

// The two applications and the paths of the script.
fn opened_crew(alloc: Global, input: &Input) -> Result<Vec<Crew>, AllocError>
    requires { HasRanges input.now.script }
    ensures { IfOk result (λ crew. crew.items ≡
        (opened_world (start_of input.now.script input.now.file_a input.now.file_b)).crew) }
{
    let mut crew = Vec::new(alloc);
    put_crew(alloc, input, &mut crew)?;
    Ok(crew)
}

impl World {
    /// A connection before its first step: both applications, each path of the script and the books are at the start of
    /// round 0.
    ///
    /// # Errors
    ///
    /// Only where there is no memory.
    pub fn open(alloc: Global, input: &Input) -> Result<World, AllocError>
        requires { HasRanges input.now.script }
        ensures { IfOk result (λ world. world ≡
            standing (opened_world (start_of input.now.script input.now.file_a input.now.file_b))) }
    {
        let crew = opened_crew(alloc, input)?;
        let books = opened_books(alloc, &input.script)?;
        Ok(World::from_parts(books, crew, false))
    }
}
