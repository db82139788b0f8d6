//! The first round of a connection, by threads at locks: `round | SCRIPT | FILE_A | FILE_B`. Shown is how it ended; in which order its
//! steps come is up to the threads.

ghost use Rattle.link_script.specs.Scripts.{HasRanges};

use crate::inputs::input_told;
use actor_turn::OpenGate;
use case_fields::Case;
use run_outside::Input;
use std::sync::Wait;
use std::thread::Threads;
use subflow_worker::threaded_round;
use world_core::World;

/// Puts the answer to a line, whose fields the case has.
pub fn first_round<R: Threads + Wait + Sync>(rt: &R, case: &mut Case, line: &str) {
    case.put(line);
    case.put("\n  ");
    let (_, script, file_a, file_b) = (case.word(), case.word(), case.word(), case.word());
    match input_told(case.alloc, script, file_a, file_b) {
        Ok(input) => put_round(rt, case, &input),
        Err(_) => case.refuse(),
    }
}

/// Puts how a connection's first round ended, each actor's turn in a thread of its own, over books behind locks.
fn put_round<R: Threads + Wait + Sync>(rt: &R, case: &mut Case, input: &Input)
    requires { HasRanges input.now.script }
{
    let Ok(world) = World::open(case.alloc, input) else {
        return case.fail();
    };
    let (books, mut crew) = world.into_parts();
    let (told, books) = threaded_round(rt, case.alloc, &mut crew, books, &OpenGate);
    World::from_parts(books, crew, true).close();
    case.tell(&told);
}
