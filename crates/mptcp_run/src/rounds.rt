//! A run under way: its connection, and how far it was put.

ghost use Rattle.std.specs.Prelude.{◌≡◌, ◌+◌, ◌-◌, ◌^◌, ◌<◌, length, map, drop, replicate, IfOk, OnOk};
ghost use Rattle.link_script.specs.Scripts.{HasRanges};
ghost use Rattle.world_laws.specs.Fine.{lists_of};
ghost use Rattle.world_laws.specs.Outcomes.{notes_at, read_by};
ghost use Rattle.mptcp_run.specs.Making.{RoundPut};
ghost use Rattle.mptcp_run.specs.Rounds.{IsOpened};
ghost use Rattle.run_outside.specs.LogText.{round_text, NotesFit};
ghost use Rattle.mptcp_run.specs.Putting.{log_opening, opening_of};
ghost use Rattle.world_core.specs.Weaving.{since, made_at, IsSince};
ghost use Rattle.mptcp_run.specs.Task.{Connection};

use crate::report::Report;
use link_script::Script;
use octet_text::Text;
use outside_kit::Outside;
use path_core::key_of;
use run_log::opening;
use run_outside::{Input, Piece, Status, logged_text, width_of};
use std::alloc::{AllocError, Global};
use world_core::{World, made_by, read_since, woven};

/// A run under way. It isn't dropped, but closed.
pub struct Run {
    /// The connection.
    pub world: World,
    /// The lines with which the log opens, where one is kept.
    pub opening: Option<Text>,
    /// How many steps each actor had made when the last round was put.
    pub made: Vec<usize>,
    /// How many rounds were put.
    pub rounds: u64,
}

/// The lines with which the log opens.
fn log_opening(alloc: Global, script: &Script) -> Result<Text, AllocError>
    ensures { IfOk result (λ text. text ≡ log_opening script.now) }
{
    opening(
        alloc,
        width_of(script),
        key_of(script.seed, 0),
        key_of(script.seed, 2),
    )
}

/// The lines with which the log opens, if one is kept.
fn opening_of(alloc: Global, script: &Script, report: Report) -> Result<Option<Text>, AllocError>
    ensures { IfOk result (λ opening. opening ≡ opening_of report script.now) }
{
    match report {
        Report::Log => Ok(Some(log_opening(alloc, script)?)),
        Report::Summary { .. } => Ok(None),
    }
}

/// How many steps each actor has made before the first one.
fn none_made(alloc: Global, script: &Script) -> Result<Vec<usize>, AllocError>
    requires { HasRanges script.now }
    ensures { IfOk result (λ made. made.items ≡ replicate (length script.now.paths + 2) 0) }
{
    let actors = script.paths.as_slice().len() + 2;
    vec![in alloc; 0; actors]
}

impl Run {
    /// A run before its first step.
    pub fn open(alloc: Global, input: &Input, report: Report) -> Result<Run, AllocError>
        requires { HasRanges input.now.script }
        ensures { IfOk result (IsOpened input.now report) }
    {
        let opening = opening_of(alloc, &input.script, report)?;
        let made = none_made(alloc, &input.script)?;
        let world = World::open(alloc, input)?;
        Ok(Run {
            world,
            opening,
            made,
            rounds: 0,
        })
    }

    /// The text that the end of the round puts to the log: no octet where none is kept.
    fn lines(&self, alloc: Global) -> Result<Text, AllocError>
        requires { length self.now.made.items ≡ length self.now.world.state.crew }
        ensures text { IfOk result (λ lines. lines ≡ round_text self.now.opening self.now.rounds
            (since self.now.made.items (lists_of self.now.world.state.crew))) }
        ensures fits { OnOk result (NotesFit self.now.opening
            (since self.now.made.items (lists_of self.now.world.state.crew))) }
    {
        match &self.opening {
            Some(opening) => {
                let steps = woven(alloc, &self.world, &self.made)?;
                logged_text(alloc, opening, self.rounds, &steps)
            }
            None => Ok(Text::new(alloc)),
        }
    }

    /// What the end of the round puts.
    fn piece(&self, alloc: Global) -> Result<Piece, AllocError>
        requires { length self.now.made.items ≡ length self.now.world.state.crew }
        ensures read_by_b { IfOk result (λ piece. piece.read_by_b ≡ read_by
            (drop (made_at 1 self.now.made.items) (notes_at 1 self.now.world.state.crew))) }
        ensures read_by_a { IfOk result (λ piece. piece.read_by_a ≡ read_by
            (drop (made_at 0 self.now.made.items) (notes_at 0 self.now.world.state.crew))) }
        ensures lines { IfOk result (λ piece. piece.lines ≡ round_text self.now.opening
            self.now.rounds (since self.now.made.items (lists_of self.now.world.state.crew))) }
        ensures fits { OnOk result (NotesFit self.now.opening
            (since self.now.made.items (lists_of self.now.world.state.crew))) }
    {
        Ok(Piece {
            read_by_b: read_since(alloc, &self.world, &self.made, 1)?,
            read_by_a: read_since(alloc, &self.world, &self.made, 0)?,
            lines: self.lines(alloc)?,
        })
    }

    /// Puts what has been read since the last round was put, and its lines.
    fn put_piece<O: Outside>(&self, alloc: Global, outside: &mut O) -> Result<(), Status>
        requires made { length self.now.made.items ≡ length self.now.world.state.crew }
        requires few { self.now.rounds < 2 ^ 64 - 1 }
        ensures { (last : Connection) → IsSince last self.now.made.items self.now.world.state →
            RoundPut self.now.opening self.now.rounds last self.now.world.state
            (O.told outside.old) (O.told outside.new) result }
    {
        match self.piece(alloc) {
            Ok(piece) => piece.put(outside),
            Err(_) => Err(Status::Memory),
        }
    }

    /// Puts the round that has ended.
    pub fn put_round<O: Outside>(&mut self, alloc: Global, outside: &mut O) -> Result<(), Status>
        requires made { length self.old.made.items ≡ length self.old.world.state.crew }
        requires few { self.old.rounds < 2 ^ 64 - 1 }
        ensures made { OnOk result
            (self.new.made.items ≡ map length (lists_of self.old.world.state.crew)) }
        ensures rounds { OnOk result (self.new.rounds ≡ self.old.rounds + 1) }
        ensures world { self.new.world ≡ self.old.world }
        ensures opening { self.new.opening ≡ self.old.opening }
        ensures put { (last : Connection) → IsSince last self.old.made.items self.old.world.state →
            RoundPut self.old.opening self.old.rounds last self.old.world.state
            (O.told outside.old) (O.told outside.new) result }
    {
        let Ok(made) = made_by(alloc, &self.world) else {
            return Err(Status::Memory);
        };
        self.put_piece(alloc, outside)?;
        self.made = made;
        self.rounds += 1;
        Ok(())
    }

    /// Lets the run go, with its connection.
    pub fn close(self) {
        let Run {
            world,
            opening: _opening,
            made: _made,
            rounds: _,
        } = self;
        world.close();
    }
}
