//! One connection of a table.

ghost use Rattle.std.specs.Prelude.{◌≡◌, ◌⊎◌, option_map, IfOk, OnOk, OnErr};
ghost use Rattle.link_script.specs.Scripts.{HasRanges};
ghost use Rattle.path_core.specs.Looking.{shown_arriving};
ghost use Rattle.world_core.specs.Steps.{StampRises, is_made, next_note, stepped_by};
ghost use Rattle.world_laws.specs.Worlds.{is_going};
ghost use Rattle.connection_table.specs.Routes.{arriving_in};
ghost use Rattle.connection_table.specs.Steps.{IsStopped, after_end, after_step, ends};
ghost use Rattle.connection_table.specs.Tables.{Stands, StandsAlone, key_token, opened_entry};

use crate::copying::copied;
use crate::turn_list::TurnList;
use key_material::token;
use link_script::Script;
use path_core::{Arriving, key_of};
use run_log::Turn;
use run_outside::Input;
use sides::Side;
use std::alloc::{AllocError, Global};
use std::marker::Model;
use world_core::{Stepped, World};

/// The token of B's key of a connection by this script, which its joins name (RFC 8684, section 3.2).
pub(crate) fn token_of(script: &Script) -> u32
    ensures { result ≡ key_token script.now }
{
    token(key_of(script.seed, 2))
}

/// A connection, with what it began with and the turns that were made on it.
#[derive(Drop)]
pub(crate) struct Slot {
    token: u32,
    input: Input,
    turns: TurnList,
    world: World,
    /// The world has failed for want of memory.
    failed: bool,
}

impl Model for Slot {
    ghost use Rattle.dss_mapping.specs.Mappings.{mappings_code};
    ghost use Rattle.std.specs.Coded.{codes};
    ghost use Rattle.connection_table.specs.Tables.{Entry, IsHeld};

    ghost Value = { Entry };

    ghost coded = { Prim.hlevel (codes, mappings_code) };

    ghost view = { λ s. record { input = s.input; turns = s.turns.made; world = s.world } };

    ghost invariant = { λ s. IsHeld s.token s.turns.room s.failed
        (record { input = s.input; turns = s.turns.made; world = s.world }) };
}

impl Slot {
    /// A connection before its first step.
    pub fn open(alloc: Global, input: &Input) -> Result<Slot, AllocError>
        requires { HasRanges input.now.script }
        ensures { IfOk result (λ slot. slot ≡ opened_entry input.now) }
    {
        let mut turns = TurnList::new(alloc);
        turns.reserve(1)?;
        Ok(Slot {
            token: token_of(&input.script),
            input: copied(alloc, input)?,
            turns,
            world: World::open(alloc, input)?,
            failed: false,
        })
    }

    /// The token that its joins name.
    pub fn token(&self) -> u32
        ensures { result ≡ key_token self.now.input.script }
    {
        self.token
    }

    /// What it began with.
    pub fn input(&self) -> &Input
        ensures { result.now ≡ self.now.input }
    {
        &self.input
    }

    /// The turns that were made on it.
    pub fn turns(&self) -> &[Turn]
        ensures { result.now ≡ self.now.turns }
    {
        self.turns.as_slice()
    }

    /// The connection itself. Unless it failed, it is what its input and its turns come to.
    pub fn world(&self) -> &World
        ensures world { result.now ≡ self.now.world }
        ensures alone { StandsAlone self.now }
    {
        &self.world
    }

    /// The copy that comes to B's listener by the actor's next step: one that comes to B where its end of that path listens. None
    /// comes where the connection has failed.
    pub fn arriving_at_listener(&self, actor: u8) -> Option<Arriving<'_>>
        ensures arriving { option_map shown_arriving result ≡ arriving_in actor self.now }
        ensures alone { StandsAlone self.now }
    {
        if self.failed || !self.world.listens(actor) {
            return None;
        }
        match self.world.arriving(actor) {
            Some(arriving) if arriving.to == Side::B => Some(arriving),
            _ => None,
        }
    }

    /// Makes one step of an actor, and notes the turn. Room for the turn, and for the end of its round, is taken first.
    pub fn step(&mut self, actor: u8) -> Result<Stepped, AllocError>
        ensures told { IfOk result
            (λ stepped. stepped ≡ stepped_by (next_note actor self.old.world.state)) }
        ensures going { IfOk result
            (λ stepped. is_made stepped ≡ is_going actor self.old.world.state) }
        ensures ok { OnOk result (self.new ≡ after_step actor self.old) }
        ensures rises { OnOk result (StampRises actor self.old.world.state self.new.world.state) }
        ensures stood { OnOk result (Stands self.old) }
        ensures input { self.new.input ≡ self.old.input }
        ensures err { OnErr result ((self.new ≡ self.old) ⊎ IsStopped self.old self.new) }
    {
        self.turns.reserve(2)?;
        match self.world.step(actor) {
            Ok(Stepped::Made(note)) => {
                self.turns.put(Turn::Step(actor));
                Ok(Stepped::Made(note))
            }
            Ok(Stepped::Ended) => Ok(Stepped::Ended),
            Err(_) => {
                self.failed = true;
                Err(AllocError)
            }
        }
    }

    /// Ends the round where each turn has ended, and notes it. Takes no memory.
    pub fn end_round(&mut self) -> bool
        ensures over { result ≡ ends self.old }
        ensures next { self.new ≡ after_end self.old }
        ensures input { self.new.input ≡ self.old.input }
    {
        if !self.world.end_round() {
            return false;
        }
        self.turns.put(Turn::Round);
        true
    }
}
