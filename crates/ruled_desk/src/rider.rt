//! An actor with its pass at a desk.
ghost use Rattle.std.specs.Prelude.{◌≡◌, None, IfOk, IfErr};

use crate::desk::RuledPass;
use actor_desk::Crew;
use std::alloc::{AllocFailed, Global};
use std::marker::Model;

/// An actor with its pass at a desk.
#[derive(Drop)]
pub struct Rider<A> {
    pub crew: Crew<A>,
    /// The pass of this actor; none where it wasn't given one, or gave it back.
    pub pass: Option<RuledPass>,
}

/// A rider in memory of its own, so that it is handed over cheaply. Contracts see the rider.
#[derive(Drop)]
pub struct Mounted<A> {
    pub(crate) rider: Box<Rider<A>>,
}

impl<A> Model for Mounted<A> {
    ghost use Rattle.ruled_desk.specs.declared.rider.Rider.{Rider};

    ghost Value = { Rider A };

    ghost view = { λ m. m.rider.value };
}

impl<A> Mounted<A> {
    /// An actor in memory of its own, without a pass. Where there is none, the actor comes back.
    pub fn new(alloc: Global, crew: Crew<A>) -> Result<Self, Crew<A>>
        ensures mounted { IfOk result (λ mounted. mounted ≡ record { crew = crew; pass = None }) }
        ensures back { IfErr result (λ back. back ≡ crew) }
    {
        match Box::new(alloc, Rider { crew, pass: None }) {
            Ok(rider) => Ok(Mounted { rider }),
            Err(AllocFailed { value }) => Err(value.crew),
        }
    }

    /// The actor, without a pass.
    pub fn into_crew(self) -> Crew<A>
        ensures { result ≡ self.crew }
    {
        let Rider { crew, pass: _ } = Box::into_inner(self.rider);
        crew
    }
}
