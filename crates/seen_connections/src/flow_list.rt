//! The flows of a capture, and which of them is between two ends.

ghost use Rattle.std.specs.Prelude.{◌≡◌, ℕ, length, List, [], ◌∷◌, ◌++◌, IfSome, IfOk, OnOk, OnErr};
ghost use Rattle.std.proofs.Math.ListN.{set};
ghost use Rattle.std.specs.List.{slice_get};
ghost use Rattle.std.specs.HashMap.{get, IsUnchanged};
ghost use Rattle.seen_connections.specs.SameEnds.{same_ends};
ghost use Rattle.seen_connections.specs.Flows.{ends_of, flow_between, going_on, is_between, last_that, later};

use crate::ends::Ends;
use crate::flow::Flow;
use std::alloc::{AllocError, Global};
use std::collections::HashMap;
use std::marker::Model;

/// A flow, and its number in the order in which flows began.
#[derive(Clone, Copy)]
pub struct Found {
    pub index: usize,
    pub flow: Flow,
}

/// All flows, in the order in which they began.
#[derive(Drop)]
pub struct FlowList {
    flows: Vec<Flow>,
    // The flow that began last from one end to another.
    last: HashMap<Ends, usize>,
}

impl Model for FlowList {
    ghost use Rattle.std.specs.Prelude.{◌≡◌, List};
    ghost use Rattle.seen_connections.specs.declared.flow.Flow.{Flow};
    ghost use Rattle.std.specs.HashMap.{get};
    ghost use Rattle.seen_connections.specs.declared.ends.Ends.{Ends};
    ghost use Rattle.seen_connections.specs.SameEnds.{same_ends};
    ghost use Rattle.seen_connections.specs.Flows.{last_that, goes};

    ghost Value = { List Flow };

    ghost view = { λ s. s.flows.items };

    ghost invariant = { λ s. (ends : Ends) → get same_ends s.last ends ≡ last_that (goes ends) 0 s.flows.items };
}

impl FlowList {
    /// No flow.
    pub fn new(alloc: Global) -> Self
        ensures { result ≡ [] }
    {
        FlowList {
            flows: Vec::new(alloc),
            last: HashMap::new(alloc),
        }
    }

    /// The flows.
    pub fn as_slice(&self) -> &[Flow]
        ensures { result.now ≡ self.now }
    {
        &self.flows
    }

    /// The flow between two ends, in either direction: the one that began last, unless it is over.
    pub fn between(&self, ends: &Ends) -> Option<Found>
        ensures value { result ≡ flow_between ends.now self.now }
        ensures there { IfSome result (λ found. slice_get self.now found.index ≡ Some found.flow) }
    {
        going_on(&self.flows, self.last_between(ends))
    }

    // The number of the flow that began last between two ends.
    fn last_between(&self, ends: &Ends) -> Option<usize>
        ensures { result ≡ last_that (is_between ends.now) 0 self.now }
    {
        let one = self.last.get(ends).copied();
        let other = self.last.get(&ends.turned()).copied();
        later(one, other)
    }

    /// A flow begins. Answers its number.
    ///
    /// # Errors
    ///
    /// Where memory is wanting, and then no flow began.
    pub fn begin(&mut self, flow: Flow) -> Result<usize, AllocError>
        ensures number { IfOk result (λ index. index ≡ length self.old) }
        ensures ok { OnOk result (self.new ≡ self.old ++ flow ∷ []) }
        ensures err { OnErr result (self.new ≡ self.old) }
    {
        let index = self.flows.len();
        self.flows.reserve(1)?;
        let ends = Ends {
            from: flow.opener,
            to: flow.other,
        };
        self.last.insert(ends, index)?;
        match self.flows.push(flow) {
            Ok(()) => Ok(index),
            Err(_) => unreachable!(),
        }
    }

    /// Puts a flow with the same ends in the place of one that was found.
    pub fn change(&mut self, found: &Found, flow: Flow)
        requires there { slice_get self.old found.now.index ≡ Some found.now.flow }
        requires ends { ends_of flow ≡ ends_of found.now.flow }
        ensures { self.new ≡ set self.old found.now.index flow }
    {
        self.flows[found.index] = flow;
    }
}

// The flow with a number, if there is one.
fn flow_at(flows: &[Flow], index: usize) -> Option<Flow>
    ensures { result ≡ slice_get flows.now index }
{
    flows.get(index).copied()
}

// The flow with a number, if there is one, unless it is over.
fn going_on(flows: &[Flow], index: Option<usize>) -> Option<Found>
    ensures value { result ≡ going_on flows.now index }
    ensures there { IfSome result (λ found. slice_get flows.now found.index ≡ Some found.flow) }
{
    let index = index?;
    let flow = flow_at(flows, index)?;
    if flow.is_over {
        return None;
    }
    Some(Found { index, flow })
}

// The higher number of two, if there is one.
fn later(one: Option<usize>, other: Option<usize>) -> Option<usize>
    ensures { result ≡ later one other }
{
    match (one, other) {
        (Some(one), Some(other)) => Some(one.max(other)),
        (Some(one), None) => Some(one),
        (None, other) => other,
    }
}
