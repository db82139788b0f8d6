//! The segment that the next step of an actor hands to a link.

ghost use Rattle.std.specs.Prelude.{◌≡◌, option_map, IfOk, IfSome};
ghost use Rattle.run_trace.specs.Trace.{IsWhole, sent_as, sent_by, sent_next};

use link_trace::Sent;
use path_core::{Departing, Path};
use std::alloc::AllocError;
use world_core::World;

/// At the path's tick.
fn sent_as(path: &Path, departing: Departing) -> Sent
    ensures { result ≡ sent_as path.now departing }
{
    Sent {
        tick: path.tick(),
        path: path.number(),
        from: departing.from,
        number: departing.number,
        octets: departing.octets,
        fate: departing.fate,
    }
}

/// The segment that the next step of a path hands to its link, if it hands one.
fn sent_by(path: &Path) -> Result<Option<Sent>, AllocError>
    ensures sent { IfOk result (λ sent. sent ≡ sent_by path.now) }
    ensures whole { IfOk result (λ sent. IfSome sent IsWhole) }
{
    match path.outgoing()? {
        Some(departing) => Ok(Some(sent_as(path, departing))),
        None => Ok(None),
    }
}

/// The segment that the next step of an actor hands to a link, if it hands one. Its octets are a segment (RFC 9293, section 3.1).
///
/// # Errors
///
/// Only where there is no memory for them.
pub fn sent_next(world: &World, actor: u8) -> Result<Option<Sent>, AllocError>
    ensures sent { IfOk result (λ sent. sent ≡ sent_next actor world.now.state) }
    ensures whole { IfOk result (λ sent. IfSome sent IsWhole) }
{
    match world.path(actor) {
        Some(path) => sent_by(path),
        None => Ok(None),
    }
}
