//! What is put to an outside.

ghost use Rattle.std.specs.Prelude.{◌∷◌, []};
ghost use Rattle.outside_kit.specs.Calls as call;
ghost use Rattle.judge_call.specs.Plan.{Does, Follows};

use crate::status::Status;
use outside_kit::{Outside, Port, PutFault};

/// Keeps what is put to the port under this name, from nothing on.
///
/// # Errors
///
/// `Put` where the device failed, `Memory` where there is no memory.
pub(crate) fn bind<O: Outside>(outside: &mut O, port: Port, name: &str) -> Result<(), Status>
    ensures { Follows (Does (call.Bind port name.now) ∷ []) (O.told outside.old).calls
        (O.told outside.new).calls result }
{
    match outside.bind(port, name) {
        Ok(()) => Ok(()),
        Err(PutFault::Failed) => Err(Status::Put),
        Err(PutFault::Memory) => Err(Status::Memory),
    }
}

/// Puts a piece to the port.
///
/// # Errors
///
/// `Put` where the device failed, `Memory` where there is no memory; then it may hold a first part of the piece.
pub(crate) fn put<O: Outside>(outside: &mut O, port: Port, piece: &[u8]) -> Result<(), Status>
    ensures { Follows (Does (call.Put port piece.now) ∷ []) (O.told outside.old).calls
        (O.told outside.new).calls result }
{
    match outside.put(port, piece) {
        Ok(()) => Ok(()),
        Err(PutFault::Failed) => Err(Status::Put),
        Err(PutFault::Memory) => Err(Status::Memory),
    }
}
