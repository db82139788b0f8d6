//! The calls of an outside, each fault of which is the status that names it.

ghost use Rattle.std.specs.Prelude.{◌≡◌, ◌≢◌, ◌≤◌, ◌<◌, ◌++◌, ℕ, List, [], ◌∷◌, IfOk, IfErr, IfSome, OnOk, OnErr, vec_len};
ghost use Rattle.outside_kit.specs.Outside.{HoldsAfter, HoldsPrefix};
ghost use Rattle.outside_kit.specs.declared.port.Port.{Port};
ghost use Rattle.outside_kit.specs.Calls as call;
ghost use Rattle.run_outside.specs.Calling.{Loads, Puts};
ghost use Rattle.run_outside.specs.Causes.{limit_of, IsLoadFault};
ghost use Rattle.run_outside.specs.Plan.{failed, Adds, AddsShort};

use crate::status::{Named, Status};
use outside_kit::{LoadFault, Outside, Port, PutFault};
use std::alloc::Global;

impl Named {
    /// How many octets the input may have.
    fn limit(self) -> u64
        ensures { result ≡ limit_of self }
    {
        match self {
            Named::Script => 65_536,
            Named::FileA => 16_777_216,
            Named::FileB => 16_777_216,
            Named::Order => 268_435_456,
        }
    }
}

/// Loads an input of this name.
///
/// # Errors
///
/// `Load` of the input where the device failed, `TooLong` of it where its content is over the input's limit, `Memory` where
/// there is no memory.
pub fn load<O: Outside>(
    alloc: Global,
    outside: &mut O,
    input: Named,
    name: &str,
) -> Result<Vec<u8>, Status>
    ensures whole { IfOk result
        (λ bytes. IfSome ((O.told outside.old).content name.now) (λ told. bytes.items ≡ told)) }
    ensures within { IfOk result (λ bytes. vec_len bytes ≤ limit_of input) }
    ensures fault { IfErr result (IsLoadFault input ((O.told outside.old).content name.now)
        (O.told outside.old).load_faults (O.told outside.new).load_faults) }
    ensures same_contents { (other : List ℕ) →
        (O.told outside.new).content other ≡ (O.told outside.old).content other }
    ensures calls_cut { OnErr result
        (Adds (failed (call.Load name.now) ∷ []) (O.told outside.old).calls (O.told outside.new).calls) }
    ensures loads { Loads (call.Load name.now ∷ []) (O.told outside.old) (O.told outside.new)
        result }
{
    match outside.load(alloc, name, input.limit()) {
        Ok(bytes) => Ok(bytes),
        Err(LoadFault::Failed) => Err(Status::Load { input }),
        Err(LoadFault::TooLong) => Err(Status::TooLong { input }),
        Err(LoadFault::Memory) => Err(Status::Memory),
    }
}

/// Keeps what is put to the port under this name, from nothing on.
///
/// # Errors
///
/// `Put` of the port where the device failed, `Memory` where there is no memory; then the port holds what it held.
pub fn bind<O: Outside>(outside: &mut O, port: Port, name: &str) -> Result<(), Status>
    ensures empty { OnOk result
        (HoldsAfter ((O.told outside.old).holds port) ((O.told outside.new).holds port) (λ _. [])) }
    ensures err { OnErr result ((O.told outside.new).holds port ≡ (O.told outside.old).holds port) }
    ensures other_ports { (other : Port) → other ≢ port →
        (O.told outside.new).holds other ≡ (O.told outside.old).holds other }
    ensures puts { Puts (call.Bind port name.now ∷ []) (O.told outside.old) (O.told outside.new)
        result }
{
    match outside.bind(port, name) {
        Ok(()) => Ok(()),
        Err(PutFault::Failed) => Err(Status::Put { port }),
        Err(PutFault::Memory) => Err(Status::Memory),
    }
}

/// Puts a piece to the port.
///
/// # Errors
///
/// `Put` of the port where the device failed, `Memory` where there is no memory; then it may hold a first part of the piece.
pub fn put<O: Outside>(outside: &mut O, port: Port, piece: &[u8]) -> Result<(), Status>
    ensures ok { OnOk result (HoldsAfter ((O.told outside.old).holds port)
        ((O.told outside.new).holds port)
        (λ held. held ++ piece.now)) }
    ensures err { OnErr result
        (HoldsPrefix ((O.told outside.old).holds port) ((O.told outside.new).holds port) piece.now) }
    ensures other_ports { (other : Port) → other ≢ port →
        (O.told outside.new).holds other ≡ (O.told outside.old).holds other }
    ensures short { IfErr result (λ status. AddsShort (call.Put port piece.now ∷ []) status
        (O.told outside.old).calls (O.told outside.new).calls) }
    ensures puts { Puts (call.Put port piece.now ∷ []) (O.told outside.old) (O.told outside.new)
        result }
{
    match outside.put(port, piece) {
        Ok(()) => Ok(()),
        Err(PutFault::Failed) => Err(Status::Put { port }),
        Err(PutFault::Memory) => Err(Status::Memory),
    }
}
