//! The calls that are made on an outside.

ghost use Rattle.std.specs.Prelude.{◌≡◌, ◌++◌, [], ◌∷◌, List, map, Some, None, IsSome, is_ok, IfOk, OnOk, OnErr, option_map};
ghost use Rattle.outside_kit.specs.Calls.{Call, Load, Bind, Put, AreCallsAfter, call_of, made_of};

use crate::outside::LoadFault;
use crate::port::Port;
use std::alloc::{AllocError, Global};
use std::marker::Model;

/// A call of an [`Outside`](crate::Outside).
#[derive(Drop)]
pub enum OutsideCall {
    /// The content of a name.
    Load { name: String },
    /// A name for what is put to a port.
    Bind { port: Port, name: String },
    /// A piece, put to a port.
    Put { port: Port, piece: Vec<u8> },
}

/// A call that was made.
#[derive(Drop)]
pub struct RecordedCall {
    pub call: OutsideCall,
    /// Whether it succeeded.
    pub ok: bool,
}

/// The calls that were made, in order, or nothing once memory for one of them was wanting.
#[derive(Drop)]
pub struct CallRecord {
    alloc: Global,
    made: Option<Vec<RecordedCall>>,
}

impl Model for CallRecord {
    ghost use Rattle.std.specs.Prelude.{List, Option, option_map, map};
    ghost use Rattle.outside_kit.specs.Calls.{Made, made_of};

    ghost Value = { Option (List Made) };

    ghost view = { λ calls. option_map (λ made. map made_of made.items) calls.made };
}

fn load_call(alloc: Global, name: &str) -> Result<OutsideCall, AllocError>
    ensures { IfOk result (λ call. call_of call ≡ Load name.now) }
{
    let name = String::from_str(alloc, name)?;
    Ok(OutsideCall::Load { name })
}

fn bind_call(alloc: Global, port: Port, name: &str) -> Result<OutsideCall, AllocError>
    ensures { IfOk result (λ call. call_of call ≡ Bind port name.now) }
{
    let name = String::from_str(alloc, name)?;
    Ok(OutsideCall::Bind { port, name })
}

fn put_call(alloc: Global, port: Port, piece: &[u8]) -> Result<OutsideCall, AllocError>
    ensures { IfOk result (λ call. call_of call ≡ Put port piece.now) }
{
    let piece = Vec::from_slice(alloc, piece)?;
    Ok(OutsideCall::Put { port, piece })
}

impl CallRecord {
    /// No call was made. It takes no memory.
    pub fn new(alloc: Global) -> Self
        ensures { result ≡ Some [] }
    {
        CallRecord {
            alloc,
            made: Some(Vec::new(alloc)),
        }
    }

    /// The calls, in order, where they are told.
    pub fn calls(&self) -> Option<&[RecordedCall]>
        ensures { option_map (λ calls. map made_of calls.now) result ≡ self.now }
    {
        match &self.made {
            Some(made) => Some(made.as_slice()),
            None => None,
        }
    }

    /// Notes a call at the end. Where memory for it is wanting that is answered, and no call is told any more; where none is told
    /// nothing is noted.
    fn note(&mut self, call: Result<OutsideCall, AllocError>, ok: bool) -> Result<(), AllocError>
        ensures recorded { (asked : Call) → IfOk call (λ call. call_of call ≡ asked) →
            AreCallsAfter asked ok self.old self.new }
        ensures told { OnOk result (IsSome self.old → IsSome self.new) }
        ensures lost { OnErr result (self.new ≡ None) }
    {
        if let Some(made) = self.made.take() {
            self.made = Some(with_call(made, call?, ok)?);
        }
        Ok(())
    }

    /// Notes a load, and gives its answer on, or want of memory where a load that succeeded can't be noted.
    pub fn note_load(
        &mut self,
        name: &str,
        answer: Result<Vec<u8>, LoadFault>,
    ) -> Result<Vec<u8>, LoadFault>
        ensures given { OnOk result (result ≡ answer) }
        ensures refused { OnErr answer (result ≡ answer) }
        ensures memory { OnOk answer (OnErr result (result ≡ Err LoadFault.Memory)) }
        ensures recorded { AreCallsAfter (Load name.now) (is_ok result) self.old self.new }
        ensures told { OnOk result (IsSome self.old → IsSome self.new) }
    {
        match answer {
            Ok(bytes) => match self.note(load_call(self.alloc, name), true) {
                Ok(()) => Ok(bytes),
                Err(_) => Err(LoadFault::Memory),
            },
            Err(fault) => {
                let _noted = self.note(load_call(self.alloc, name), false);
                Err(fault)
            }
        }
    }

    /// Notes a bind, and whether it is to succeed.
    pub fn note_bind(&mut self, port: Port, name: &str, ok: bool) -> Result<(), AllocError>
        ensures recorded { AreCallsAfter (Bind port name.now) ok self.old self.new }
        ensures told { OnOk result (IsSome self.old → IsSome self.new) }
        ensures lost { OnErr result (self.new ≡ None) }
    {
        self.note(bind_call(self.alloc, port, name), ok)
    }

    /// Notes a put, and whether it succeeded.
    pub fn note_put(&mut self, port: Port, piece: &[u8], ok: bool) -> Result<(), AllocError>
        ensures recorded { AreCallsAfter (Put port piece.now) ok self.old self.new }
        ensures told { OnOk result (IsSome self.old → IsSome self.new) }
        ensures lost { OnErr result (self.new ≡ None) }
    {
        self.note(put_call(self.alloc, port, piece), ok)
    }
}

/// The calls with one more at the end.
fn with_call(
    mut made: Vec<RecordedCall>,
    call: OutsideCall,
    ok: bool,
) -> Result<Vec<RecordedCall>, AllocError>
    ensures { IfOk result (λ after. map made_of after.items ≡
        map made_of made.items ++ record { call = call_of call; ok = ok } ∷ []) }
{
    made.push(RecordedCall { call, ok })?;
    Ok(made)
}
