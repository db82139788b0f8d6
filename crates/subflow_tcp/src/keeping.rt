//! The payload of a segment: kept at once, or held until it is kept.
ghost use Rattle.std.specs.Prelude.{◌≡◌, ◌+◌, ◌^◌, ◌≤◌, length, IfOk, OnOk, OnErr};
ghost use Rattle.subflow_tcp.specs.Judging.{IsBelow};

use crate::end::Subflow;
use crate::verdicts::Meaning;
use seq_units::Pos;
use std::alloc::AllocError;

impl Subflow {
    ghost use Rattle.subflow_tcp.specs.Taking.{after_keeping, kept_new, kept_for, after_keeping_for, after_holding, after_keeping_held, after_dropping_held};

    /// Keeps a payload whose first octet stands at `pos`, where it is wanted and the peer's FIN isn't passed, and answers
    /// how many octets are kept that were not kept before.
    fn keep_if(&mut self, keep: bool, pos: Pos, payload: &[u8]) -> Result<u64, AllocError>
        requires { pos + length payload.now ≤ 2 ^ 62 }
        ensures new { IfOk result (λ new. new ≡ kept_new keep pos payload.now self.old) }
        ensures few { IfOk result (λ new. new ≤ length payload.now) }
        ensures ok { OnOk result (self.new ≡ after_keeping keep pos payload.now self.old) }
        ensures err { OnErr result (self.new ≡ self.old) }
    {
        if keep && !self.is_fin_passed() {
            let acceptance = self.recv.accept(pos, payload)?;
            return Ok(acceptance.new_octets());
        }
        Ok(0)
    }

    /// Holds a payload whose first octet stands at `pos`, until [`keep_held`](Subflow::keep_held) keeps it: what can fail is
    /// done now. A payload that was held before is let go. It is held as long as nothing else changes the octets that are
    /// kept or the receive edge: what [`treat`](Subflow::treat) keeps, [`advance`](Subflow::advance),
    /// [`pass_fin`](Subflow::pass_fin), [`forget_from`](Subflow::forget_from) and the end's death let go of it.
    ///
    /// # Errors
    ///
    /// Only where there is no memory for it; then all is as it was.
    pub fn hold(&mut self, pos: Pos, payload: &[u8]) -> Result<(), AllocError>
        requires { pos + length payload.now ≤ 2 ^ 62 }
        ensures ok { OnOk result (self.new ≡ after_holding pos payload.now self.old) }
        ensures err { OnErr result (self.new ≡ self.old) }
    {
        self.recv.hold(pos, payload)
    }

    /// Keeps the payload that is held: behind the peer's FIN nothing is kept. Nothing is held any more. Takes no memory;
    /// where nothing is held, nothing changes.
    pub fn keep_held(&mut self)
        ensures { self.new ≡ after_keeping_held self.old }
    {
        if self.is_fin_passed() {
            self.recv.drop_held();
        } else {
            self.recv.keep_held();
        }
    }

    /// Lets go of the payload that is held.
    pub fn drop_held(&mut self)
        ensures { self.new ≡ after_dropping_held self.old }
    {
        self.recv.drop_held();
    }

    /// Keeps the payload of a segment that means this, where it is taken and the payload is wanted, and answers how many
    /// octets are kept that were not kept before.
    pub(crate) fn keep_for(
        &mut self,
        meaning: Meaning,
        keep: bool,
        payload: &[u8],
    ) -> Result<u32, AllocError>
        requires small { length payload.now ≤ 65535 }
        requires below { IsBelow meaning }
        ensures new { IfOk result (λ new. new ≡ kept_for meaning keep payload.now self.old) }
        ensures ok { OnOk result (self.new ≡ after_keeping_for meaning keep payload.now self.old) }
        ensures err { OnErr result (self.new ≡ self.old) }
    {
        match meaning {
            Meaning::Opens | Meaning::Accepts { .. } => self.keep_few(keep, 1, payload),
            Meaning::Taken { position, .. } => self.keep_few(keep, position, payload),
            _ => Ok(0),
        }
    }

    /// As `keep_if`, for a payload of at most 65,535 octets.
    fn keep_few(&mut self, keep: bool, pos: Pos, payload: &[u8]) -> Result<u32, AllocError>
        requires bound { pos + length payload.now ≤ 2 ^ 62 }
        requires small { length payload.now ≤ 65535 }
        ensures new { IfOk result (λ new. new ≡ kept_new keep pos payload.now self.old) }
        ensures ok { OnOk result (self.new ≡ after_keeping keep pos payload.now self.old) }
        ensures err { OnErr result (self.new ≡ self.old) }
    {
        let new = self.keep_if(keep, pos, payload)?;
        Ok(new as u32)
    }
}
