ghost use Rattle.std.specs.Prelude.{◌≡◌, ◌+◌, ◌-◌, ◌^◌, ◌≤◌, ◌↔◌, [], length, take, count_by, is_some, IfOk, OnOk, OnErr};
ghost use Rattle.std.specs.List.{concat};

use crate::call::{ReassemblyCall, ReassemblyReply};
use byte_pieces::{BytePieces, Parts};
use octet_text::{JoinedText, Text};
use stamped_book::Book;
use std::alloc::{AllocError, Global};
use std::marker::Model;

/// The bytes of one direction of a connection that have arrived and aren't read.
#[derive(Drop)]
pub struct ReassemblyBook {
    alloc: Global,
    /// How many bytes past those read are taken, at most 1,048,576.
    capacity: u64,
    /// The bytes from the first one on that isn't read, in pieces that share those that arrived.
    kept: BytePieces,
    /// How many bytes there are in all, where that is known.
    known_end: Option<u64>,
    /// Whether the peer was the first to abort, where one did.
    aborted: Option<bool>,
}

impl Model for ReassemblyBook {
    ghost use Rattle.reassembly_book.specs.State.{Arriving};

    ghost Value = { Arriving };

    ghost use Rattle.std.specs.Prelude.{◌≤◌};
    ghost use Rattle.reassembly_book.specs.State.{IsSound};
    ghost use Rattle.reassembly_book.specs.Kept.{as_arriving};

    ghost view = { λ b. as_arriving b.kept b.capacity b.known_end b.aborted };

    ghost invariant = { λ b. IsSound (as_arriving b.kept b.capacity b.known_end b.aborted)
        × (b.capacity ≤ 1048576) };
}

/// The first bytes of these parts, in order. They are shared.
fn first_of(alloc: Global, parts: Parts<'_>, count: usize) -> Result<JoinedText, AllocError>
    ensures { IfOk result (λ text. text ≡ take count (concat parts.entry)) }
{
    let mut text = JoinedText::new(alloc);
    let mut left = count;
    for part in parts {
        if left == 0 {
            return Ok(text);
        }
        let taken = left.min(part.len());
        text.push(part.slice(0..taken)?)?;
        left -= taken;
    }
    Ok(text)
}

impl ReassemblyBook {
    ghost use Rattle.reassembly_book.specs.State.{new_arriving, filled};
    ghost use Rattle.reassembly_book.specs.State.{received, top};
    ghost use Rattle.reassembly_book.specs.Steps.{after_reading, edge, refusal, is_taken, places_after, bytes_reply, place_reply, after_place, fin_clash, fin_reply, after_fin, read_reply, after_read, next_wanted, window, CanAsk, after_call};

    /// A book that takes `capacity` bytes, 1 to 1,048,576, past those read. It takes no memory.
    pub fn new(alloc: Global, capacity: u64) -> Self
        requires some { 1 ≤ capacity }
        requires most { capacity ≤ 1048576 }
        ensures { result ≡ new_arriving capacity }
    {
        ReassemblyBook {
            alloc,
            capacity,
            kept: BytePieces::new(alloc, 0),
            known_end: None,
            aborted: None,
        }
    }

    /// The next bytes, lent: some of those before the first gap, from the first one on, or none where there are none.
    pub fn front(&self) -> &[u8]
        ensures prefix { result.now ≡ take (length result.now) (filled self.now.places) }
        ensures none { (result.now ≡ []) ↔ (filled self.now.places ≡ []) }
    {
        match self.kept.in_order().next() {
            Some(first) => first.as_slice(),
            None => &[],
        }
    }

    /// Passes over `n` of the bytes before the first gap, as if they had been read.
    pub fn consume(&mut self, n: usize)
        requires { n ≤ length (filled self.old.places) }
        ensures { self.new ≡ after_reading n self.old }
    {
        // For the proof: the bytes before the first gap end at place 2^62 or before it.
        let _end = self.kept.in_order_end();
        let to = self.kept.start() + n as u64;
        self.kept.drop_front(to);
    }

    // How many bytes are before the first gap.
    fn waiting(&self) -> u64
        ensures { result ≡ length (filled self.now.places) }
    {
        self.kept.in_order_end() - self.kept.start()
    }

    fn received(&self) -> u64
        ensures value { result ≡ received self.now }
        ensures bound { result ≤ 2 ^ 62 }
    {
        self.kept.in_order_end()
    }

    fn edge(&self) -> u64
        ensures { result ≡ edge self.now }
    {
        self.kept.start() + self.capacity
    }

    // The place after the last byte.
    fn top(&self) -> u64
        ensures { result ≡ top self.now }
    {
        self.kept.top()
    }

    // Why the bytes aren't taken, where they aren't.
    fn refusal(&self, at: u64, bytes: &Text) -> Option<ReassemblyReply>
        requires { at + length bytes.now ≤ 2 ^ 62 }
        ensures { result ≡ refusal at bytes.now self.now }
    {
        if bytes.is_empty() {
            return None;
        }
        let end = at + bytes.len() as u64;
        let edge = self.edge();
        if edge < end {
            return Some(ReassemblyReply::Beyond { edge });
        }
        match self.known_end {
            Some(fin) if fin < end => Some(ReassemblyReply::FinClash { fin, at }),
            _ => None,
        }
    }

    // How many of the bytes are new.
    fn count_new(&self, at: u64, bytes: &[u8]) -> u64
        requires { at + length bytes.now ≤ 2 ^ 62 }
        ensures { result ≡
            count_by is_some (places_after at bytes.now self.now) - count_by is_some
            self.now.places }
    {
        self.kept.count_new(at, bytes)
    }

    fn place_reply(&self, at: u64, bytes: &Text) -> ReassemblyReply
        requires { at + length bytes.now ≤ 2 ^ 62 }
        ensures { result ≡ place_reply at bytes.now self.now }
    {
        match self.refusal(at, bytes) {
            Some(reply) => reply,
            None => ReassemblyReply::Placed(self.count_new(at, bytes.as_bytes())),
        }
    }

    fn is_taken(&self, at: u64, bytes: &Text) -> bool
        requires { at + length bytes.now ≤ 2 ^ 62 }
        ensures { result ≡ is_taken at bytes.now self.now }
    {
        self.refusal(at, bytes).is_none()
    }

    fn place(&mut self, at: u64, bytes: &Text) -> Result<(), AllocError>
        requires { at + length bytes.now ≤ 2 ^ 62 }
        ensures ok { OnOk result (self.new ≡ after_place at bytes.now self.old) }
        ensures err { OnErr result (self.new ≡ self.old) }
    {
        if !self.is_taken(at, bytes) {
            return Ok(());
        }
        let shared = bytes.to_shared()?;
        self.kept.put_shared(at, &shared)?;
        Ok(())
    }

    fn fin_clash(&self, at: u64) -> Option<u64>
        ensures { result ≡ fin_clash self.now.known_end at self.now }
    {
        match self.known_end {
            Some(fin) => (fin != at).then_some(fin),
            None => (at < self.top()).then_some(self.top()),
        }
    }

    fn fin_reply(&self, at: u64) -> ReassemblyReply
        ensures { result ≡ fin_reply at self.now }
    {
        match self.fin_clash(at) {
            Some(fin) => ReassemblyReply::FinClash { fin, at },
            None => ReassemblyReply::FinSet,
        }
    }

    fn set_fin(&mut self, at: u64)
        ensures { self.new ≡ after_fin at self.old }
    {
        if self.fin_clash(at).is_none() {
            self.known_end = Some(at);
        }
    }

    // The first of the bytes before the first gap.
    fn first_bytes(&self, count: usize) -> Result<JoinedText, AllocError>
        ensures { IfOk result (λ text. text ≡ take count (filled self.now.places)) }
    {
        first_of(self.alloc, self.kept.in_order(), count)
    }

    // The bytes before the first gap, or why there are none.
    fn bytes_reply(&self, max: u32) -> Result<ReassemblyReply, AllocError>
        ensures { IfOk result (λ reply. reply ≡
            bytes_reply (take max (filled self.now.places)) self.now) }
    {
        let count = self.waiting().min(u64::from(max));
        if count > 0 {
            return Ok(ReassemblyReply::Bytes(self.first_bytes(count as usize)?));
        }
        if self.known_end == Some(self.kept.start()) {
            return Ok(ReassemblyReply::End);
        }
        Ok(ReassemblyReply::NoneYet)
    }

    fn read_reply(&self, max: u32) -> Result<ReassemblyReply, AllocError>
        ensures { IfOk result (λ reply. reply ≡ read_reply max self.now) }
    {
        match self.aborted {
            Some(by_peer) => Ok(ReassemblyReply::Aborted { by_peer }),
            None => self.bytes_reply(max),
        }
    }

    fn read(&mut self, max: u32)
        ensures { self.new ≡ after_read max self.old }
    {
        if self.aborted.is_none() {
            let count = self.waiting().min(u64::from(max));
            self.consume(count as usize);
        }
    }

    fn ack_reply(&self) -> ReassemblyReply
        ensures { result ≡ ReassemblyReply.Ack (next_wanted self.now) (window self.now) }
    {
        let received = self.received();
        let fin = u64::from(self.known_end == Some(received));
        ReassemblyReply::Ack {
            next: received + fin,
            window: self.edge() - received,
        }
    }

    fn change(&mut self, call: &ReassemblyCall) -> Result<(), AllocError>
        requires { CanAsk call.now }
        ensures ok { OnOk result (self.new ≡ after_call self.old call.now) }
        ensures err { OnErr result (self.new ≡ self.old) }
    {
        match call {
            ReassemblyCall::Place { at, bytes } => self.place(*at, bytes)?,
            ReassemblyCall::Fin { at } => self.set_fin(*at),
            ReassemblyCall::Read { max } => self.read(*max),
            ReassemblyCall::AckOut => {}
            ReassemblyCall::Abort { by_peer } => {
                self.aborted = Some(self.aborted.unwrap_or(*by_peer));
            }
        }
        Ok(())
    }
}

impl Book for ReassemblyBook {
    ghost use Rattle.reassembly_book.specs.State.{opening};
    ghost use Rattle.reassembly_book.specs.Steps.{CanAsk, reply_to, after_call};
    ghost use Rattle.reassembly_book.specs.OpeningStays.{opening_stays};

    type Call = ReassemblyCall;

    type Reply = ReassemblyReply;

    ghost can_ask = { CanAsk };

    ghost reply_to = { reply_to };

    ghost after = { after_call };

    ghost opening = { opening };

    ghost opening_stays = { opening_stays };

    fn copy(call: &ReassemblyCall) -> Result<ReassemblyCall, AllocError> {
        Ok(match call {
            ReassemblyCall::Place { at, bytes } => ReassemblyCall::Place {
                at: *at,
                bytes: bytes.copy()?,
            },
            ReassemblyCall::Fin { at } => ReassemblyCall::Fin { at: *at },
            ReassemblyCall::Read { max } => ReassemblyCall::Read { max: *max },
            ReassemblyCall::AckOut => ReassemblyCall::AckOut,
            ReassemblyCall::Abort { by_peer } => ReassemblyCall::Abort { by_peer: *by_peer },
        })
    }

    fn answer(&self, call: &ReassemblyCall) -> Result<ReassemblyReply, AllocError> {
        match call {
            ReassemblyCall::Place { at, bytes } => Ok(self.place_reply(*at, bytes)),
            ReassemblyCall::Fin { at } => Ok(self.fin_reply(*at)),
            ReassemblyCall::Read { max } => self.read_reply(*max),
            ReassemblyCall::AckOut => Ok(self.ack_reply()),
            ReassemblyCall::Abort { .. } => Ok(ReassemblyReply::Noted),
        }
    }

    fn apply(&mut self, call: &ReassemblyCall) -> Result<ReassemblyReply, AllocError> {
        let reply = self.answer(call)?;
        self.change(call)?;
        Ok(reply)
    }

    fn apply_answered(
        &mut self,
        call: &ReassemblyCall,
        answered: &ReassemblyReply,
    ) -> Result<ReassemblyReply, AllocError> {
        let reply = answered.copy()?;
        self.change(call)?;
        Ok(reply)
    }
}
