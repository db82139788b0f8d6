ghost use Rattle.std.specs.Prelude.{◌≡◌, ◌+◌, ◌-◌, ◌^◌, ◌<◌, ◌≤◌, List, ℕ, length, drop, count_by, IfOk, IfSome, OnOk, OnErr};
ghost use Rattle.send_book.specs.Marks.{is_acked, is_held, is_free};
ghost use Rattle.send_book.specs.State.{Tile};

use crate::call::{SendCall, SendReply, Span, Why};
use crate::kept::moved;
use crate::mark::ByteMark;
use crate::runs::{Move, first_in, free_up_to, gathered_in, held_in};
use crate::written::Written;
use octet_text::Text;
use range_marks::RangeMarks;
use stamped_book::Book;
use std::alloc::{AllocError, Global};
use std::marker::Model;

/// How many bytes can be written: data numbers stay below 2^62, DATA_FIN's too.
const MAX_WRITTEN: u64 = (1 << 62) - 3;

/// The written bytes of one direction of a connection, with the mark of each.
#[derive(Drop)]
pub struct SendBook {
    alloc: Global,
    /// How many bytes may be unacknowledged.
    buffer: u64,
    /// All written bytes.
    written: Written,
    /// The marks of the written bytes. The acknowledged ones, and no others, are forgotten.
    marks: RangeMarks<ByteMark>,
    closed: bool,
    aborted: bool,
    /// The first place that the peer has told no window for.
    edge: u64,
    /// Whether DATA_FIN is acknowledged.
    fin: bool,
    /// The path that alone sends, where there is one.
    owner: Option<u8>,
}

impl Model for SendBook {
    ghost use Rattle.send_book.specs.State.{Sending};

    ghost Value = { Sending };

    ghost use Rattle.send_book.specs.Kept.{as_sending, IsKept};

    ghost view = { λ b.
        as_sending b.buffer b.written b.marks b.closed b.aborted b.edge b.fin b.owner };

    ghost invariant = { λ b. IsKept b.written b.marks };
}

impl SendBook {
    ghost use Rattle.send_book.specs.State.{new_sending, acked_len};
    ghost use Rattle.send_book.specs.Kept.{LiesWithin};
    ghost use Rattle.send_book.specs.Steps.{bytes_taken, write_reply, after_write, close_reply, after_close, is_for, first_free, run_len, decision, end_of, grant_reply, after_grant, is_future, fin_after, ack_reply, after_ack, return_reply, after_return, tried_first, is_gathered, infinite_reply, after_infinite, CanAsk, reply_to, after_call};

    /// An open book of which `buffer` bytes, 1 to 1,048,576, may be unacknowledged. It takes no memory.
    pub fn new(alloc: Global, buffer: u64) -> Self
        requires some { 1 ≤ buffer }
        requires most { buffer ≤ 1048576 }
        ensures { result ≡ new_sending buffer }
    {
        SendBook {
            alloc,
            buffer,
            written: Written::new(alloc),
            marks: RangeMarks::new(alloc),
            closed: false,
            aborted: false,
            edge: 0,
            fin: false,
            owner: None,
        }
    }

    fn written_len(&self) -> u64
        ensures value { result ≡ length self.now.written }
        ensures bound { result < 2 ^ 63 }
    {
        self.marks.len()
    }

    fn acked_len(&self) -> u64
        ensures value { result ≡ acked_len self.now.marks }
        ensures within { result ≤ length self.now.written }
    {
        self.marks.forgotten()
    }

    // How many of these bytes are taken.
    fn bytes_taken(&self, bytes: &Text) -> u64
        ensures value { result ≡ bytes_taken bytes.now self.now }
        ensures room { length self.now.written + result < 2 ^ 63 }
    {
        let unacked = self.written_len() - self.acked_len();
        let room = self.buffer.saturating_sub(unacked);
        let places = MAX_WRITTEN.saturating_sub(self.written_len());
        (bytes.len() as u64).min(room.min(places))
    }

    fn write_reply(&self, bytes: &Text) -> SendReply
        ensures { result ≡ write_reply bytes.now self.now }
    {
        if self.closed || self.aborted {
            return SendReply::Shut;
        }
        SendReply::Taken(self.bytes_taken(bytes))
    }

    fn write(&mut self, bytes: &Text) -> Result<(), AllocError>
        ensures ok { OnOk result (self.new ≡ after_write bytes.now self.old) }
        ensures err { OnErr result (self.new ≡ self.old) }
    {
        if self.closed || self.aborted {
            return Ok(());
        }
        let count = self.bytes_taken(bytes) as usize;
        let octets = bytes.slice(0, count)?;
        self.written.append(&mut self.marks, octets)
    }

    fn close_reply(&self) -> SendReply
        ensures { result ≡ close_reply self.now }
    {
        if self.aborted {
            return SendReply::Shut;
        }
        SendReply::Closed
    }

    fn close(&mut self)
        ensures { self.new ≡ after_close self.old }
    {
        self.closed = self.closed || !self.aborted;
    }

    // Whether the book was not given to another path alone.
    fn is_for(&self, path: u8) -> bool
        ensures { result ≡ is_for path self.now.owner }
    {
        match self.owner {
            Some(owner) => owner == path,
            None => true,
        }
    }

    // The first byte that this path may take.
    fn first_free(&self, path: u8) -> Option<u64>
        requires { path < 16 }
        ensures value { result ≡ first_free path self.now }
        ensures after { IfSome result (λ from. acked_len self.now.marks ≤ from) }
    {
        if !self.is_for(path) {
            return None;
        }
        first_in(self.marks.runs(), path)
    }

    // How many bytes from this place on the path is given.
    fn run_len(&self, path: u8, max: u32, from: u64) -> u64
        requires path { path < 16 }
        requires from { acked_len self.now.marks ≤ from }
        ensures { result ≡ run_len path max self.now from }
    {
        let free = free_up_to(self.marks.runs(), path, from) - from;
        u64::from(max).min(self.edge.saturating_sub(from).min(free))
    }

    // What the path is given, or why nothing.
    fn decide(&self, path: u8, max: u32, standby: bool) -> Result<Span, Why>
        requires { path < 16 }
        ensures value { result ≡ decision path max standby self.now }
        ensures within { IfOk result (λ span.
            LiesWithin span (acked_len self.now.marks) (length self.now.written)) }
    {
        if self.aborted || (self.closed && self.acked_len() == self.written_len()) {
            return Err(Why::Ended);
        }
        if standby {
            return Err(Why::Backup);
        }
        let Some(from) = self.first_free(path) else {
            return Err(Why::NothingFree);
        };
        if self.edge <= from {
            return Err(Why::WindowShut);
        }
        let to = from + self.run_len(path, max, from);
        Ok(Span { from, to })
    }

    // How many bytes there are in all, where no more are written.
    fn end(&self) -> Option<u64>
        ensures { result ≡ end_of self.now }
    {
        if self.closed && !self.aborted {
            return Some(self.written_len());
        }
        None
    }

    fn grant_reply(&self, path: u8, max: u32, standby: bool) -> Result<SendReply, AllocError>
        requires { path < 16 }
        ensures { IfOk result (λ reply. reply ≡ grant_reply path max standby self.now) }
    {
        match self.decide(path, max, standby) {
            Ok(span) => {
                let piece = self.written.part(self.alloc, span.from, span.to)?;
                Ok(SendReply::Granted { span, piece })
            }
            Err(why) => Ok(SendReply::NoGrant {
                why,
                end: self.end(),
            }),
        }
    }

    fn grant(&mut self, path: u8, max: u32, standby: bool) -> Result<(), AllocError>
        requires { path < 16 }
        ensures ok { OnOk result (self.new ≡ after_grant path max standby self.old) }
        ensures err { OnErr result (self.new ≡ self.old) }
    {
        let Ok(span) = self.decide(path, max, standby) else {
            return Ok(());
        };
        self.marks = moved(self.alloc, &self.marks, span, Move::Give(path))?;
        Ok(())
    }

    fn is_future(&self, next: u64) -> bool
        ensures { result ≡ is_future next self.now }
    {
        self.written_len() + u64::from(self.closed) < next
    }

    fn fin_after(&self, next: u64) -> bool
        ensures { result ≡ fin_after next self.now }
    {
        self.fin || self.written_len() < next
    }

    fn ack_reply(&self, next: u64) -> SendReply
        ensures { result ≡ ack_reply next self.now }
    {
        let written = self.written_len();
        if self.is_future(next) {
            return SendReply::AckFuture { written };
        }
        SendReply::Acked {
            bytes: next.min(written).saturating_sub(self.acked_len()),
            fin: self.fin_after(next),
        }
    }

    fn acknowledge(&mut self, next: u64, window: u64)
        requires { next + window < 2 ^ 63 }
        ensures { self.new ≡ after_ack next window self.old }
    {
        if self.is_future(next) {
            return;
        }
        self.fin = self.fin_after(next);
        self.edge = self.edge.max(next + window);
        self.marks.drop_front(next.min(self.marks.len()));
    }

    fn return_reply(&self, path: u8) -> SendReply
        ensures { result ≡ return_reply path self.now }
    {
        // For the proof: fewer than 2^63 bytes were written.
        let _written = self.written_len();
        SendReply::Returned(held_in(self.marks.runs(), path))
    }

    fn take_back(&mut self, path: u8) -> Result<(), AllocError>
        requires { path < 16 }
        ensures ok { OnOk result (self.new ≡ after_return path self.old) }
        ensures err { OnErr result (self.new ≡ self.old) }
    {
        let all = Span {
            from: self.marks.forgotten(),
            to: self.marks.len(),
        };
        self.marks = moved(self.alloc, &self.marks, all, Move::TakeBack(path))?;
        Ok(())
    }

    // Whether the bytes that the path tried come first among those that aren't acknowledged, and no path tried another.
    fn comes_first(&self, path: u8) -> bool
        requires { path < 16 }
        ensures { result ≡ tried_first path (drop (acked_len self.now.marks) self.now.marks) }
    {
        gathered_in(self.marks.runs(), path)
    }

    // Whether the book may be given to the path alone.
    fn is_gathered(&self, path: u8) -> bool
        requires { path < 16 }
        ensures { result ≡ is_gathered path self.now }
    {
        self.owner.is_none() && self.comes_first(path)
    }

    fn infinite_reply(&self, path: u8) -> SendReply
        requires { path < 16 }
        ensures { result ≡ infinite_reply path self.now }
    {
        if self.is_gathered(path) {
            return SendReply::Infinite {
                from: self.acked_len(),
            };
        }
        SendReply::Scattered
    }

    fn go_infinite(&mut self, path: u8)
        requires { path < 16 }
        ensures { self.new ≡ after_infinite path self.old }
    {
        if self.is_gathered(path) {
            self.owner = Some(path);
        }
    }

    // What the call makes of the book.
    fn change(&mut self, call: &SendCall) -> Result<(), AllocError>
        requires { CanAsk call.now }
        ensures ok { OnOk result (self.new ≡ after_call self.old call.now) }
        ensures err { OnErr result (self.new ≡ self.old) }
    {
        match call {
            SendCall::Write { bytes } => self.write(bytes)?,
            SendCall::Close => self.close(),
            SendCall::Grant { path, max, standby } => self.grant(*path, *max, *standby)?,
            SendCall::AckIn { next, window } => self.acknowledge(*next, *window),
            SendCall::Return { path } => self.take_back(*path)?,
            SendCall::GoIdentity => self.owner = Some(0),
            SendCall::GoInfinite { path } => self.go_infinite(*path),
            SendCall::Abort => self.aborted = true,
        }
        Ok(())
    }
}

/// A law: of every book there are as many marks as bytes, the acknowledged ones come first, and each holder has tried
/// its byte. So the acknowledged, held and free bytes add up to all.
pub fn marks_tile(book: &SendBook)
    ensures tile { Tile book.now }
    ensures sum { count_by is_acked book.now.marks + count_by is_held book.now.marks + count_by
        is_free book.now.marks
        ≡ length book.now.written }
{
    // For the proof: the invariant of the book.
    let _marks = &book.marks;
}

impl Book for SendBook {
    ghost use Rattle.send_book.specs.State.{opening};
    ghost use Rattle.send_book.specs.Steps.{CanAsk, reply_to, after_call};
    ghost use Rattle.send_book.specs.OpeningStays.{opening_stays};

    type Call = SendCall;

    type Reply = SendReply;

    ghost can_ask = { CanAsk };

    ghost reply_to = { reply_to };

    ghost after = { after_call };

    ghost opening = { opening };

    ghost opening_stays = { opening_stays };

    fn copy(call: &SendCall) -> Result<SendCall, AllocError> {
        Ok(match call {
            SendCall::Write { bytes } => SendCall::Write {
                bytes: bytes.copy()?,
            },
            SendCall::Close => SendCall::Close,
            SendCall::Grant { path, max, standby } => SendCall::Grant {
                path: *path,
                max: *max,
                standby: *standby,
            },
            SendCall::AckIn { next, window } => SendCall::AckIn {
                next: *next,
                window: *window,
            },
            SendCall::Return { path } => SendCall::Return { path: *path },
            SendCall::GoIdentity => SendCall::GoIdentity,
            SendCall::GoInfinite { path } => SendCall::GoInfinite { path: *path },
            SendCall::Abort => SendCall::Abort,
        })
    }

    fn answer(&self, call: &SendCall) -> Result<SendReply, AllocError> {
        match call {
            SendCall::Write { bytes } => Ok(self.write_reply(bytes)),
            SendCall::Close => Ok(self.close_reply()),
            SendCall::Grant { path, max, standby } => self.grant_reply(*path, *max, *standby),
            SendCall::AckIn { next, .. } => Ok(self.ack_reply(*next)),
            SendCall::Return { path } => Ok(self.return_reply(*path)),
            SendCall::GoInfinite { path } => Ok(self.infinite_reply(*path)),
            SendCall::GoIdentity | SendCall::Abort => Ok(SendReply::Noted),
        }
    }

    fn apply(&mut self, call: &SendCall) -> Result<SendReply, AllocError> {
        let reply = self.answer(call)?;
        self.change(call)?;
        Ok(reply)
    }

    fn apply_answered(
        &mut self,
        call: &SendCall,
        answered: &SendReply,
    ) -> Result<SendReply, AllocError> {
        let reply = answered.copy()?;
        self.change(call)?;
        Ok(reply)
    }
}
