//! An application of a connection, and its turns.
ghost use Rattle.std.specs.Prelude.{◌≡◌, ◌≤◌, true, false, Some, [], ◌∷◌, length, IfOk, IsOk};
ghost use Rattle.stream_apps.specs.declared.duty.AppDuty.TheVariants as duty;
ghost use Rattle.stream_apps.specs.AppSteps.{a_round_less, taken_in, bytes_in, ends_in};

use crate::duty::AppDuty;
use crate::starting::rounds_before_stop;
use actor_desk::{Ask, LocalStep, Reply};
use control_book::ControlCall;
use link_script::Script;
use octet_text::Text;
use reassembly_book::{ReassemblyCall, ReassemblyReply};
use send_book::{SendCall, SendReply};
use sides::Side;
use std::alloc::{AllocError, Global};
use std::marker::Model;

/// How many bytes are read at once, at most.
const READ_MAX: u32 = 65_536;

/// The application of one side. In a turn it offers the next bytes of its file once, says once that it writes no more, and
/// reads until nothing is there, the stream ended or was aborted, or it has read as many bytes as a side buffers. In the round
/// that holds the tick of its fast close, where it has one, it stops the connection first (RFC 8684, section 3.5).
#[derive(Drop)]
pub struct App {
    side: Side,
    /// How many octets a side buffers.
    buffer: u64,
    /// All that it writes.
    file: Text,
    /// How many octets of the file are written.
    written: usize,
    /// Whether it told that it writes no more.
    closed: bool,
    /// Whether it was told that the stream ended, or was aborted.
    told: bool,
    /// How many octets it read in this turn.
    count: u64,
    /// How many rounds end before the one in which it stops the connection; none where it never does, or did.
    stops_in: Option<u64>,
    /// What it does next; nothing where its turn ended.
    due: Option<AppDuty>,
}

impl Model for App {
    ghost use Rattle.stream_apps.specs.Apps.{AppState};
    ghost use Rattle.stream_apps.specs.Kept.{as_app_state, IsKept};

    ghost Value = { AppState };

    ghost view = { λ a.
        as_app_state a.side a.buffer a.file a.written a.closed a.told a.count a.stops_in a.due };

    ghost invariant = { λ a. IsKept a.buffer a.file a.written a.count a.due };
}

impl App {
    ghost use Rattle.actor_desk.specs.Kinds.{AnswersTo};
    ghost use Rattle.stream_apps.specs.AppSteps.{a_round_less, app_answered, app_asks_of, app_done, app_next_round, app_settled, app_settles_down, app_takes, asks_bytes, is_due, offered, start_of_app};
    ghost use Rattle.stream_apps.specs.Kept.{agenda_from};
    ghost use Rattle.link_script.specs.Scripts.{HasRanges};
    ghost use Rattle.stream_apps.specs.Starts.{fast_close_of, first_app_turn, rounds_before};
    ghost use Rattle.actor_desk.specs.Words.{is_nil};

    /// The application of a side at the start of its first turn, by the script of the connection, with the file that it
    /// writes. It takes no memory.
    pub fn new(script: &Script, side: Side, file: Text) -> Self
        requires { HasRanges script.now }
        ensures { result ≡
            first_app_turn side script.now.buffer file (fast_close_of side script.now.lines) }
    {
        let stops_in = rounds_before_stop(side, script.lines.as_slice());
        App::untouched(side, script.buffer, file, stops_in).begun()
    }

    // The application of a side before its first turn.
    fn untouched(side: Side, buffer: u64, file: Text, stops_in: Option<u64>) -> Self
        requires some { 1 ≤ buffer }
        requires most { buffer ≤ 1048576 }
        ensures { result ≡
            record {
              side = side;
              buffer = buffer;
              rest = file;
              closed = false;
              told = false;
              count = 0;
              stops_in = stops_in;
              agenda = [];
            } }
    {
        App {
            side,
            buffer,
            file,
            written: 0,
            closed: false,
            told: false,
            count: 0,
            stops_in,
            due: None,
        }
    }

    // At the start of a turn.
    fn begun(mut self) -> Self
        ensures { result ≡ app_settles_down (record self { count = 0; agenda = start_of_app }) }
    {
        self.begin();
        self
    }

    /// Whether it was told that the stream ended, or was aborted.
    pub fn is_told(&self) -> bool
        ensures { result ≡ self.now.told }
    {
        self.told
    }

    /// Whether its turn ended.
    pub fn has_ended(&self) -> bool
        ensures { result ≡ is_nil self.now.agenda }
    {
        self.due.is_none()
    }

    /// What it asks; nothing where its turn ended. Only an ask with bytes can want memory: a part of its file that shares
    /// its octets, or a copy of them where the file isn't shared.
    pub fn ask(&self, _alloc: Global) -> Result<Option<Ask>, AllocError>
        ensures ask { IfOk result (λ ask. ask ≡ app_asks_of self.now) }
        ensures plain { asks_bytes self.now.agenda ≡ false → IsOk result }
    {
        match self.due {
            Some(AppDuty::FastClose) => {
                Ok(Some(Ask::Control(self.side, ControlCall::FastClose)))
            }
            Some(AppDuty::AbortSend) => Ok(Some(Ask::Send(self.side, SendCall::Abort))),
            Some(AppDuty::AbortReceive) => {
                let call = ReassemblyCall::Abort { by_peer: false };
                Ok(Some(Ask::Reassembly(self.side, call)))
            }
            Some(AppDuty::Write) => {
                let bytes = self.offered()?;
                Ok(Some(Ask::Send(self.side, SendCall::Write { bytes })))
            }
            Some(AppDuty::Close) => Ok(Some(Ask::Send(self.side, SendCall::Close))),
            Some(AppDuty::Read) => {
                let call = ReassemblyCall::Read { max: READ_MAX };
                Ok(Some(Ask::Reassembly(self.side, call)))
            }
            Some(AppDuty::End) => Ok(Some(Ask::Local(LocalStep::End))),
            None => Ok(None),
        }
    }

    /// Takes the reply to what it asks, and goes on to what it asks next. It takes no memory.
    pub fn take(&mut self, reply: &Reply)
        requires { AnswersTo (app_asks_of self.old) reply.now }
        ensures { self.new ≡ app_takes reply.now self.old }
    {
        match self.due {
            Some(AppDuty::FastClose) => self.due = Some(self.from_abort_send()),
            Some(AppDuty::AbortSend) => self.due = Some(self.from_abort_receive()),
            Some(AppDuty::AbortReceive) => self.due = Some(self.from_write()),
            Some(AppDuty::Write) => self.wrote(reply),
            Some(AppDuty::Close) => self.close(),
            Some(AppDuty::Read) => self.read(reply),
            Some(AppDuty::End) | None => self.due = None,
        }
    }

    /// Begins the next turn. It takes no memory.
    pub fn next_round(&mut self)
        ensures { self.new ≡ app_next_round self.old }
    {
        self.stops_in = a_round_less(self.stops_in);
        self.begin();
    }

    // The turn begins.
    fn begin(&mut self)
        ensures { self.new ≡
            app_settles_down (record self.old { count = 0; agenda = start_of_app }) }
    {
        self.count = 0;
        self.due = Some(self.from_fast_close());
    }

    // Whether it stops the connection in this round.
    fn is_due(&self) -> bool
        ensures { result ≡ is_due self.now.stops_in }
    {
        self.stops_in == Some(0)
    }

    // What it does from the start of a turn on.
    fn from_fast_close(&self) -> AppDuty
        ensures { agenda_from (Some result) ≡ (app_settled start_of_app self.now).agenda }
    {
        if self.is_due() {
            AppDuty::FastClose
        } else {
            self.from_abort_send()
        }
    }

    // What it does from the abort of its send book on.
    fn from_abort_send(&self) -> AppDuty
        ensures { agenda_from (Some result) ≡
            (app_settled (agenda_from (Some duty.AbortSend)) self.now).agenda }
    {
        if self.is_due() {
            AppDuty::AbortSend
        } else {
            self.from_abort_receive()
        }
    }

    // What it does from the abort of its reassembly book on.
    fn from_abort_receive(&self) -> AppDuty
        ensures { agenda_from (Some result) ≡
            (app_settled (agenda_from (Some duty.AbortReceive)) self.now).agenda }
    {
        if self.is_due() {
            AppDuty::AbortReceive
        } else {
            self.from_write()
        }
    }

    // The next bytes of the file, as many as a side buffers at most.
    fn offered(&self) -> Result<Text, AllocError>
        ensures { IfOk result (λ bytes. bytes ≡ offered self.now) }
    {
        let left = self.file.len() - self.written;
        let to = self.written + left.min(self.buffer as usize);
        self.file.slice(self.written, to)
    }

    // Whether its file has no byte left.
    fn is_written(&self) -> bool
        ensures { result ≡ is_nil self.now.rest }
    {
        self.written == self.file.len()
    }

    // What it does from a read on.
    fn from_read(&self) -> AppDuty
        ensures { agenda_from (Some result) ≡
            (app_settled (duty.Read ∷ duty.End ∷ []) self.now).agenda }
    {
        if self.told {
            AppDuty::End
        } else {
            AppDuty::Read
        }
    }

    // What it does from the close on.
    fn from_close(&self) -> AppDuty
        ensures { agenda_from (Some result) ≡
            (app_settled (duty.Close ∷ duty.Read ∷ duty.End ∷ []) self.now).agenda }
    {
        if self.is_written() && !self.closed {
            AppDuty::Close
        } else {
            self.from_read()
        }
    }

    // What it does from a write on.
    fn from_write(&self) -> AppDuty
        ensures { agenda_from (Some result) ≡
            (app_settled (duty.Write ∷ duty.Close ∷ duty.Read ∷ duty.End ∷ []) self.now).agenda }
    {
        if self.is_written() {
            self.from_close()
        } else {
            AppDuty::Write
        }
    }

    // How many of the bytes that it offered were taken.
    fn bytes_taken(&self, reply: &Reply) -> usize
        requires due { self.now.agenda ≡ agenda_from (Some duty.Write) }
        requires kind { AnswersTo (app_asks_of self.now) reply.now }
        ensures value { result ≡ taken_in reply.now }
        ensures within { result ≤ length self.now.rest }
    {
        taken_in(reply) as usize
    }

    fn wrote(&mut self, reply: &Reply)
        requires due { self.old.agenda ≡ agenda_from (Some duty.Write) }
        requires kind { AnswersTo (app_asks_of self.old) reply.now }
        ensures { self.new ≡ app_takes reply.now self.old }
    {
        // For the proof: the file has fewer than 2^63 bytes.
        let _len = self.file.len();
        self.written += self.bytes_taken(reply);
        self.due = Some(self.from_close());
    }

    fn close(&mut self)
        requires { self.old.agenda ≡ agenda_from (Some duty.Close) }
        ensures { self.new ≡ app_settles_down (record (app_done self.old) { closed = true }) }
    {
        self.closed = true;
        self.due = Some(self.from_read());
    }

    fn read(&mut self, reply: &Reply)
        requires due { self.old.agenda ≡ agenda_from (Some duty.Read) }
        requires kind { AnswersTo (app_asks_of self.old) reply.now }
        ensures { self.new ≡ app_takes reply.now self.old }
    {
        let came = count_in(reply);
        self.count += came;
        self.told = self.told || ends_in(reply);
        let reads_on = came > 0 && self.count < self.buffer;
        self.due = Some(if reads_on {
            self.from_read()
        } else {
            AppDuty::End
        });
    }
}

// One round later.
fn a_round_less(stops_in: Option<u64>) -> Option<u64>
    ensures { result ≡ a_round_less stops_in }
{
    match stops_in {
        Some(rounds) if rounds > 0 => Some(rounds - 1),
        _ => None,
    }
}

// How many bytes were taken.
fn taken_in(reply: &Reply) -> u64
    ensures { result ≡ taken_in reply.now }
{
    match reply {
        Reply::Send(SendReply::Taken(count)) => *count,
        _ => 0,
    }
}

// How many bytes came.
fn count_in(reply: &Reply) -> u64
    ensures { result ≡ length (bytes_in reply.now) }
{
    match reply {
        Reply::Reassembly(ReassemblyReply::Bytes(bytes)) => bytes.len() as u64,
        _ => 0,
    }
}

// Whether the stream ended, or was aborted.
fn ends_in(reply: &Reply) -> bool
    ensures { result ≡ ends_in reply.now }
{
    matches!(
        reply,
        Reply::Reassembly(ReassemblyReply::End | ReassemblyReply::Aborted { .. })
    )
}
