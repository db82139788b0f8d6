//! One end of a subflow: what it is made of, and what it tells.
ghost use Rattle.std.specs.Prelude.{◌≡◌, ◌+◌, ◌^◌, ◌<◌, ◌≤◌, true, false, length, map, option_map, All, IfOk, IfSome, OnOk, OnErr, IsTrue};
ghost use Rattle.std.specs.List.{concat};
ghost use Rattle.rtt_timer.specs.Estimates.{srtt_of};
ghost use Rattle.subflow_recv.specs.Receiving.{filled};
ghost use Rattle.subflow_tcp.specs.declared.handshake.State.TheVariants.{Waiting, Listen, SynSent};
ghost use Rattle.subflow_tcp.specs.Opening.{nothing_came};

use crate::dues::Due;
use crate::handshake::State;
use crate::spelling::Numbers;
use loss_recovery::{Congestion, Pending, Timing};
use octet_text::Text;
use seq_units::{Mapping, Pos};
use std::alloc::{AllocError, Global};
use std::marker::Model;
use subflow_recv::{Parts, SubflowRecv};
use subflow_send::{RecordRef, SubflowSend};

/// One end of a subflow. Contracts see its parts by what they mean: positions, never numbers, but in the header of a
/// segment.
#[derive(Drop)]
pub struct Subflow {
    /// Ports and initial numbers.
    pub(crate) numbers: Numbers,
    /// How far it is.
    pub(crate) state: State,
    /// What it sends.
    pub(crate) send: SubflowSend,
    /// What has come.
    pub(crate) recv: SubflowRecv,
    /// The position of the peer's FIN, once one was heard.
    pub(crate) fin_at: Option<Pos>,
    /// Its timer.
    pub(crate) timing: Timing,
    /// Its congestion window.
    pub(crate) congestion: Congestion,
    /// What it owes.
    pub(crate) due: Due,
}

impl Model for Subflow {
    ghost use Rattle.subflow_tcp.specs.State.{EndState, IsFinTold};

    ghost Value = { EndState };

    ghost view = { λ s. record {
      numbers = s.numbers;
      state = s.state;
      send = s.send;
      recv = s.recv;
      fin_at = s.fin_at;
      timing = s.timing;
      congestion = s.congestion;
      due = s.due;
    } };

    ghost invariant = { λ s. IsFinTold s.send.finished s.state };
}

/// The receiving side before anything came.
fn nothing_came(alloc: Global) -> SubflowRecv
    ensures { result ≡ nothing_came }
{
    let mut recv = SubflowRecv::new(alloc, 1_048_576);
    recv.pass();
    recv
}

impl Subflow {
    ghost use Rattle.subflow_send.specs.Rules.{after_push};
    ghost use Rattle.subflow_recv.specs.Receiving.{after_advance, after_forget_from};
    ghost use Rattle.subflow_tcp.specs.State.{has_records, is_fin_passed};
    ghost use Rattle.subflow_tcp.specs.Opening.{new_end, after_begin};
    ghost use Rattle.loss_recovery.specs.Windows.{after_growth};
    ghost use Rattle.subflow_tcp.specs.Sizes.{room};
    ghost use Rattle.subflow_tcp.specs.States.{may_finish};

    /// An end in this state, to which nothing has come.
    fn new(alloc: Global, state: State, opens: bool, path: u8, iss: u32, mss: u16) -> Self
        requires { 0 < mss }
        ensures { result ≡ new_end state opens path iss mss }
    {
        Subflow {
            numbers: Numbers {
                path,
                opens,
                own: iss,
                peer: None,
            },
            state,
            send: SubflowSend::new(alloc),
            recv: nothing_came(alloc),
            fin_at: None,
            timing: Timing::new(),
            congestion: Congestion::new(mss),
            due: Due::NOTHING,
        }
    }

    /// An end that opens path `path`: its SYN is due. Its initial sequence number is `iss`, and its congestion window counts
    /// segments of `mss` octets, at least one; pieces are as long as they are pushed. Takes no memory.
    pub fn open(alloc: Global, path: u8, iss: u32, mss: u16) -> Self
        requires { 0 < mss }
        ensures { result ≡ new_end SynSent true path iss mss }
    {
        Self::new(alloc, State::SynSent, true, path, iss, mss)
    }

    /// An end that is to open the path later, with [`begin`](Subflow::begin). Takes no memory.
    pub fn wait(alloc: Global, path: u8, iss: u32, mss: u16) -> Self
        requires { 0 < mss }
        ensures { result ≡ new_end Waiting true path iss mss }
    {
        Self::new(alloc, State::Waiting, true, path, iss, mss)
    }

    /// An end that waits for the SYN of path `path`. Takes no memory.
    pub fn listen(alloc: Global, path: u8, iss: u32, mss: u16) -> Self
        requires { 0 < mss }
        ensures { result ≡ new_end Listen false path iss mss }
    {
        Self::new(alloc, State::Listen, false, path, iss, mss)
    }

    /// The waiting end opens: its SYN is due.
    pub fn begin(&mut self)
        requires { self.old.state ≡ Waiting }
        ensures { self.new ≡ after_begin self.old }
    {
        self.state = State::SynSent;
    }

    /// How far the end is.
    pub fn state(&self) -> State
        ensures { result ≡ self.now.state }
    {
        self.state
    }

    /// SND.UNA, the least position that is not acknowledged.
    pub fn una(&self) -> Pos
        ensures value { result ≡ self.now.send.una }
        ensures order { result ≤ self.now.send.nxt }
    {
        self.send.una()
    }

    /// SND.NXT, the position that the next record will have.
    pub fn nxt(&self) -> Pos
        ensures value { result ≡ self.now.send.nxt }
        ensures bound { result < 2 ^ 61 + 2 ^ 17 }
    {
        self.send.nxt()
    }

    /// Whether the FIN was pushed. Where it may be, it wasn't yet.
    pub fn is_finished(&self) -> bool
        ensures value { result ≡ self.now.send.finished }
        ensures open { IsTrue (may_finish self.now.state) → result ≡ false }
    {
        self.send.is_finished()
    }

    /// The retransmission timeout, in ticks of a millisecond: at least a second (RFC 6298, section 2).
    pub fn rto(&self) -> u32
        ensures value { result ≡ self.now.timing.rtt.rto }
        ensures least { 1000 ≤ result }
    {
        self.timing.rtt.rto()
    }

    /// SRTT, the smoothed round-trip time, in whole ticks of a millisecond, rounded down: at most a minute, and None before the
    /// first measurement (RFC 6298, section 2).
    pub fn smoothed_rtt(&self) -> Option<u32>
        ensures value { result ≡ option_map srtt_of self.now.timing.rtt.estimate }
        ensures bound { IfSome result (λ srtt. srtt ≤ 60000) }
    {
        self.timing.rtt.srtt()
    }

    /// The receive edge, RCV.NXT: the first position that the end hasn't passed. It begins at 1, behind the SYN.
    pub fn edge(&self) -> Pos
        ensures value { result ≡ self.now.recv.edge }
        ensures bound { result ≤ 2 ^ 62 }
    {
        self.recv.edge()
    }

    /// The position after the octets in order, to which the edge can advance.
    pub fn held_end(&self) -> Pos
        ensures value { result ≡ self.now.recv.edge + length (filled self.now.recv.places) }
        ensures bound { result ≤ 2 ^ 62 }
    {
        self.recv.held_end()
    }

    /// The octets in order from the edge on, lent part by part.
    pub fn held(&self) -> Parts<'_>
        ensures octets { concat result ≡ filled self.now.recv.places }
        ensures some { All (λ part. 0 < length part) result }
    {
        self.recv.held()
    }

    /// Moves the edge over octets in order, which are let go. Takes no memory.
    pub fn advance(&mut self, to: Pos)
        requires order { self.old.recv.edge ≤ to }
        requires within { to ≤ self.old.recv.edge + length (filled self.old.recv.places) }
        ensures { self.new ≡ record self.old { recv = after_advance to self.old.recv } }
    {
        self.recv.advance(to);
    }

    /// Forgets every octet at or past the position `pos`, so that what comes for it is kept again. Takes no memory.
    pub fn forget_from(&mut self, pos: Pos)
        requires { self.old.recv.edge ≤ pos }
        ensures { self.new ≡ record self.old { recv = after_forget_from pos self.old.recv } }
    {
        self.recv.forget_from(pos);
    }

    /// Appends a piece with its mapping, to be sent, and answers its position. Its octets are shared where the text is
    /// shared. Without memory for it all is as it was.
    pub fn push(&mut self, piece: &Text, mapping: &Mapping) -> Result<Pos, AllocError>
        requires some { 0 < length piece.now }
        requires most { length piece.now ≤ 65475 }
        requires room { self.old.send.nxt < 2 ^ 61 }
        requires open { self.old.send.finished ≡ false }
        ensures pos { IfOk result (λ pos. pos ≡ self.old.send.nxt) }
        ensures ok { OnOk result (self.new ≡
            record self.old { send = after_push piece.now mapping.now self.old.send }) }
        ensures err { OnErr result (self.new ≡ self.old) }
    {
        self.send.push(piece, mapping)
    }

    /// Whether a record is not acknowledged.
    pub fn has_records(&self) -> bool
        ensures { result ≡ has_records self.now }
    {
        self.send.retransmit_first().is_some()
    }

    /// The position of the peer's FIN, once one was heard.
    pub fn fin_at(&self) -> Option<Pos>
        ensures { result ≡ self.now.fin_at }
    {
        self.fin_at
    }

    /// Whether the edge passed the peer's FIN.
    pub fn is_fin_passed(&self) -> bool
        ensures { result ≡ is_fin_passed self.now }
    {
        match self.fin_at {
            Some(pos) => pos < self.recv.edge(),
            None => false,
        }
    }

    /// cwnd, the congestion window, in octets: at most 2^20 (RFC 5681, section 3.1).
    pub fn congestion_window(&self) -> u32
        ensures value { result ≡ self.now.congestion.reno.window }
        ensures bound { result ≤ 1048576 }
    {
        self.congestion.reno.window()
    }

    /// ssthresh, the slow start threshold, in octets (RFC 5681, section 3.1).
    pub fn slow_start_threshold(&self) -> u32
        ensures { result ≡ self.now.congestion.reno.ssthresh }
    {
        self.congestion.reno.ssthresh()
    }

    /// The room of the congestion window beside what is under way, in octets.
    pub fn room(&self) -> u32
        ensures value { result ≡ room self.now }
        ensures bound { result ≤ 1048576 }
    {
        self.congestion.room(self.send.flight())
    }

    /// The growth that is still to be told: Some exactly where the last segment that was taken acknowledged new octets in
    /// congestion avoidance, and since then [`grow`](Subflow::grow) wasn't called and the end didn't die.
    pub fn pending(&self) -> Option<Pending>
        ensures { result ≡ self.now.congestion.pending }
    {
        self.congestion.pending
    }

    /// The congestion window grows by so many octets.
    pub fn grow(&mut self, growth: u32)
        ensures { self.new ≡
            record self.old { congestion = after_growth growth self.old.congestion } }
    {
        self.congestion.grow(growth);
    }
}
