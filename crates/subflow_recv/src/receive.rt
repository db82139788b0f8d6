ghost use Rattle.std.specs.Prelude.{◌≡◌, ◌+◌, ◌-◌, ◌^◌, ◌<◌, ◌≤◌, length, take, All, IfOk, OnOk, OnErr};
ghost use Rattle.std.specs.List.{concat};

use crate::acceptance::Acceptance;
use byte_pieces::{BytePieces, Parts};
use seq_units::Pos;
use std::alloc::{AllocError, Global};
use std::marker::Model;

/// The receiving side of a subflow. Contracts see the receive edge, the window, the list of the positions from the edge
/// on, each with its octet or without one, and that list as it will be once the payload that is held is kept too.
/// Positions are at most 2^62.
#[derive(Drop)]
pub struct SubflowRecv {
    /// The octets that are kept, from the receive edge on.
    kept: BytePieces,
    /// How many positions from the edge on are in the window.
    window: u32,
}

impl Model for SubflowRecv {
    ghost use Rattle.subflow_recv.specs.Receiving.{Receiving};

    ghost Value = { Receiving };

    ghost use Rattle.std.specs.Prelude.{◌<◌, ◌≤◌, length, IfSome};

    ghost view = { λ side. record {
      edge = side.kept.from;
      window = side.window;
      places = side.kept.places;
      incoming = side.kept.incoming;
    } };

    ghost invariant = { λ side. (0 < side.window) × (length side.kept.places ≤ side.window)
        × IfSome side.kept.incoming (λ places. length places ≤ side.window) };
}

impl SubflowRecv {
    ghost use Rattle.subflow_recv.specs.Receiving.{filled, kept_count, opening, window_end, is_outside, with_octets, acceptance_of, new_octets, after_accept, after_hold, after_keep_held, without_held, after_advance, after_pass, after_forget_from};

    /// A side to which nothing has come: the edge is position 0, that of the peer's SYN. From the edge on `window`
    /// positions are in the window, at least one. Takes no memory.
    pub fn new(alloc: Global, window: u32) -> Self
        requires { 0 < window }
        ensures { result ≡ opening window }
    {
        SubflowRecv {
            kept: BytePieces::new(alloc, 0),
            window,
        }
    }

    /// RCV.NXT, the receive edge: the first position that the side hasn't passed.
    pub fn edge(&self) -> Pos
        ensures value { result ≡ self.now.edge }
        ensures bound { result ≤ 2 ^ 62 }
    {
        self.kept.start()
    }

    /// The position after the window.
    pub fn window_end(&self) -> Pos
        ensures value { result ≡ window_end self.now }
        ensures above { self.now.edge < result }
        ensures within { length self.now.places + self.now.edge ≤ result }
    {
        self.edge() + u64::from(self.window)
    }

    /// The position after the octets in order: the greatest one to which the edge can [`advance`](SubflowRecv::advance).
    pub fn held_end(&self) -> Pos
        ensures value { result ≡ self.now.edge + length (filled self.now.places) }
        ensures bound { result ≤ 2 ^ 62 }
    {
        self.kept.in_order_end()
    }

    /// Keeps those octets of a payload that are in the window and stand at a position without one, each copied once.
    /// Its first octet stands at the position `pos`. An octet that is kept already stays. A payload that is held is let
    /// go.
    ///
    /// # Errors
    ///
    /// Only where there is no memory for them; then all is as it was.
    pub fn accept(&mut self, pos: Pos, payload: &[u8]) -> Result<Acceptance, AllocError>
        requires { pos + length payload.now ≤ 2 ^ 62 }
        ensures acceptance { IfOk result (λ acceptance. acceptance ≡
            acceptance_of pos payload.now self.old) }
        ensures few { IfOk result (λ acceptance. new_octets acceptance ≤ length payload.now) }
        ensures after { OnOk result (self.new ≡ after_accept pos payload.now self.old) }
        ensures err { OnErr result (self.new ≡ self.old) }
    {
        if self.is_outside(pos, payload) {
            self.kept.drop_held();
            return Ok(Acceptance::Outside);
        }
        let count = self.keep(pos, self.before_window_end(pos, payload))?;
        Ok(Acceptance::Kept(count))
    }

    /// Holds a payload beside what is kept, until [`keep_held`](SubflowRecv::keep_held) keeps those of its octets that
    /// [`accept`](SubflowRecv::accept) would, each copied once. Its first octet stands at the position `pos`. What was held
    /// before is let go, and so is this payload at any other change of the side.
    ///
    /// # Errors
    ///
    /// Only where there is no memory for it; then all is as it was.
    pub fn hold(&mut self, pos: Pos, payload: &[u8]) -> Result<(), AllocError>
        requires { pos + length payload.now ≤ 2 ^ 62 }
        ensures ok { OnOk result (self.new ≡ after_hold pos payload.now self.old) }
        ensures err { OnErr result (self.new ≡ self.old) }
    {
        let octets = self.before_window_end(pos, payload);
        self.kept.hold(pos, octets)?;
        Ok(())
    }

    /// Keeps the payload that is held, which then is held no longer. Takes no memory; where none is held, nothing changes.
    pub fn keep_held(&mut self)
        ensures { self.new ≡ after_keep_held self.old }
    {
        self.kept.keep_held();
    }

    /// Lets go of the payload that is held.
    pub fn drop_held(&mut self)
        ensures { self.new ≡ without_held self.old }
    {
        self.kept.drop_held();
    }

    /// Whether no octet of the payload is in the window.
    fn is_outside(&self, pos: Pos, payload: &[u8]) -> bool
        requires { pos + length payload.now ≤ 2 ^ 62 }
        ensures { result ≡ is_outside pos payload.now self.now }
    {
        payload.is_empty() || pos + payload.len() as u64 <= self.edge() || self.window_end() <= pos
    }

    /// The octets of the payload that don't lie past the window.
    fn before_window_end<'a>(&self, pos: Pos, payload: &'a [u8]) -> &'a [u8]
        ensures { result.now ≡ take (window_end self.now - pos) payload.now }
    {
        let room = self.window_end().saturating_sub(pos);
        &payload[..payload.len().min(room as usize)]
    }

    /// Keeps those of the octets that stand at a position without one, none of them past the window, and counts them.
    fn keep(&mut self, pos: Pos, octets: &[u8]) -> Result<u64, AllocError>
        requires bound { pos + length octets.now ≤ 2 ^ 62 }
        requires within { pos + length octets.now ≤ window_end self.old }
        ensures ok { OnOk result (self.new ≡ with_octets pos octets.now self.old) }
        ensures count { IfOk result (λ count. count ≡
            kept_count self.new.places - kept_count self.old.places) }
        ensures few { IfOk result (λ count. count ≤ length octets.now) }
        ensures err { OnErr result (self.new ≡ self.old) }
    {
        let count = self.kept.put(pos, octets)?;
        Ok(count)
    }

    /// The octets in order, from the edge on up to the first position without one, lent part by part. No part is empty.
    pub fn held(&self) -> Parts<'_>
        ensures octets { concat result ≡ filled self.now.places }
        ensures some { All (λ part. 0 < length part) result }
    {
        self.kept.in_order()
    }

    /// Moves the edge over octets in order, which are let go in time proportional to the number of their pieces. A payload
    /// that is held is let go. Takes no memory.
    pub fn advance(&mut self, to: Pos)
        requires order { self.old.edge ≤ to }
        requires within { to ≤ self.old.edge + length (filled self.old.places) }
        ensures { self.new ≡ after_advance to self.old }
    {
        // For the proof: the octets end at or before position 2^62, and so does `to`.
        let _top = self.kept.top();
        self.kept.drop_front(to);
    }

    /// Moves the edge over one position that no octet occupies, that of the peer's SYN or FIN (RFC 9293, section 3.4).
    /// Behind a FIN the stream has no octets: all that are kept are forgotten, and a payload that is held. Takes no memory.
    pub fn pass(&mut self)
        requires { self.old.edge < 2 ^ 62 }
        ensures { self.new ≡ after_pass self.old }
    {
        let to = self.kept.start() + 1;
        self.kept.drop_front(to);
        self.kept.cut_back(to);
    }

    /// Forgets every octet at or past the position `pos`, so that what comes for it is kept again, and the payload that is
    /// held. Takes no memory.
    pub fn forget_from(&mut self, pos: Pos)
        requires { self.old.edge ≤ pos }
        ensures { self.new ≡ after_forget_from pos self.old }
    {
        self.kept.cut_back(pos);
    }
}
