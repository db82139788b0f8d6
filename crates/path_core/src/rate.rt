//! How a window grows, by the rows of all paths (RFC 6356).

ghost use Rattle.std.specs.Prelude.{◌≡◌, ◌-◌, ◌<◌, ◌≤◌, min, Some, All, IfSome, find, Contains};
ghost use Rattle.linked_increase.specs.Paths.{IsInRange};
ghost use Rattle.actor_desk.specs.Kinds.{CanBeAsked};
ghost use Rattle.path_core.specs.Rate.{is_row_of, growth_by, growth_in, after_rate, rate_ask, answered_rate};
ghost use Rattle.path_core.specs.Replies.{AreRowsInRange};
ghost use Rattle.path_core.specs.State.{end_at};

use crate::end::PathEnd;
use crate::state::PathState;
use actor_desk::{Ask, LocalStep, Reply};
use control_book::{ControlCall, ControlReply};
use linked_increase::{Row, Rows, growth};
use sides::Side;
use subflow_tcp::Pending;

/// The row of a path.
fn row_of(path: u8, rows: &[Row]) -> Option<Row>
    ensures row { result ≡ find (is_row_of path) rows.now }
    ensures among { IfSome result (Contains rows.now) }
{
    rows.iter().copied().find(|row| row.path == path)
}

/// How much a window grows, by the path's own row among all; at most 2^20 octets count.
fn growth_by(path: u8, rows: &Rows, mss: u16, acked: u32) -> u32
    requires rows { All IsInRange rows.now }
    requires mss { mss ≤ 1460 }
    ensures { result ≡ growth_by (find (is_row_of path) rows.now) rows.now mss (min 1048576 acked) }
{
    match row_of(path, rows.listed()) {
        Some(row) => growth(&row, rows, u32::from(mss), acked.min(1_048_576)),
        None => 0,
    }
}

/// How much a window grows by a reply.
fn growth_in(path: u8, mss: u16, reply: &Reply, pending: Option<Pending>) -> u32
    requires rows { AreRowsInRange reply.now }
    requires mss { mss ≤ 1460 }
    ensures { result ≡ growth_in path mss reply.now pending }
{
    match (reply, pending) {
        (Reply::Control(ControlReply::Rows(rows)), Some(pending)) => {
            growth_by(path, rows, mss, pending.acked)
        }
        _ => 0,
    }
}

impl PathEnd {
    /// The congestion window grows by the linked increase over the rows of all paths (RFC 6356); the MSS is at most 1,460 octets.
    /// Without rows it stays.
    pub(crate) fn take_rate_reply(&mut self, path: u8, mss: u16, reply: &Reply)
        requires rows { AreRowsInRange reply.now }
        requires mss { mss ≤ 1460 }
        ensures { self.new ≡ after_rate path mss reply.now self.old }
    {
        let growth = growth_in(path, mss, reply, self.tcp.pending());
        self.tcp.grow(growth);
    }
}

impl PathState {
    /// The window before the growth and the round-trip time are told.
    pub(crate) fn rate_ask(&self, side: Side) -> Ask
        ensures value { result ≡
            rate_ask side (end_at side self.now).tcp.congestion.pending self.now }
        ensures able { CanBeAsked result }
    {
        match self.end(side).tcp.pending() {
            Some(Pending { window, rtt, .. }) => {
                let path = self.number();
                let window = window.clamp(1, 1_048_576);
                let rtt = rtt.clamp(1, 60_000);
                Ask::Control(side, ControlCall::Rate { path, window, rtt })
            }
            None => Ask::Local(LocalStep::End),
        }
    }

    /// The window grows.
    pub(crate) fn take_rate_reply(&mut self, side: Side, reply: &Reply)
        requires { AreRowsInRange reply.now }
        ensures { self.new ≡ answered_rate side reply.now self.old }
    {
        let (path, mss) = (self.number(), self.profile.mss());
        self.end_mut(side).take_rate_reply(path, mss, reply);
        self.done();
    }
}
