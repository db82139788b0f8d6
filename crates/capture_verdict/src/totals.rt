//! What the flows of each connection come to.

ghost use Rattle.std.specs.List.{slice_get};
ghost use Rattle.std.specs.Prelude.{◌≡◌, IfOk, length, map};
ghost use Rattle.seen_streams.specs.Shows.{lane_of};
ghost use Rattle.rule_book.specs.State.{book_of, judged_of, lanes_of};
ghost use Rattle.capture_verdict.specs.Totals.{added, added_all, added_at, added_to, all_totals, no_totals, with_flow, with_lane, with_lanes};

use rule_book::{Book, Judged, Lanes};
use seen_connections::{Belongs, Flow};
use seen_streams::Lane;
use sides::Side;
use std::alloc::{AllocError, Global};

/// Of what a side sent: mappings with a checksum whose octets weren't all held, and positions with payload and without a place. Each
/// number is 2^64 - 1 at most.
#[derive(Clone, Copy)]
pub struct Unread {
    pub unseen: u64,
    pub unmapped: u64,
}

/// What the flows of a connection come to: those that were opened, their packets, those that are cut, and those with a wrong TCP sum. Each
/// number is 2^64 - 1 at most.
#[derive(Clone, Copy)]
pub struct Totals {
    pub subflows: u64,
    pub packets: u64,
    pub cut: u64,
    pub wrong_sums: u64,
    pub a: Unread,
    pub b: Unread,
}

/// What the flows of each connection come to, in the order of connections.
///
/// # Errors
///
/// Want of memory.
pub fn all_totals(alloc: Global, judged: &Judged<'_>) -> Result<Vec<Totals>, AllocError>
    ensures { IfOk result (λ all. all.items ≡ all_totals (judged_of judged.now)) }
{
    let count = count_books(&judged.books);
    let mut all = vec![in alloc; no_totals(); count]?;
    add_flows(&mut all, judged.seen.flows(), &judged.lanes);
    Ok(all)
}

fn count_books(books: &[Book<'_>]) -> usize
    ensures { result ≡ length (map book_of books.now) }
{
    books.len()
}

fn no_totals() -> Totals
    ensures { result ≡ no_totals }
{
    let unread = Unread {
        unseen: 0,
        unmapped: 0,
    };
    Totals {
        subflows: 0,
        packets: 0,
        cut: 0,
        wrong_sums: 0,
        a: unread,
        b: unread,
    }
}

fn add_flows(all: &mut Vec<Totals>, flows: &[Flow], lanes: &[Lanes])
    ensures { all.new.items ≡ added_all flows.now 0 (map lanes_of lanes.now) all.old.items }
{
    let mut index = 0;
    for lanes in lanes {
        add(all, flow_at(flows, index), lanes);
        index += 1;
    }
}

/// The flow with a number.
pub(crate) fn flow_at(flows: &[Flow], index: usize) -> Option<Flow>
    ensures { result ≡ slice_get flows.now index }
{
    flows.get(index).copied()
}

fn add(all: &mut Vec<Totals>, flow: Option<Flow>, lanes: &Lanes)
    ensures { all.new.items ≡ added flow (lanes_of lanes.now) all.old.items }
{
    if let Some(flow) = flow {
        add_flow(all, &flow, flow.belongs, lanes);
    }
}

fn add_flow(all: &mut Vec<Totals>, flow: &Flow, belongs: Option<Belongs>, lanes: &Lanes)
    ensures { all.new.items ≡ added_to flow.now belongs (lanes_of lanes.now) all.old.items }
{
    if let Some(belongs) = belongs {
        let totals = totals_at(all, belongs.connection);
        add_at(all, totals, flow, &belongs, lanes);
    }
}

fn totals_at(all: &[Totals], connection: usize) -> Option<Totals>
    ensures { result ≡ slice_get all.now connection }
{
    all.get(connection).copied()
}

// Where its connection has totals.
fn add_at(
    all: &mut Vec<Totals>,
    totals: Option<Totals>,
    flow: &Flow,
    belongs: &Belongs,
    lanes: &Lanes,
)
    requires { totals ≡ slice_get all.old.items belongs.now.connection }
    ensures { all.new.items ≡
        added_at totals flow.now belongs.now (lanes_of lanes.now) all.old.items }
{
    if let Some(totals) = totals {
        all[belongs.connection] = with_flow(flow, belongs.opener, lanes, &totals);
    }
}

// Those of a connection with a flow more, which this side opened.
fn with_flow(flow: &Flow, opener: Side, lanes: &Lanes, totals: &Totals) -> Totals
    ensures { result ≡ with_flow flow.now opener (lanes_of lanes.now) totals.now }
{
    let counted = Totals {
        subflows: totals
            .subflows
            .saturating_add(u64::from(flow.opened.is_some())),
        packets: totals.packets.saturating_add(u64::from(flow.packets)),
        cut: totals.cut.saturating_add(u64::from(flow.cut)),
        wrong_sums: totals.wrong_sums.saturating_add(u64::from(flow.wrong_sums)),
        a: totals.a,
        b: totals.b,
    };
    with_lanes(opener, lanes, &counted)
}

fn with_lanes(opener: Side, lanes: &Lanes, totals: &Totals) -> Totals
    ensures { result ≡ with_lanes opener (lanes_of lanes.now) totals.now }
{
    match opener {
        Side::A => Totals {
            a: with_lane(&lanes.opener, &totals.a),
            b: with_lane(&lanes.other, &totals.b),
            ..*totals
        },
        Side::B => Totals {
            a: with_lane(&lanes.other, &totals.a),
            b: with_lane(&lanes.opener, &totals.b),
            ..*totals
        },
    }
}

fn with_lane(lane: &Lane, unread: &Unread) -> Unread
    ensures { result ≡ with_lane (lane_of lane.now) unread.now }
{
    Unread {
        unseen: unread.unseen.saturating_add(lane.count_waiting() as u64),
        unmapped: unread.unmapped.saturating_add(lane.count_unmapped()),
    }
}
