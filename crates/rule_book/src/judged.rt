//! All that was judged so far.

ghost use Rattle.std.specs.Prelude.{◌≡◌, ◌<◌, ◌≤◌, not, ◌||◌, Some, map, OnOk};
ghost use Rattle.std.specs.List.{slice_get};
ghost use Rattle.capture_reader.specs.Seen.{as_seen};
ghost use Rattle.rule_book.specs.Judged.{books_told, empty_book, empty_lanes, grown, grown_to, judged, judged_belonging, judged_by_flow, judged_known, judged_place, nothing_judged, side_of, token_told, with_key, with_wrong_token};
ghost use Rattle.rule_book.specs.State.{book_of, judged_of, lanes_of};

use crate::book::{Book, Lanes};
use crate::judge::judge_side;
use capture_reader::SeenSegment;
use judge_rules::{Finding, Rule};
use seen_connections::{Belongs, Flow, Keys, Place, SeenConnections, WrongToken};
use sides::Side;
use std::alloc::{AllocError, Global};

/// How to judge.
#[derive(Clone, Copy)]
pub struct JudgeWords {
    /// At which side the capture was taken, where that is said.
    pub at: Option<Side>,
    /// Whether segments with a wrong TCP sum are passed over.
    pub check_sums: bool,
}

/// The connections of a capture, and what is known of each.
#[derive(Drop)]
pub struct Judged<'a> {
    pub seen: SeenConnections,
    /// For each connection its book, for each flow its lanes.
    pub books: Vec<Book<'a>>,
    pub lanes: Vec<Lanes>,
}

impl<'a> Judged<'a> {
    /// Nothing was seen.
    pub fn new(alloc: Global) -> Self
        ensures { judged_of result ≡ nothing_judged }
    {
        Judged {
            seen: SeenConnections::new(alloc),
            books: Vec::new(alloc),
            lanes: Vec::new(alloc),
        }
    }

    /// Judges the next segment, of this packet, whose number is above that of the one before.
    ///
    /// # Errors
    ///
    /// Want of memory.
    pub fn judge(
        &mut self,
        alloc: Global,
        words: &JudgeWords,
        packet: u32,
        seen: &SeenSegment<'a>,
    ) -> Result<(), AllocError>
        requires { self.old.seen.last < packet }
        ensures judged { OnOk result
            (judged_of self.new ≡ judged words.now.at words.now.check_sums (judged_of self.old)
            packet (as_seen seen.now)) }
        ensures last { OnOk result (self.new.seen.last ≤ packet) }
    {
        let place = self.seen.take(packet, seen, is_good(words, seen))?;
        self.grow(alloc)?;
        self.judge_place(alloc, words.at, packet, seen, place)?;
        Ok(())
    }

    // A book for each connection, lanes for each flow.
    #[tactic(auto, using(crate::proofs::Growing::grown_by))]
    fn grow(&mut self, alloc: Global) -> Result<(), AllocError>
        ensures { OnOk result (judged_of self.new ≡ grown self.old.seen (judged_of self.old)) }
    {
        grow_books(alloc, &mut self.books, self.seen.connections().len())?;
        grow_lanes(alloc, &mut self.lanes, self.seen.flows().len())?;
        Ok(())
    }

    // A segment with its place in its flow.
    fn judge_place(
        &mut self,
        alloc: Global,
        at: Option<Side>,
        packet: u32,
        seen: &SeenSegment<'a>,
        place: Option<Place>,
    ) -> Result<(), AllocError>
        ensures { OnOk result (judged_of self.new ≡ judged_place at packet (as_seen seen.now) place
            (judged_of self.old)) }
    {
        let Some(place) = place else {
            return Ok(());
        };
        self.tell_wrong(place.wrong_token)?;
        self.judge_by_flow(alloc, at, packet, seen, place.flow)
    }

    // The SYN of a join named no key, though its SYN/ACK shows whose it is.
    fn tell_wrong(&mut self, wrong: Option<WrongToken>) -> Result<(), AllocError>
        ensures { OnOk result (judged_of self.new ≡ with_wrong_token wrong (judged_of self.old)) }
    {
        match wrong {
            Some(wrong) => tell_token(&mut self.books, &wrong),
            None => Ok(()),
        }
    }

    // A segment of a flow by its number.
    fn judge_by_flow(
        &mut self,
        alloc: Global,
        at: Option<Side>,
        packet: u32,
        seen: &SeenSegment<'a>,
        index: usize,
    ) -> Result<(), AllocError>
        ensures { OnOk result (judged_of self.new ≡ judged_by_flow at packet (as_seen seen.now)
            index (judged_of self.old)) }
    {
        match flow_at(self.seen.flows(), index) {
            Some(flow) => self.judge_in_flow(alloc, at, packet, seen, index, &flow),
            None => Ok(()),
        }
    }

    fn judge_in_flow(
        &mut self,
        alloc: Global,
        at: Option<Side>,
        packet: u32,
        seen: &SeenSegment<'a>,
        index: usize,
        flow: &Flow,
    ) -> Result<(), AllocError>
        ensures { OnOk result (judged_of self.new ≡ judged_belonging at packet (as_seen seen.now)
            index flow.now flow.now.belongs (judged_of self.old)) }
    {
        match flow.belongs {
            Some(belongs) => self.judge_belonging(alloc, at, packet, seen, index, flow, &belongs),
            None => Ok(()),
        }
    }

    // A segment of a flow whose connection is known.
    fn judge_belonging(
        &mut self,
        alloc: Global,
        at: Option<Side>,
        packet: u32,
        seen: &SeenSegment<'a>,
        index: usize,
        flow: &Flow,
        belongs: &Belongs,
    ) -> Result<(), AllocError>
        ensures { OnOk result (judged_of self.new ≡ judged_belonging at packet (as_seen seen.now)
            index flow.now (Some belongs.now) (judged_of self.old)) }
    {
        match keys_at(self.seen.connections(), belongs.connection) {
            Some(known) => {
                self.judge_known(alloc, at, packet, seen, index, flow, belongs, &known)
            }
            None => Ok(()),
        }
    }

    #[tactic(auto, using(crate::proofs::Steps::no_book, crate::proofs::Steps::no_lanes, crate::proofs::Growing::none_there))]
    fn judge_known(
        &mut self,
        alloc: Global,
        at: Option<Side>,
        packet: u32,
        seen: &SeenSegment<'a>,
        index: usize,
        flow: &Flow,
        belongs: &Belongs,
        known: &Keys,
    ) -> Result<(), AllocError>
        ensures { OnOk result (judged_of self.new ≡ judged_known at packet (as_seen seen.now) index
            flow.now belongs.now (Some known.now)
            (slice_get (judged_of self.old).books belongs.now.connection) (slice_get (judged_of self.old).lanes index) (judged_of self.old)) }
    {
        let connection = belongs.connection;
        if connection >= self.books.len() {
            return Ok(());
        }
        if index >= self.lanes.len() {
            return Ok(());
        }
        let side = side_of(flow, belongs, seen);
        let book = &mut self.books[connection];
        let lanes = &mut self.lanes[index];
        let keys = judge_side(
            alloc, book, lanes, at, packet, seen, index, flow, side, known,
        )?;
        self.learn(connection, known.a, keys.a)?;
        Ok(())
    }

    // A's key, where a segment told it.
    fn learn(
        &mut self,
        connection: usize,
        before: Option<u64>,
        after: Option<u64>,
    ) -> Result<(), AllocError>
        ensures { OnOk result (judged_of self.new ≡ record (judged_of self.old)
            { seen = with_key connection before after self.old.seen }) }
    {
        match (before, after) {
            (None, Some(a)) => self.seen.learn(connection, a),
            _ => Ok(()),
        }
    }
}

// Whether its TCP sum is right, or isn't to be checked.
fn is_good(words: &JudgeWords, seen: &SeenSegment<'_>) -> bool
    ensures { result ≡ (seen.now.has_good_sum || not words.now.check_sums) }
{
    seen.has_good_sum || !words.check_sums
}

#[tactic(auto, using(crate::proofs::Growing::one_more, crate::proofs::Growing::enough))]
fn grow_books(alloc: Global, books: &mut Vec<Book<'_>>, count: usize) -> Result<(), AllocError>
    ensures { OnOk result (map book_of books.new.items ≡ grown_to count empty_book
        (map book_of books.old.items)) }
{
    if books.len() < count {
        books.push(Book::new(alloc))?;
    }
    Ok(())
}

#[tactic(auto, using(crate::proofs::Growing::one_more, crate::proofs::Growing::enough))]
fn grow_lanes(alloc: Global, lanes: &mut Vec<Lanes>, count: usize) -> Result<(), AllocError>
    ensures { OnOk result (map lanes_of lanes.new.items ≡ grown_to count empty_lanes
        (map lanes_of lanes.old.items)) }
{
    if lanes.len() < count {
        lanes.push(Lanes::new(alloc))?;
    }
    Ok(())
}

// A token that was wrong, in the book of its connection.
#[tactic(auto, using(crate::proofs::Steps::token_there, crate::proofs::Steps::token_nowhere))]
fn tell_token(books: &mut Vec<Book<'_>>, wrong: &WrongToken) -> Result<(), AllocError>
    ensures { OnOk result (map book_of books.new.items ≡ books_told wrong.now
        (map book_of books.old.items)) }
{
    let connection = wrong.belongs.connection;
    if connection >= books.len() {
        return Ok(());
    }
    tell_in_book(&mut books[connection], wrong)?;
    Ok(())
}

fn tell_in_book(book: &mut Book<'_>, wrong: &WrongToken) -> Result<(), AllocError>
    ensures { OnOk result (book_of book.new ≡ token_told wrong.now (book_of book.old)) }
{
    let finding = Finding::Number32 {
        expected: wrong.expected,
        was: wrong.was,
    };
    match wrong.belongs.opener {
        Side::A => book.a.find(Rule::Token, wrong.packet, finding),
        Side::B => book.b.find(Rule::Token, wrong.packet, finding),
    }
}

// Which side sent a segment of a flow.
fn side_of(flow: &Flow, belongs: &Belongs, seen: &SeenSegment<'_>) -> Side
    ensures { result ≡ side_of flow.now belongs.now (as_seen seen.now) }
{
    if seen.source == flow.opener {
        belongs.opener
    } else {
        belongs.opener.peer()
    }
}

// A flow, if there is one with this number.
fn flow_at(flows: &[Flow], index: usize) -> Option<Flow>
    ensures { result ≡ slice_get flows.now index }
{
    flows.get(index).copied()
}

// What is known of a connection, if there is one with this number.
fn keys_at(connections: &[Keys], connection: usize) -> Option<Keys>
    ensures { result ≡ slice_get connections.now connection }
{
    connections.get(connection).copied()
}
