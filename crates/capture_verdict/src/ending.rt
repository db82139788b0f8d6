//! How it ends with what was judged.

ghost use Rattle.std.specs.Prelude.{◌≡◌, map};
ghost use Rattle.std.specs.List.{list_any};
ghost use Rattle.rule_book.specs.State.{book_of, judged_of};
ghost use Rattle.seen_streams.specs.Shows.{stream_of};
ghost use Rattle.capture_verdict.specs.Ending.{broke_rule, ending_of, has_none, is_broken, was_refused};

use rule_book::{Book, Judged};
use seen_connections::Flow;
use seen_streams::Stream;

/// How it ends.
#[derive(Clone, Copy, PartialEq, Eq)]
pub enum Ending {
    /// All sides kept all rules.
    Kept,
    /// A side broke a rule, or a join was reset whose connection wasn't found.
    Broken,
    /// There is no connection.
    NoConnection,
}

/// How it ends with what was judged.
#[tactic(auto, using(crate::proofs::Empty::no_book))]
pub fn ending_of(judged: &Judged<'_>) -> Ending
    ensures { result ≡ ending_of (judged_of judged.now) }
{
    if judged.books.is_empty() {
        return Ending::NoConnection;
    }
    if is_broken(judged) {
        return Ending::Broken;
    }
    Ending::Kept
}

fn is_broken(judged: &Judged<'_>) -> bool
    ensures { result ≡ is_broken (judged_of judged.now) }
{
    any_broke_rule(&judged.books) || any_refused(judged.seen.flows())
}

fn any_refused(flows: &[Flow]) -> bool
    ensures { result ≡ list_any was_refused flows.now }
{
    flows.iter().any(|flow| was_refused(flow))
}

fn any_broke_rule(books: &[Book<'_>]) -> bool
    ensures { result ≡ list_any broke_rule (map book_of books.now) }
{
    for book in books {
        if broke_rule(book) {
            return true;
        }
    }
    false
}

// Whether a side of a connection broke a rule.
fn broke_rule(book: &Book<'_>) -> bool
    ensures { result ≡ broke_rule (book_of book.now) }
{
    !broke_none(&book.a) || !broke_none(&book.b)
}

#[tactic(auto, using(crate::proofs::Empty::none_broken))]
fn broke_none(sent: &Stream<'_>) -> bool
    ensures { result ≡ has_none (stream_of sent.now).broken }
{
    sent.broken().is_empty()
}

// A join whose connection wasn't found, and which the other end reset.
fn was_refused(flow: &Flow) -> bool
    ensures { result ≡ was_refused flow.now }
{
    flow.is_stray() && flow.was_reset
}
