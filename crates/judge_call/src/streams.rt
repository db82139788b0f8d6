//! The streams that both sides of each connection sent.

ghost use Rattle.std.specs.Prelude.{◌≡◌, map, IfOk, string_bytes};
ghost use Rattle.rule_book.specs.State.{book_of};
ghost use Rattle.seen_streams.specs.Shows.{stream_of};
ghost use Rattle.judge_call.specs.Plan.{Follows, book_steps, books_steps, stream_steps};
ghost use Rattle.judge_call.specs.Streams.{stream_name};

use crate::putting::{bind, put};
use crate::status::Status;
use capture_verdict::sent_by;
use outside_kit::{Outside, Port};
use rule_book::Book;
use seen_streams::Stream;
use sides::Side;
use std::alloc::{AllocError, Global};

/// Writes both streams of each connection.
///
/// # Errors
///
/// `Put` where a name can't be bound or a stream can't be put, `Memory` where there is no memory.
pub(crate) fn put_streams<O: Outside>(
    alloc: Global,
    outside: &mut O,
    prefix: &str,
    books: &[Book<'_>],
) -> Result<(), Status>
    ensures { Follows (books_steps prefix.now 0 (map book_of books.now)) (O.told outside.old).calls
        (O.told outside.new).calls result }
{
    let mut number = 0;
    for book in books {
        put_both(alloc, outside, prefix, number, book)?;
        number += 1;
    }
    Ok(())
}

// Writes both streams of a connection.
fn put_both<O: Outside>(
    alloc: Global,
    outside: &mut O,
    prefix: &str,
    number: usize,
    book: &Book<'_>,
) -> Result<(), Status>
    ensures { Follows (book_steps prefix.now number (book_of book.now)) (O.told outside.old).calls
        (O.told outside.new).calls result }
{
    let name = stream_name(alloc, prefix, number, Side::A)?;
    put_stream(alloc, outside, Port::ReadByB, name.as_str(), &book.a)?;
    let name = stream_name(alloc, prefix, number, Side::B)?;
    put_stream(alloc, outside, Port::ReadByA, name.as_str(), &book.b)
}

#[tactic(auto, unfolding(crate::specs::Streams::stream_name))]
fn stream_name(alloc: Global, prefix: &str, number: usize, side: Side) -> Result<String, AllocError>
    ensures { IfOk result (λ name. string_bytes name ≡ stream_name prefix.now number side) }
{
    let side = side.word();
    format!(in alloc; "{prefix}-{number}-{side}")
}

// Writes a stream under a name.
fn put_stream<O: Outside>(
    alloc: Global,
    outside: &mut O,
    port: Port,
    name: &str,
    stream: &Stream<'_>,
) -> Result<(), Status>
    ensures { Follows (stream_steps port name.now (stream_of stream.now).octet)
        (O.told outside.old).calls (O.told outside.new).calls result }
{
    let octets = sent_by(alloc, stream)?;
    bind(outside, port, name)?;
    put(outside, port, &octets)
}
