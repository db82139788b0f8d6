//! The lines that are told of a capture.

ghost use Rattle.std.specs.List.{slice_get};
ghost use Rattle.std.specs.Prelude.{◌≡◌, ◌++◌, map, option_map, IfOk, OnOk, string_bytes};
ghost use Rattle.seen_streams.specs.Shows.{as_broken, as_fault, stream_of};
ghost use Rattle.rule_book.specs.State.{book_of, judged_of};
ghost use Rattle.capture_verdict.specs.Report.{all_words, broken_line, broken_words, connection_line, connection_text, fault_words, kept_line, line_words, report_words, side_words, stray_line, stray_words_of, strays_words, text_at, text_by, text_in};

use crate::order::in_order;
use crate::totals::{Totals, Unread, all_totals, flow_at};
use judge_rules::{Broken, Fault};
use judge_words::{
    ConnectionLine, KeptLine, StrayLine, put_broke, put_connection, put_finding, put_kept,
    put_no_option, put_stray,
};
use key_material::token;
use rule_book::{Book, Judged};
use seen_connections::{Flow, Keys, Opening};
use seen_streams::Stream;
use sides::Side;
use std::alloc::{AllocError, Global};

/// All lines: for each connection one, then those of its sides; then the joins whose connection wasn't found.
///
/// # Errors
///
/// Want of memory.
pub fn report(alloc: Global, judged: &Judged<'_>) -> Result<String, AllocError>
    ensures { IfOk result (λ text. string_bytes text ≡ report_words (judged_of judged.now)) }
{
    let mut text = String::new(alloc);
    let totals = all_totals(alloc, judged)?;
    put_all(alloc, &mut text, judged, &totals)?;
    put_strays(alloc, &mut text, judged.seen.flows())?;
    Ok(text)
}

fn put_all(
    alloc: Global,
    text: &mut String,
    judged: &Judged<'_>,
    totals: &[Totals],
) -> Result<(), AllocError>
    ensures { OnOk result (string_bytes text.new ≡
        string_bytes text.old ++ all_words (judged_of judged.now) 0 totals.now) }
{
    let mut number = 0;
    for one in totals {
        put_at(alloc, text, judged, number, one)?;
        number += 1;
    }
    Ok(())
}

// The connection with a number.
fn put_at(
    alloc: Global,
    text: &mut String,
    judged: &Judged<'_>,
    number: usize,
    totals: &Totals,
) -> Result<(), AllocError>
    ensures { OnOk result (string_bytes text.new ≡
        string_bytes text.old ++ text_at (judged_of judged.now) number totals.now) }
{
    let book = book_at(&judged.books, number);
    let keys = keys_at(judged.seen.connections(), number);
    put_by(alloc, text, judged.seen.flows(), number, book, keys, totals)
}

fn book_at<'a, 'b>(books: &'b [Book<'a>], number: usize) -> Option<&'b Book<'a>>
    ensures { option_map (λ book. book_of book.now) result ≡
        slice_get (map book_of books.entry.now) number }
{
    books.get(number)
}

fn keys_at(connections: &[Keys], number: usize) -> Option<Keys>
    ensures { result ≡ slice_get connections.now number }
{
    connections.get(number).copied()
}

// A connection by its book and its keys, if it has these.
fn put_by(
    alloc: Global,
    text: &mut String,
    flows: &[Flow],
    number: usize,
    book: Option<&Book<'_>>,
    keys: Option<Keys>,
    totals: &Totals,
) -> Result<(), AllocError>
    ensures { OnOk result (string_bytes text.new ≡
        string_bytes text.old ++ text_by flows.now number
        (option_map (λ book. book_of book.now) book.entry) keys totals.now) }
{
    match (book, keys) {
        (Some(book), Some(keys)) => {
            let first = flow_at(flows, keys.flow);
            put_in(alloc, text, number, book, &keys, first, totals)
        }
        _ => Ok(()),
    }
}

// A connection by its first flow, if it has one.
fn put_in(
    alloc: Global,
    text: &mut String,
    number: usize,
    book: &Book<'_>,
    keys: &Keys,
    first: Option<Flow>,
    totals: &Totals,
) -> Result<(), AllocError>
    ensures { OnOk result (string_bytes text.new ≡
        string_bytes text.old ++ text_in number (book_of book.now) keys.now first totals.now) }
{
    match first {
        Some(first) => put_one(alloc, text, number, book, keys, &first, totals),
        None => Ok(()),
    }
}

fn put_one(
    alloc: Global,
    text: &mut String,
    number: usize,
    book: &Book<'_>,
    keys: &Keys,
    first: &Flow,
    totals: &Totals,
) -> Result<(), AllocError>
    ensures { OnOk result (string_bytes text.new ≡
        string_bytes text.old ++ connection_text number (book_of book.now) keys.now first.now
        totals.now) }
{
    let line = connection_line(number, book.gaps, keys, first, totals);
    put_connection(alloc, text, &line)?;
    let syn_data = first.syn_octets as u64;
    put_side(alloc, text, Side::A, &book.a, &totals.a, syn_data)?;
    put_side(alloc, text, Side::B, &book.b, &totals.b, 0)
}

fn connection_line(
    number: usize,
    gaps: u64,
    keys: &Keys,
    first: &Flow,
    totals: &Totals,
) -> ConnectionLine
    ensures { result ≡ connection_line number gaps keys.now first.now totals.now }
{
    ConnectionLine {
        number,
        opener: first.opener,
        other: first.other,
        token_b: token(keys.b),
        subflows: totals.subflows,
        packets: totals.packets,
        checksums: keys.checksums,
        gaps,
        cut: totals.cut,
        wrong_sums: totals.wrong_sums,
    }
}

// A side that broke no rule has a line, one that broke some has a line for each.
#[tactic(auto, using(crate::proofs::Empty::none_broken))]
fn put_side(
    alloc: Global,
    text: &mut String,
    side: Side,
    sent: &Stream<'_>,
    unread: &Unread,
    syn_data: u64,
) -> Result<(), AllocError>
    ensures { OnOk result (string_bytes text.new ≡
        string_bytes text.old ++ side_words side (stream_of sent.now) unread.now syn_data) }
{
    if sent.broken().is_empty() {
        put_kept(text, &kept_line(side, sent, unread, syn_data))
    } else {
        put_broken(alloc, text, side, sent.broken())
    }
}

fn kept_line(side: Side, sent: &Stream<'_>, unread: &Unread, syn_data: u64) -> KeptLine
    ensures { result ≡ kept_line side (stream_of sent.now) unread.now syn_data }
{
    let counts = sent.counts();
    KeptLine {
        side,
        keys: counts.keys,
        joins: counts.joins,
        mappings: counts.mappings,
        sums: counts.sums,
        unseen: unread.unseen,
        data_acks: counts.data_acks,
        fin: sent.fin().map(|fin| fin.place),
        syn_data,
        unmapped: unread.unmapped,
    }
}

fn put_broken(
    alloc: Global,
    text: &mut String,
    side: Side,
    broken: &[Broken<'_>],
) -> Result<(), AllocError>
    ensures { OnOk result (string_bytes text.new ≡
        string_bytes text.old ++ broken_words side (map as_broken broken.now)) }
{
    let broken = in_order(alloc, broken)?;
    put_lines(alloc, text, side, &broken)
}

fn put_lines(
    alloc: Global,
    text: &mut String,
    side: Side,
    broken: &[Broken<'_>],
) -> Result<(), AllocError>
    ensures { OnOk result (string_bytes text.new ≡
        string_bytes text.old ++ line_words side (map as_broken broken.now)) }
{
    for one in broken {
        put_line(alloc, text, side, one)?;
    }
    Ok(())
}

fn put_line(
    alloc: Global,
    text: &mut String,
    side: Side,
    broken: &Broken<'_>,
) -> Result<(), AllocError>
    ensures { OnOk result (string_bytes text.new ≡
        string_bytes text.old ++ broken_line side (as_broken broken.now)) }
{
    put_broke(text, side, broken.rule, broken.packet)?;
    put_fault(alloc, text, &broken.fault)?;
    text.push_str("\n")
}

fn put_fault(alloc: Global, text: &mut String, fault: &Fault<'_>) -> Result<(), AllocError>
    ensures { OnOk result (string_bytes text.new ≡
        string_bytes text.old ++ fault_words (as_fault fault.now)) }
{
    match *fault {
        Fault::NoOption { octets } => put_no_option(alloc, text, octets),
        Fault::Found { finding } => put_finding(alloc, text, &finding),
    }
}

fn put_strays(alloc: Global, text: &mut String, flows: &[Flow]) -> Result<(), AllocError>
    ensures { OnOk result (string_bytes text.new ≡
        string_bytes text.old ++ strays_words flows.now) }
{
    for flow in flows {
        put_if_stray(alloc, text, flow)?;
    }
    Ok(())
}

// A join that belongs to no connection has a line.
fn put_if_stray(alloc: Global, text: &mut String, flow: &Flow) -> Result<(), AllocError>
    ensures { OnOk result (string_bytes text.new ≡
        string_bytes text.old ++ stray_words_of flow.now) }
{
    match (flow.opening, flow.belongs) {
        (Opening::Join { token, .. }, None) => put_stray(alloc, text, &stray_line(flow, token)),
        _ => Ok(()),
    }
}

fn stray_line(flow: &Flow, token: u32) -> StrayLine
    ensures { result ≡ stray_line flow.now token }
{
    StrayLine {
        packet: flow.first,
        opener: flow.opener,
        other: flow.other,
        was_reset: flow.was_reset,
        token,
    }
}
