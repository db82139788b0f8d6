//! The lines that are told.

ghost use Rattle.std.specs.Prelude.{◌≡◌, ◌++◌, OnOk, string_bytes};
ghost use Rattle.judge_words.specs.Lines.{broke_words, connection_words, count_words, end_words, ends_words, fate_words, fin_words, flows_words, join_words, kept_words, lack_words, numbered_words, packet_words, pair_words, seen_words, stray_word, stray_words, switch_word, token_words, tried_words, unmapped_words};

use crate::rules::word_of;
use capture_reader::End;
use judge_rules::Rule;
use key_material::Address;
use sides::Side;
use std::alloc::{AllocError, Global};
use std::fmt::Write;
use std::net::{Ipv4Addr, Ipv6Addr};

/// What the line of a connection tells.
#[derive(Clone, Copy)]
pub struct ConnectionLine {
    pub number: usize,
    pub opener: End,
    pub other: End,
    pub token_b: u32,
    pub subflows: u64,
    pub packets: u64,
    pub checksums: bool,
    pub gaps: u64,
    pub cut: u64,
    pub wrong_sums: u64,
}

/// What the line of a side tells that kept all rules.
#[derive(Clone, Copy)]
pub struct KeptLine {
    pub side: Side,
    pub keys: u64,
    pub joins: u64,
    pub mappings: u64,
    pub sums: u64,
    pub unseen: u64,
    pub data_acks: u64,
    pub fin: Option<u64>,
    pub syn_data: u64,
    pub unmapped: u64,
}

/// What the line of a join tells whose connection wasn't found.
#[derive(Clone, Copy)]
pub struct StrayLine {
    pub packet: u32,
    pub opener: End,
    pub other: End,
    pub was_reset: bool,
    pub token: u32,
}

#[tactic(auto, unfolding(crate::specs::Lines::end_words))]
fn put_end(text: &mut String, end: &End) -> Result<(), AllocError>
    ensures { OnOk result (string_bytes text.new ≡ string_bytes text.old ++ end_words end.now) }
{
    let port = end.port;
    match end.address {
        Address::V4(octets) => {
            let ip = Ipv4Addr::from_octets(octets);
            write!(text, "{ip}:{port}")
        }
        Address::V6(octets) => {
            let ip = Ipv6Addr::from_octets(octets);
            write!(text, "[{ip}]:{port}")
        }
    }
}

// A count that is told where it isn't 0.
fn put_count(text: &mut String, word: &str, count: u64) -> Result<(), AllocError>
    ensures { OnOk result (string_bytes text.new ≡
        string_bytes text.old ++ count_words word.now count) }
{
    if count == 0 {
        return Ok(());
    }
    write!(text, " {word} {count}")
}

fn switch_word(on: bool) -> &'static str
    ensures { result.now ≡ switch_word on }
{
    if on { "on" } else { "off" }
}

/// Adds the line of a connection.
pub fn put_connection(
    alloc: Global,
    text: &mut String,
    line: &ConnectionLine,
) -> Result<(), AllocError>
    ensures { OnOk result (string_bytes text.new ≡
        string_bytes text.old ++ connection_words line.now) }
{
    put_ends(text, line)?;
    put_token(alloc, text, line.token_b)?;
    put_flows(text, line)?;
    put_lacks(text, line)
}

fn put_ends(text: &mut String, line: &ConnectionLine) -> Result<(), AllocError>
    ensures { OnOk result (string_bytes text.new ≡ string_bytes text.old ++ ends_words line.now) }
{
    put_number(text, line.number)?;
    put_pair(text, &line.opener, " b ", &line.other)
}

#[tactic(auto, unfolding(crate::specs::Lines::numbered_words))]
fn put_number(text: &mut String, number: usize) -> Result<(), AllocError>
    ensures { OnOk result (string_bytes text.new ≡ string_bytes text.old ++ numbered_words number) }
{
    write!(text, "connection {number} a ")
}

// Two ends, with these words between.
#[tactic(auto, unfolding(crate::specs::Lines::pair_words))]
fn put_pair(text: &mut String, one: &End, between: &str, other: &End) -> Result<(), AllocError>
    ensures { OnOk result (string_bytes text.new ≡
        string_bytes text.old ++ pair_words one.now between.now other.now) }
{
    put_end(text, one)?;
    text.push_str(between)?;
    put_end(text, other)
}

#[tactic(auto, unfolding(crate::specs::Lines::token_words))]
fn put_token(alloc: Global, text: &mut String, token: u32) -> Result<(), AllocError>
    ensures { OnOk result (string_bytes text.new ≡ string_bytes text.old ++ token_words token) }
{
    let token = hex::encode(alloc, token.to_be_bytes())?;
    write!(text, " token-b {token}")
}

#[tactic(auto, unfolding(crate::specs::Lines::flows_words))]
fn put_flows(text: &mut String, line: &ConnectionLine) -> Result<(), AllocError>
    ensures { OnOk result (string_bytes text.new ≡ string_bytes text.old ++ flows_words line.now) }
{
    let (subflows, packets, checksums) = (line.subflows, line.packets, switch_word(line.checksums));
    write!(
        text,
        " subflows {subflows} packets {packets} checksums {checksums}"
    )
}

#[tactic(auto, unfolding(crate::specs::Lines::lack_words))]
fn put_lacks(text: &mut String, line: &ConnectionLine) -> Result<(), AllocError>
    ensures { OnOk result (string_bytes text.new ≡ string_bytes text.old ++ lack_words line.now) }
{
    put_count(text, "gaps", line.gaps)?;
    put_count(text, "cut", line.cut)?;
    put_count(text, "tcp-sum", line.wrong_sums)?;
    text.push_str("\n")
}

/// Adds the line of a side that kept all rules.
pub fn put_kept(text: &mut String, line: &KeptLine) -> Result<(), AllocError>
    ensures { OnOk result (string_bytes text.new ≡ string_bytes text.old ++ kept_words line.now) }
{
    put_tried(text, line)?;
    put_seen(text, line)?;
    put_fin(text, line.fin)?;
    put_unmapped(text, line)
}

#[tactic(auto, unfolding(crate::specs::Lines::tried_words))]
fn put_tried(text: &mut String, line: &KeptLine) -> Result<(), AllocError>
    ensures { OnOk result (string_bytes text.new ≡ string_bytes text.old ++ tried_words line.now) }
{
    let (side, keys) = (line.side.word(), line.keys);
    let (joins, mappings) = (line.joins, line.mappings);
    write!(
        text,
        "side {side} kept: keys {keys} joins {joins} mappings {mappings}"
    )
}

#[tactic(auto, unfolding(crate::specs::Lines::seen_words))]
fn put_seen(text: &mut String, line: &KeptLine) -> Result<(), AllocError>
    ensures { OnOk result (string_bytes text.new ≡ string_bytes text.old ++ seen_words line.now) }
{
    let (sums, unseen, data_acks) = (line.sums, line.unseen, line.data_acks);
    write!(
        text,
        " sums {sums} unseen {unseen} data-acks {data_acks} data-fin "
    )
}

fn put_fin(text: &mut String, fin: Option<u64>) -> Result<(), AllocError>
    ensures { OnOk result (string_bytes text.new ≡ string_bytes text.old ++ fin_words fin) }
{
    match fin {
        Some(place) => write!(text, "{place}"),
        None => text.push_str("-"),
    }
}

#[tactic(auto, unfolding(crate::specs::Lines::unmapped_words))]
fn put_unmapped(text: &mut String, line: &KeptLine) -> Result<(), AllocError>
    ensures { OnOk result (string_bytes text.new ≡
        string_bytes text.old ++ unmapped_words line.now) }
{
    put_count(text, "syn-data", line.syn_data)?;
    put_count(text, "unmapped", line.unmapped)?;
    text.push_str("\n")
}

/// Adds how a line begins that tells a rule that a side broke.
pub fn put_broke(text: &mut String, side: Side, rule: Rule, packet: u32) -> Result<(), AllocError>
    ensures { OnOk result (string_bytes text.new ≡
        string_bytes text.old ++ broke_words side rule packet) }
{
    let (side, rule) = (side.word(), word_of(rule));
    write!(text, "side {side} broke {rule} at packet {packet}: ")
}

fn stray_word(was_reset: bool) -> &'static str
    ensures { result.now ≡ stray_word was_reset }
{
    if was_reset { "broke" } else { "unseen" }
}

/// Adds the line of a join whose connection wasn't found.
pub fn put_stray(alloc: Global, text: &mut String, line: &StrayLine) -> Result<(), AllocError>
    ensures { OnOk result (string_bytes text.new ≡ string_bytes text.old ++ stray_words line.now) }
{
    put_join(text, line)?;
    put_fate(alloc, text, line)
}

#[tactic(auto, unfolding(crate::specs::Lines::fate_words))]
fn put_fate(alloc: Global, text: &mut String, line: &StrayLine) -> Result<(), AllocError>
    ensures { OnOk result (string_bytes text.new ≡ string_bytes text.old ++ fate_words line.now) }
{
    let token = hex::encode(alloc, line.token.to_be_bytes())?;
    let word = stray_word(line.was_reset);
    write!(text, " {word} token {token}\n")
}

fn put_join(text: &mut String, line: &StrayLine) -> Result<(), AllocError>
    ensures { OnOk result (string_bytes text.new ≡ string_bytes text.old ++ join_words line.now) }
{
    put_packet(text, line.packet)?;
    put_pair(text, &line.opener, " to ", &line.other)
}

#[tactic(auto, unfolding(crate::specs::Lines::packet_words))]
fn put_packet(text: &mut String, packet: u32) -> Result<(), AllocError>
    ensures { OnOk result (string_bytes text.new ≡ string_bytes text.old ++ packet_words packet) }
{
    write!(text, "join at packet {packet} from ")
}
