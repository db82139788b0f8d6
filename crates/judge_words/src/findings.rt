//! What broke a rule, in words.

ghost use Rattle.std.specs.Prelude.{◌≡◌, ◌++◌, IfOk, OnOk, string_bytes};
ghost use Rattle.std.specs.Int.{to_be_bytes};
ghost use Rattle.judge_words.specs.Words.{after_infinite_words, beyond_fin_words, expected_words, finding_words, mapping_words, no_option_words, no_position_words, number_words, other_place_words};
ghost use Rattle.judge_rules.specs.declared.finding.Finding.TheVariants as found;

use judge_rules::{Finding, Told};
use std::alloc::{AllocError, Global};
use std::fmt::Write;

/// Adds that these octets read as no option.
#[tactic(auto, unfolding(crate::specs::Words::no_option_words))]
pub fn put_no_option(alloc: Global, text: &mut String, octets: &[u8]) -> Result<(), AllocError>
    ensures { OnOk result (string_bytes text.new ≡
        string_bytes text.old ++ no_option_words octets.now) }
{
    let octets = hex::encode(alloc, octets)?;
    write!(text, "no option reads {octets}")
}

/// Adds what was found.
pub fn put_finding(alloc: Global, text: &mut String, finding: &Finding) -> Result<(), AllocError>
    ensures { OnOk result (string_bytes text.new ≡
        string_bytes text.old ++ finding_words finding.now) }
{
    match *finding {
        Finding::Number64 { expected, was } => {
            put_expected(alloc, text, &expected.to_be_bytes(), &was.to_be_bytes())
        }
        Finding::Number32 { expected, was } => {
            put_expected(alloc, text, &expected.to_be_bytes(), &was.to_be_bytes())
        }
        Finding::Hmac160 { expected, was } => put_hmac(alloc, text, &expected, &was),
        Finding::WrongSum {
            place,
            length,
            packet,
            expected,
            was,
        } => {
            put_mapping(text, place, length, packet)?;
            put_expected(alloc, text, &expected.to_be_bytes(), &was.to_be_bytes())
        }
        Finding::NoPlace { number } => put_no_place(alloc, text, &number),
        Finding::NoPosition { relative } => put_no_position(alloc, text, relative),
        Finding::NoMapping { number } => put_no_mapping(alloc, text, number),
        Finding::OtherOctet {
            place,
            was,
            packet,
            is,
        } => put_other_octet(alloc, text, place, was, packet, is),
        Finding::OtherPlace {
            position,
            was,
            packet,
            is,
        } => put_other_place(text, position, was, packet, is),
        Finding::AfterInfinite {
            position,
            place,
            packet,
        } => put_after_infinite(text, position, place, packet),
        Finding::OtherFin { place, was, packet } => put_other_fin(text, place, was, packet),
        Finding::MappedBeyond { place, mapped } => put_mapped_beyond(text, place, mapped),
        Finding::BeyondFin {
            mapped,
            was,
            packet,
        } => put_beyond_fin(text, mapped, was, packet),
        Finding::Outside {
            from,
            last,
            mapped_from,
            mapped_last,
        } => write!(
            text,
            "positions {from} to {last} in {mapped_from} to {mapped_last}"
        ),
        Finding::NotSeen { place, most } => write!(text, "place {place}, at most {most} was seen"),
        Finding::Falls { place, after } => write!(text, "place {place} after {after}"),
    }
}

#[tactic(auto, unfolding(crate::specs::Words::expected_words))]
fn put_expected(
    alloc: Global,
    text: &mut String,
    expected: &[u8],
    was: &[u8],
) -> Result<(), AllocError>
    ensures { OnOk result (string_bytes text.new ≡
        string_bytes text.old ++ expected_words expected.now was.now) }
{
    let expected = hex::encode(alloc, expected)?;
    let was = hex::encode(alloc, was)?;
    write!(text, "expected {expected} was {was}")
}

fn put_hmac(
    alloc: Global,
    text: &mut String,
    expected: &[u8; 20],
    was: &[u8; 20],
) -> Result<(), AllocError>
    ensures { OnOk result (string_bytes text.new ≡
        string_bytes text.old ++ expected_words expected.now was.now) }
{
    put_expected(alloc, text, expected, was)
}

#[tactic(auto, unfolding(crate::specs::Words::mapping_words))]
fn put_mapping(text: &mut String, place: u64, length: u16, packet: u32) -> Result<(), AllocError>
    ensures { OnOk result (string_bytes text.new ≡
        string_bytes text.old ++ mapping_words place length packet) }
{
    write!(
        text,
        "mapping of place {place} length {length} at packet {packet}: "
    )
}

#[tactic(auto, unfolding(crate::specs::Words::other_place_words))]
fn put_other_place(
    text: &mut String,
    position: u64,
    was: u64,
    packet: u32,
    is: u64,
) -> Result<(), AllocError>
    ensures { OnOk result (string_bytes text.new ≡
        string_bytes text.old ++ other_place_words position was packet is) }
{
    write!(
        text,
        "position {position} was place {was} at packet {packet}, is {is}"
    )
}

#[tactic(auto, unfolding(crate::specs::Words::after_infinite_words))]
fn put_after_infinite(
    text: &mut String,
    position: i64,
    place: u64,
    packet: u32,
) -> Result<(), AllocError>
    ensures { OnOk result (string_bytes text.new ≡
        string_bytes text.old ++ after_infinite_words position place packet) }
{
    write!(
        text,
        "position {position} is place {place} after packet {packet}"
    )
}

fn put_other_fin(text: &mut String, place: u64, was: u64, packet: u32) -> Result<(), AllocError>
    ensures { OnOk result (string_bytes text.new ≡
        string_bytes text.old ++ finding_words (found.OtherFin place was packet)) }
{
    write!(text, "place {place} was {was} at packet {packet}")
}

fn put_mapped_beyond(text: &mut String, place: u64, mapped: u64) -> Result<(), AllocError>
    ensures { OnOk result (string_bytes text.new ≡
        string_bytes text.old ++ finding_words (found.MappedBeyond place mapped)) }
{
    write!(text, "place {place}, mapped up to {mapped}")
}

#[tactic(auto, unfolding(crate::specs::Words::beyond_fin_words))]
fn put_beyond_fin(text: &mut String, mapped: u64, was: u64, packet: u32) -> Result<(), AllocError>
    ensures { OnOk result (string_bytes text.new ≡
        string_bytes text.old ++ beyond_fin_words mapped was packet) }
{
    write!(text, "mapped up to {mapped}, was {was} at packet {packet}")
}

fn put_no_place(alloc: Global, text: &mut String, number: &Told) -> Result<(), AllocError>
    ensures { OnOk result (string_bytes text.new ≡
        string_bytes text.old ++ finding_words (found.NoPlace number.now)) }
{
    let number = number_words(alloc, number)?;
    write!(text, "number {number} is no place")
}

fn number_words(alloc: Global, number: &Told) -> Result<String, AllocError>
    ensures { IfOk result (λ words. string_bytes words ≡ number_words number.now) }
{
    match *number {
        Told::Whole { number } => hex::encode(alloc, number.to_be_bytes()),
        Told::Low { number } => hex::encode(alloc, number.to_be_bytes()),
    }
}

#[tactic(auto, unfolding(crate::specs::Words::no_position_words))]
fn put_no_position(alloc: Global, text: &mut String, relative: u32) -> Result<(), AllocError>
    ensures { OnOk result (string_bytes text.new ≡
        string_bytes text.old ++ no_position_words relative) }
{
    let relative = hex::encode(alloc, relative.to_be_bytes())?;
    write!(text, "relative number {relative} is no position")
}

fn put_no_mapping(alloc: Global, text: &mut String, number: u64) -> Result<(), AllocError>
    ensures { OnOk result (string_bytes text.new ≡
        string_bytes text.old ++ finding_words (found.NoMapping number)) }
{
    let number = hex::encode(alloc, number.to_be_bytes())?;
    write!(text, "number {number} is of no mapping")
}

fn put_other_octet(
    alloc: Global,
    text: &mut String,
    place: u64,
    was: u8,
    packet: u32,
    is: u8,
) -> Result<(), AllocError>
    ensures { OnOk result (string_bytes text.new ≡
        string_bytes text.old ++ finding_words (found.OtherOctet place was packet is)) }
{
    let was = hex::encode(alloc, [was])?;
    let is = hex::encode(alloc, [is])?;
    write!(text, "place {place} was {was} at packet {packet}, is {is}")
}
