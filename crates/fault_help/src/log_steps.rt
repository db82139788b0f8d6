//! What the steps of a log are made as, where one of its lines is refused that has its form.

use crate::words::{behind_line, behind_lines, put_found};
use octet_text::{Text, split_line};
use run_log::{Turn, line};
use run_outside::{opening_count, split_at_first};
use std::alloc::{AllocError, Global};
use world_core::{Stepped, World};

/// What a turn is made as.
#[derive(Drop)]
enum Made {
    /// A step, which has this line.
    Step(Text),
    /// The end of a round.
    Round,
    /// Nothing: it can't be made.
    Nothing,
}

/// A line that tells another step than is made.
#[derive(Drop)]
struct Differing {
    number: u64,
    /// The line of the step that is made.
    made: Text,
}

/// What the lines of a log are made as.
#[derive(Drop)]
struct Walk {
    /// The first of the lines before the refused one that tells another step than is made.
    first: Option<Differing>,
    /// What the refused line tells, and what it is made as; None where the log has no such turn.
    last: Option<(Turn, Made)>,
}

/// Makes the next step of an actor.
fn made_step(alloc: Global, world: &mut World, actor: u8) -> Result<Made, AllocError> {
    match world.step(actor)? {
        Stepped::Made(note) => Ok(Made::Step(line(alloc, &note)?)),
        Stepped::Ended => Ok(Made::Nothing),
    }
}

fn made_turn(alloc: Global, world: &mut World, turn: Turn) -> Result<Made, AllocError> {
    match turn {
        Turn::Step(actor) => made_step(alloc, world, actor),
        Turn::Round => {
            if world.end_round() {
                Ok(Made::Round)
            } else {
                Ok(Made::Nothing)
            }
        }
    }
}

/// What stands behind two words.
fn behind_words(words: &[u8]) -> &[u8] {
    let (_, behind) = split_at_first(words, b' ');
    let (_, others) = split_at_first(behind, b' ');
    others
}

/// What a line says behind its stamp and its actor.
fn words_of(text: &[u8]) -> &[u8] {
    if text.is_empty() {
        return text;
    }
    let (told, _) = split_line(text);
    behind_words(told)
}

/// The first line that differs, as the line of this number tells and is made.
fn first_of(first: Option<Differing>, number: u64, told: &[u8], made: Made) -> Option<Differing> {
    if first.is_some() {
        return first;
    }
    match made {
        Made::Step(made) if words_of(told) != words_of(made.as_bytes()) => {
            Some(Differing { number, made })
        }
        _ => None,
    }
}

/// Makes the turns of a log up to its refused line.
fn made_up_to(
    alloc: Global,
    world: &mut World,
    log: &[u8],
    turns: &[Turn],
    refused: u64,
) -> Result<Walk, AllocError> {
    let mut number = opening_count(log);
    let (mut rest, mut first) = (behind_lines(log, number), None);
    for turn in turns {
        number = number.saturating_add(1);
        let made = made_turn(alloc, world, *turn)?;
        if number >= refused {
            let last = Some((*turn, made));
            return Ok(Walk { first, last });
        }
        first = first_of(first, number, rest, made);
        rest = behind_line(rest);
    }
    Ok(Walk { first, last: None })
}

/// Puts the words of a step.
fn put_step(text: &mut String, made: &Text) -> Result<(), AllocError> {
    for octet in words_of(made.as_bytes()) {
        text.push(char::from(*octet))?;
    }
    Ok(())
}

/// A part of a segment's line, and what stands around it in a sentence.
#[derive(Clone, Copy)]
struct Part {
    before: &'static str,
    behind: &'static str,
}

/// What a line tells of a segment, in order.
const PARTS: [Part; 4] = [
    Part {
        before: "the segment is from ",
        behind: "",
    },
    Part {
        before: "the segment has number ",
        behind: "",
    },
    Part {
        before: "the segment has ",
        behind: " octets",
    },
    Part {
        before: "the segment has checksum ",
        behind: "",
    },
];

/// Puts in what a segment differs that is sent, of whose words the first follow `me sent`, from the one that is told.
fn put_segment(text: &mut String, sent: &[u8], told: &[u8]) -> Result<(), AllocError> {
    let (mut sent, mut told) = (sent, told);
    for part in PARTS.as_slice() {
        let (is, sent_behind) = split_at_first(sent, b' ');
        let (says, told_behind) = split_at_first(told, b' ');
        if is != says {
            text.push_str(part.before)?;
            put_found(text, is)?;
            text.push_str(part.behind)?;
            text.push_str(", not ")?;
            return put_found(text, says);
        }
        sent = sent_behind;
        told = told_behind;
    }
    text.push_str("nothing stands behind the checksum")
}

/// Puts why a line is refused that tells a segment, where this step is made.
fn put_untold(text: &mut String, told: &[u8], made: &Text) -> Result<(), AllocError> {
    let (said, is) = (words_of(told), words_of(made.as_bytes()));
    if said == is {
        return text.push_str("a segment before this one isn't told");
    }
    if is.starts_with(b"me sent ") {
        return put_segment(text, behind_words(is), behind_words(said));
    }
    text.push_str("no segment is sent here, but the step is ")?;
    put_step(text, made)
}

/// Puts the next step of the first actor whose turn goes on.
fn put_going(text: &mut String, alloc: Global, world: &mut World) -> Result<(), AllocError> {
    for actor in 0..world.actors() {
        if let Made::Step(made) = made_step(alloc, world, actor)? {
            write!(text, ": actor {actor} goes on with ")?;
            return put_step(text, &made);
        }
    }
    Ok(())
}

/// Puts why a turn can't be made.
fn put_unmade(
    text: &mut String,
    alloc: Global,
    world: &mut World,
    turn: Turn,
) -> Result<(), AllocError> {
    match turn {
        Turn::Step(actor) => {
            write!(
                text,
                "this step can't be made here: actor {actor}'s turn has ended"
            )
        }
        Turn::Round => {
            text.push_str("the round can't end here")?;
            put_going(text, alloc, world)
        }
    }
}

/// Puts the line from which on the steps are others.
fn put_first(text: &mut String, first: &Option<Differing>) -> Result<(), AllocError> {
    let Some(differing) = first else {
        return Ok(());
    };
    write!(
        text,
        "; already line {} differs: the step is ",
        differing.number
    )?;
    put_step(text, &differing.made)
}

/// Puts why a line of a log is refused that has its form: its turn can't be made, or it tells another segment than the one that is sent;
/// and the first line before it that tells another step than is made. The world stands before its first step.
pub fn put_step_fault(
    text: &mut String,
    alloc: Global,
    world: &mut World,
    log: &[u8],
    turns: &[Turn],
    refused: u64,
) -> Result<(), AllocError> {
    let Walk { first, last } = made_up_to(alloc, world, log, turns, refused)?;
    match last {
        Some((turn, Made::Nothing)) => put_unmade(text, alloc, world, turn)?,
        Some((_, Made::Step(made))) => {
            let told = behind_lines(log, refused.saturating_sub(1));
            put_untold(text, told, &made)?;
        }
        Some((_, Made::Round)) | None => text.push_str("a segment is sent that no line tells")?,
    }
    put_first(text, &first)
}
