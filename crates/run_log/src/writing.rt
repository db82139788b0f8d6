//! Writes the lines of a log.

ghost use Rattle.std.specs.Prelude.{◌≡◌, ◌∷◌, ◌++◌, [], All, OnOk, IfOk, map, string_bytes};
ghost use Rattle.std.specs.Fmt.{decimal};
ghost use Rattle.std.specs.List.{AllByRecursion, flat_map};
ghost use Rattle.link_script.specs.Writing.{spaced};
ghost use Rattle.run_log.specs.Fitting.{AskFits, ReplyFits, NoteFits};
ghost use Rattle.run_log.specs.Calls.{ask_words};
ghost use Rattle.run_log.specs.Replies.{reply_text};
ghost use Rattle.run_log.specs.Lines.{object_of, step_text, round_lines, round_text, key_word, keys_text, outcome_text, opening_lines, ended};

use crate::control_call::put_control_call;
use crate::control_reply::put_control_reply;
use crate::local::put_local;
use crate::name::object_name;
use crate::number::{put_behind, put_one};
use crate::outcome::Outcome;
use crate::reassembly::{put_reassembly_call, put_reassembly_reply};
use crate::send::{put_send_call, put_send_reply};
use actor_desk::{Ask, Note, Reply};
use itoa::Buffer;
use octet_text::Text;
use sides::Object;
use std::alloc::{AllocError, Global};

/// On which object a step is made.
fn object_of(ask: &Ask) -> Object
    ensures { result ≡ object_of ask.now }
{
    match ask {
        Ask::Send(side, _) => Object::Send(*side),
        Ask::Reassembly(side, _) => Object::Reassembly(*side),
        Ask::Control(side, _) => Object::Control(*side),
        Ask::Local(_) => Object::Me,
    }
}

fn put_ask(text: &mut String, ask: &Ask) -> Result<(), AllocError>
    ensures text { OnOk result (string_bytes text.new ≡
        string_bytes text.old ++ spaced (ask_words ask.now)) }
    ensures fits { OnOk result (AskFits ask.now) }
{
    match ask {
        Ask::Send(_, call) => put_send_call(text, call),
        Ask::Reassembly(_, call) => put_reassembly_call(text, call),
        Ask::Control(_, call) => put_control_call(text, call),
        Ask::Local(step) => put_local(text, *step),
    }
}

/// Puts a book's reply behind ` = `.
fn put_reply(text: &mut String, reply: &Reply) -> Result<(), AllocError>
    ensures text { OnOk result (string_bytes text.new ≡
        string_bytes text.old ++ reply_text reply.now) }
    ensures fits { OnOk result (ReplyFits reply.now) }
{
    match reply {
        Reply::Send(reply) => {
            text.push_str(" = ")?;
            put_send_reply(text, reply)
        }
        Reply::Reassembly(reply) => {
            text.push_str(" = ")?;
            put_reassembly_reply(text, reply)
        }
        Reply::Control(reply) => {
            text.push_str(" = ")?;
            put_control_reply(text, reply)
        }
        Reply::Done => Ok(()),
    }
}

/// Puts the stamp and the actor of a step, the name of an object, and a space.
fn put_head(text: &mut String, stamp: u64, actor: u8, object: &str) -> Result<(), AllocError>
    ensures { OnOk result (string_bytes text.new ≡ string_bytes text.old ++
        spaced (decimal stamp ∷ decimal actor ∷ object.now ∷ [] ∷ [])) }
{
    put_one(text, Buffer::new().format(stamp), u64::from(actor))?;
    put_behind(text, object)?;
    text.push_str(" ")
}

/// Puts the line of a step at the end of a text.
fn put_line(text: &mut String, note: &Note) -> Result<(), AllocError>
    ensures text { OnOk result (string_bytes text.new ≡
        string_bytes text.old ++ ended (step_text note.now)) }
    ensures fits { OnOk result (NoteFits note.now) }
{
    let Note { stamp, actor, .. } = *note;
    put_head(text, stamp, actor, object_name(object_of(&note.ask)))?;
    put_ask(text, &note.ask)?;
    put_reply(text, &note.reply)?;
    text.push_str("\n")
}

/// Puts the lines of steps, in this order, at the end of a text.
fn put_lines(text: &mut String, steps: &[&Note]) -> Result<(), AllocError>
    ensures text { OnOk result (string_bytes text.new ≡
        string_bytes text.old ++ flat_map ended (map (λ note. step_text note.now) steps.now)) }
    ensures fits { OnOk result (All (λ note. NoteFits note.now) steps.now) }
{
    for note in steps {
        put_line(text, *note)?;
    }
    Ok(())
}

/// Writes the line of a step: its stamp, its actor, the object, what was asked and, at a book, what was answered.
/// Numbers are decimal; of octets the line tells how many there are. The line ends with LF.
///
/// At an error nothing is kept.
pub fn line(alloc: Global, note: &Note) -> Result<Text, AllocError>
    ensures exact { IfOk result (λ text. text ≡ ended (step_text note.now)) }
    // The numbers of a note are numbers of their types.
    ensures fits { OnOk result (NoteFits note.now) }
{
    let mut text = String::new(alloc);
    put_line(&mut text, note)?;
    Ok(Text::from(text.into_bytes()))
}

/// Writes the lines with which a log opens: its format, the octets of a data number (8, or 4 where the script has
/// `short on`), and the keys of A and B.
pub fn opening(alloc: Global, width: u8, key_a: u64, key_b: u64) -> Result<Text, AllocError>
    ensures exact { IfOk result (λ text. text ≡ flat_map ended (opening_lines width key_a key_b)) }
{
    let key_a = hex::encode(alloc, key_a.to_be_bytes())?;
    let key_b = hex::encode(alloc, key_b.to_be_bytes())?;
    let mut text = String::new(alloc);
    writeln!(text, "mptcp-log 2")?;
    writeln!(text, "width {width}")?;
    writeln!(text, "keys {key_a} {key_b}")?;
    Ok(Text::from(text.into_bytes()))
}

/// Writes the line that ends the round with this number, the first one being 0.
pub fn round_line(alloc: Global, number: u64) -> Result<Text, AllocError>
    ensures exact { IfOk result (λ text. text ≡ ended (round_text number)) }
{
    let mut text = String::new(alloc);
    writeln!(text, "round {number}")?;
    Ok(Text::from(text.into_bytes()))
}

/// Writes the lines of the round with this number, the first one being 0: that of each step, in this order, as [`line`] writes
/// it, and the one that ends the round.
///
/// At an error nothing is kept.
pub fn round_lines(alloc: Global, number: u64, steps: &[&Note]) -> Result<Text, AllocError>
    ensures exact { IfOk result (λ text.
        text ≡ flat_map ended (round_lines number (map (λ note. note.now) steps.now))) }
    // Their numbers are numbers of their types.
    ensures fits { OnOk result (AllByRecursion NoteFits (map (λ note. note.now) steps.now)) }
{
    let mut text = String::new(alloc);
    put_lines(&mut text, steps)?;
    writeln!(text, "round {number}")?;
    Ok(Text::from(text.into_bytes()))
}

/// Writes the last line of a log.
pub fn outcome_line(alloc: Global, outcome: Outcome) -> Result<Text, AllocError>
    ensures exact { IfOk result (λ text. text ≡ ended (outcome_text outcome)) }
{
    let mut text = String::new(alloc);
    writeln!(text, "outcome {outcome}")?;
    Ok(Text::from(text.into_bytes()))
}
