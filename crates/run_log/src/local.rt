//! What an actor does by itself, in the words of a log.

ghost use Rattle.std.specs.Prelude.{◌≡◌, ◌++◌, OnOk, codes, string_bytes};
ghost use Rattle.sides.specs.Side.{side_word};
ghost use Rattle.link_script.specs.Writing.{spaced};
ghost use Rattle.run_log.specs.Fitting.{LocalFits};
ghost use Rattle.run_log.specs.Calls.{local_words};

use crate::number::{put_one, put_three};
use actor_desk::LocalStep;
use sides::Side;
use std::alloc::AllocError;

/// That a copy arrives at an end.
fn arrive_word(to: Side) -> &'static str
    ensures { result.now ≡ codes "arrive " ++ side_word to }
{
    match to {
        Side::A => "arrive a",
        Side::B => "arrive b",
    }
}

/// That an end sent a segment.
fn sent_word(from: Side) -> &'static str
    ensures { result.now ≡ codes "sent " ++ side_word from }
{
    match from {
        Side::A => "sent a",
        Side::B => "sent b",
    }
}

pub fn put_local(text: &mut String, step: LocalStep) -> Result<(), AllocError>
    ensures text { OnOk result (string_bytes text.new ≡
        string_bytes text.old ++ spaced (local_words step)) }
    ensures fits { OnOk result (LocalFits step) }
{
    match step {
        LocalStep::Arrive { to, copy } => put_one(text, arrive_word(to), copy),
        LocalStep::Fire(side) => write!(text, "fire {}", side.word()),
        LocalStep::Line(number) => put_one(text, "line", u64::from(number)),
        LocalStep::Sent {
            from,
            copy,
            length,
            sum,
        } => put_three(
            text,
            sent_word(from),
            copy,
            u64::from(length),
            u64::from(sum),
        ),
        LocalStep::End => text.push_str("end"),
    }
}
