//! The form of a log, line after line.

ghost use Rattle.std.specs.Prelude.{◌≡◌, ◌+◌, ◌-◌, ◌<◌, ◌^◌, IfOk};
ghost use Rattle.std.specs.Str.{bytes_eq};
ghost use Rattle.run_log.specs.Lines.{round_text, width_text};

use crate::field::{is_keys_line, is_outcome_line, step_actor};
use crate::turn::Turn;
use std::alloc::{AllocError, Global};

/// The first line of a log.
const FORMAT: &[u8] = b"mptcp-log 2";

/// The first line of a log of the format that names no width.
const OLD_FORMAT: &[u8] = b"mptcp-log 1";

/// What a log has to be read for.
#[derive(Clone, Copy)]
pub struct Setting {
    /// How many actors the run has.
    pub actors: u8,
    /// How many octets a data number has.
    pub width: u8,
}

/// What may stand next in a log.
#[derive(Clone, Copy)]
pub enum Expected {
    /// The line of the format.
    Format,
    /// The octets of a data number.
    Width,
    /// The keys of both sides.
    Keys,
    /// A step, the end of the round with this number, or, directly behind the end of a round, the outcome.
    Turns { round: u64, may_end: bool },
    /// Nothing.
    Nothing,
}

/// What a line tells, and what may stand behind it.
#[derive(Clone, Copy)]
pub struct Taken {
    pub next: Expected,
    pub turn: Option<Turn>,
}

impl Taken {
    ghost use Rattle.run_log.specs.Form.{silent, tells};

    fn silent(next: Expected) -> Self
        ensures { result ≡ silent next }
    {
        Taken { next, turn: None }
    }

    fn tells(turn: Turn, next: Expected) -> Self
        ensures { result ≡ tells turn next }
    {
        let turn = Some(turn);
        Taken { next, turn }
    }
}

fn is_width(alloc: Global, line: &[u8], width: u8) -> Result<bool, AllocError>
    ensures { IfOk result (λ is. is ≡ bytes_eq line.now (width_text width)) }
{
    let expected = format!(in alloc; "width {width}")?;
    Ok(line == expected.as_bytes())
}

fn is_round(alloc: Global, line: &[u8], round: u64) -> Result<bool, AllocError>
    ensures { IfOk result (λ is. is ≡ bytes_eq line.now (round_text round)) }
{
    let expected = format!(in alloc; "round {round}")?;
    Ok(line == expected.as_bytes())
}

impl Expected {
    ghost use Rattle.run_log.specs.Form.{format_line, width_line, keys_line, end_line, turn_line, taken_line, is_nothing, HasRoundBelow};

    /// The first line names the format.
    fn take_format(line: &[u8]) -> Option<Taken>
        ensures { result ≡ format_line line.now }
    {
        if line == FORMAT {
            return Some(Taken::silent(Expected::Width));
        }
        if line == OLD_FORMAT {
            return Some(Taken::silent(Expected::Keys));
        }
        None
    }

    fn take_width(alloc: Global, line: &[u8], width: u8) -> Result<Option<Taken>, AllocError>
        ensures { IfOk result (λ taken. taken ≡ width_line width line.now) }
    {
        if is_width(alloc, line, width)? {
            Ok(Some(Taken::silent(Expected::Keys)))
        } else {
            Ok(None)
        }
    }

    fn take_keys(line: &[u8]) -> Option<Taken>
        ensures { result ≡ keys_line line.now }
    {
        if !is_keys_line(line) {
            return None;
        }
        Some(Taken::silent(Expected::Turns {
            round: 0,
            may_end: false,
        }))
    }

    /// A line that is no step ends the round or the log.
    fn take_end(
        alloc: Global,
        round: u64,
        may_end: bool,
        line: &[u8],
    ) -> Result<Option<Taken>, AllocError>
        requires { round + 1 < 2 ^ 64 }
        ensures { IfOk result (λ taken. taken ≡ end_line round may_end line.now) }
    {
        if is_round(alloc, line, round)? {
            let next = Expected::Turns {
                round: round + 1,
                may_end: true,
            };
            return Ok(Some(Taken::tells(Turn::Round, next)));
        }
        if may_end && is_outcome_line(line) {
            return Ok(Some(Taken::silent(Expected::Nothing)));
        }
        Ok(None)
    }

    fn take_turn(
        alloc: Global,
        actors: u8,
        round: u64,
        may_end: bool,
        line: &[u8],
    ) -> Result<Option<Taken>, AllocError>
        requires { round + 1 < 2 ^ 64 }
        ensures { IfOk result (λ taken. taken ≡ turn_line actors round may_end line.now) }
    {
        match step_actor(line, actors) {
            Some(actor) => {
                let may_end = false;
                let next = Expected::Turns { round, may_end };
                Ok(Some(Taken::tells(Turn::Step(actor), next)))
            }
            None => Expected::take_end(alloc, round, may_end, line),
        }
    }

    /// Takes the next line, unless it can't stand there.
    #[tactic(auto, unfolding(crate::specs::Form::taken_line))]
    pub fn take(
        self,
        alloc: Global,
        setting: Setting,
        line: &[u8],
    ) -> Result<Option<Taken>, AllocError>
        requires { HasRoundBelow (2 ^ 64 - 1) self }
        ensures { IfOk result (λ line_taken. line_taken ≡
            taken_line setting.actors setting.width self line.now) }
    {
        match self {
            Expected::Format => Ok(Expected::take_format(line)),
            Expected::Width => Expected::take_width(alloc, line, setting.width),
            Expected::Keys => Ok(Expected::take_keys(line)),
            Expected::Turns { round, may_end } => {
                Expected::take_turn(alloc, setting.actors, round, may_end, line)
            }
            Expected::Nothing => Ok(None),
        }
    }

    /// Whether nothing more may stand.
    pub fn is_nothing(self) -> bool
        ensures { result ≡ is_nothing self }
    {
        matches!(self, Expected::Nothing)
    }
}
