//! From words to a command line.

ghost use Rattle.std.specs.Prelude.{◌≡◌, ◌≤◌, IfOk, IfSome, Some, None, map, option_map, string_bytes};
ghost use Rattle.clap.specs.Words.{found_of, first_value};
ghost use Rattle.run_words.specs.Numbers.{number_within};
ghost use Rattle.run_words.specs.Lines.{HasRanges, line_of, rounds_in, work_in, as_line, shown_work};
ghost use Rattle.run_words.specs.Form.{given_name, work_by, line_by};

use crate::command_line::{CommandLine, Mode};
use crate::fault::WordsFault;
use crate::form;
use crate::number::read_number;
use clap::ArgMatches;
use std::alloc::Global;

/// A name that isn't empty.
fn given_name<'a>(matches: &ArgMatches<'a>, id: &str) -> Option<&'a str>
    ensures { option_map (λ name. name.now) result ≡
        given_name (first_value (found_of matches.now) id.now) }
{
    let name = matches.get_str(id)?;
    if name.is_empty() { None } else { Some(name) }
}

/// The most rounds that are made.
fn rounds_of(word: Option<&str>) -> Option<u32>
    ensures exact { result ≡ rounds_in (option_map (λ text. text.now) word.entry) }
    ensures within { IfSome result (λ rounds. (1 ≤ rounds) × (rounds ≤ 65536)) }
{
    match word {
        Some(word) => read_number(word, 1, 65_536),
        None => Some(4_096),
    }
}

/// The number of a made input.
fn input_number(word: &str) -> Option<u16>
    ensures exact { result ≡ number_within 1 256 word.now }
    ensures within { IfSome result (λ number. (1 ≤ number) × (number ≤ 256)) }
{
    match read_number(word, 1, 256) {
        Some(number) => Some(number as u16),
        None => None,
    }
}

/// The mode that a word names, with what it needs of the values of the other options.
fn mode_of<'a>(
    mode: &str,
    rounds: Option<&str>,
    order: Option<&'a str>,
    number: Option<&str>,
) -> Option<Mode<'a>>
    ensures exact { option_map shown_work result ≡
        work_in mode.now (option_map (λ text. text.now) rounds.entry)
        (option_map (λ text. text.now) order.entry) (option_map (λ text. text.now) number.entry) }
    ensures ranges { IfSome result (λ mode. HasRanges (shown_work mode)) }
{
    match (mode, order, number) {
        ("run", None, None) => Some(Mode::Run {
            rounds: rounds_of(rounds)?,
        }),
        ("serial", None, None) => Some(Mode::Serial {
            rounds: rounds_of(rounds)?,
        }),
        ("timed", None, None) => Some(Mode::Timed {
            rounds: rounds_of(rounds)?,
        }),
        ("replay", Some(order), None) if rounds.is_none() && !order.is_empty() => {
            Some(Mode::Replay { order })
        }
        ("bench", None, Some(number)) => Some(Mode::Bench {
            rounds: rounds_of(rounds)?,
            number: input_number(number)?,
        }),
        _ => None,
    }
}

/// The mode, with what it needs.
fn mode<'a>(matches: &ArgMatches<'a>) -> Option<Mode<'a>>
    ensures exact { option_map shown_work result ≡ work_by (first_value (found_of matches.now)) }
    ensures ranges { IfSome result (λ mode. HasRanges (shown_work mode)) }
{
    mode_of(
        matches.get_str("mode")?,
        matches.get_str("rounds"),
        matches.get_str("order"),
        matches.get_str("number"),
    )
}

/// The command line that the options and names say.
fn command_line<'a>(matches: &ArgMatches<'a>) -> Option<CommandLine<'a>>
    ensures exact { option_map as_line result ≡ line_by (first_value (found_of matches.now)) }
    ensures ranges { IfSome result (λ line. HasRanges (shown_work line.mode)) }
{
    Some(CommandLine {
        mode: mode(matches)?,
        script: given_name(matches, "script")?,
        file_a: given_name(matches, "file_a")?,
        file_b: given_name(matches, "file_b")?,
        read_by_b: given_name(matches, "read_by_b")?,
        read_by_a: given_name(matches, "read_by_a")?,
    })
}

/// Reads the words of a command line, those behind the program's name.
///
/// # Errors
///
/// `Usage` comes only where the words break the line form, and `Memory` where memory runs out; other words are read.
pub fn read<'a>(alloc: Global, words: &'a [String]) -> Result<CommandLine<'a>, WordsFault>
    ensures ok { IfOk result (λ line. line_of (map string_bytes words.entry.now) ≡
        Some (as_line line)) }
    ensures usage { result ≡ Err WordsFault.Usage → line_of (map string_bytes words.entry.now) ≡
        None }
    ensures ranges { IfOk result (λ line. HasRanges (shown_work line.mode)) }
{
    let matches = form::matches(alloc, words)?;
    match command_line(&matches) {
        Some(line) => Ok(line),
        None => Err(WordsFault::Usage),
    }
}
