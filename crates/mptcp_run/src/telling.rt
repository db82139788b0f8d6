//! How many rounds are enough, told for the words of a command line.

ghost use Rattle.std.specs.Prelude.{◌≡◌, ◌≢◌, ◌++◌, ℕ, [], ◌∷◌, map, option_map, Err, IsNone, IfOk, IfErr, IfSome, OnOk, OnErr, string_bytes};
ghost use Rattle.outside_kit.specs.declared.port.Port.{Port};
ghost use Rattle.outside_kit.specs.Outside.{HoldsAfter, HoldsPrefix};
ghost use Rattle.run_words.specs.Lines.{as_line};
ghost use Rattle.run_outside.specs.Calling.{Loads, Puts};
ghost use Rattle.run_outside.specs.Inputs.{AreFirstWithinLimits, HasValidScript, IsInputFault};
ghost use Rattle.run_outside.specs.Loading.{InputAdds};
ghost use Rattle.run_outside.specs.Plan.{AddsShort, first_loads};
ghost use Rattle.mptcp_run.specs.Telling.{AreEnoughFor, WereRefused, WereTold, enough_line, enough_put, loading_if_given, telling_in};

use crate::enough::rounds_enough;
use outside_kit::{Outside, Port};
use run_outside::{Status, load_input, put};
use run_words::{CommandLine, Mode};
use std::alloc::{AllocError, Global};

/// Three names, if none is empty.
fn named<'a>(script: &'a str, file_a: &'a str, file_b: &'a str) -> Option<CommandLine<'a>>
    ensures { option_map as_line result ≡
        loading_if_given script.entry.now file_a.entry.now file_b.entry.now }
{
    if script.is_empty() || file_a.is_empty() || file_b.is_empty() {
        return None;
    }
    Some(CommandLine {
        mode: Mode::Serial { rounds: 1 },
        script,
        file_a,
        file_b,
        read_by_b: "",
        read_by_a: "",
    })
}

/// What the words ask for: three names.
fn asked(words: &[String]) -> Option<CommandLine<'_>>
    ensures { option_map as_line result ≡ telling_in (map string_bytes words.entry.now) }
{
    match words {
        [script, file_a, file_b] => named(script.as_str(), file_a.as_str(), file_b.as_str()),
        _ => None,
    }
}

/// Loads what is named, and finds how many rounds are enough for it.
fn load_enough<O: Outside>(
    alloc: Global,
    outside: &mut O,
    line: &CommandLine<'_>,
) -> Result<Option<u64>, Status>
    ensures value { IfOk result (AreEnoughFor (O.told outside.old).content (as_line line.now)) }
    ensures valid { OnOk result (HasValidScript (O.told outside.old).content (as_line line.now)) }
    ensures within { OnOk result
        (AreFirstWithinLimits (O.told outside.old).content (as_line line.now)) }
    ensures fault { IfErr result (IsInputFault (O.told outside.old).content (as_line line.now)
        (O.told outside.old).load_faults (O.told outside.new).load_faults) }
    ensures calls_cut { IfErr result (InputAdds (as_line line.now) (first_loads (as_line line.now))
        (O.told outside.old).calls (O.told outside.new).calls) }
    ensures loads { Loads (first_loads (as_line line.now)) (O.told outside.old) (O.told outside.new)
        result }
{
    match load_input(alloc, outside, line) {
        Ok(input) => Ok(rounds_enough(
            &input.script,
            input.file_a.len() as u64,
            input.file_b.len() as u64,
        )),
        Err(status) => Err(status),
    }
}

/// The line that tells how many rounds are enough.
fn enough_text(alloc: Global, enough: Option<u64>) -> Result<String, AllocError>
    ensures { IfOk result (λ text. string_bytes text ≡ enough_line enough) }
{
    match enough {
        Some(rounds) => format!(in alloc; "{rounds}\n"),
        None => String::from_str(alloc, "none\n"),
    }
}

/// Puts that line to the log.
fn put_enough<O: Outside>(alloc: Global, outside: &mut O, enough: Option<u64>) -> Result<(), Status>
    ensures ok { OnOk result (HoldsAfter ((O.told outside.old).holds Port.Log)
        ((O.told outside.new).holds Port.Log) (λ held. held ++ enough_line enough)) }
    ensures err { OnErr result (HoldsPrefix ((O.told outside.old).holds Port.Log)
        ((O.told outside.new).holds Port.Log) (enough_line enough)) }
    ensures other_ports { (other : Port) → other ≢ Port.Log →
        (O.told outside.new).holds other ≡ (O.told outside.old).holds other }
    ensures short { IfErr result (λ status. AddsShort (enough_put enough) status
        (O.told outside.old).calls (O.told outside.new).calls) }
    ensures puts { Puts (enough_put enough) (O.told outside.old) (O.told outside.new) result }
{
    match enough_text(alloc, enough) {
        Ok(text) => put(outside, Port::Log, text.as_bytes()),
        Err(_) => Err(Status::Memory),
    }
}

/// Tells how many rounds are enough for what is named.
fn tell_line<O: Outside>(
    alloc: Global,
    outside: &mut O,
    line: &CommandLine<'_>,
) -> Result<Option<u64>, Status>
    ensures told { IfOk result
        (WereTold (as_line line.now) (O.told outside.old) (O.told outside.new)) }
    ensures refused { IfErr result
        (WereRefused (as_line line.now) (O.told outside.old) (O.told outside.new)) }
{
    let enough = match load_enough(alloc, outside, line) {
        Ok(enough) => enough,
        Err(status) => return Err(status),
    };
    match put_enough(alloc, outside, enough) {
        Ok(()) => Ok(enough),
        Err(status) => Err(status),
    }
}

/// Puts to the log how many rounds are enough for the script and the files that the words `SCRIPT FILE_A FILE_B` name, and answers it:
/// the number and LF, or `none` and LF where nothing is promised (`enough_runs_deliver`).
///
/// # Errors
///
/// `Usage` where the words aren't three names, none of them empty; and for what is loaded and put the status that a run has.
pub fn tell_enough<O: Outside>(
    alloc: Global,
    words: &[String],
    outside: &mut O,
) -> Result<Option<u64>, Status>
    // Three words: what is answered is `rounds_enough` of what they name, and the log has its line.
    ensures told { IfSome (telling_in (map string_bytes words.now)) (λ line. IfOk result
        (WereTold line (O.told outside.old) (O.told outside.new))) }
    // Else why not, and what was done.
    ensures refused { IfSome (telling_in (map string_bytes words.now)) (λ line. IfErr result
        (WereRefused line (O.told outside.old) (O.told outside.new))) }
    // Other words are refused, and nothing is done.
    ensures usage { IsNone (telling_in (map string_bytes words.now)) → result ≡ Err Status.Usage }
    ensures unasked { IsNone (telling_in (map string_bytes words.now)) →
        O.told outside.new ≡ O.told outside.old }
{
    match asked(words) {
        Some(line) => tell_line(alloc, outside, &line),
        None => Err(Status::Usage),
    }
}
