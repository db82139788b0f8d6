//! What a run reads before it begins.

ghost use Rattle.std.specs.Prelude.{◌≡◌, ◌≤◌, ℕ, length, List, [], ◌∷◌, Ok, IfOk, IfErr, IfSome, OnOk, OnErr, vec_len};
ghost use Rattle.link_script.specs.Scripts.{HasRanges};
ghost use Rattle.run_words.specs.Lines.{replay, as_line};
ghost use Rattle.run_outside.specs.Calling.{Loads};
ghost use Rattle.run_outside.specs.declared.status.Named.TheVariants as named;
ghost use Rattle.run_outside.specs.declared.status.Status.TheVariants.{Memory};
ghost use Rattle.run_outside.specs.Causes.{IsLoadFault, IsScriptFault};
ghost use Rattle.run_outside.specs.Inputs.{IsWithinLimit, IsLoadsFault, AreFirstWithinLimits, IsInputFault, IsLoggedFault, IsReplayInputFault, AreWithinLimits, opening_count};
ghost use Rattle.outside_kit.specs.Calls as call;
ghost use Rattle.run_outside.specs.Plan.{failed, Adds, first_loads, loads_of};
ghost use Rattle.run_outside.specs.Loading.{LoadsAdd, InputAdds};
ghost use Rattle.run_outside.specs.Loaded.{IsLoaded};
ghost use Rattle.link_script.specs.Reading.{reading};
ghost use Rattle.run_outside.specs.Reading.{log_reading, EndsInRound};

use crate::device::load;
use crate::order::{opening_count, read_order};
use crate::status::{Named, Status};
use link_script::{Script, ScriptFault, parse};
use octet_text::Text;
use outside_kit::Outside;
use run_log::Turn;
use run_words::CommandLine;
use std::alloc::Global;

/// What a connection begins with: how it is to run, and what each side writes.
#[derive(Drop)]
pub struct Input {
    pub script: Script,
    /// What A writes.
    pub file_a: Text,
    /// What B writes.
    pub file_b: Text,
}

/// The contents that every run loads, each within its limit.
#[derive(Drop)]
pub struct Contents {
    /// The text of the script: at most 65,536 octets.
    pub script: Vec<u8>,
    /// What A sends: at most 16,777,216 octets.
    pub file_a: Vec<u8>,
    /// What B sends: at most 16,777,216 octets.
    pub file_b: Vec<u8>,
}

/// Loads the script, FILE_A and FILE_B, in this order.
pub fn load_contents<O: Outside>(
    alloc: Global,
    outside: &mut O,
    line: &CommandLine<'_>,
) -> Result<Contents, Status>
    ensures script { IfOk result
        (λ contents. IfSome ((O.told outside.old).content line.now.script.now)
        (λ told. contents.script.items ≡ told)) }
    ensures file_a { IfOk result
        (λ contents. IfSome ((O.told outside.old).content line.now.file_a.now)
        (λ told. contents.file_a.items ≡ told)) }
    ensures file_b { IfOk result
        (λ contents. IfSome ((O.told outside.old).content line.now.file_b.now)
        (λ told. contents.file_b.items ≡ told)) }
    ensures script_within { IfOk result (λ contents. vec_len contents.script ≤ 65536) }
    ensures file_a_within { IfOk result (λ contents. length contents.file_a.items ≤ 16777216) }
    ensures file_b_within { IfOk result (λ contents. length contents.file_b.items ≤ 16777216) }
    ensures within { OnOk result
        (AreFirstWithinLimits (O.told outside.old).content (as_line line.now)) }
    ensures fault { IfErr result (IsLoadsFault (O.told outside.old).content (as_line line.now)
        (O.told outside.old).load_faults (O.told outside.new).load_faults) }
    ensures same_contents { (other : List ℕ) →
        (O.told outside.new).content other ≡ (O.told outside.old).content other }
    ensures calls_cut { IfErr result (LoadsAdd (as_line line.now) (first_loads (as_line line.now))
        (O.told outside.old).calls (O.told outside.new).calls) }
    ensures loads { Loads (first_loads (as_line line.now)) (O.told outside.old) (O.told outside.new)
        result }
{
    let script = load(alloc, outside, Named::Script, line.script)?;
    let file_a = load(alloc, outside, Named::FileA, line.file_a)?;
    let file_b = load(alloc, outside, Named::FileB, line.file_b)?;
    Ok(Contents {
        script,
        file_a,
        file_b,
    })
}

/// Loads the log whose steps are made again, once the other contents are loaded.
pub fn load_order<O: Outside>(
    alloc: Global,
    outside: &mut O,
    line: &CommandLine<'_>,
    order: &str,
) -> Result<Vec<u8>, Status>
    requires named { (as_line line.now).work ≡ replay order.now }
    requires before { AreFirstWithinLimits (O.told outside.old).content (as_line line.now) }
    ensures whole { IfOk result
        (λ log. IfSome ((O.told outside.old).content order.now) (λ told. log.items ≡ told)) }
    ensures within { OnOk result
        (IsWithinLimit (O.told outside.old).content (as_line line.now) named.Order) }
    ensures fault { IfErr result (IsLoadsFault (O.told outside.old).content (as_line line.now)
        (O.told outside.old).load_faults (O.told outside.new).load_faults) }
    ensures named { IfErr result (IsLoadFault named.Order ((O.told outside.old).content order.now)
        (O.told outside.old).load_faults (O.told outside.new).load_faults) }
    ensures calls_cut { OnErr result
        (Adds (failed (call.Load order.now) ∷ []) (O.told outside.old).calls (O.told outside.new).calls) }
    ensures loads { Loads (call.Load order.now ∷ []) (O.told outside.old) (O.told outside.new)
        result }
{
    load(alloc, outside, Named::Order, order)
}

/// A file as a text whose parts share its octets. Copies none.
fn shared(file: Vec<u8>) -> Result<Text, Status>
    ensures file { IfOk result (λ text. text ≡ file.items) }
    ensures fault { IfErr result (λ status. status ≡ Memory) }
{
    match Text::from(file).share() {
        Ok(text) => Ok(text),
        Err(_) => Err(Status::Memory),
    }
}

/// What the contents say: the script is read, and the files are shared.
pub fn input_of(alloc: Global, contents: Contents) -> Result<Input, Status>
    requires { vec_len contents.script ≤ 65536 }
    ensures script { IfOk result (λ input. reading contents.script.items ≡ Ok input.script) }
    ensures file_a { IfOk result (λ input. input.file_a ≡ contents.file_a.items) }
    ensures file_b { IfOk result (λ input. input.file_b ≡ contents.file_b.items) }
    ensures ranges { IfOk result (λ input. HasRanges input.script) }
    ensures fault { IfErr result (IsScriptFault contents.script.items) }
{
    match parse(alloc, &contents.script) {
        Ok(script) => Ok(Input {
            script,
            file_a: shared(contents.file_a)?,
            file_b: shared(contents.file_b)?,
        }),
        Err(ScriptFault::Line { line, kind }) => Err(Status::Script { line, kind }),
        Err(ScriptFault::Memory) => Err(Status::Memory),
    }
}

/// What a run of whole turns reads: the script and both files.
///
/// # Errors
///
/// `Load` or `TooLong` of an input that can't be loaded or is over its limit, where those before it are within theirs;
/// `Script` where all three are within their limits and the script is refused; `Memory` where there is no memory.
pub fn load_input<O: Outside>(
    alloc: Global,
    outside: &mut O,
    line: &CommandLine<'_>,
) -> Result<Input, Status>
    ensures script { IfOk result (λ input. IfSome ((O.told outside.old).content line.now.script.now)
        (λ told. reading told ≡ Ok input.script)) }
    ensures file_a { IfOk result (λ input. IfSome ((O.told outside.old).content line.now.file_a.now)
        (λ told. input.file_a ≡ told)) }
    ensures file_b { IfOk result (λ input. IfSome ((O.told outside.old).content line.now.file_b.now)
        (λ told. input.file_b ≡ told)) }
    ensures loaded { IfOk result IsLoaded }
    ensures within { OnOk result
        (AreFirstWithinLimits (O.told outside.old).content (as_line line.now)) }
    ensures fault { IfErr result (IsInputFault (O.told outside.old).content (as_line line.now)
        (O.told outside.old).load_faults (O.told outside.new).load_faults) }
    ensures calls_cut { IfErr result (InputAdds (as_line line.now) (first_loads (as_line line.now))
        (O.told outside.old).calls (O.told outside.new).calls) }
    ensures loads { Loads (first_loads (as_line line.now)) (O.told outside.old) (O.told outside.new)
        result }
{
    let contents = load_contents(alloc, outside, line)?;
    input_of(alloc, contents)
}

/// What a run of the steps of a log loads.
#[derive(Drop)]
pub struct Logged {
    pub input: Input,
    /// The octets of the log.
    pub log: Vec<u8>,
}

/// What a run of the steps of a log loads: the script, which is read, both files, and the log.
///
/// # Errors
///
/// `Load` or `TooLong` of an input that can't be loaded or is over its limit, where those before it are within theirs; `Script` where
/// all four are within their limits and the script is refused; `Memory` where there is no memory.
pub fn load_logged<O: Outside>(
    alloc: Global,
    outside: &mut O,
    line: &CommandLine<'_>,
    order: &str,
) -> Result<Logged, Status>
    requires named { (as_line line.now).work ≡ replay order.now }
    ensures script { IfOk result
        (λ logged. IfSome ((O.told outside.old).content line.now.script.now)
        (λ told. reading told ≡ Ok logged.input.script)) }
    ensures file_a { IfOk result
        (λ logged. IfSome ((O.told outside.old).content line.now.file_a.now)
        (λ told. logged.input.file_a ≡ told)) }
    ensures file_b { IfOk result
        (λ logged. IfSome ((O.told outside.old).content line.now.file_b.now)
        (λ told. logged.input.file_b ≡ told)) }
    ensures log { IfOk result (λ logged. IfSome ((O.told outside.old).content order.now)
        (λ told. logged.log.items ≡ told)) }
    ensures loaded { IfOk result (λ logged. IsLoaded logged.input) }
    ensures within { OnOk result (AreWithinLimits (O.told outside.old).content (as_line line.now)) }
    ensures fault { IfErr result (IsLoggedFault (O.told outside.old).content (as_line line.now)
        (O.told outside.old).load_faults (O.told outside.new).load_faults) }
    ensures calls_cut { IfErr result (InputAdds (as_line line.now) (loads_of (as_line line.now))
        (O.told outside.old).calls (O.told outside.new).calls) }
    ensures loads { Loads (loads_of (as_line line.now)) (O.told outside.old) (O.told outside.new)
        result }
{
    let contents = load_contents(alloc, outside, line)?;
    let log = load_order(alloc, outside, line, order)?;
    let input = input_of(alloc, contents)?;
    Ok(Logged { input, log })
}

/// What a run of the steps of a log reads.
#[derive(Drop)]
pub struct Replay {
    pub input: Input,
    /// The turns of the log.
    pub turns: Vec<Turn>,
    /// How many lines of the log stand before its first turn.
    pub lines: u64,
}

/// What a run of the steps of a log reads: the script, both files and the log.
///
/// # Errors
///
/// `Load` or `TooLong` of an input that can't be loaded or is over its limit, where those before it are within theirs;
/// where all four are within their limits, `Script` where the script is refused, and `Log` where it isn't and a line breaks
/// the form of a log; `Memory` where there is no memory.
pub fn load_replay<O: Outside>(
    alloc: Global,
    outside: &mut O,
    line: &CommandLine<'_>,
    order: &str,
) -> Result<Replay, Status>
    requires named { (as_line line.now).work ≡ replay order.now }
    ensures script { IfOk result
        (λ replay. IfSome ((O.told outside.old).content line.now.script.now)
        (λ told. reading told ≡ Ok replay.input.script)) }
    ensures file_a { IfOk result
        (λ replay. IfSome ((O.told outside.old).content line.now.file_a.now)
        (λ told. replay.input.file_a ≡ told)) }
    ensures file_b { IfOk result
        (λ replay. IfSome ((O.told outside.old).content line.now.file_b.now)
        (λ told. replay.input.file_b ≡ told)) }
    ensures turns { IfOk result (λ replay. IfSome ((O.told outside.old).content order.now)
        (λ told. log_reading replay.input.script told ≡ Ok replay.turns.items)) }
    ensures lines { IfOk result (λ replay. IfSome ((O.told outside.old).content order.now)
        (λ told. replay.lines ≡ opening_count told)) }
    ensures few { IfOk result (λ replay. replay.lines ≤ 3) }
    // The last turn of a log is the end of a round.
    ensures ends { IfOk result (λ replay. EndsInRound replay.turns.items) }
    ensures loaded { IfOk result (λ replay. IsLoaded replay.input) }
    ensures within { OnOk result (AreWithinLimits (O.told outside.old).content (as_line line.now)) }
    ensures fault { IfErr result (IsReplayInputFault (O.told outside.old).content (as_line line.now)
        (O.told outside.old).load_faults (O.told outside.new).load_faults) }
    ensures calls_cut { IfErr result (InputAdds (as_line line.now) (loads_of (as_line line.now))
        (O.told outside.old).calls (O.told outside.new).calls) }
    ensures loads { Loads (loads_of (as_line line.now)) (O.told outside.old) (O.told outside.new)
        result }
{
    let logged = load_logged(alloc, outside, line, order)?;
    let turns = read_order(alloc, &logged.input.script, &logged.log)?;
    let lines = opening_count(&logged.log);
    let Logged { input, log: _ } = logged;
    Ok(Replay {
        input,
        turns,
        lines,
    })
}
