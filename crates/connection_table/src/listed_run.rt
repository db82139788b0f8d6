//! A run of many connections.

ghost use Rattle.std.specs.Prelude.{◌≡◌, ◌≢◌, ◌⊎◌, ◌<◌, ◌≤◌, ◌++◌, ◌∷◌, ◌↔◌, [], None, length, map, string_bytes, IfErr, IfSome, OnErr, OnOk};
ghost use Rattle.outside_kit.specs.declared.port.Port.{Port};
ghost use Rattle.outside_kit.specs.Outside.{HasRisen, HoldsAfter, HoldsPrefix};
ghost use Rattle.connection_table.specs.ListWords.{as_words, words_in};
ghost use Rattle.run_outside.specs.Ports.{IsUntouched};
ghost use Rattle.connection_table.specs.Causes.{OnlyLoads};
ghost use Rattle.connection_table.specs.Loads.{ListAdds};
ghost use Rattle.outside_kit.specs.Calls as call;
ghost use Rattle.run_outside.specs.Plan.{AddsAll};
ghost use Rattle.connection_table.specs.ManyEnds.{IsEnd, IsLoadingFault, IsPutFault, IsTableOf, IsValid, PutAdds, puts_from};
ghost use Rattle.connection_table.specs.ManyLines.{line_at, lines_of, state_of};

use crate::inputs::{connections_of, load};
use crate::lines::line;
use crate::list_words::{ListWords, read_list_words};
use crate::loading::admit_all;
use crate::many::Many;
use crate::rounds::make_rounds;
use crate::table::ConnectionTable;
use outside_kit::{Outside, Port, PutFault};
use std::alloc::Global;

/// Puts the line of a connection.
fn put_line<O: Outside>(
    alloc: Global,
    outside: &mut O,
    table: &ConnectionTable,
    connection: u8,
) -> Result<(), Many>
    requires { connection < length table.now }
    ensures ok { OnOk result (HoldsAfter ((O.told outside.old).holds Port.Log)
        ((O.told outside.new).holds Port.Log) (λ held. held ++ line_at connection table.now)) }
    ensures err { OnErr result (HoldsPrefix ((O.told outside.old).holds Port.Log)
        ((O.told outside.new).holds Port.Log) (line_at connection table.now)) }
    ensures fault { IfErr result
        (IsPutFault ((O.told outside.old).port_faults Port.Log) ((O.told outside.new).port_faults Port.Log)) }
    ensures counted { (O.told outside.old).port_faults Port.Log ≤
        (O.told outside.new).port_faults Port.Log }
    ensures loads { (O.told outside.new).load_faults ≡ (O.told outside.old).load_faults }
    ensures other_ports { (other : Port) → other ≢ Port.Log →
        (O.told outside.new).holds other ≡ (O.told outside.old).holds other }
    ensures other_counts { (other : Port) → other ≢ Port.Log →
        (O.told outside.new).port_faults other ≡ (O.told outside.old).port_faults other }
    ensures calls { OnOk result (AddsAll (call.Put Port.Log (line_at connection table.now) ∷ [])
        (O.told outside.old).calls (O.told outside.new).calls) }
    ensures calls_cut { IfErr result
        (PutAdds (call.Put Port.Log (line_at connection table.now) ∷ [])
        (O.told outside.old).calls (O.told outside.new).calls) }
{
    let line = line(alloc, table, connection)?;
    match outside.put(Port::Log, line.as_bytes()) {
        Ok(()) => Ok(()),
        Err(PutFault::Failed) => Err(Many::Put),
        Err(PutFault::Memory) => Err(Many::Memory),
    }
}

/// Puts the line of each connection, numbers rising.
fn put_lines<O: Outside>(
    alloc: Global,
    outside: &mut O,
    table: &ConnectionTable,
) -> Result<(), Many>
    ensures ok { OnOk result (HoldsAfter ((O.told outside.old).holds Port.Log)
        ((O.told outside.new).holds Port.Log) (λ held. held ++ lines_of table.now)) }
    ensures err { OnErr result (HoldsPrefix ((O.told outside.old).holds Port.Log)
        ((O.told outside.new).holds Port.Log) (lines_of table.now)) }
    ensures fault { IfErr result
        (IsPutFault ((O.told outside.old).port_faults Port.Log) ((O.told outside.new).port_faults Port.Log)) }
    ensures loads { (O.told outside.new).load_faults ≡ (O.told outside.old).load_faults }
    ensures other_ports { (other : Port) → other ≢ Port.Log →
        (O.told outside.new).holds other ≡ (O.told outside.old).holds other }
    ensures other_counts { (other : Port) → other ≢ Port.Log →
        (O.told outside.new).port_faults other ≡ (O.told outside.old).port_faults other }
    ensures calls { OnOk result (AddsAll (puts_from 0 (map state_of table.now))
        (O.told outside.old).calls (O.told outside.new).calls) }
    ensures calls_cut { IfErr result (PutAdds (puts_from 0 (map state_of table.now))
        (O.told outside.old).calls (O.told outside.new).calls) }
{
    for connection in 0..table.len() {
        put_line(alloc, outside, table, connection)?;
    }
    Ok(())
}

/// Loads the list and all that it names, and admits its connections.
fn admit_listed<O: Outside>(
    alloc: Global,
    outside: &mut O,
    words: &ListWords<'_>,
    table: &mut ConnectionTable,
) -> Result<(), Many>
    requires { table.old ≡ [] }
    ensures ok { OnOk result (IsTableOf (as_words words.now)
        (O.told outside.old) (O.told outside.new) table.new) }
    ensures fault { IfErr result (IsLoadingFault (O.told outside.old).content (as_words words.now)
        (O.told outside.old).load_faults (O.told outside.new).load_faults) }
    ensures only { OnlyLoads (O.told outside.old) (O.told outside.new) }
    ensures calls { IfErr result (ListAdds (O.told outside.old).content (as_words words.now)
        (O.told outside.old).calls (O.told outside.new).calls) }
{
    let list = load(alloc, outside, 0, words.list)?;
    let listed = connections_of(alloc, &list)?;
    admit_all(alloc, outside, table, &listed)
}

/// Runs the connections of a list.
fn run<O: Outside>(alloc: Global, outside: &mut O, words: &ListWords<'_>) -> Result<(), Many>
    requires { 1 ≤ words.now.rounds }
    ensures done { OnOk result (IsEnd (as_words words.now)
        (O.told outside.old) (O.told outside.new) Many.Done) }
    ensures ends { IfErr result
        (IsEnd (as_words words.now) (O.told outside.old) (O.told outside.new)) }
    ensures other_ports { (other : Port) → other ≢ Port.Log →
        (O.told outside.new).holds other ≡ (O.told outside.old).holds other }
    ensures other_counts { (other : Port) → other ≢ Port.Log →
        (O.told outside.new).port_faults other ≡ (O.told outside.old).port_faults other }
{
    let mut table = ConnectionTable::new(alloc);
    admit_listed(alloc, outside, words, &mut table)?;
    make_rounds(&mut table, words.rounds)?;
    put_lines(alloc, outside, &table)
}

/// Runs the connections that a list names, `LIST [--rounds N]` being the words: serial rounds of those that go on, numbers rising,
/// until none does or N rounds were made. Then it puts a line to the log for each, `connection K WORD HEX HEX`: its number counted
/// from 0, its outcome, what B read and what A read in hexadecimal digits, or `-` for nothing.
///
/// The list and each file have at most 65,536 octets. The list is loaded and read before what it names; then of each line the script,
/// FILE_A and FILE_B are loaded, the script is read, and the connection is admitted. The first refusal of all these decides.
pub fn run_many<O: Outside>(alloc: Global, words: &[String], outside: &mut O) -> Many
    // The words are refused exactly where they break the form.
    ensures usage { (result ≡ Many.Usage) ↔ (words_in (map string_bytes words.now) ≡ None) }
    // Where each connection has its line, it is that of the serial run of the connection alone, and tells what its readers have read:
    // first octets of its files, and where it is delivered all of them. After a fault at a line, or want of memory, the log has a
    // prefix of these lines; at every other answer nothing was put, and each answer has its cause. What was run is within its
    // limits, and each connection has its own token; so are those before the one that is refused. The calls are the loads in order,
    // and behind them one put a connection, up to one that failed, or for want of memory to any of them.
    ensures ends { IfSome (words_in (map string_bytes words.now)) (λ named. IsEnd named
        (O.told outside.old) (O.told outside.new) result) }
    // At `Usage` no call was made, and nothing changed.
    ensures unasked { result ≡ Many.Usage → (O.told outside.new).calls ≡
        (O.told outside.old).calls }
    ensures unloaded { result ≡ Many.Usage →
        (O.told outside.new).load_faults ≡ (O.told outside.old).load_faults }
    ensures refused { result ≡ Many.Usage → IsUntouched (O.told outside.old) (O.told outside.new) }
    // Of a valid list each connection has its line, unless the outside fails or memory runs out.
    ensures valid { IfSome (words_in (map string_bytes words.now)) (λ named.
        IsValid (O.told outside.old).content named → (result ≡ Many.Done) ⊎ ((result ≡ Many.Memory)
        ⊎ (HasRisen (O.told outside.old).load_faults (O.told outside.new).load_faults
        ⊎ HasRisen ((O.told outside.old).port_faults Port.Log) ((O.told outside.new).port_faults Port.Log)))) }
    // Whatever the answer, the other ports are as they were.
    ensures other_ports { (other : Port) → other ≢ Port.Log →
        (O.told outside.new).holds other ≡ (O.told outside.old).holds other }
    ensures other_counts { (other : Port) → other ≢ Port.Log →
        (O.told outside.new).port_faults other ≡ (O.told outside.old).port_faults other }
{
    let Some(words) = read_list_words(words) else {
        return Many::Usage;
    };
    match run(alloc, outside, &words) {
        Ok(()) => Many::Done,
        Err(many) => many,
    }
}
