//! Laws of logs.

ghost use Rattle.run_log.specs.Laws.{ReadsToItsTurns, RefusesTheFirst, LinesTellTheirNotes};

/// The log of any rounds, at least one, reads to the turns that their notes tell, whether it opens in the format that is
/// written or in the older one.
pub fn a_log_reads_to_its_turns()
    ensures { ReadsToItsTurns }
{}

/// The line that a fault names is the first one that no log can have there, whatever follows. Where the whole text begins a
/// log and isn't one, since the outcome is missing, it is one more than the last line.
pub fn the_first_refused_line_is_told()
    ensures { RefusesTheFirst }
{}

/// A line tells its stamp and actor, which object it is, which ask and which reply, and each number in them; of octets it tells
/// how many there are. Two notes, each with a reply of the asked kind, have one line only where all this is equal.
pub fn a_line_tells_its_note()
    ensures { LinesTellTheirNotes }
{}
