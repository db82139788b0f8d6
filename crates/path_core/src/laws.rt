//! What holds of the rules of every path, and of every path, as clauses of functions that do nothing.

ghost use Rattle.std.specs.Prelude.{◌≡◌, take};
ghost use Rattle.path_core.specs.Octets.{octets};
ghost use Rattle.path_core.specs.Turns.{EveryTurnEnds, EveryRoundEnds, Ends};
ghost use Rattle.path_core.specs.Values.{values};
ghost use Rattle.path_core.specs.Shown.{AsksTheSame, TakesTheSame, BeginsTheSame};
ghost use Rattle.path_core.specs.Looking.{EachSegmentIsTold};
ghost use Rattle.path_core.specs.Handshakes.{CapableIsTheHandshake};
ghost use Rattle.path_core.specs.FewThings.{CopiesSayFew, CopiesHaveFewPriorities};
ghost use Rattle.path_core.specs.Example.{path_at_first, steps_made};
ghost use Rattle.path_core.specs.FirstRound.{turn_of_path};
ghost use Rattle.path_core.specs.Steps.{next_round};

use crate::path::Path;

/// A law: the turns of what a path may be end, whatever replies of the asked kind come, over octets and over segments as values,
/// where its first duty comes to something, a segment is on its way for a tick or longer, and a timeout is at least a tick.
pub fn settled_turns_end()
    ensures octets { EveryTurnEnds octets }
    ensures values { EveryTurnEnds values }
    ensures rounds { EveryRoundEnds octets }
{}

/// A law: a path over octets is the path over segments as values, shown in octets. It asks the same, takes each reply in the
/// same way, and begins a round so, as long as the copy that is due next is fresh: its segment can be said, and each of its numbers
/// is near the one that the end expects, but for the position of a reset that is 2^31 or more ahead and below 2^32, as a dead end
/// may send it (RFC 9293, section 3.10.7.1). A segment whose payload is altered on its way has to be one that can be said. Options
/// that were taken away are heard as none.
pub fn octets_do_as_values()
    ensures asks { AsksTheSame }
    ensures takes { TakesTheSame }
    ensures rounds { BeginsTheSame }
{}

/// A law: the segment that a path's next step hands to the link, as `Path::outgoing` of `path_core` tells it, is the one that the
/// step tells, and the link has it then, whatever the step is answered; where it hands none, the step tells no segment.
pub fn each_segment_is_told()
    ensures octets { EachSegmentIsTold octets }
    ensures values { EachSegmentIsTold values }
{}

/// A law: what path 0 hears by MP_CAPABLE is what `capable_handshake` hears; checksums are used as it says, and the keys are noted where
/// it takes them (RFC 8684, section 3.1).
pub fn keys_are_those_of_the_handshake()
    ensures { CapableIsTheHandshake }
{}

/// A law: octets that are a segment say 37 things at most, and 13 of its options are MP_PRIO at most, since its options have forty
/// octets at most (RFC 9293, section 3.1; RFC 8684, section 3). Each id of a REMOVE_ADDR is a thing of its own.
pub fn copies_say_few_things()
    ensures few { CopiesSayFew }
    ensures priorities { CopiesHaveFewPriorities }
{}

/// An example: the first 24 steps of path 0 of a connection that carries five octets, after the applications' first turns:
/// it opens, both keys arrive, and the five octets come to B.
pub fn a_first_round()
    ensures { steps_made values 24 path_at_first ≡ take 24 turn_of_path }
{}

/// A law: the turn of each path ends, whatever replies of the asked kind come, and so does the turn that the next round begins.
pub fn every_turn_ends(path: &Path)
    ensures turn { Ends octets path.now }
    ensures round { Ends octets (next_round path.now) }
{
    path.turn_ends();
}
