//! What is promised of lanes, as clauses of functions that do nothing.
ghost use Rattle.pace.specs.Laws.{LanesBegin, MovesKeepIt, CalmRoundsBegin, NoTimerRunsOut, NoThirdDuplicate, FirstRoundsEndCalm, LaterRoundsEndCalm, SevenRoundsBringAPayload, EightRoundsBringNews, SixRoundsTellTheEnd, BothEndsAreTold};

/// A law: all that `Going` says holds of a lane as the first round begins, where the congestion window takes two payloads
/// or more; each move keeps it; and it holds as a round begins where the one before left the lane calm.
pub fn what_holds_stays()
    ensures first { LanesBegin }
    ensures moves { MovesKeepIt }
    ensures rounds { CalmRoundsBegin }
{}

/// A law: where that holds, no timer runs out before the round's end.
pub fn no_timer_runs_out()
    ensures { NoTimerRunsOut }
{}

/// A law: where that holds, no more than two duplicate acknowledgements come in a row, one for the DATA_FIN of each
/// direction, where the receiving end sends one DATA_FIN at most. The third, which never comes, would be taken for a loss
/// (RFC 5681, section 3.2).
pub fn no_third_duplicate_comes()
    ensures { NoThirdDuplicate }
{}

/// A law: the first round leaves a lane calm, and so does each one after it: no timer runs, or one that has waited for at
/// most seven rounds of the nine that it takes.
pub fn rounds_stay_calm()
    ensures first { FirstRoundsEndCalm }
    ensures later { LaterRoundsEndCalm }
{}

/// A law: once bytes may be sent the reader reads one payload more within seven rounds, or all that is left; where a timer has
/// a reason to run something more is acknowledged within eight; and once a DSS may be sent the reader that has all bytes is
/// told the end within six.
pub fn rounds_bring_news()
    ensures payload { SevenRoundsBringAPayload }
    ensures news { EightRoundsBringNews }
    ensures end { SixRoundsTellTheEnd }
{}

/// A law: both readers are told the end after 15 rounds and 7 more for each payload of the longer file, whatever the order
/// of moves in each round, where both congestion windows take two payloads or more as the first round begins.
pub fn both_ends_are_told()
    ensures { BothEndsAreTold }
{}
