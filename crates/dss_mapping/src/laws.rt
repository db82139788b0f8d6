//! What holds of mappings whatever was learned.
ghost use Rattle.dss_mapping.specs.Laws.{NoClashByOneRecord, OpeningAgrees, LearningAgrees, InfiniteAgrees, ForgettingAgrees, ForgottenAreNotTold, OthersAreTold, PlacesStay, LearnedPlaces};

/// Where all that was learned agrees with one record, which has a place for each position, each place that is told is the
/// record's, no mapping that agrees with it clashes, and what is learned then agrees too.
pub fn one_record_never_clashes()
    ensures clash { NoClashByOneRecord }
    ensures opening { OpeningAgrees }
    ensures learned { LearningAgrees }
    ensures infinite { InfiniteAgrees }
    ensures forgotten { ForgettingAgrees }
{}

/// A mapping that is kept gives each of its positions its place, and all others keep theirs.
pub fn learning_gives_places()
    ensures { LearnedPlaces }
{}

/// Below the position up to which mappings were let go none is told, at and above it all are told as before, and the places
/// of all positions stay.
pub fn forgetting_keeps_the_rest()
    ensures below { ForgottenAreNotTold }
    ensures others { OthersAreTold }
    ensures places { PlacesStay }
{}
