ghost use Rattle.range_marks.specs.Laws.{DisjointMarksCommute, LastMarkStands, ForgottenPlacesStayForgotten};

use crate::mark::Mark;

/// Marks that are put at ranges without a common place may be put in either order.
pub fn disjoint_marks_commute<M: Mark>()
    ensures { DisjointMarksCommute M }
{}

/// Of two marks that are put at one range, one after the other, the last one stands.
pub fn last_mark_stands<M: Mark>()
    ensures { LastMarkStands M }
{}

/// A place that was forgotten is never told again, whatever is appended, marked, forgotten or cut after that.
pub fn forgotten_places_stay_forgotten<M: Mark>()
    ensures { ForgottenPlacesStayForgotten M }
{}
