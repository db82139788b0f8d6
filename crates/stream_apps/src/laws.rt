//! What holds of every application, as clauses of functions that do nothing.
ghost use Rattle.std.specs.Prelude.{◌≡◌};
ghost use Rattle.stream_apps.specs.Example.{app_of_a, app_of_b, app_steps_made, app_that_stops, turn_of_a, turn_of_b, turn_that_stops};
ghost use Rattle.stream_apps.specs.OnTime.{StopsOnTime};
ghost use Rattle.stream_apps.specs.Turns.{EveryAppAskCanBeAsked, EveryAppTurnEnds};

/// A law: each turn of an application ends, whatever replies of the asked kind come.
pub fn every_app_turn_ends()
    ensures { EveryAppTurnEnds }
{}

/// A law: what an application asks meets the conditions of the book that it asks.
pub fn applications_ask_what_can_be_asked()
    ensures { EveryAppAskCanBeAsked }
{}

/// A law: whatever it is answered, an application asks for a fast close as the round begins that holds its tick, a round having 100
/// ticks, and in no other round; one that has no tick never does.
pub fn fast_closes_are_on_time()
    ensures { StopsOnTime }
{}

/// An example: the first turns of both applications over a connection that is to carry five octets from A to B.
pub fn first_app_turns()
    ensures a { app_steps_made 4 app_of_a ≡ turn_of_a }
    ensures b { app_steps_made 3 app_of_b ≡ turn_of_b }
{}

/// An example: the turn in which A's application stops the connection, with octets of its file left.
pub fn turn_with_a_fast_close()
    ensures { app_steps_made 6 app_that_stops ≡ turn_that_stops }
{}
