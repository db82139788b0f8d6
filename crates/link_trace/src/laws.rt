//! A law of the table.

ghost use Rattle.link_trace.specs.FirstOctets.{FirstOctetsAreThePlaces};

/// A law: where the payloads of a side, each of which tells its place, stand at places below a number, and each of these places is in
/// one of them, the table counts just as many octets that were sent for the first time.
pub fn first_octets_are_the_places()
    ensures { FirstOctetsAreThePlaces }
{}
