//! A law on what lists and journals gain.

ghost use Rattle.ruled_desk.specs.Gaining.{StaysPaired};

/// A law: lists and journals that are paired, and gain alike, are paired afterwards.
pub fn gaining_alike_stays_paired()
    ensures { StaysPaired }
{}
