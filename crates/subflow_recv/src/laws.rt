ghost use Rattle.subflow_recv.specs.Laws.{HeldIsAPrefix, WhatComesFirstIsKept, KeptOctetsStay, ForgottenOctetsAreGone, OutsideIsNoOctetInTheWindow, HeldPayloadsAreKept};

/// A law: whatever parts of one list of octets come, in any order and however the edge moves and octets are forgotten
/// in between, what is held is a prefix of that list from the edge on.
pub fn held_is_a_prefix()
    ensures { HeldIsAPrefix }
{}

/// A law: after a payload each position in the window has the octet that it had, or else that of the payload, and every
/// other position is as it was.
pub fn what_comes_first_is_kept()
    ensures { WhatComesFirstIsKept }
{}

/// A law: an octet that is kept is never changed by another payload.
pub fn kept_octets_stay()
    ensures { KeptOctetsStay }
{}

/// A law: once octets are forgotten, nothing at or past the position is kept, and all before it is as it was.
pub fn forgotten_octets_are_gone()
    ensures { ForgottenOctetsAreGone }
{}

/// A law: a payload is outside exactly where none of its octets is in the window.
pub fn outside_is_no_octet_in_the_window()
    ensures { OutsideIsNoOctetInTheWindow }
{}

/// A law: a payload that is held and then kept is kept as if it had been accepted at once.
pub fn held_payloads_are_kept()
    ensures { HeldPayloadsAreKept }
{}
