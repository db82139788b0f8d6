//! What holds of every agenda, as clauses of functions that do nothing.

ghost use Rattle.path_agenda.specs.Laws.{EveryTemplateEnds, EveryChainEnds};

/// A law: each template ends the turn, by its last duty and by no other.
pub fn every_template_ends()
    ensures { EveryTemplateEnds }
{}

/// A law: what a reply puts in the place of a duty is less, by the weights of duties, than the duty was: a break in the place
/// of what a copy said or of bytes, a Data ACK that is told, the reset of a break, the death after a reset.
pub fn every_chain_ends()
    ensures { EveryChainEnds }
{}
