//! What holds of every woven order, as clauses of functions that do nothing.
ghost use Rattle.path_core.specs.Octets.{octets};
ghost use Rattle.path_core.specs.Values.{values};
ghost use Rattle.journal_weave.specs.Laws.{WovenOrderDoes};

/// A law: the steps of the order that `weave` answers are lawful, and drive the world at the round's beginning to exactly the
/// actors and books that the round left, with their lists and journals, whoever made its steps, one after the other or
/// in threads.
pub fn woven_orders_do_the_same()
    ensures octets { WovenOrderDoes octets }
    ensures values { WovenOrderDoes values }
{}
