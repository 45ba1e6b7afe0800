//! What stands in slots: a law, stated by the contract of a function that does nothing.

ghost use Rattle.figures.specs.Slots.{SlotsHaveOneTaker};

/// No two operations of a schedule take one slot, so the one that stands there is the only one.
pub fn slots_have_one_taker()
    ensures { SlotsHaveOneTaker }
{}
