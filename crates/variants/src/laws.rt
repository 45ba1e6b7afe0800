//! Laws of variants, stated by the contracts of functions that do nothing.

ghost use Rattle.variants.specs.Intervals.{OneInterval, OthersChangeNothing};

/// A variant that does not concern a loop leaves its interval what it is on the machine.
pub fn others_change_nothing()
    ensures { OthersChangeNothing }
{}

/// A loop has one interval on a machine, or none.
pub fn one_interval()
    ensures { OneInterval }
{}
