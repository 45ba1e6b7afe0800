//! Laws of attempts, stated by the contracts of functions that do nothing.

ghost use Rattle.modulo.specs.Culprits.{CulpritsAreFailures};
ghost use Rattle.modulo.specs.Promises.{AttemptsAreLawful, OneAnswer};

/// The end of an attempt keeps each edge and each unit.
pub fn attempts_are_lawful()
    ensures { AttemptsAreLawful }
{}

/// Each culprit is the cause of a failure of the attempt.
pub fn culprits_are_failures()
    ensures { CulpritsAreFailures }
{}

/// An attempt has one answer.
pub fn one_answer()
    ensures { OneAnswer }
{}
