//! What names of a problem text are: a law, stated by the contract of a function that does nothing.

ghost use Rattle.problem_lines.specs.Promises.{NamesAreLabels};

/// The words that are names are just the texts that labels have.
pub fn names_are_labels()
    ensures { NamesAreLabels }
{}
