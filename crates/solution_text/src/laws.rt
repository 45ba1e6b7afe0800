//! Laws, stated by the contracts of functions that do nothing.

ghost use Rattle.solution_text.specs.Promises.{NamesAreThoseOfRuns};

/// The registers that operations are told to read and write are, in the turns of their issues, where the run of the solution has
/// the instances; and so are those of the initial values before the first turn.
pub fn names_are_those_of_runs()
    ensures { NamesAreThoseOfRuns }
{}
