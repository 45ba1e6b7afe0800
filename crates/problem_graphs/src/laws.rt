//! How names are read back: a law, stated by the contract of a function that does nothing.

ghost use Rattle.problem_graphs.specs.Escapes.{NamesAreReadBack};

/// What stands between quotes for a name is read as that name.
pub fn names_are_read_back()
    ensures { NamesAreReadBack }
{}
