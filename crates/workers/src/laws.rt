//! The law of texts that are read apart, stated by the contract of a function that does nothing.

ghost use Rattle.workers.specs.Apart.{TextsAreReadApart};

/// Where two texts mean loops, and no loop of the one has the name of a loop of the other, the one after the other means
/// the loops of both: the first has to end its last line, and both together have to keep the limits.
pub fn texts_are_read_apart()
    ensures { TextsAreReadApart }
{}
