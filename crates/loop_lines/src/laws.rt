//! What the words of a line are: a law, stated by the contract of a function that does nothing.

ghost use Rattle.loop_lines.specs.Columns.{WordsAreWords};

/// Without their columns the words of a line are its words.
pub fn words_are_words()
    ensures { WordsAreWords }
{}
