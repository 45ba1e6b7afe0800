//! What is known of workers and their reports together, stated by the contracts of functions that do nothing.

ghost use Rattle.board_workers.specs.Settled.{NothingIsLeft};

/// Where a board was worked dry and nothing was refused, nothing is left to try, and each loop's word is
/// the interval of its choice.
pub fn nothing_is_left()
    ensures left { NothingIsLeft }
{}
