//! What plain runs promise: laws, stated by the contracts of functions that do nothing.

ghost use Rattle.loop_data.specs.Promises.{PlainRunsKeepShapes, HistoryIsStable, InstancesReadValues, InstancesGiveValues, CellsHoldLastStored};

/// A run leaves a memory of the loop's shape, for the same number of iterations and with arrays of the
/// same length.
pub fn plain_runs_keep_shapes()
    ensures { PlainRunsKeepShapes }
{}

/// Once an iteration is after, its values stay what they are.
pub fn history_is_stable()
    ensures { HistoryIsStable }
{}

/// A statement reads in each iteration what its operands mean there.
pub fn instances_read_values()
    ensures { InstancesReadValues }
{}

/// A load gives the value of its cell, and any other statement but a store what its opcode computes.
pub fn instances_give_values()
    ensures { InstancesGiveValues }
{}

/// Before each statement in each iteration, each cell holds what the last store in it put there, of
/// those whose guard isn't 0, and where there is none, what it held at the start.
pub fn cells_hold_last_stored()
    ensures { CellsHoldLastStored }
{}
