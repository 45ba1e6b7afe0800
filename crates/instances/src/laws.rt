//! Laws, stated by the contracts of functions that do nothing. A run is told by lists of values, their reads and their homes;
//! it knows no loop and no kernel.

ghost use Rattle.instances.specs.Promises.{EndsHoldLast, InstancesAreIssuedOnce, NamesAreOfInstances, OpeningsAreApart, RegistersHoldInstances, RunsAreSequential};

/// An operation that is issued in its row, in `trip` turns from its stage on, is issued in just the cycles of its
/// instances: one for each iteration, from the first to the last.
pub fn instances_are_issued_once()
    ensures { InstancesAreIssuedOnce }
{}

/// A name in an operation is, in the turn in which it is issued, that of the register of the instance that is meant.
pub fn names_are_of_instances()
    ensures { NamesAreOfInstances }
{}

/// When a value is read, what landed last in the register that is read is the instance that is wanted, and nothing where
/// that is of an iteration before the first.
pub fn registers_hold_instances()
    ensures { RegistersHoldInstances }
{}

/// The initial values that are wanted stand in registers of their own, and are found there.
pub fn openings_are_apart()
    ensures { OpeningsAreApart }
{}

/// From its end on, the last iteration's value stands in its register where it is live at the end.
pub fn ends_hold_last()
    ensures { EndsHoldLast }
{}

/// Overlapped runs are sequential: whatever the operations do, the values of a run whose iterations overlap are those of
/// the run of one iteration after another.
pub fn runs_are_sequential<V>()
    ensures { RunsAreSequential V }
{}
