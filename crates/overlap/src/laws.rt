//! What kernels of lawful schedules and allotments promise: laws, stated by the contracts of functions that do
//! nothing.

ghost use Rattle.overlap.specs.LoopValues.{LifetimesAreOfValues};
ghost use Rattle.overlap.specs.Overlap.{KernelsAreWellFormed, KernelsKeepSchedules, InstancesAreIssuedOnce, NamesAreOfInstances, RegistersHoldValues, LoadsFollowStores, WritesAreOfValues, OverlapIsSequence};

/// The lifetimes of a scheduled loop are those of the list of its values, with its uses as reads.
pub fn lifetimes_are_of_values()
    ensures { LifetimesAreOfValues }
{}

/// The kernel of a lawful schedule and a lawful allotment is well formed.
pub fn kernels_are_well_formed()
    ensures { KernelsAreWellFormed }
{}

/// The stages, rows and alternatives of a kernel's operations are its schedule, their opcodes those of the
/// loop's statements, and their latencies those that the schedule was made for.
pub fn kernels_keep_schedules()
    ensures { KernelsKeepSchedules }
{}

/// An operation is issued in just the cycles of its instances: one for each iteration, from the first
/// to the last.
pub fn instances_are_issued_once()
    ensures { InstancesAreIssuedOnce }
{}

/// The name of a source is, in the turn in which its reader is issued, the physical register of the
/// instance that is wanted.
pub fn names_are_of_instances()
    ensures { NamesAreOfInstances }
{}

/// When a reader is issued, what landed last in the register of the instance that it wants is that
/// instance's value, and for one of an iteration before the first its initial value.
pub fn registers_hold_values()
    ensures { RegistersHoldValues }
{}

/// When a load is issued, what landed last on its cell is the store that is last before the load in the
/// plain run, of those that write.
pub fn loads_follow_stores()
    ensures { LoadsFollowStores }
{}

/// In every cycle the kernel makes the writes of the plain run's values.
pub fn writes_are_of_values()
    ensures { WritesAreOfValues }
{}

/// Overlapped execution equals sequential execution: the kernel of a lawful schedule and a lawful
/// allotment leaves of each memory, for every number of iterations, what the loop leaves.
pub fn overlap_is_sequence()
    ensures { OverlapIsSequence }
{}
