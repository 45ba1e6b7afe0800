//! What problems promise: laws, stated by the contracts of functions that do nothing.

ghost use Rattle.problems.specs.Promises.{SoundDraftsAreWellFormed, ReadsAreInTime, ValuesAreValues, ReadsGoForward, OrdersAreKept};

/// The drafts without a fault are just the well-formed ones.
pub fn sound_drafts_are_well_formed()
    ensures { SoundDraftsAreWellFormed }
{}

/// Issue times that keep the edges of a problem have each value read no earlier than it lands.
pub fn reads_are_in_time()
    ensures { ReadsAreInTime }
{}

/// At issue times within 64 intervals the values of a problem and their reads are of the sizes that registers are
/// allotted for.
pub fn values_are_values()
    ensures { ValuesAreValues }
{}

/// What is read in its own iteration is made by an earlier operation.
pub fn reads_go_forward()
    ensures { ReadsGoForward }
{}

/// Issue times that keep the edges of a problem keep each of its orders.
pub fn orders_are_kept()
    ensures { OrdersAreKept }
{}
