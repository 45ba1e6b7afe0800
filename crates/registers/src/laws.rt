//! Laws, stated by the contracts of functions that do nothing: which numbers make the instances of two values meet in a
//! register, and which instances of a value live in one cycle, the closed forms by which numbers are found and
//! tested; and what least numbers are.

ghost use Rattle.registers.specs.Allotments.{LeastIsLawful, LeastIsOne, LeastOrNone};
ghost use Rattle.registers.specs.Crowds.{AgesAreBetween};
ghost use Rattle.registers.specs.Meetings.{MeetingsAreUnlawful};
ghost use Rattle.registers.specs.Residues.{ForbidsBetween, LawfulMore, ShiftsAreBetween};
ghost use Rattle.registers.specs.Values.{LivesAreSpans};

/// The differences of iterations at which the instances of two values share a cycle are those from a
/// least to a greatest one.
pub fn shifts_are_between()
    ensures { ShiftsAreBetween }
{}

/// A number is forbidden where the first of its differences from the least one on is not past the
/// greatest one.
pub fn forbids_between()
    ensures { ForbidsBetween }
{}

/// A number for one more value is lawful beside lawful ones where the value fits itself and none of
/// the others forbids the number.
pub fn lawful_more()
    ensures { LawfulMore }
{}

/// Where two values of a list meet in a register, the numbers are not lawful.
pub fn meetings_are_unlawful()
    ensures { MeetingsAreUnlawful }
{}

/// The instances of a value that live in the cycle of a row, in whatever interval, are those whose
/// iterations began from a least to a greatest number of intervals before.
pub fn ages_are_between()
    ensures { AgesAreBetween }
{}

/// Where each value is read no earlier than it lands, the lifetimes of a list of values end no earlier than they begin,
/// and within 2^32 cycles.
pub fn lives_are_spans()
    ensures { LivesAreSpans }
{}

/// Least numbers are lawful.
pub fn least_is_lawful()
    ensures { LeastIsLawful }
{}

/// There is one list of least numbers.
pub fn least_is_one()
    ensures { LeastIsOne }
{}

/// If some value gets no register after first fit, no list of least numbers exists.
pub fn least_or_none()
    ensures { LeastOrNone }
{}
