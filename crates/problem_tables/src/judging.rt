//! What is wrong with single words.

ghost use Rattle.std.specs.Prelude.{◌≡◌, IfNone, false};
ghost use Rattle.problem_lines.specs.Seen.{word_seen};
ghost use Rattle.problem_tables.specs.Faults.{delay_fault, in_range, known, new, number_or_0, offset_fault, on_word, room_at, storage_fault, unless};
ghost use Rattle.problem_tables.specs.Names.{has_name, index_of};
ghost use Rattle.problem_tables.specs.inner.Spots.{on_spot};

use crate::fault::Told;
use crate::names::Names;
use machine_data::limits::{MAX_DELAY, MAX_REGISTERS};
use problem_faults::refused_problems::{Part, Wrong};
use problem_lines::{Integer, Line, Number, Storage, Word};

/// Where a fault is told.
#[derive(Clone, Copy)]
pub(crate) struct Spot {
    pub(crate) column: usize,
    pub(crate) width: usize,
}

impl Spot {
    /// On the keyword of a line.
    pub(crate) fn of_line(line: &Line<'_>) -> Spot
        ensures { result ≡ record { column = line.now.column; width = line.now.width } }
    {
        Spot {
            column: line.column,
            width: line.width,
        }
    }

    /// This fault.
    pub(crate) fn told(self, what: Wrong) -> Told
        ensures { result ≡ on_spot self what }
    {
        Told {
            column: self.column,
            width: self.width,
            what,
        }
    }

    /// This fault, unless all is well.
    pub(crate) fn unless(self, well: bool, what: Wrong) -> Option<Told>
        ensures { result ≡ unless well (on_spot self what) }
    {
        if well { None } else { Some(self.told(what)) }
    }

    /// The fault that there is no room for one more of a part.
    pub(crate) fn room(self, count: usize, most: usize, what: Part) -> Option<Told>
        ensures { result ≡ room_at (on_spot self) count most what }
    {
        self.unless(count < most, Wrong::Count(what))
    }
}

/// This fault of a word, unless all is well.
pub(crate) fn word_fault(word: Word<'_>, well: bool, what: Wrong) -> Option<Told>
    ensures { result ≡ unless well (on_word (word_seen word.entry) what) }
{
    if well {
        return None;
    }
    Some(Told {
        column: word.column,
        width: word.bytes.len(),
        what,
    })
}

/// The fault that there is no room for one more of a part, told on a word.
pub(crate) fn word_room(word: Word<'_>, count: usize, most: usize, what: Part) -> Option<Told>
    ensures { result ≡ room_at (on_word (word_seen word.entry)) count most what }
{
    word_fault(word, count < most, Wrong::Count(what))
}

/// The fault that a name is among these already.
pub(crate) fn new_fault(names: &Names<'_>, name: Word<'_>) -> Option<Told>
    ensures value { result ≡ new names.now (word_seen name.entry) }
    ensures absent { IfNone result (has_name names.now name.entry.bytes.now ≡ false) }
{
    if names.has(name.bytes) {
        return word_fault(name, false, Wrong::Repeated);
    }
    None
}

/// The fault that a name is none of these, among which it has this number.
pub(crate) fn known_fault(
    names: &Names<'_>,
    number: usize,
    what: Part,
    name: Word<'_>,
) -> Option<Told>
    requires { number ≡ index_of names.now name.bytes.now }
    ensures { result ≡ known names.now what (word_seen name.entry) }
{
    word_fault(name, number < names.len(), Wrong::Unknown(what))
}

/// The fault that a number is out of a range.
pub(crate) fn range_fault(least: u64, most: u64, number: Number) -> Option<Told>
    ensures { result ≡ in_range least most number }
{
    let at = Spot {
        column: number.column,
        width: number.width,
    };
    at.unless(least <= number.value && number.value <= most, Wrong::Range)
}

/// The fault of a file's storage.
pub(crate) fn storage_fault(storage: Storage) -> Option<Told>
    ensures { result ≡ storage_fault storage }
{
    match storage {
        Storage::Rotating(registers) => range_fault(1, u64::from(MAX_REGISTERS), registers),
        Storage::Unallotted => None,
    }
}

/// The fault that a number, where there is one, is above this.
pub(crate) fn offset_fault(most: u64, number: Option<Number>) -> Option<Told>
    ensures { result ≡ offset_fault most number }
{
    match number {
        None => None,
        Some(number) => range_fault(0, most, number),
    }
}

/// A number, or 0 where there is none.
pub(crate) fn number_or_0(number: Option<Number>) -> u64
    ensures { result ≡ number_or_0 number }
{
    match number {
        None => 0,
        Some(number) => number.value,
    }
}

/// The fault of a delay.
pub(crate) fn delay_fault(delay: Integer) -> Option<Told>
    ensures { result ≡ delay_fault delay }
{
    let at = Spot {
        column: delay.column,
        width: delay.width,
    };
    let well = match delay.value {
        None => false,
        Some(value) => -MAX_DELAY <= value && value <= MAX_DELAY,
    };
    at.unless(well, Wrong::Range)
}
