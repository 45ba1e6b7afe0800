//! Where faults stand in a text.

ghost use Rattle.std.specs.Prelude.{◌≡◌, ◌+◌, ◌++◌, ◌≤◌, ◌<◌, ◌^◌, [], ◌∷◌, ℕ, List, length, option_map};
ghost use Rattle.machine_lint.specs.Places.{lint_at, nowhere, offset_of, place_after, place_at, place_of};
ghost use Rattle.machine_lint.specs.inner.Ats.{spot_at};
ghost use Rattle.machine_lint.specs.inner.Marks.{mark_at};

use crate::index::{Indexed, Mark};
use crate::spots::{At, Found, Spot};
use machine::MachineFault;

/// A fault of a machine text, and the place that it is about.
#[derive(Drop)]
pub struct MachineLint {
    /// The line's number, from 1; 0 where the fault has no place in the text.
    pub line: usize,
    /// The column, which is the number of a byte in its line, from 1; 0 where the line is 0.
    pub column: usize,
    /// Where in the tree of the text the fault is.
    pub spot: Spot,
    /// What stands there.
    pub found: Found,
    /// What is wrong. It is never lack of memory.
    pub fault: MachineFault,
}

impl MachineLint {
    /// A fault of the text as a whole that has no place in it.
    pub(crate) fn nowhere(fault: MachineFault) -> MachineLint
        ensures { result ≡ nowhere fault }
    {
        MachineLint {
            line: 0,
            column: 0,
            spot: Spot::Whole,
            found: Found::Nothing,
            fault,
        }
    }

    /// A fault of the text as a whole, at the byte with this offset, or at its end.
    pub(crate) fn at(text: &[u8], offset: usize, fault: MachineFault) -> MachineLint
        requires inside { offset ≤ length text.now }
        requires short { length text.now < 2 ^ 32 }
        ensures { result ≡ lint_at text.now fault offset }
    {
        let place = place_at(text, offset);
        MachineLint {
            line: place.line,
            column: place.column,
            spot: Spot::Whole,
            found: Found::Nothing,
            fault,
        }
    }
}

/// A line and a column, both from 1; both 0 where there is no place.
#[derive(Clone, Copy)]
pub(crate) struct Place {
    pub(crate) line: usize,
    pub(crate) column: usize,
}

/// No place.
pub(crate) const NOWHERE: Place = Place { line: 0, column: 0 };

/// The first place of a text.
pub(crate) const START: Place = Place { line: 1, column: 1 };

impl Place {
    /// The place after a byte that stands here.
    pub(crate) fn after(self, byte: u8) -> Place
        requires line { self.line ≤ 2 ^ 32 }
        requires column { self.column ≤ 2 ^ 32 }
        ensures is { (text : List ℕ) → self ≡ place_after text → result ≡ place_after (text ++ byte ∷ []) }
        ensures line { result.line ≤ self.line + 1 }
        ensures column { result.column ≤ self.column + 1 }
    {
        if byte == b'\n' {
            Place {
                line: self.line + 1,
                column: 1,
            }
        } else {
            Place {
                line: self.line,
                column: self.column + 1,
            }
        }
    }
}

/// Where the byte with this offset stands, or the end of the text.
pub(crate) fn place_at(text: &[u8], offset: usize) -> Place
    requires inside { offset ≤ length text.now }
    requires short { length text.now < 2 ^ 32 }
    ensures { result ≡ place_at text.now offset }
{
    let mut place = START;
    let before = &text[..offset];
    for byte in before {
        place = place.after(*byte);
    }
    place
}

/// The mark of the key's word.
fn mark_of(text: &Indexed<'_>, at: At<'_>) -> Option<Mark>
    requires short { length text.now < 2 ^ 32 }
    ensures { result ≡ option_map (mark_at text.now) (offset_of text.now (spot_at at.entry)) }
{
    match at {
        At::TopKey(key) => text.find_key(key, 0),
        At::Units | At::Unit(_) => text.find_key("units", 0),
        At::Registers => text.find_key("registers", 0),
        At::Ops => text.find_key("ops", 0),
        At::Table(word) => text.find_table(word),
        At::TableKey(word, key) => text.find_in_table(word, key),
        At::Latency(word) => text.find_in_table(word, "latency"),
        At::Alternatives(word) | At::Alternative(word, _) | At::Row(word, _, _) => {
            text.find_in_table(word, "alts")
        }
    }
}

/// Where the key's word stands, if it does.
pub(crate) fn place_of(text: &Indexed<'_>, at: At<'_>) -> Place
    requires short { length text.now < 2 ^ 32 }
    ensures { result ≡ place_of text.now (spot_at at.entry) }
{
    match mark_of(text, at) {
        Some(mark) => mark.place,
        None => NOWHERE,
    }
}
