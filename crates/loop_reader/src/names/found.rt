//! What the names of a line stand for.

ghost use Rattle.std.specs.Prelude.{◌≡◌, option_map};
ghost use Rattle.loop_reader.specs.Meaning.{number_at};
ghost use Rattle.loop_reader.specs.Declarations.{declared_seen};
ghost use Rattle.loop_reader.specs.inner.Building.{IsFewNumber};
ghost use Rattle.loop_reader.specs.inner.Found.{target_at};

use crate::names::index::Declared;

/// What a name stands for that is read: a parameter or the value of a statement, by its number.
#[derive(Clone, Copy)]
pub(crate) enum Target {
    Param(u8),
    Value(u8),
}

/// What the names that a line uses stand for. What the line lacks is a 0 here.
#[derive(Clone, Copy)]
pub(crate) struct Targets {
    /// The number of the array of a statement's place, or that of the statement of an `out`.
    pub(crate) number: u8,
    pub(crate) first: Target,
    pub(crate) second: Target,
    pub(crate) third: Target,
}

impl Targets {
    /// What is found for a line that uses no name.
    pub(crate) const NOTHING: Targets = Targets {
        number: 0,
        first: Target::Value(0),
        second: Target::Value(0),
        third: Target::Value(0),
    };
}

/// The number of what a name stands for, unless it is too great for a loop.
#[inline]
pub(crate) fn declared_number(found: Option<Declared>) -> u8
    ensures { IsFewNumber (option_map declared_seen found) → result ≡ number_at (option_map declared_seen found) }
{
    match found {
        None => 0,
        Some(Declared::Array(number) | Declared::Param(number) | Declared::Value(number)) => {
            number.min(255) as u8
        }
    }
}

/// What a name stands for that is read, unless its number is too great for a loop.
#[inline]
pub(crate) fn target_of(found: Option<Declared>) -> Target
    ensures { IsFewNumber (option_map declared_seen found) → result ≡ target_at (option_map declared_seen found) }
{
    let number = declared_number(found);
    match found {
        Some(Declared::Param(_)) => Target::Param(number),
        _ => Target::Value(number),
    }
}
