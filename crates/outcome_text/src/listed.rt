//! Names of parts of a problem, one after another.

ghost use Rattle.std.specs.Prelude.{◌≡◌, ◌++◌, OnOk};
ghost use Rattle.std.specs.List.{flat_map};
ghost use Rattle.outcome_text.specs.Notes.{listed, spaced};

use machine_data::OutOfMemory;
use problems::Label;
use writing::{Text, push_number};

/// Appends a blank and the name with a number, or where there is none the number.
fn push_spaced(text: &mut Vec<u8>, names: &[Label], number: usize) -> Result<(), OutOfMemory>
    ensures ok { OnOk result (text.new.items ≡ text.old.items ++ spaced names.now number) }
{
    text.push_piece(" ")?;
    match names.get(number) {
        Some(name) => text.push_piece(name.as_str()),
        None => push_number(text, number as u64),
    }
}

/// Appends the names with these numbers, each after a blank.
fn push_names(text: &mut Vec<u8>, names: &[Label], numbers: &[usize]) -> Result<(), OutOfMemory>
    ensures ok { OnOk result (text.new.items ≡ text.old.items ++ flat_map (spaced names.now) numbers.now) }
{
    for number in numbers {
        push_spaced(text, names, *number)?;
    }
    Ok(())
}

/// Appends words and the names with these numbers.
pub(crate) fn push_listed(
    text: &mut Vec<u8>,
    words: &str,
    names: &[Label],
    numbers: &[usize],
) -> Result<(), OutOfMemory>
    ensures ok { OnOk result (text.new.items ≡ text.old.items ++ listed words.now names.now numbers.now) }
{
    text.push_piece(words)?;
    push_names(text, names, numbers)
}
