//! Faults of a machine text in words.

ghost use Rattle.std.specs.Prelude.{◌≡◌, ◌++◌, IfOk, OnOk, codes, decimal, string_bytes};
ghost use Rattle.std.specs.Fmt.{signed_decimal};
ghost use Rattle.reader_faults.specs.MachineFaults.{key_text};
ghost use Rattle.machine_lint.specs.Hints.{near_name};
ghost use Rattle.lint_text.specs.Machines.{found_text, index_text, limits_text, machine_message, machine_what, machine_word, near_text, spot_text, table_text, wanted_text};

use crate::what::push_name;
use machine::{Key, MachineFault};
use machine_data::OutOfMemory;
use machine_lint::{Found, MachineLint, Spot, near_name};
use near_names::Word;
use std::alloc::Global;
use writing::{push_integer, push_told};

/// Pushes a key, on one line.
fn push_key(alloc: Global, text: &mut String, key: &Key) -> Result<(), OutOfMemory>
    ensures { OnOk result (string_bytes text.new ≡ string_bytes text.old ++ key_text key.now) }
{
    let told = key.to_string(alloc)?;
    text.push_str(told.as_str())
}

/// Pushes a number between two texts.
fn push_between(
    text: &mut String,
    before: &str,
    number: usize,
    after: &str,
) -> Result<(), OutOfMemory>
    ensures { OnOk result (string_bytes text.new ≡ string_bytes text.old ++ ((before.now ++ decimal number) ++ after.now)) }
{
    push_told(text, before, number as u64)?;
    text.push_str(after)
}

/// Pushes the number of an element.
fn push_index(text: &mut String, index: usize) -> Result<(), OutOfMemory>
    ensures { OnOk result (string_bytes text.new ≡ string_bytes text.old ++ index_text index) }
{
    push_between(text, "[", index, "]")
}

/// Pushes the key of the table of a word.
fn push_table(alloc: Global, text: &mut String, word: &Key) -> Result<(), OutOfMemory>
    ensures { OnOk result (string_bytes text.new ≡ string_bytes text.old ++ table_text word.now) }
{
    text.push_str("ops.")?;
    push_key(alloc, text, word)
}

/// Pushes a key in the table of a word.
fn push_inside(alloc: Global, text: &mut String, word: &Key, key: &str) -> Result<(), OutOfMemory>
    ensures { OnOk result (string_bytes text.new ≡ string_bytes text.old ++ (table_text word.now ++ key.now)) }
{
    push_table(alloc, text, word)?;
    text.push_str(key)
}

/// Pushes a key that means nothing, in the table of a word.
fn push_table_key(
    alloc: Global,
    text: &mut String,
    word: &Key,
    key: &Key,
) -> Result<(), OutOfMemory>
    ensures { OnOk result (string_bytes text.new ≡ string_bytes text.old ++ ((table_text word.now ++ codes ".") ++ key_text key.now)) }
{
    push_inside(alloc, text, word, ".")?;
    push_key(alloc, text, key)
}

/// Pushes an element of `units`.
fn push_unit(text: &mut String, index: usize) -> Result<(), OutOfMemory>
    ensures { OnOk result (string_bytes text.new ≡ string_bytes text.old ++ (codes "units" ++ index_text index)) }
{
    text.push_str("units")?;
    push_index(text, index)
}

/// Pushes an alternative.
fn push_alternative(
    alloc: Global,
    text: &mut String,
    word: &Key,
    index: usize,
) -> Result<(), OutOfMemory>
    ensures { OnOk result (string_bytes text.new ≡ string_bytes text.old ++ ((table_text word.now ++ codes ".alts") ++ index_text index)) }
{
    push_inside(alloc, text, word, ".alts")?;
    push_index(text, index)
}

/// Pushes a row.
fn push_row(
    alloc: Global,
    text: &mut String,
    word: &Key,
    alternative: usize,
    row: usize,
) -> Result<(), OutOfMemory>
    ensures { OnOk result (string_bytes text.new ≡ string_bytes text.old ++ (((table_text word.now ++ codes ".alts") ++ index_text alternative) ++ index_text row)) }
{
    push_alternative(alloc, text, word, alternative)?;
    push_index(text, row)
}

/// Pushes the key in full.
fn push_spot(alloc: Global, text: &mut String, spot: &Spot) -> Result<(), OutOfMemory>
    ensures { OnOk result (string_bytes text.new ≡ string_bytes text.old ++ spot_text spot.now) }
{
    match spot {
        Spot::Whole => Ok(()),
        Spot::TopKey(key) => push_key(alloc, text, key),
        Spot::Units => text.push_str("units"),
        Spot::Unit(index) => push_unit(text, *index),
        Spot::Registers => text.push_str("registers"),
        Spot::Ops => text.push_str("ops"),
        Spot::Table(word) => push_table(alloc, text, word),
        Spot::TableKey(word, key) => push_table_key(alloc, text, word, key),
        Spot::Latency(word) => push_inside(alloc, text, word, ".latency"),
        Spot::Alternatives(word) => push_inside(alloc, text, word, ".alts"),
        Spot::Alternative(word, index) => push_alternative(alloc, text, word, *index),
        Spot::Row(word, index, row) => push_row(alloc, text, word, *index, *row),
    }
}

/// Pushes a text between quotes.
fn push_quoted(alloc: Global, text: &mut String, word: &Key) -> Result<(), OutOfMemory>
    ensures { OnOk result (string_bytes text.new ≡ string_bytes text.old ++ ((codes " = \"" ++ key_text word.now) ++ codes "\"")) }
{
    text.push_str(" = \"")?;
    push_key(alloc, text, word)?;
    text.push_str("\"")
}

/// Pushes a number.
fn push_value(text: &mut String, number: i64) -> Result<(), OutOfMemory>
    ensures { OnOk result (string_bytes text.new ≡ string_bytes text.old ++ (codes " = " ++ signed_decimal number)) }
{
    text.push_str(" = ")?;
    push_integer(text, number)
}

/// Pushes how many elements there are.
fn push_elements(text: &mut String, count: usize) -> Result<(), OutOfMemory>
    ensures { OnOk result (string_bytes text.new ≡ string_bytes text.old ++ ((codes " (elements: " ++ decimal count) ++ codes ")")) }
{
    push_between(text, " (elements: ", count, ")")
}

/// Pushes what stands there.
fn push_found(alloc: Global, text: &mut String, found: &Found) -> Result<(), OutOfMemory>
    ensures { OnOk result (string_bytes text.new ≡ string_bytes text.old ++ found_text found.now) }
{
    match found {
        Found::Nothing => Ok(()),
        Found::Word(word) => push_quoted(alloc, text, word),
        Found::Number(number) => push_value(text, *number),
        Found::Elements(count) => push_elements(text, *count),
    }
}

/// The key in full, with what stands there.
pub(crate) fn machine_word(alloc: Global, lint: &MachineLint) -> Result<String, OutOfMemory>
    ensures { IfOk result (λ text. string_bytes text ≡ machine_word lint.now) }
{
    let mut text = String::new(alloc);
    push_spot(alloc, &mut text, &lint.spot)?;
    push_found(alloc, &mut text, &lint.found)?;
    Ok(text)
}

/// What has to stand there.
fn wanted(spot: &Spot) -> &'static str
    ensures { result.now ≡ wanted_text spot.now }
{
    match spot {
        Spot::Units => "an array of names",
        Spot::Unit(_) => "a name",
        Spot::Registers | Spot::Latency(_) => "an integer",
        Spot::Alternatives(_) => "an array of alternatives",
        Spot::Alternative(_, _) => "an array of rows",
        Spot::Row(_, _, _) => "a row UNIT@NUM",
        Spot::Whole | Spot::TopKey(_) | Spot::Ops | Spot::Table(_) | Spot::TableKey(_, _) => {
            "a table"
        }
    }
}

/// The limits of what stands there.
fn limits(spot: &Spot) -> &'static str
    ensures { result.now ≡ limits_text spot.now }
{
    match spot {
        Spot::Units => "1 to 64 units",
        Spot::Unit(_) => {
            "a lower-case letter, and at most 15 lower-case letters, digits or _ after it"
        }
        Spot::Registers => "1 to 256",
        Spot::Latency(_) => "1 to 64",
        Spot::Alternatives(_) => "1 to 8 alternatives",
        Spot::Alternative(_, _) => "1 to 16 rows",
        Spot::Row(_, _, _) => "an offset of 0 to 63",
        Spot::Whole | Spot::TopKey(_) | Spot::Ops | Spot::Table(_) | Spot::TableKey(_, _) => {
            "a text of at most 1048576 bytes"
        }
    }
}

/// Two texts as one.
fn joined(alloc: Global, first: &str, last: &str) -> Result<String, OutOfMemory>
    ensures { IfOk result (λ text. string_bytes text ≡ first.now ++ last.now) }
{
    let mut text = String::from_str(alloc, first)?;
    text.push_str(last)?;
    Ok(text)
}

/// A text and a key after it.
fn with_key(alloc: Global, first: &str, key: &Key) -> Result<String, OutOfMemory>
    ensures { IfOk result (λ text. string_bytes text ≡ first.now ++ key_text key.now) }
{
    let mut text = String::from_str(alloc, first)?;
    push_key(alloc, &mut text, key)?;
    Ok(text)
}

/// What is wrong.
fn machine_what(alloc: Global, spot: &Spot, fault: &MachineFault) -> Result<String, OutOfMemory>
    ensures { IfOk result (λ text. string_bytes text ≡ machine_what spot.now fault.now) }
{
    match fault {
        MachineFault::MissingKey(_) => String::from_str(alloc, "missing key"),
        MachineFault::WrongType(_) => joined(alloc, "wrong type: expected ", wanted(spot)),
        MachineFault::UnknownKey(_) => String::from_str(alloc, "unknown key"),
        MachineFault::UnknownUnit(unit) => with_key(alloc, "unknown unit ", unit),
        MachineFault::UnknownOpcode(_) => String::from_str(alloc, "unknown opcode"),
        MachineFault::RepeatedUnit(_) => {
            String::from_str(alloc, "repeated unit: an earlier element has this name")
        }
        MachineFault::RepeatedRow(_) => {
            String::from_str(
                alloc,
                "repeated row: an earlier row has this unit and offset",
            )
        }
        MachineFault::Limit(_) => joined(alloc, "limit: expected ", limits(spot)),
        MachineFault::NotUtf8 => String::from_str(alloc, "not UTF-8"),
        MachineFault::NotToml => String::from_str(alloc, "not TOML"),
        MachineFault::Memory => String::from_str(alloc, "out of memory"),
    }
}

/// Pushes the name that may be meant in a text that declares these units, if one is near.
fn push_near(
    alloc: Global,
    text: &mut String,
    units: &[Word],
    lint: &MachineLint,
) -> Result<(), OutOfMemory>
    ensures { OnOk result (string_bytes text.new ≡ string_bytes text.old ++ near_text (near_name units.now lint.now)) }
{
    match near_name(alloc, units, lint)? {
        Some(name) => push_name(text, name.as_bytes()),
        None => Ok(()),
    }
}

/// What is wrong in a text that declares these units, in words.
pub(crate) fn machine_message(
    alloc: Global,
    units: &[Word],
    lint: &MachineLint,
) -> Result<String, OutOfMemory>
    ensures { IfOk result (λ text. string_bytes text ≡ machine_message units.now lint.now) }
{
    let mut text = machine_what(alloc, &lint.spot, &lint.fault)?;
    push_near(alloc, &mut text, units, lint)?;
    Ok(text)
}
