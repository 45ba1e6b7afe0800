//! What helps to mend faults of a block's lines.

ghost use Rattle.std.specs.Prelude.{◌≡◌, ◌≤◌, ◌++◌, [], ◌∷◌, ℕ, List, IfOk, OnOk, Some, if◌then◌else◌, codes, filter, map, not, option_map, slice_index_or};
ghost use Rattle.machine_data.specs.Opcodes.{same_word};
ghost use Rattle.std.specs.List.{range_with_len};
ghost use Rattle.loop_lines.specs.Forms as spec;
ghost use Rattle.loop_lines.specs.Words.{words_of};
ghost use Rattle.reader_faults.specs.declared.loops.LoopFaultKind.TheVariants.{MissingInit, UnknownName};
ghost use Rattle.loop_lint.specs.Hints.{hint_for, may_be, name_hint, name_in, reach, wanted_at};
ghost use Rattle.near_names.specs.Nearest as near;
ghost use Rattle.loop_reader.specs.Declarations.{declared_seen};
ghost use Rattle.loop_lint.specs.inner.Tables.{flag_of, known_at, IsTable};

use crate::block::{Known, Table};
use crate::fault::Hint;
use crate::fits::{is_text, split_at_byte};
use crate::scan::next_word;
use loop_lines::number_of;
use loop_reader::{Declared, is_readable, is_value};
use machine_data::OutOfMemory;
use near_names::{Word, nearest};
use std::alloc::Global;

/// What a name has to be where it stands.
#[derive(Clone, Copy)]
pub(crate) enum Wanted {
    Array,
    Value,
    /// A parameter or a value.
    Readable,
}

/// A name that stands for this may stand where that is wanted.
fn may_be(want: Wanted, found: Option<Declared>) -> bool
    ensures { result ≡ may_be want (option_map declared_seen found) }
{
    match want {
        Wanted::Array => matches!(found, Some(Declared::Array(_))),
        Wanted::Value => is_value(found),
        Wanted::Readable => is_readable(found),
    }
}

/// Pushes a name, where this holds.
fn add_if<'a>(names: &mut Vec<&'a [u8]>, holds: bool, name: &'a [u8]) -> Result<(), OutOfMemory>
    ensures { OnOk result (map (λ n. n.now) names.new.items ≡ map (λ n. n.now) names.old.items ++ (if holds then name.now ∷ [] else [])) }
{
    if holds {
        names.push(name)?;
    }
    Ok(())
}

/// The names of a table that may stand where this is wanted.
fn chosen<'a>(alloc: Global, table: &Table<'a>, want: Wanted) -> Result<Vec<&'a [u8]>, OutOfMemory>
    ensures { IfOk result (λ names. map (λ n. n.now) names.items ≡ filter (λ (name : List ℕ). may_be want (option_map declared_seen (known_at table.now.names name).declared)) (map (λ n. n.now) table.now.order.items)) }
{
    let mut names = Vec::new(alloc);
    for name in table.order.iter() {
        let found = table.get(*name).declared;
        add_if(&mut names, may_be(want, found), *name)?;
    }
    Ok(names)
}

/// The name in a word.
pub fn name_in(word: &[u8]) -> &[u8]
    ensures { result.now ≡ name_in word.now }
{
    if let Some((name, _)) = split_at_byte(word, b'[') {
        return name;
    }
    match split_at_byte(word, b'@') {
        Some((name, _)) => name,
        None => word,
    }
}

/// A line is an `out`.
fn is_out(line: &[u8]) -> bool
    ensures { result ≡ same_word (slice_index_or (words_of line.now) 0 []) (codes "out") }
{
    match next_word(line) {
        Some((word, _)) => is_text(word, "out"),
        None => false,
    }
}

/// What the name in a word of a line has to be.
fn wanted_at(line: &[u8], word: &[u8]) -> Wanted
    ensures { result ≡ wanted_at (words_of line.now) word.now }
{
    if split_at_byte(word, b'[').is_some() {
        return Wanted::Array;
    }
    if split_at_byte(word, b'@').is_some() || is_out(line) {
        return Wanted::Value;
    }
    Wanted::Readable
}

/// The nearest of some names.
fn nearest_of(alloc: Global, name: &[u8], names: &[&[u8]]) -> Result<Hint, OutOfMemory>
    ensures { IfOk result (λ hint. hint ≡ name_hint (near.nearest name.now (map (λ n. n.now) names.now))) }
{
    match nearest(alloc, name, names)? {
        Some(name) => Ok(Hint::Name(Word::of(alloc, name)?)),
        None => Ok(Hint::Nothing),
    }
}

/// The nearest name of a block that may stand in the place of a word of a line.
pub(crate) fn near_name(
    alloc: Global,
    block: &Table<'_>,
    line: &[u8],
    word: &[u8],
) -> Result<Hint, OutOfMemory>
    ensures { IfOk result (λ hint. (forms : List spec.Form) → IsTable forms block.now → hint ≡ hint_for forms (words_of line.now) word.now UnknownName) }
{
    let names = chosen(alloc, block, wanted_at(line, word))?;
    nearest_of(alloc, name_in(word), names.as_slice())
}

/// The number of a word `NAME@NUM`, at most 16; of one without a number it is 1.
fn reach(word: &[u8]) -> u8
    ensures value { result ≡ reach word.now }
    ensures small { result ≤ 16 }
{
    let Some((_, digits)) = split_at_byte(word, b'@') else {
        return 1;
    };
    match number_of(digits) {
        Some(number) => number.min(16) as u8,
        None => 0,
    }
}

/// Pushes a number, unless the initial value is there.
fn add_missing(numbers: &mut Vec<u8>, known: &Known, number: u8) -> Result<(), OutOfMemory>
    requires { number ≤ 16 }
    ensures { OnOk result (numbers.new.items ≡ numbers.old.items ++ (if not (flag_of known.now.inits (Some number)) then number ∷ [] else [])) }
{
    if !known.inits[number as usize] {
        numbers.push(number)?;
    }
    Ok(())
}

/// The numbers up to this one of initial values that are not there.
fn numbers_missing(alloc: Global, known: &Known, reach: u8) -> Result<Word, OutOfMemory>
    requires { reach ≤ 16 }
    ensures { IfOk result (λ numbers. numbers ≡ filter (λ (n : ℕ). not (flag_of known.now.inits (Some n))) (range_with_len 1 reach)) }
{
    let mut numbers = Vec::new(alloc);
    for before in 0..reach {
        add_missing(&mut numbers, known, before + 1)?;
    }
    Ok(Word::new(numbers))
}

/// The initial values that the name in a word needs and has not.
pub(crate) fn missing_inits(
    alloc: Global,
    block: &Table<'_>,
    word: &[u8],
) -> Result<Hint, OutOfMemory>
    ensures { IfOk result (λ hint. (forms : List spec.Form) (words : List (List ℕ)) → IsTable forms block.now → hint ≡ hint_for forms words word.now MissingInit) }
{
    let known = block.get(name_in(word));
    let numbers = numbers_missing(alloc, &known, reach(word))?;
    Ok(Hint::Inits(numbers))
}
