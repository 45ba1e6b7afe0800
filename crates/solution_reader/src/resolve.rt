//! A solution of a text by the names of a problem.

ghost use Rattle.std.specs.Prelude.{◌≡◌, ◌<◌, ℕ, List, length, map, IfOk, OnOk, ◌||◌};
ghost use Rattle.std.specs.List.{zip};
ghost use Rattle.problem_lines.specs.Seen.{word_seen};
ghost use Rattle.machine_data.specs.Opcodes.{same_word};
ghost use Rattle.solution_reader.specs.Data.{has_name};
ghost use Rattle.solution_reader.specs.Resolved.{each_told, earlier, number_told, numbers_told, place_told, places_told, solution_at, told_of, unknown_at, unknown_in, first_op_failing, first_value_failing};
ghost use Rattle.solution_reader.specs.inner.Found.{is_among};
ghost use Rattle.solution_reader.specs.inner.Seen.{op_seen, value_seen};

use crate::file::SolutionFile;
use crate::ops::Ops;
use crate::rows::{OpTime, ValueNumber};
use crate::values::Values;
use machine_data::OutOfMemory;
use problem_faults::refused_solutions::{Part, SolutionFault, Wrong};
use problem_lines::Word;
use problems::{Draft, File, Label, Value};
use std::alloc::Global;
use std::collections::BTreeSet;

impl<'a> SolutionFile<'a> {
    /// The first line of a solution that tells a name which is none of the problem's: of its operations on a line of an
    /// operation, of its values on that of a value.
    ///
    /// # Errors
    /// Memory ran out.
    pub fn unknown(
        &self,
        alloc: Global,
        number: usize,
        draft: &Draft,
    ) -> Result<Option<SolutionFault>, OutOfMemory>
        requires { number < length self.now }
        ensures { IfOk result (λ fault. fault ≡ unknown_in (solution_at self.now number) draft.now) }
    {
        let solution = &self.solutions[number];
        let op = unknown_op(alloc, &solution.ops, draft.names.operations.as_slice())?;
        let value = unknown_value(alloc, &solution.values, draft.names.values.as_slice())?;
        Ok(first_of(op, value))
    }

    /// The issue time and the alternative of each operation, in the problem's order; or the number of the first
    /// operation that has no line.
    ///
    /// # Errors
    /// Memory ran out.
    pub fn places(
        &self,
        alloc: Global,
        number: usize,
        draft: &Draft,
    ) -> Result<Result<Vec<(u64, usize)>, usize>, OutOfMemory>
        requires { number < length self.now }
        ensures { IfOk result (λ told. told_of told ≡ places_told (solution_at self.now number) draft.now) }
    {
        places_of(
            alloc,
            &self.solutions[number].ops,
            draft.names.operations.as_slice(),
        )
    }

    /// The number of each value, in the problem's order, which is 0 for a value of an unallotted file that has no
    /// line; or the number of the first other value that has no line.
    ///
    /// # Errors
    /// Memory ran out.
    pub fn numbers(
        &self,
        alloc: Global,
        number: usize,
        draft: &Draft,
    ) -> Result<Result<Vec<usize>, usize>, OutOfMemory>
        requires { number < length self.now }
        ensures { IfOk result (λ told. told_of told ≡ numbers_told (solution_at self.now number) draft.now) }
    {
        numbers_of(alloc, &self.solutions[number].values, draft)
    }
}

/// Adds a name, which may be there already.
fn add_name<'n>(names: &mut BTreeSet<&'n [u8]>, name: &'n [u8]) -> Result<(), OutOfMemory>
    ensures { OnOk result ((q : List ℕ) → is_among names.new q ≡ (is_among names.old q || same_word q name.now)) }
{
    names.insert(name)?;
    Ok(())
}

/// A set of names.
fn names_of(alloc: Global, names: &[Label]) -> Result<BTreeSet<&[u8]>, OutOfMemory>
    ensures { IfOk result (λ set. (q : List ℕ) → is_among set q ≡ has_name names.now q) }
{
    let mut set = BTreeSet::new(alloc);
    for name in names {
        add_name(&mut set, name.as_str().as_bytes())?;
    }
    Ok(set)
}

/// The fault that a name on a line is none of a part's.
fn unknown_at(line: usize, name: Word<'_>, what: Part) -> SolutionFault
    ensures { result ≡ unknown_at line (word_seen name.entry) what }
{
    SolutionFault {
        line,
        column: name.column,
        width: name.bytes.len(),
        what: Wrong::Unknown(what),
    }
}

/// The first line of an operation whose name is not in a set.
fn first_unknown_op(names: &BTreeSet<&[u8]>, rows: &[OpTime<'_>]) -> Option<SolutionFault>
    ensures { result ≡ first_op_failing (is_among names.now) (map op_seen rows.now) }
{
    for row in rows {
        if !names.contains(row.name.bytes) {
            return Some(unknown_at(row.line, row.name, Part::Operations));
        }
    }
    None
}

/// The first line of a value whose name is not in a set.
fn first_unknown_value(names: &BTreeSet<&[u8]>, rows: &[ValueNumber<'_>]) -> Option<SolutionFault>
    ensures { result ≡ first_value_failing (is_among names.now) (map value_seen rows.now) }
{
    for row in rows {
        if !names.contains(row.name.bytes) {
            return Some(unknown_at(row.line, row.name, Part::Values));
        }
    }
    None
}

/// The first line of an operation whose name is none of these.
fn unknown_op(
    alloc: Global,
    ops: &Ops<'_>,
    names: &[Label],
) -> Result<Option<SolutionFault>, OutOfMemory>
    ensures { IfOk result (λ fault. fault ≡ first_op_failing (has_name names.now) ops.now) }
{
    let known = names_of(alloc, names)?;
    Ok(first_unknown_op(&known, ops.rows()))
}

/// The first line of a value whose name is none of these.
fn unknown_value(
    alloc: Global,
    values: &Values<'_>,
    names: &[Label],
) -> Result<Option<SolutionFault>, OutOfMemory>
    ensures { IfOk result (λ fault. fault ≡ first_value_failing (has_name names.now) values.now) }
{
    let known = names_of(alloc, names)?;
    Ok(first_unknown_value(&known, values.rows()))
}

/// The one of two faults whose line comes first.
fn first_of(one: Option<SolutionFault>, other: Option<SolutionFault>) -> Option<SolutionFault>
    ensures { result ≡ earlier one other }
{
    match (one, other) {
        (Some(one), Some(other)) => Some(if other.line < one.line { other } else { one }),
        (None, other) => other,
        (one, None) => one,
    }
}

/// The place of each of some operations, or the number of the first without a line.
fn places_of(
    alloc: Global,
    ops: &Ops<'_>,
    names: &[Label],
) -> Result<Result<Vec<(u64, usize)>, usize>, OutOfMemory>
    ensures { IfOk result (λ told. told_of told ≡ each_told 0 (map (place_told ops.now) names.now)) }
{
    let mut places = Vec::new(alloc);
    for (number, name) in names.iter().enumerate() {
        match ops.find(name.as_str().as_bytes()) {
            None => return Ok(Err(number)),
            Some(row) => places.push((row.time, row.alternative as usize))?,
        }
    }
    Ok(Ok(places))
}

/// The number of a value of a file, if it has a line or needs none.
fn number_of(values: &Values<'_>, files: &[File], name: &Label, value: Value) -> Option<usize>
    ensures { result ≡ number_told values.now files.now (name.now, value) }
{
    match values.find(name.as_str().as_bytes()) {
        Some(row) => Some(row.number as usize),
        None => match files.get(value.file) {
            Some(File::Unallotted) => Some(0),
            _ => None,
        },
    }
}

/// The number of each value, or that of the first without a line that needs one.
fn numbers_of(
    alloc: Global,
    values: &Values<'_>,
    draft: &Draft,
) -> Result<Result<Vec<usize>, usize>, OutOfMemory>
    ensures { IfOk result (λ told. told_of told ≡ each_told 0 (map (number_told values.now draft.now.files.items) (zip draft.now.names.values.items draft.now.values.items))) }
{
    let mut numbers = Vec::new(alloc);
    let names = draft.names.values.as_slice();
    let rows = draft.values.as_slice();
    let count = names.len().min(rows.len());
    for number in 0..count {
        match number_of(values, draft.files.as_slice(), &names[number], rows[number]) {
            None => return Ok(Err(number)),
            Some(told) => numbers.push(told)?,
        }
    }
    Ok(Ok(numbers))
}
