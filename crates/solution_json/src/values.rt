//! The values of a solution, and its register files.

ghost use Rattle.std.specs.Prelude.{◌≡◌, ◌<◌, length, slice_get, Some, IfOk};
ghost use Rattle.std.specs.List.{range_with_len};
ghost use Rattle.serde_json.specs.View.{view};
ghost use Rattle.solution_text.specs.Values.{file_of, life_of};
ghost use Rattle.solution_json.specs.Parts.{array_of};
ghost use Rattle.solution_json.specs.Values.{copies_value, file_object, number_value, size_value, value_object};

use crate::members::{object_of, with, with_count};
use crate::told::told_name;
use machine_data::OutOfMemory;
use problems::{Draft, File};
use registers::Lifetime;
use serde_json::{Map, Value, json};
use solutions::Solution;
use std::alloc::Global;

/// The number of a value's file.
fn file_of(solution: &Solution, value: usize) -> usize
    requires { value < length solution.now.problem.draft.values.items }
    ensures { result ≡ file_of solution.now value }
{
    let draft = solution.problem().draft();
    draft.values[value].file
}

/// Of which kind a value's file is.
fn kind_of(solution: &Solution, value: usize) -> File
    requires { value < length solution.now.problem.draft.values.items }
    ensures { slice_get solution.now.problem.draft.files.items (file_of solution.now value) ≡ Some result }
{
    let draft = solution.problem().draft();
    draft.files[draft.values[value].file]
}

/// When a value lives in iteration 0, in cycles.
fn life_of(solution: &Solution, value: usize) -> Lifetime
    requires { value < length solution.now.problem.draft.values.items }
    ensures { result ≡ life_of solution.now value }
{
    solution.life(value)
}

/// How many instances of a value live at once at the most, where its file is unallotted.
fn told_copies(solution: &Solution, value: usize, file: File) -> Value
    requires { value < length solution.now.problem.draft.values.items }
    ensures { view result ≡ copies_value solution.now value (Some file) }
{
    match file {
        File::Rotating(_) => Value::Null,
        File::Unallotted => Value::from(solution.copies(value)),
    }
}

/// The number of a value, where its file is rotating.
fn told_number(solution: &Solution, value: usize, file: File) -> Value
    requires { value < length solution.now.problem.draft.values.items }
    ensures { view result ≡ number_value solution.now value (Some file) }
{
    match file {
        File::Rotating(_) => Value::from(solution.number(value)),
        File::Unallotted => Value::Null,
    }
}

/// A value.
#[tactic(auto, unfolding(crate::specs::Values::value_object))]
fn told_value(alloc: Global, solution: &Solution, value: usize) -> Result<Value, OutOfMemory>
    requires { value < length solution.now.problem.draft.values.items }
    ensures { IfOk result (λ v. view v ≡ value_object solution.now value) }
{
    let names = &solution.problem().draft().names;
    let kind = kind_of(solution, value);
    let life = life_of(solution, value);
    let name = told_name(alloc, names.values.as_slice(), value);
    let file = told_name(alloc, names.files.as_slice(), file_of(solution, value));
    let number = told_number(solution, value, kind);
    let copies = told_copies(solution, value, kind);
    let members = with(alloc, Ok(Map::new(alloc)), "name", name);
    let members = with(alloc, members, "file", file);
    let members = with_count(alloc, members, "first", life.first);
    let members = with_count(alloc, members, "last", life.last);
    let members = with(alloc, members, "number", Ok(number));
    object_of(with(alloc, members, "copies", Ok(copies)))
}

/// All values, in order.
pub(crate) fn told_values(alloc: Global, solution: &Solution) -> Result<Value, OutOfMemory>
    ensures { IfOk result (λ v. view v ≡ array_of (value_object solution.now) (range_with_len 0 (length solution.now.problem.draft.values.items))) }
{
    let mut values = Vec::new(alloc);
    for value in 0..solution.problem().draft().values.len() {
        values.push(told_value(alloc, solution, value)?)?;
    }
    Ok(Value::Array(values))
}

/// How many registers a file of this kind has, where it is rotating.
fn told_registers(kind: File) -> Value
    ensures { view result ≡ size_value (Some kind) }
{
    match kind {
        File::Rotating(registers) => Value::from(registers),
        File::Unallotted => Value::Null,
    }
}

/// How many registers the file with a number has, where it is rotating.
fn told_size(draft: &Draft, file: usize) -> Value
    requires { file < length draft.now.files.items }
    ensures { view result ≡ size_value (slice_get draft.now.files.items file) }
{
    told_registers(draft.files[file])
}

/// A file.
#[tactic(auto, unfolding(crate::specs::Values::file_object))]
fn told_file(alloc: Global, solution: &Solution, file: usize) -> Result<Value, OutOfMemory>
    requires { file < length solution.now.problem.draft.files.items }
    ensures { IfOk result (λ v. view v ≡ file_object solution.now file) }
{
    let draft = solution.problem().draft();
    json!(in alloc; {
        "name": told_name(alloc, draft.names.files.as_slice(), file)?,
        "max_live": solution.max_live(file),
        "registers": told_size(draft, file)
    })
}

/// All files, in order.
pub(crate) fn told_files(alloc: Global, solution: &Solution) -> Result<Value, OutOfMemory>
    ensures { IfOk result (λ v. view v ≡ array_of (file_object solution.now) (range_with_len 0 (length solution.now.problem.draft.files.items))) }
{
    let mut values = Vec::new(alloc);
    for file in 0..solution.problem().draft().files.len() {
        values.push(told_file(alloc, solution, file)?)?;
    }
    Ok(Value::Array(values))
}
