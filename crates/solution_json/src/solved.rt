//! Solutions.

ghost use Rattle.std.specs.Prelude.{◌≡◌, IfOk};
ghost use Rattle.serde_json.specs.View.{view};
ghost use Rattle.solution_json.specs.Solutions.{solution_object, unroll_value};

use crate::initials::told_initials;
use crate::members::{object_of, with, with_count};
use crate::operations::told_operations;
use crate::values::{told_files, told_values};
use machine_data::OutOfMemory;
use serde_json::{Map, Value};
use solution_text::has_free;
use solutions::Solution;
use std::alloc::Global;

/// How often the body of a loop is repeated, where some file is unallotted.
fn told_unroll(solution: &Solution) -> Value
    ensures { view result ≡ unroll_value solution.now }
{
    if has_free(solution.problem().draft().files.as_slice()) {
        return Value::from(solution.unroll());
    }
    Value::Null
}

/// A solution.
#[tactic(auto, unfolding(crate::specs::Solutions::solution_object))]
pub(crate) fn told_solution(alloc: Global, solution: &Solution) -> Result<Value, OutOfMemory>
    ensures { IfOk result (λ v. view v ≡ solution_object solution.now) }
{
    let operations = told_operations(alloc, solution);
    let values = told_values(alloc, solution);
    let initials = told_initials(alloc, solution);
    let files = told_files(alloc, solution);
    let unroll = told_unroll(solution);
    let members = with_count(alloc, Ok(Map::new(alloc)), "ii", solution.ii());
    let members = with_count(alloc, members, "stages", solution.stages());
    let members = with(alloc, members, "operations", operations);
    let members = with(alloc, members, "values", values);
    let members = with(alloc, members, "initials", initials);
    let members = with(alloc, members, "files", files);
    object_of(with(alloc, members, "unroll", Ok(unroll)))
}
