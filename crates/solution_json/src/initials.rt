//! The registers that hold values of before the first iteration.

ghost use Rattle.std.specs.Prelude.{◌≡◌, [], ◌++◌, ◌<◌, ◌≤◌, length, map, IfOk, OnOk};
ghost use Rattle.std.specs.List.{cons_option};
ghost use Rattle.machine_data.specs.declared.limits.TheConstants.{MAX_DISTANCE};
ghost use Rattle.serde_json.specs.Data.{array};
ghost use Rattle.serde_json.specs.View.{items_of, view};
ghost use Rattle.solution_json.specs.Values.{initial_at, initial_object, initials, initials_of};

use crate::named::told_register;
use crate::told::told_name;
use machine_data::OutOfMemory;
use problems::Draft;
use serde_json::{Value, json};
use solution_text::{Register, carried, register_after};
use solutions::Solution;
use std::alloc::Global;

/// The register of a value's instance of `iterations` iterations before the first one.
fn told_initial(
    alloc: Global,
    draft: &Draft,
    value: usize,
    iterations: u64,
    register: Register,
) -> Result<Value, OutOfMemory>
    ensures { IfOk result (λ v. view v ≡ initial_object draft.now value iterations register) }
{
    json!(in alloc; {
        "register": told_register(alloc, draft, register)?,
        "value": told_name(alloc, draft.names.values.as_slice(), value)?,
        "distance": iterations
    })
}

/// Adds the initial value of the instance `iterations` iterations before the first one, where it has a register.
#[tactic(auto, unfolding(crate::specs::Values::initial_at))]
fn push_initial(
    alloc: Global,
    values: &mut Vec<Value>,
    solution: &Solution,
    value: usize,
    iterations: u64,
) -> Result<(), OutOfMemory>
    requires there { value < length solution.now.problem.draft.values.items }
    requires few { iterations ≤ MAX_DISTANCE }
    ensures ok { OnOk result (map view values.new.items ≡ map view values.old.items ++ cons_option (initial_at solution.now value iterations) []) }
{
    let Some(register) = register_after(solution, value, iterations) else {
        return Ok(());
    };
    let draft = solution.problem().draft();
    Ok(values.push(told_initial(alloc, draft, value, iterations, register)?)?)
}

/// Adds the initial values of a value.
#[tactic(auto, unfolding(crate::specs::Values::initials_of))]
fn push_initials_of(
    alloc: Global,
    values: &mut Vec<Value>,
    solution: &Solution,
    value: usize,
) -> Result<(), OutOfMemory>
    requires { value < length solution.now.problem.draft.values.items }
    ensures ok { OnOk result (map view values.new.items ≡ map view values.old.items ++ initials_of solution.now value) }
{
    for before in 0..carried(solution, value) {
        push_initial(alloc, values, solution, value, before + 1)?;
    }
    Ok(())
}

/// All initial values, value by value.
pub(crate) fn told_initials(alloc: Global, solution: &Solution) -> Result<Value, OutOfMemory>
    ensures { IfOk result (λ v. view v ≡ array (items_of (initials solution.now))) }
{
    let mut values = Vec::new(alloc);
    for value in 0..solution.problem().draft().values.len() {
        push_initials_of(alloc, &mut values, solution, value)?;
    }
    Ok(Value::Array(values))
}
