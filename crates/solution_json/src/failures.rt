//! Why a problem has no solution.

ghost use Rattle.std.specs.Prelude.{◌≡◌, codes, IfOk};
ghost use Rattle.std.specs.Option.{option_copied};
ghost use Rattle.serde_json.specs.Data.{object, member, no_members};
ghost use Rattle.serde_json.specs.View.{view};
ghost use Rattle.modulo.specs.declared.outcome.attempts.Culprit.TheVariants.{Late};
ghost use Rattle.solution_json.specs.Failures.{culprit_object, culprit_value, found_value, lack_object};
ghost use Rattle.solution_json.specs.Parts.{op_names};

use crate::told::{told_name, told_names};
use machine_data::OutOfMemory;
use modulo::Culprit;
use problems::Draft;
use serde_json::{Value, json};
use solutions::Cause;
use std::alloc::Global;

/// Operations alone.
fn told_ops(alloc: Global, draft: &Draft, ops: &[usize]) -> Result<Value, OutOfMemory>
    ensures { IfOk result (λ v. view v ≡ object (member (codes "operations") (op_names draft.now ops.now) no_members)) }
{
    json!(in alloc; {"operations": told_names(alloc, draft.names.operations.as_slice(), ops)?})
}

/// An operation that is too late, and when it is issued.
fn told_late(alloc: Global, draft: &Draft, op: usize, time: u64) -> Result<Value, OutOfMemory>
    ensures { IfOk result (λ v. view v ≡ culprit_object draft.now (Late op time)) }
{
    json!(in alloc; {
        "operations": told_names(alloc, draft.names.operations.as_slice(), &[op])?,
        "time": time
    })
}

/// The culprits of a failure.
fn told_culprit(alloc: Global, draft: &Draft, culprit: &Culprit) -> Result<Value, OutOfMemory>
    ensures { IfOk result (λ v. view v ≡ culprit_object draft.now culprit.now) }
{
    match culprit {
        Culprit::Blocked(op) => told_ops(alloc, draft, &[*op]),
        Culprit::Unplaced(ops) => told_ops(alloc, draft, ops.as_slice()),
        Culprit::Late(op, time) => told_late(alloc, draft, *op, *time),
    }
}

/// The culprits of a failure, where they are known.
fn told_found(alloc: Global, draft: &Draft, culprit: Option<&Culprit>) -> Result<Value, OutOfMemory>
    ensures { IfOk result (λ v. view v ≡ found_value draft.now (option_copied culprit.entry)) }
{
    match culprit {
        None => Ok(Value::Null),
        Some(culprit) => told_culprit(alloc, draft, culprit),
    }
}

/// The file that has too few registers, and its first value that has none.
fn told_lack(alloc: Global, draft: &Draft, file: usize, value: usize) -> Result<Value, OutOfMemory>
    ensures { IfOk result (λ v. view v ≡ lack_object draft.now file value) }
{
    json!(in alloc; {
        "file": told_name(alloc, draft.names.files.as_slice(), file)?,
        "value": told_name(alloc, draft.names.values.as_slice(), value)?
    })
}

/// The culprits of a cause.
pub(crate) fn told_evidence(
    alloc: Global,
    draft: &Draft,
    cause: Cause,
    culprit: Option<&Culprit>,
) -> Result<Value, OutOfMemory>
    ensures { IfOk result (λ v. view v ≡ culprit_value draft.now cause (option_copied culprit.entry)) }
{
    match cause {
        Cause::Table => told_found(alloc, draft, culprit),
        Cause::Budget => told_found(alloc, draft, culprit),
        Cause::Stages => told_found(alloc, draft, culprit),
        Cause::Registers(file, value) => told_lack(alloc, draft, file, value),
    }
}
