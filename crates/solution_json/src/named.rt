//! Registers, as the operations of a solution name them.

ghost use Rattle.std.specs.Prelude.{◌≡◌, [], ◌++◌, map, IfOk, OnOk};
ghost use Rattle.std.specs.List.{cons_option};
ghost use Rattle.serde_json.specs.View.{view};
ghost use Rattle.solution_json.specs.Parts.{register_object};

use crate::told::told_name;
use machine_data::OutOfMemory;
use problems::Draft;
use serde_json::{Value, json};
use solution_text::Register;
use std::alloc::Global;

/// A register.
pub(crate) fn told_register(
    alloc: Global,
    draft: &Draft,
    register: Register,
) -> Result<Value, OutOfMemory>
    ensures { IfOk result (λ v. view v ≡ register_object draft.now register) }
{
    json!(in alloc; {
        "file": told_name(alloc, draft.names.files.as_slice(), register.file)?,
        "number": register.number
    })
}

/// Adds a register, where there is one.
pub(crate) fn push_register(
    alloc: Global,
    values: &mut Vec<Value>,
    draft: &Draft,
    register: Option<Register>,
) -> Result<(), OutOfMemory>
    ensures { OnOk result (map view values.new.items ≡ map view values.old.items ++ map (register_object draft.now) (cons_option register [])) }
{
    match register {
        Some(register) => Ok(values.push(told_register(alloc, draft, register)?)?),
        None => Ok(()),
    }
}
