//! What a kernel copies from its loop, and the values that are live at the end.

ghost use Rattle.std.specs.Prelude.{◌≡◌, ◌<◌, ◌≤◌, [], length, map, IfOk, vec_len, vec_capacity};
ghost use Rattle.loop_data.specs.declared.language.lists.Array.{Array};
ghost use Rattle.loop_data.specs.Loops.{GivesValue};
ghost use Rattle.overlap.specs.Emission.{name_of_value, out_of};
ghost use Rattle.rotating.specs.inner.Naming.{AreNumbers};

use crate::kernels::naming::register_name;
use crate::numbers::allotment::Allotment;
use kernel::{ArrayNames, Out, Outs, Params};
use loop_data::{Loop, Param};
use loop_schedules::Schedule;
use machine_data::{Name, OutOfMemory};
use std::alloc::Global;

/// Adds copies of all parameters.
fn push_params(params: &[Param], list: &mut Vec<Param>)
    requires none { vec_len list.old ≡ 0 }
    requires empty { list.old.items ≡ [] }
    requires room { length params.now ≤ vec_capacity list.old }
    ensures { list.new.items ≡ params.now }
{
    for param in params {
        list.push_reserved(Param {
            name: param.name.copied(),
            value: param.value,
        });
    }
}

/// The parameters of a loop.
pub(crate) fn params(alloc: Global, innermost: &Loop) -> Result<Params, OutOfMemory>
    ensures { IfOk result (λ l. l ≡ innermost.now.params) }
{
    let params = innermost.params();
    let mut list = Vec::with_capacity(alloc, params.len())?;
    push_params(params, &mut list);
    Ok(Params::new(list))
}

/// Adds the names of all arrays.
fn push_names(innermost: &Loop, list: &mut Vec<Name>)
    requires none { vec_len list.old ≡ 0 }
    requires empty { list.old.items ≡ [] }
    requires room { length innermost.now.arrays ≤ vec_capacity list.old }
    ensures { list.new.items ≡ map (λ (a : Array). a.name) innermost.now.arrays }
{
    for array in innermost.arrays() {
        list.push_reserved(array.name.copied());
    }
}

/// The names of a loop's arrays.
pub(crate) fn array_names(alloc: Global, innermost: &Loop) -> Result<ArrayNames, OutOfMemory>
    ensures { IfOk result (λ l. l ≡ map (λ (a : Array). a.name) innermost.now.arrays) }
{
    let count = innermost.arrays().len();
    let mut list = Vec::with_capacity(alloc, count)?;
    push_names(innermost, &mut list);
    Ok(ArrayNames::new(list))
}

/// The name of a value.
fn value_name(innermost: &Loop, value: u8) -> Name
    requires { GivesValue innermost.now value }
    ensures { result ≡ name_of_value innermost.now value }
{
    match &innermost.statements()[value as usize].name {
        Some(name) => name.copied(),
        None => unreachable!(),
    }
}

/// A value that is live at the end, with the name of its register in the last turn.
fn out_of(schedule: &Schedule, allotment: &Allotment, numbers: &[usize], value: u8) -> Out
    requires numbers { AreNumbers schedule.now.problem.loop allotment.now numbers.now }
    requires value { GivesValue schedule.now.problem.loop value }
    ensures { result ≡ out_of schedule.now allotment.now value }
{
    let number = numbers[value as usize];
    let last = schedule.stages() - 1;
    Out {
        name: value_name(schedule.prepared().innermost(), value),
        register: register_name(allotment.registers(), number, 0, last),
    }
}

/// Adds all values that are live at the end.
fn push_outs(schedule: &Schedule, allotment: &Allotment, numbers: &[usize], list: &mut Vec<Out>)
    requires numbers { AreNumbers schedule.now.problem.loop allotment.now numbers.now }
    requires none { vec_len list.old ≡ 0 }
    requires empty { list.old.items ≡ [] }
    requires room { length schedule.now.problem.loop.outs ≤ vec_capacity list.old }
    ensures { list.new.items ≡ map (out_of schedule.now allotment.now) schedule.now.problem.loop.outs }
{
    for value in schedule.prepared().innermost().outs() {
        list.push_reserved(out_of(schedule, allotment, numbers, *value));
    }
}

/// The values that are live at the end, in text order.
pub(crate) fn outs(
    alloc: Global,
    schedule: &Schedule,
    allotment: &Allotment,
    numbers: &[usize],
) -> Result<Outs, OutOfMemory>
    requires numbers { AreNumbers schedule.now.problem.loop allotment.now numbers.now }
    ensures { IfOk result (λ l. l ≡ map (out_of schedule.now allotment.now) schedule.now.problem.loop.outs) }
{
    let count = schedule.prepared().innermost().outs().len();
    let mut list = Vec::with_capacity(alloc, count)?;
    push_outs(schedule, allotment, numbers, &mut list);
    Ok(Outs::new(list))
}
