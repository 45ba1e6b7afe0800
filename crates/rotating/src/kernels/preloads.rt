//! The initial values that stand in registers before the first turn of a kernel.

ghost use Rattle.std.specs.Prelude.{◌≡◌, ◌<◌, ◌≤◌, ◌+◌, ◌++◌, [], IfOk, vec_len, vec_capacity};
ghost use Rattle.loop_data.specs.Run.{initial_of};
ghost use Rattle.overlap.specs.Allotments.{allotted_number};
ghost use Rattle.overlap.specs.Emission.{name_of, preloads_from, preloads_of};
ghost use Rattle.overlap.specs.Lifetimes.{carried, values_of};
ghost use Rattle.rotating.specs.inner.Naming.{AreCarried, AreNumbers, preload_count};

use crate::kernels::naming::register_name;
use crate::numbers::allotment::Allotment;
use crate::values::uses::fill_carried;
use kernel::{Preload, Preloads};
use loop_data::Loop;
use loop_schedules::Schedule;
use machine_data::OutOfMemory;
use std::alloc::Global;

/// The initial value of this number of a value, in the register of that instance.
fn preload_of(
    schedule: &Schedule,
    allotment: &Allotment,
    register: usize,
    value: u8,
    number: u8,
) -> Preload
    requires register { register ≡ allotted_number schedule.now.problem.loop allotment.now value }
    ensures { result ≡ record { register = name_of schedule.now allotment.now value number 0; value = initial_of schedule.now.problem.loop value number } }
{
    Preload {
        register: register_name(allotment.registers(), register, number, 0),
        value: schedule.prepared().innermost().initial(value, number),
    }
}

/// Adds the first `count` initial values of a value.
fn push_value(
    schedule: &Schedule,
    allotment: &Allotment,
    register: usize,
    value: u8,
    count: u32,
    list: &mut Vec<Preload>,
)
    requires register { register ≡ allotted_number schedule.now.problem.loop allotment.now value }
    requires few { count ≤ 16 }
    requires room { vec_len list.old + count ≤ vec_capacity list.old }
    ensures items { list.new.items ≡ list.old.items ++ preloads_from schedule.now allotment.now value 1 count }
    ensures len { vec_len list.new ≡ vec_len list.old + count }
    ensures capacity { vec_capacity list.new ≡ vec_capacity list.old }
{
    for k in 0..count {
        list.push_reserved(preload_of(schedule, allotment, register, value, k as u8 + 1));
    }
}

/// How many initial values all values have in registers.
fn count_preloads(innermost: &Loop, carried: &[u32]) -> usize
    requires { AreCarried innermost.now carried.now }
    ensures { result ≡ preload_count innermost.now (values_of innermost.now) }
{
    let statements = innermost.statements();
    let mut count = 0;
    for value in 0..statements.len() {
        if statements[value].name.is_some() {
            count += carried[value] as usize;
        }
    }
    count
}

/// Adds the initial values of all values.
fn push_preloads(
    schedule: &Schedule,
    allotment: &Allotment,
    numbers: &[usize],
    carried: &[u32],
    list: &mut Vec<Preload>,
)
    requires numbers { AreNumbers schedule.now.problem.loop allotment.now numbers.now }
    requires carried { AreCarried schedule.now.problem.loop carried.now }
    requires none { vec_len list.old ≡ 0 }
    requires empty { list.old.items ≡ [] }
    requires room { preload_count schedule.now.problem.loop (values_of schedule.now.problem.loop) ≤ vec_capacity list.old }
    ensures { list.new.items ≡ preloads_of schedule.now allotment.now }
{
    let statements = schedule.prepared().innermost().statements();
    for value in 0..statements.len() {
        if statements[value].name.is_some() {
            push_value(
                schedule,
                allotment,
                numbers[value],
                value as u8,
                carried[value],
                list,
            );
        }
    }
}

/// The initial values that stand in registers before the first turn, by value in text order and then
/// by number.
pub(crate) fn preloads(
    alloc: Global,
    schedule: &Schedule,
    allotment: &Allotment,
    numbers: &[usize],
) -> Result<Preloads, OutOfMemory>
    requires numbers { AreNumbers schedule.now.problem.loop allotment.now numbers.now }
    ensures { IfOk result (λ l. l ≡ preloads_of schedule.now allotment.now) }
{
    let innermost = schedule.prepared().innermost();
    let mut carried = [0; 256];
    fill_carried(innermost, &mut carried);
    let count = count_preloads(innermost, &carried);
    let mut list = Vec::with_capacity(alloc, count)?;
    push_preloads(schedule, allotment, numbers, &carried, &mut list);
    Ok(Preloads::new(list))
}
