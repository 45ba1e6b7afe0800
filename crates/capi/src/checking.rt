//! The check of schedules that callers in C give.

ghost use Rattle.std.specs.Prelude.{◌≡◌, length, IfOk};
ghost use Rattle.std.specs.List.{zip};
ghost use Rattle.capi.specs.Checks.{AnswersCheck, IsJudged};

use crate::given::Problem;
use crate::problem_of;
use crate::verdict::{
    Verdict, broken_verdict, faulty_verdict, lawful_verdict, misfit_verdict, silence,
};
use machine_data::OutOfMemory;
use problems::Refusal;
use solutions::Solution;
use std::alloc::Global;

/// Checks a schedule of a problem: an interval, in cycles, the issue time of each operation, in cycles, the number of the
/// alternative of each, from 0, and of each value the number of its register, which is 0 in an unallotted file.
///
/// 0: lawful. 1: the verdict says what is broken first. 2: the times and the alternatives differ in number. 5: the problem is
/// at fault. 7: memory ran out, which says nothing of the schedule.
#[unsafe(no_mangle)]
pub extern "C" fn modsched_check(
    alloc: Global,
    problem: &Problem<'_>,
    interval: u64,
    times: &[u64],
    alternatives: &[u64],
    numbers: &[u64],
    verdict: &mut Verdict,
) -> u32
    ensures { AnswersCheck problem.now interval times.now alternatives.now numbers.now verdict.new result }
{
    *verdict = silence();
    if times.len() != alternatives.len() {
        *verdict = misfit_verdict();
        return 2;
    }
    match problem_of(alloc, problem, 1, 0) {
        Ok(problem) => match judged(alloc, &problem, interval, times, alternatives, numbers) {
            Ok((status, told)) => {
                *verdict = told;
                status
            }
            Err(_) => 7,
        },
        Err(Refusal::Fault(fault)) => {
            *verdict = faulty_verdict(fault);
            5
        }
        Err(Refusal::Memory(_)) => 7,
    }
}

/// The status and the verdict of a schedule.
fn judged(
    alloc: Global,
    problem: &problems::Problem,
    interval: u64,
    times: &[u64],
    alternatives: &[u64],
    numbers: &[u64],
) -> Result<(u32, Verdict), OutOfMemory>
    requires { length times.now ≡ length alternatives.now }
    ensures { IfOk result (λ told. IsJudged problem.now interval (zip times.now alternatives.now) numbers.now told.1 told.0) }
{
    let places = places_of(alloc, times, alternatives)?;
    let numbers = numbers_of(alloc, numbers)?;
    match Solution::check(
        alloc,
        problem,
        interval,
        places.as_slice(),
        numbers.as_slice(),
    )? {
        Ok(solution) => Ok((0, lawful_verdict(&solution))),
        Err(broken) => Ok((1, broken_verdict(broken))),
    }
}

/// Each time with its alternative.
fn places_of(
    alloc: Global,
    times: &[u64],
    alternatives: &[u64],
) -> Result<Vec<(u64, usize)>, OutOfMemory>
    requires { length times.now ≡ length alternatives.now }
    ensures { IfOk result (λ v. v.items ≡ zip times.now alternatives.now) }
{
    let mut made = Vec::with_capacity(alloc, times.len())?;
    for op in 0..times.len() {
        made.push((times[op], alternatives[op] as usize))?;
    }
    Ok(made)
}

/// The numbers, as sizes.
fn numbers_of(alloc: Global, numbers: &[u64]) -> Result<Vec<usize>, OutOfMemory>
    ensures { IfOk result (λ v. v.items ≡ numbers.now) }
{
    let mut made = Vec::with_capacity(alloc, numbers.len())?;
    for number in numbers {
        made.push(*number as usize)?;
    }
    Ok(made)
}
