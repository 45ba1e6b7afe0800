//! The line of the fullest set of units of a problem.

ghost use Rattle.std.specs.Prelude.{◌≡◌, ◌++◌, IfOk};
ghost use Rattle.unit_sets.specs.Fullest.{IsFullest};
ghost use Rattle.problem_reasons.specs.Sets.{set_line};

use machine_data::OutOfMemory;
use machine_data::limits::MAX_STATEMENTS;
use problems::Problem;
use reason_lines::{UnitNames, push_set_line};
use solution_text::push_unit_name;
use std::alloc::Global;
use unit_bound::OfList;
use unit_sets::{UnitSet, fullest_set};

/// The units of a problem.
#[derive(Clone, Copy)]
struct UnitsOf<'a> {
    problem: &'a Problem,
}

impl<'a> UnitNames for UnitsOf<'a> {
    ghost use Rattle.solution_text.specs.Names.{unit_name};

    ghost number = { λ of. of.problem.now.draft.units };

    ghost name = { λ of unit. unit_name of.problem.now.draft unit };

    fn count(&self) -> usize {
        self.problem.draft().units
    }

    fn push_name(&self, text: &mut Vec<u8>, unit: usize) -> Result<(), OutOfMemory> {
        push_unit_name(text, self.problem.draft(), unit)
    }
}

/// The fullest set of units of a problem.
fn set_of(alloc: Global, problem: &Problem) -> Result<UnitSet, OutOfMemory>
    ensures { IfOk result (IsFullest problem.now.scheduling.operations) }
{
    let scheduling = problem.scheduling();
    prove!(scheduling.operations() <= MAX_STATEMENTS);
    fullest_set(
        alloc,
        &OfList {
            operations: scheduling.alternatives(),
        },
    )
}

/// Appends the line of the fullest set of units of a problem. The result is that set.
pub(crate) fn push_set(
    alloc: Global,
    text: &mut Vec<u8>,
    problem: &Problem,
) -> Result<UnitSet, OutOfMemory>
    ensures fullest { IfOk result (IsFullest problem.now.scheduling.operations) }
    ensures exact { IfOk result (λ set. text.new.items ≡ text.old.items ++ set_line problem.now.draft set) }
{
    let set = set_of(alloc, problem)?;
    push_set_line(text, &UnitsOf { problem }, &set)?;
    Ok(set)
}
