//! The lines of the operations of a solution.

ghost use Rattle.std.specs.Prelude.{◌≡◌, ◌++◌, ◌<◌, ◌≤◌, codes, length, OnOk};
ghost use Rattle.std.specs.List.{flat_map};
ghost use Rattle.writing.specs.Words.{told};
ghost use Rattle.solution_text.specs.Operations.{hold_text, op_line, op_lines, placed_text, slot_text};
ghost use Rattle.solution_text.specs.inner.Chains.{AreChained, AreUses, readers_of};

use crate::chains::{Chains, Uses, chain_reads, chain_values};
use crate::issues::{held_rows, stage_of};
use crate::names::{push_op_name, push_unit_name};
use crate::uses::push_uses;
use machine_data::limits::{MAX_READS, MAX_STATEMENTS, MAX_VALUES};
use machine_data::{OutOfMemory, Row};
use problems::Draft;
use solutions::Solution;
use writing::{Text, push_told};

/// Appends by which of its alternatives an operation is issued. Most are told by one piece.
fn push_choice(text: &mut Vec<u8>, choice: usize) -> Result<(), OutOfMemory>
    ensures ok { OnOk result (text.new.items ≡ text.old.items ++ told (codes " by ") choice) }
{
    match choice {
        0 => text.push_piece(" by 0"),
        1 => text.push_piece(" by 1"),
        2 => text.push_piece(" by 2"),
        3 => text.push_piece(" by 3"),
        _ => push_told(text, " by ", choice as u64),
    }
}

/// Appends a stage that is told by more than one piece, and a colon.
fn push_late_stage(text: &mut Vec<u8>, stage: u64) -> Result<(), OutOfMemory>
    ensures ok { OnOk result (text.new.items ≡ text.old.items ++ (told (codes " stage ") stage ++ codes ":")) }
{
    push_told(text, " stage ", stage)?;
    text.push_piece(":")
}

/// Appends a stage and a colon. Most stages are told by one piece.
fn push_stage(text: &mut Vec<u8>, stage: u64) -> Result<(), OutOfMemory>
    ensures ok { OnOk result (text.new.items ≡ text.old.items ++ (told (codes " stage ") stage ++ codes ":")) }
{
    match stage {
        0 => text.push_piece(" stage 0:"),
        1 => text.push_piece(" stage 1:"),
        2 => text.push_piece(" stage 2:"),
        3 => text.push_piece(" stage 3:"),
        _ => push_late_stage(text, stage),
    }
}

/// Appends when an operation is issued in iteration 0, and by which of its alternatives.
fn push_placed(text: &mut Vec<u8>, solution: &Solution, op: usize) -> Result<(), OutOfMemory>
    requires { op < length solution.now.problem.scheduling.operations }
    ensures ok { OnOk result (text.new.items ≡ text.old.items ++ placed_text solution.now op) }
{
    let draft = solution.problem().draft();
    text.push_piece("op ")?;
    push_op_name(text, draft, op)?;
    push_told(text, " time ", solution.time(op))?;
    push_choice(text, solution.alternative(op))
}

/// Appends a blank, then a unit that an operation holds, and how many cycles after its issue.
fn push_hold(text: &mut Vec<u8>, draft: &Draft, row: Row) -> Result<(), OutOfMemory>
    ensures ok { OnOk result (text.new.items ≡ text.old.items ++ hold_text draft.now row) }
{
    text.push_piece(" ")?;
    push_unit_name(text, draft, usize::from(row.unit))?;
    if row.offset == 0 {
        return Ok(());
    }
    push_told(text, "@", u64::from(row.offset))
}

/// Appends the units that an operation holds, each after a blank.
fn push_holds(text: &mut Vec<u8>, draft: &Draft, rows: &[Row]) -> Result<(), OutOfMemory>
    ensures ok { OnOk result (text.new.items ≡ text.old.items ++ flat_map (hold_text draft.now) rows.now) }
{
    for row in rows {
        push_hold(text, draft, *row)?;
    }
    Ok(())
}

/// Appends the row and the stage of an operation, and the units that it holds.
fn push_slot(text: &mut Vec<u8>, solution: &Solution, op: usize) -> Result<(), OutOfMemory>
    requires { op < length solution.now.problem.scheduling.operations }
    ensures ok { OnOk result (text.new.items ≡ text.old.items ++ slot_text solution.now op) }
{
    push_told(text, " # row ", solution.time(op) % solution.ii())?;
    push_stage(text, stage_of(solution, op))?;
    push_holds(text, solution.problem().draft(), held_rows(solution, op))
}

/// Appends the line of an operation.
#[tactic(auto, unfolding(crate::specs::Operations::op_line))]
fn push_op(
    text: &mut Vec<u8>,
    solution: &Solution,
    op: usize,
    uses: &Uses<'_>,
) -> Result<(), OutOfMemory>
    requires there { op < length solution.now.problem.scheduling.operations }
    requires chained { AreUses solution.now.problem uses.now }
    ensures ok { OnOk result (text.new.items ≡ text.old.items ++ op_line solution.now op) }
{
    push_placed(text, solution, op)?;
    push_slot(text, solution, op)?;
    push_uses(text, solution, op, uses)?;
    text.push_piece("\n")
}

/// Appends the lines of all operations, in order, where their reads and their values are chained.
fn push_chained(text: &mut Vec<u8>, solution: &Solution, uses: &Uses<'_>) -> Result<(), OutOfMemory>
    requires { AreUses solution.now.problem uses.now }
    ensures ok { OnOk result (text.new.items ≡ text.old.items ++ op_lines solution.now) }
{
    for op in 0..solution.problem().scheduling().operations() {
        push_op(text, solution, op, uses)?;
    }
    Ok(())
}

/// Appends the lines of all operations, in order, where their reads are chained.
fn push_with_reads(
    text: &mut Vec<u8>,
    solution: &Solution,
    of_readers: Chains<'_>,
) -> Result<(), OutOfMemory>
    requires each { length of_readers.firsts.now ≡ length solution.now.problem.scheduling.operations }
    requires chained { AreChained (readers_of solution.now.problem.draft.reads.items) 0 of_readers.firsts.now of_readers.nexts.now }
    ensures ok { OnOk result (text.new.items ≡ text.old.items ++ op_lines solution.now) }
{
    let draft = solution.problem().draft();
    let operations = draft.operations.len();
    let values = draft.values.len();
    let mut firsts = [0; MAX_STATEMENTS];
    let mut nexts = [0; MAX_VALUES];
    chain_values(
        draft.values.as_slice(),
        &mut firsts[..operations],
        &mut nexts[..values],
    );
    let of_makers = Chains {
        firsts: &firsts[..operations],
        nexts: &nexts[..values],
    };
    push_chained(
        text,
        solution,
        &Uses {
            of_readers,
            of_makers,
        },
    )
}

/// Appends the lines of all operations, in order, with room for as many chained reads as there are.
fn push_in(text: &mut Vec<u8>, solution: &Solution, nexts: &mut [u16]) -> Result<(), OutOfMemory>
    requires { length solution.now.problem.draft.reads.items ≤ length nexts.old }
    ensures ok { OnOk result (text.new.items ≡ text.old.items ++ op_lines solution.now) }
{
    let draft = solution.problem().draft();
    let operations = draft.operations.len();
    let reads = draft.reads.len();
    let mut firsts = [0; MAX_STATEMENTS];
    chain_reads(
        draft.reads.as_slice(),
        &mut firsts[..operations],
        &mut nexts[..reads],
    );
    let of_readers = Chains {
        firsts: &firsts[..operations],
        nexts: &nexts[..reads],
    };
    push_with_reads(text, solution, of_readers)
}

/// Reads for which there is little room to clear: most problems have no more.
const FEW_READS: usize = 512;

/// Appends the lines of all operations, in order.
pub(crate) fn push_ops(text: &mut Vec<u8>, solution: &Solution) -> Result<(), OutOfMemory>
    ensures ok { OnOk result (text.new.items ≡ text.old.items ++ op_lines solution.now) }
{
    if solution.problem().draft().reads.len() <= FEW_READS {
        let mut few = [0; FEW_READS];
        push_in(text, solution, &mut few)
    } else {
        let mut all = [0; MAX_READS];
        push_in(text, solution, &mut all)
    }
}
