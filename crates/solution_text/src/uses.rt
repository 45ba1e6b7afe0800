//! Which registers an operation reads and writes.

ghost use Rattle.std.specs.Prelude.{◌≡◌, ◌++◌, ◌==◌, ◌<◌, ◌≤◌, codes, length, take, if◌then◌else◌, OnOk};
ghost use Rattle.machine_data.specs.declared.limits.TheConstants.{MAX_DISTANCE, MAX_STAGES};
ghost use Rattle.schedules.specs.Schedules.{stage_of};
ghost use Rattle.solutions.specs.Solutions.{schedule_of};
ghost use Rattle.solution_text.specs.Operations.{headed, reads_text, uses_text, writes_head, writes_text};
ghost use Rattle.solution_text.specs.Registers.{source_of, spaced_register};
ghost use Rattle.solution_text.specs.inner.Chains.{AreChained, AreUses, makers_of, readers_of};

use crate::chains::{Chains, Uses};
use crate::issues::stage_of;
use crate::named::{push_spaced, register_after};
use machine_data::OutOfMemory;
use registers::Read;
use solutions::Solution;
use writing::Text;

/// Appends the register that a read of an operation of this stage finds its value in.
fn push_source(
    text: &mut Vec<u8>,
    solution: &Solution,
    stage: u64,
    read: Read,
) -> Result<(), OutOfMemory>
    requires stage { stage ≡ stage_of (schedule_of solution.now) read.reader }
    requires few { stage < MAX_STAGES }
    requires value { read.value < length solution.now.problem.draft.values.items }
    requires distance { read.distance ≤ MAX_DISTANCE }
    ensures ok { OnOk result (text.new.items ≡ text.old.items ++ spaced_register solution.now.problem.draft (source_of solution.now read)) }
{
    let register = register_after(solution, read.value, read.distance + stage);
    push_spaced(text, solution.problem().draft(), register)
}

/// Appends the registers that an operation reads.
fn push_read_registers(
    text: &mut Vec<u8>,
    solution: &Solution,
    op: usize,
    of_readers: Chains<'_>,
) -> Result<(), OutOfMemory>
    requires there { op < length solution.now.problem.scheduling.operations }
    requires each { length of_readers.firsts.now ≡ length solution.now.problem.scheduling.operations }
    requires chained { AreChained (readers_of solution.now.problem.draft.reads.items) 0 of_readers.firsts.now of_readers.nexts.now }
    ensures ok { OnOk result (text.new.items ≡ text.old.items ++ reads_text solution.now op) }
{
    let reads = solution.problem().draft().reads.as_slice();
    let stage = stage_of(solution, op);
    let mut at = of_readers.first(op);
    while at < reads.len() {
        push_source(text, solution, stage, reads[at])?;
        at = of_readers.next(at);
    }
    Ok(())
}

/// Appends the registers that an operation writes.
fn push_write_registers(
    text: &mut Vec<u8>,
    solution: &Solution,
    op: usize,
    of_makers: Chains<'_>,
) -> Result<(), OutOfMemory>
    requires there { op < length solution.now.problem.scheduling.operations }
    requires each { length of_makers.firsts.now ≡ length solution.now.problem.scheduling.operations }
    requires chained { AreChained (makers_of solution.now.problem.draft.values.items) 0 of_makers.firsts.now of_makers.nexts.now }
    ensures ok { OnOk result (text.new.items ≡ text.old.items ++ writes_text solution.now op) }
{
    let draft = solution.problem().draft();
    let values = draft.values.as_slice();
    let stage = stage_of(solution, op);
    let mut value = of_makers.first(op);
    while value < values.len() {
        push_spaced(text, draft, register_after(solution, value, stage))?;
        value = of_makers.next(value);
    }
    Ok(())
}

/// Takes back a head that nothing follows: it begins at `start` and ends at `end`.
fn without_empty(text: &mut Vec<u8>, start: usize, end: usize)
    ensures { text.new.items ≡ (if length text.old.items == end then take start text.old.items else text.old.items) }
{
    if text.len() == end {
        text.truncate(start);
    }
}

/// Appends the registers that an operation reads, after their head, where there are any.
fn push_reads(
    text: &mut Vec<u8>,
    solution: &Solution,
    op: usize,
    uses: &Uses<'_>,
) -> Result<(), OutOfMemory>
    requires there { op < length solution.now.problem.scheduling.operations }
    requires chained { AreUses solution.now.problem uses.now }
    ensures ok { OnOk result (text.new.items ≡ text.old.items ++ headed (codes "; reads") (reads_text solution.now op)) }
{
    let start = text.len();
    text.push_piece("; reads")?;
    let end = text.len();
    push_read_registers(text, solution, op, uses.of_readers)?;
    without_empty(text, start, end);
    Ok(())
}

/// Appends the registers that an operation writes, after a head, where there are any.
fn push_writes(
    text: &mut Vec<u8>,
    solution: &Solution,
    op: usize,
    uses: &Uses<'_>,
    head: &str,
) -> Result<(), OutOfMemory>
    requires there { op < length solution.now.problem.scheduling.operations }
    requires chained { AreUses solution.now.problem uses.now }
    ensures ok { OnOk result (text.new.items ≡ text.old.items ++ headed head.now (writes_text solution.now op)) }
{
    let start = text.len();
    text.push_piece(head)?;
    let end = text.len();
    push_write_registers(text, solution, op, uses.of_makers)?;
    without_empty(text, start, end);
    Ok(())
}

/// How the registers that are written begin, after those that are read, if there are any.
fn writes_head(some_read: bool) -> &'static str
    ensures { result.now ≡ (if some_read then codes ", writes" else codes "; writes") }
{
    if some_read { ", writes" } else { "; writes" }
}

/// Appends the registers that an operation reads and those that it writes.
pub(crate) fn push_uses(
    text: &mut Vec<u8>,
    solution: &Solution,
    op: usize,
    uses: &Uses<'_>,
) -> Result<(), OutOfMemory>
    requires there { op < length solution.now.problem.scheduling.operations }
    requires chained { AreUses solution.now.problem uses.now }
    ensures ok { OnOk result (text.new.items ≡ text.old.items ++ uses_text solution.now op) }
{
    let start = text.len();
    push_reads(text, solution, op, uses)?;
    let head = writes_head(text.len() > start);
    push_writes(text, solution, op, uses, head)
}
