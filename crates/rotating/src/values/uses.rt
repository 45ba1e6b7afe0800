//! How far and how late the values of a loop are read.

ghost use Rattle.std.specs.Prelude.{◌≡◌, ◌<◌, ◌≤◌, ℕ, max, length, map, slice_index, ◌==◌, if◌then◌else◌};
ghost use Rattle.std.specs.List.{list_any};
ghost use Rattle.unit_bound.specs.Units.{greatest_of};
ghost use Rattle.loop_data.specs.Loops.{IsLoop};
ghost use Rattle.overlap.specs.Lifetimes.{Use, carried, is_out, read_at, uses_of};
ghost use Rattle.rotating.specs.inner.Naming.{AreCarried};
ghost use Rattle.rotating.specs.inner.Uses.{greatest_in};
ghost use Rattle.machine_data.specs.declared.limits.TheConstants.{MAX_INTERVAL};

use loop_data::{Loop, Operand};
use loop_schedules::Schedule;

/// Raises the entry of each value that these operands read to the read: `base`, and `step` more for
/// each iteration that the value is old.
fn raise(operands: &[Operand], base: u32, step: u32, table: &mut [u32])
    requires base { base ≤ 1048576 }
    requires step { step ≤ MAX_INTERVAL }
    requires long { length table.old ≡ 256 }
    ensures long { length table.new ≡ 256 }
    ensures each { (v : ℕ) → v < 256 → slice_index table.new v ≡ max (slice_index table.old v) (greatest_in v base step operands.now) }
{
    for k in 0..operands.len() {
        if let Operand::Value {
            statement,
            distance,
        } = operands[k]
        {
            let value = statement as usize;
            table[value] = table[value].max(base + step * u32::from(distance));
        }
    }
}

/// Raises the entries of the values that are live at the end to this number.
fn raise_outs(outs: &[u8], least: u32, table: &mut [u32])
    requires long { length table.old ≡ 256 }
    ensures long { length table.new ≡ 256 }
    ensures each { (v : ℕ) → v < 256 → slice_index table.new v ≡ max (slice_index table.old v) (if list_any (λ o. o == v) outs.now then least else 0) }
{
    for k in 0..outs.len() {
        let value = outs[k] as usize;
        table[value] = table[value].max(least);
    }
}

/// Raises the entry of each value to the iterations for which it is carried on.
fn raise_carried(innermost: &Loop, table: &mut [u32])
    requires long { length table.old ≡ 256 }
    ensures long { length table.new ≡ 256 }
    ensures each { (v : ℕ) → v < 256 → slice_index table.new v ≡ max (slice_index table.old v) (carried innermost.now v) }
    ensures well_formed { IsLoop innermost.now }
{
    let statements = innermost.statements();
    for q in 0..statements.len() {
        raise(statements[q].operands.as_slice(), 0, 1, table);
    }
    raise_outs(innermost.outs(), 1, table);
}

/// Writes into a table of zeros for how many iterations each value is carried on.
pub(crate) fn fill_carried(innermost: &Loop, table: &mut [u32])
    requires long { length table.old ≡ 256 }
    requires zeros { (v : ℕ) → slice_index table.old v ≡ 0 }
    ensures carried { AreCarried innermost.now table.new }
{
    raise_carried(innermost, table);
}

/// Raises the entries of each value that these operands read in an operation that is issued at a time: how many
/// iterations old the value is, and when iteration 0's instance is read at this interval.
fn raise_both(operands: &[Operand], time: u32, ii: u32, carried: &mut [u32], lasts: &mut [u32])
    requires time { time ≤ 1048576 }
    requires ii { ii ≤ MAX_INTERVAL }
    requires long_carried { length carried.old ≡ 256 }
    requires long_lasts { length lasts.old ≡ 256 }
    ensures long_carried { length carried.new ≡ 256 }
    ensures long_lasts { length lasts.new ≡ 256 }
    ensures carried { (v : ℕ) → v < 256 → slice_index carried.new v ≡ max (slice_index carried.old v) (greatest_in v 0 1 operands.now) }
    ensures lasts { (v : ℕ) → v < 256 → slice_index lasts.new v ≡ max (slice_index lasts.old v) (greatest_in v time ii operands.now) }
{
    for k in 0..operands.len() {
        if let Operand::Value {
            statement,
            distance,
        } = operands[k]
        {
            let value = statement as usize;
            let distance = u32::from(distance);
            carried[value] = carried[value].max(distance);
            lasts[value] = lasts[value].max(time + ii * distance);
        }
    }
}

/// Raises the entries of each value: for how many iterations it is carried on by what reads it, and the last cycle
/// in which the value of iteration 0 is read.
fn raise_reads(schedule: &Schedule, carried: &mut [u32], lasts: &mut [u32])
    requires long_carried { length carried.old ≡ 256 }
    requires long_lasts { length lasts.old ≡ 256 }
    ensures long_carried { length carried.new ≡ 256 }
    ensures long_lasts { length lasts.new ≡ 256 }
    ensures carried { (v : ℕ) → v < 256 → slice_index carried.new v ≡ max (slice_index carried.old v) (greatest_of (map (λ (u : Use). u.distance) (uses_of schedule.now.problem.loop v))) }
    ensures lasts { (v : ℕ) → v < 256 → slice_index lasts.new v ≡ max (slice_index lasts.old v) (greatest_of (map (read_at schedule.now) (uses_of schedule.now.problem.loop v))) }
{
    let ii = schedule.ii() as u32;
    let statements = schedule.prepared().innermost().statements();
    for q in 0..statements.len() {
        let time = schedule.time(q) as u32;
        raise_both(statements[q].operands.as_slice(), time, ii, carried, lasts);
    }
}

/// Writes into two tables of zeros for how many iterations each value is carried on, and the last cycle in which
/// the value of iteration 0 is read, and for those that are live at the end at least `end`.
pub(crate) fn fill_uses(schedule: &Schedule, end: u32, carried: &mut [u32], lasts: &mut [u32])
    requires long_carried { length carried.old ≡ 256 }
    requires zeros_carried { (v : ℕ) → slice_index carried.old v ≡ 0 }
    requires long_lasts { length lasts.old ≡ 256 }
    requires zeros_lasts { (v : ℕ) → slice_index lasts.old v ≡ 0 }
    ensures carried { AreCarried schedule.now.problem.loop carried.new }
    ensures long_lasts { length lasts.new ≡ 256 }
    ensures lasts { (v : ℕ) → v < 256 → slice_index lasts.new v ≡ max (greatest_of (map (read_at schedule.now) (uses_of schedule.now.problem.loop v))) (if is_out schedule.now.problem.loop v then end else 0) }
    ensures well_formed { IsLoop schedule.now.problem.loop }
{
    raise_reads(schedule, carried, lasts);
    let outs = schedule.prepared().innermost().outs();
    raise_outs(outs, 1, carried);
    raise_outs(outs, end, lasts);
}
