//! Values of which too many live at once.

ghost use Rattle.std.specs.Prelude.{◌≡◌, ◌<◌, ◌≤◌, true, length};
ghost use Rattle.std.specs.List.{All};
ghost use Rattle.registers.specs.Allotments.{HaveNone};
ghost use Rattle.registers.specs.Crowds.{instances_in, crowd_in};
ghost use Rattle.registers.specs.Residues.{IsLifeSpan};
ghost use Rattle.machine_data.specs.declared.limits.TheConstants.{MAX_INTERVAL};

use crate::lifetime::{Lifetime, MAX_VALUES};

/// The longest interval whose rows are compared, in cycles.
const MAX_ROWS: u64 = 256;

/// How many instances of a value live in the cycle of a row.
fn instances_in(ii: u64, row: u64, life: Lifetime) -> u64
    requires few { ii ≤ MAX_INTERVAL }
    requires row { row < ii }
    requires life { IsLifeSpan life }
    ensures value { result ≡ instances_in ii row life }
    ensures few { result ≤ 4294983680 }
{
    ((life.last + (ii - row)) / ii).saturating_sub((life.first + (ii - 1 - row)) / ii)
}

/// How many instances of all these values live in the cycle of a row, a cycle of the interval from 0 on, once
/// iterations start on and on.
pub fn crowd_in(ii: u64, row: u64, lives: &[Lifetime]) -> u64
    requires few { ii ≤ MAX_INTERVAL }
    requires row { row < ii }
    requires lives { All IsLifeSpan lives.now }
    requires few_lives { length lives.now ≤ 256 }
    ensures { result ≡ crowd_in ii row lives.now (length lives.now) }
{
    let mut crowd = 0;
    for k in 0..lives.len() {
        crowd += instances_in(ii, row, lives[k]);
    }
    crowd
}

/// Writes how many instances more live in each row than in the one before; fewer are told by wrapping.
fn fill_changes(ii: u64, lives: &[Lifetime], changes: &mut [u32])
    requires some { 1 ≤ ii }
    requires few { ii ≤ 256 }
    requires long { length changes.old ≡ 257 }
    ensures long { length changes.new ≡ 257 }
{
    for k in 0..lives.len() {
        let begin = (lives[k].first % ii) as usize;
        changes[begin] = changes[begin].wrapping_add(1);
        let end = (lives[k].last % ii) as usize + 1;
        changes[end] = changes[end].wrapping_sub(1);
    }
}

/// The row in which the most instances live.
fn greatest_row(ii: u64, changes: &[u32]) -> u64
    requires some { 1 ≤ ii }
    requires few { ii ≤ 256 }
    requires long { length changes.now ≡ 257 }
    ensures { result < ii }
{
    // (so that no sum is below 0)
    let mut crowd = MAX_VALUES as u32;
    let mut greatest = 0;
    let mut found = 0;
    for row in 0..ii {
        crowd = crowd.wrapping_add(changes[row as usize]);
        if crowd > greatest {
            greatest = crowd;
            found = row;
        }
    }
    found
}

/// A row that is likely to have the most instances: the one that has, where the interval is short. What
/// is concluded rests on a count of the row alone.
fn crowded_row(ii: u64, lives: &[Lifetime]) -> u64
    requires some { 1 ≤ ii }
    ensures { result < ii }
{
    if ii > MAX_ROWS {
        return 0;
    }
    let mut changes = [0; 257];
    fill_changes(ii, lives, &mut changes);
    greatest_row(ii, &changes)
}

/// Whether more instances live in one cycle than there are registers, so that no numbers are lawful. It
/// is found by far sooner than that the numbers run out.
pub(crate) fn are_crowded(ii: u64, registers: usize, lives: &[Lifetime]) -> bool
    requires some { 1 ≤ ii }
    requires few { ii ≤ MAX_INTERVAL }
    requires registers_some { 1 ≤ registers }
    requires lives { All IsLifeSpan lives.now }
    requires few_lives { length lives.now ≤ 256 }
    ensures { result ≡ true → HaveNone ii registers lives.now }
{
    crowd_in(ii, crowded_row(ii, lives), lives) > registers as u64
}
