//! The least numbers of values, file by file, where only whether each value has one is wanted.

ghost use Rattle.std.specs.Prelude.{◌≡◌, ◌≢◌, ◌≤◌, ℕ, length, slice_index, true, Ok, IfOk};
ghost use Rattle.std.specs.List.{All};
ghost use Rattle.problems.specs.declared.draft.File.TheVariants.{Rotating, Unallotted};
ghost use Rattle.problems.specs.Drafts.{IsFile};
ghost use Rattle.registers.specs.Residues.{IsLifeSpan};
ghost use Rattle.machine_data.specs.declared.limits.TheConstants.{MAX_INTERVAL, MAX_VALUES};
ghost use Rattle.solutions.specs.inner.Filling.{AreFound, IsFound};

use crate::values::files::{gather, spread};
use crate::values::numbers::are_all_of;
use machine_data::OutOfMemory;
use problems::File;
use registers::{Lifetime, find_least};
use std::alloc::Global;

/// Writes the least numbers of the values of a rotating file, which all values are of, where each has one, and tells whether it has.
fn find_all(
    alloc: Global,
    ii: u64,
    registers: usize,
    file: usize,
    files: &[usize],
    lives: &[Lifetime],
    numbers: &mut [usize],
) -> Result<bool, OutOfMemory>
    requires some { 1 ≤ ii }
    requires few { ii ≤ MAX_INTERVAL }
    requires kind { IsFile (Rotating registers) }
    requires few_values { length files.now ≤ MAX_VALUES }
    requires all { All (λ other. other ≡ file) files.now }
    requires lives { All IsLifeSpan lives.now }
    requires each_life { length lives.now ≡ length files.now }
    requires each { length numbers.old ≡ length files.now }
    ensures found { IfOk result (IsFound ii files.now lives.now numbers.new file (Rotating registers)) }
    ensures others { (value : ℕ) → slice_index files.now value ≢ file → slice_index numbers.new value ≡ slice_index numbers.old value }
{
    find_least(alloc, ii, registers, lives, numbers)
}

/// Writes the least numbers of the values of a rotating file, which some values are of, where each has one, and tells whether it
/// has.
fn find_some(
    alloc: Global,
    ii: u64,
    registers: usize,
    file: usize,
    files: &[usize],
    lives: &[Lifetime],
    numbers: &mut [usize],
) -> Result<bool, OutOfMemory>
    requires some { 1 ≤ ii }
    requires few { ii ≤ MAX_INTERVAL }
    requires kind { IsFile (Rotating registers) }
    requires few_values { length files.now ≤ MAX_VALUES }
    requires lives { All IsLifeSpan lives.now }
    requires each_life { length lives.now ≡ length files.now }
    requires each { length numbers.old ≡ length files.now }
    ensures found { IfOk result (IsFound ii files.now lives.now numbers.new file (Rotating registers)) }
    ensures others { (value : ℕ) → slice_index files.now value ≢ file → slice_index numbers.new value ≡ slice_index numbers.old value }
{
    let mut lives_room = vec![in alloc; Lifetime::default(); files.len()]?;
    let held = lives_room.as_mut_slice();
    let mut numbers_room = vec![in alloc; 0; files.len()]?;
    let least = numbers_room.as_mut_slice();
    let count = gather(files, file, lives, held);
    let found = find_least(alloc, ii, registers, &held[..count], &mut least[..count])?;
    if found {
        spread(files, file, &least[..count], numbers);
        Ok(true)
    } else {
        Ok(false)
    }
}

/// Writes the least numbers of the values of a file of this kind, which is the one with that number, where each has one, and tells
/// whether it has. In an unallotted file nothing is written.
fn find_in(
    alloc: Global,
    ii: u64,
    kind: File,
    file: usize,
    files: &[usize],
    lives: &[Lifetime],
    numbers: &mut [usize],
) -> Result<bool, OutOfMemory>
    requires some { 1 ≤ ii }
    requires few { ii ≤ MAX_INTERVAL }
    requires kind { IsFile kind }
    requires few_values { length files.now ≤ MAX_VALUES }
    requires lives { All IsLifeSpan lives.now }
    requires each_life { length lives.now ≡ length files.now }
    requires each { length numbers.old ≡ length files.now }
    ensures found { IfOk result (IsFound ii files.now lives.now numbers.new file kind) }
    ensures others { (value : ℕ) → slice_index files.now value ≢ file → slice_index numbers.new value ≡ slice_index numbers.old value }
    ensures unallotted { kind ≡ Unallotted → numbers.new ≡ numbers.old }
{
    match kind {
        File::Unallotted => Ok(true),
        File::Rotating(registers) if are_all_of(files, file) => {
            find_all(alloc, ii, registers, file, files, lives, numbers)
        }
        File::Rotating(registers) => find_some(alloc, ii, registers, file, files, lives, numbers),
    }
}

/// Writes the least number of each value where each has one, and tells whether it has. As
/// [`fill_numbers`](crate::values::numbers::fill_numbers), but it is done sooner where more values of a file live in one cycle than
/// the file has registers, and does not say which value has none. Without an answer `true`, what stands in `numbers` says nothing.
pub(crate) fn find_numbers(
    alloc: Global,
    ii: u64,
    kinds: &[File],
    files: &[usize],
    lives: &[Lifetime],
    numbers: &mut [usize],
) -> Result<bool, OutOfMemory>
    requires some { 1 ≤ ii }
    requires few { ii ≤ MAX_INTERVAL }
    requires kinds { All IsFile kinds.now }
    requires few_values { length files.now ≤ MAX_VALUES }
    requires lives { All IsLifeSpan lives.now }
    requires each_life { length lives.now ≡ length files.now }
    requires each { length numbers.old ≡ length files.now }
    requires zeros { (value : ℕ) → slice_index numbers.old value ≡ 0 }
    ensures { IfOk result (AreFound ii kinds.now files.now lives.now numbers.new) }
{
    for file in 0..kinds.len() {
        match find_in(alloc, ii, kinds[file], file, files, lives, numbers) {
            Err(fault) => return Err(fault),
            Ok(false) => return Ok(false),
            Ok(true) => {}
        }
    }
    Ok(true)
}
