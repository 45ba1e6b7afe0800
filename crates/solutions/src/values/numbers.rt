//! The least numbers of values, file by file.

ghost use Rattle.std.specs.Prelude.{◌≡◌, ◌≢◌, ◌<◌, ◌≤◌, ℕ, length, slice_index, None, Some, IfOk, IsTrue, MatchOption};
ghost use Rattle.std.specs.List.{All};
ghost use Rattle.machine_data.specs.declared.limits.TheConstants.{MAX_INTERVAL, MAX_VALUES};
ghost use Rattle.problems.specs.declared.draft.File.TheVariants.{Rotating, Unallotted};
ghost use Rattle.problems.specs.Drafts.{IsFile};
ghost use Rattle.registers.specs.Residues.{IsLifeSpan};
ghost use Rattle.solutions.specs.inner.Filling.{AreFilled, IsFilled, Lacks, LacksFirst};

use crate::values::files::{gather, spread, value_at};
use machine_data::OutOfMemory;
use problems::File;
use registers::{Lifetime, fill_least};
use std::alloc::Global;

/// Whether all values are of one file.
pub(crate) fn are_all_of(files: &[usize], file: usize) -> bool
    ensures { IsTrue result → All (λ other. other ≡ file) files.now }
{
    files.iter().all(|other| *other == file)
}

/// Writes the least numbers of the values of a rotating file, which all values are of. Where some value has none, it gives the
/// first one.
fn fill_all(
    alloc: Global,
    ii: u64,
    registers: usize,
    file: usize,
    files: &[usize],
    lives: &[Lifetime],
    numbers: &mut [usize],
) -> Result<Option<usize>, OutOfMemory>
    requires some { 1 ≤ ii }
    requires few { ii ≤ MAX_INTERVAL }
    requires kind { IsFile (Rotating registers) }
    requires all { All (λ other. other ≡ file) files.now }
    requires lives { All IsLifeSpan lives.now }
    requires each_life { length lives.now ≡ length files.now }
    requires each { length numbers.old ≡ length files.now }
    ensures filled { IfOk result (λ found. MatchOption found (IsFilled ii files.now lives.now numbers.new file (Rotating registers))
        (λ value. Lacks ii files.now lives.now file value (Rotating registers))) }
    ensures others { (value : ℕ) → slice_index files.now value ≢ file → slice_index numbers.new value ≡ slice_index numbers.old value }
{
    fill_least(alloc, ii, registers, lives, numbers)
}

/// Writes the least numbers of the values of a rotating file, which some values are of. Where some value has none, it gives the
/// first one.
fn fill_some(
    alloc: Global,
    ii: u64,
    registers: usize,
    file: usize,
    files: &[usize],
    lives: &[Lifetime],
    numbers: &mut [usize],
) -> Result<Option<usize>, OutOfMemory>
    requires some { 1 ≤ ii }
    requires few { ii ≤ MAX_INTERVAL }
    requires kind { IsFile (Rotating registers) }
    requires few_values { length files.now ≤ MAX_VALUES }
    requires lives { All IsLifeSpan lives.now }
    requires each_life { length lives.now ≡ length files.now }
    requires each { length numbers.old ≡ length files.now }
    ensures filled { IfOk result (λ found. MatchOption found (IsFilled ii files.now lives.now numbers.new file (Rotating registers))
        (λ value. Lacks ii files.now lives.now file value (Rotating registers))) }
    ensures others { IfOk result (λ found. found ≡ None → (value : ℕ) → slice_index files.now value ≢ file → slice_index numbers.new value ≡ slice_index numbers.old value) }
{
    let mut lives_room = vec![in alloc; Lifetime::default(); files.len()]?;
    let held = lives_room.as_mut_slice();
    let mut numbers_room = vec![in alloc; 0; files.len()]?;
    let least = numbers_room.as_mut_slice();
    let count = gather(files, file, lives, held);
    match fill_least(alloc, ii, registers, &held[..count], &mut least[..count])? {
        Some(place) => Ok(Some(value_at(files, file, place))),
        None => {
            spread(files, file, &least[..count], numbers);
            Ok(None)
        }
    }
}

/// Writes the least numbers of the values of a file of this kind, which is the one with that number. Where some value
/// has none, it gives the first one; then what stands in `numbers` says nothing. In an unallotted file nothing is written.
fn fill_file(
    alloc: Global,
    ii: u64,
    kind: File,
    file: usize,
    files: &[usize],
    lives: &[Lifetime],
    numbers: &mut [usize],
) -> Result<Option<usize>, OutOfMemory>
    requires some { 1 ≤ ii }
    requires few { ii ≤ MAX_INTERVAL }
    requires kind { IsFile kind }
    requires few_values { length files.now ≤ MAX_VALUES }
    requires lives { All IsLifeSpan lives.now }
    requires each_life { length lives.now ≡ length files.now }
    requires each { length numbers.old ≡ length files.now }
    ensures filled { IfOk result (λ found. MatchOption found (IsFilled ii files.now lives.now numbers.new file kind)
        (λ value. Lacks ii files.now lives.now file value kind)) }
    ensures others { IfOk result (λ found. found ≡ None → (value : ℕ) → slice_index files.now value ≢ file → slice_index numbers.new value ≡ slice_index numbers.old value) }
    ensures unallotted { kind ≡ Unallotted → numbers.new ≡ numbers.old }
{
    match kind {
        File::Unallotted => Ok(None),
        File::Rotating(registers) if are_all_of(files, file) => {
            fill_all(alloc, ii, registers, file, files, lives, numbers)
        }
        File::Rotating(registers) => fill_some(alloc, ii, registers, file, files, lives, numbers),
    }
}

/// Writes the least number of each value, where `kinds` are the files and `files` has the file of each value. Where some
/// value has none, it gives the first such file and the first such value of it; then what stands in `numbers` says nothing.
pub(crate) fn fill_numbers(
    alloc: Global,
    ii: u64,
    kinds: &[File],
    files: &[usize],
    lives: &[Lifetime],
    numbers: &mut [usize],
) -> Result<Option<(usize, usize)>, OutOfMemory>
    requires some { 1 ≤ ii }
    requires few { ii ≤ MAX_INTERVAL }
    requires kinds { All IsFile kinds.now }
    requires few_values { length files.now ≤ MAX_VALUES }
    requires lives { All IsLifeSpan lives.now }
    requires each_life { length lives.now ≡ length files.now }
    requires each { length numbers.old ≡ length files.now }
    requires zeros { (value : ℕ) → slice_index numbers.old value ≡ 0 }
    ensures { IfOk result (λ found. MatchOption found (AreFilled ii kinds.now files.now lives.now numbers.new)
        (λ pair. LacksFirst ii kinds.now files.now lives.now pair.0 pair.1)) }
{
    for file in 0..kinds.len() {
        match fill_file(alloc, ii, kinds[file], file, files, lives, numbers) {
            Err(fault) => return Err(fault),
            Ok(Some(value)) => return Ok(Some((file, value))),
            Ok(None) => {}
        }
    }
    Ok(None)
}
