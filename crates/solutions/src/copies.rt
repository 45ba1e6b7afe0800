//! How many instances of values live at once.

ghost use Rattle.std.specs.Prelude.{◌≡◌, ◌<◌, ◌≤◌, length, map, max, slice_get, IsTrue, Some};
ghost use Rattle.std.specs.List.{All, range_with_len};
ghost use Rattle.machine_data.specs.declared.limits.TheConstants.{MAX_INTERVAL};
ghost use Rattle.problems.specs.declared.draft.Value.{Value};
ghost use Rattle.registers.specs.declared.lifetime.Lifetime.{Lifetime};
ghost use Rattle.registers.specs.Crowds.{crowd_in};
ghost use Rattle.registers.specs.Residues.{IsLifeSpan};
ghost use Rattle.registers.specs.Values.{greatest_of};
ghost use Rattle.solutions.specs.Copies.{copies_of, is_unallotted, max_live_of, unallotted_in, unroll_of};
ghost use Rattle.solutions.specs.Files.{in_file};
ghost use Rattle.solutions.specs.Solutions.{IsLawfulSolution, lives_of_solution};

use crate::solution::Solution;
use crate::values::files::gather;
use machine_data::limits::MAX_VALUES;
use problems::{File, Value};
use registers::{Lifetime, crowd_in};

impl<'a> Solution<'a> {
    /// How many instances of a value live at once at the most: the cycles in which it lives over the interval, rounded up.
    pub fn copies(&self, value: usize) -> u64
        requires { value < length self.now.problem.draft.values.items }
        ensures value { (life : Lifetime) → slice_get (lives_of_solution self.now) value ≡ Some life → result ≡ copies_of self.now.ii life }
        ensures well_formed { IsLawfulSolution self.now }
    {
        copies_of(self.ii(), self.life(value))
    }

    /// How many instances of a file's values live in one cycle at the most, once the loop runs steadily.
    pub fn max_live(&self, file: usize) -> u64
        ensures value { result ≡ max_live_of self.now file }
        ensures well_formed { IsLawfulSolution self.now }
    {
        let ii = self.ii();
        let values = self.problem().draft().values.as_slice();
        if are_all_in(values, file) {
            return greatest_crowd(ii, self.lives());
        }
        self.max_live_of_some(file)
    }

    /// The same, where some values are of the file.
    fn max_live_of_some(&self, file: usize) -> u64
        ensures { result ≡ max_live_of self.now file }
    {
        let ii = self.ii();
        let draft = self.problem().draft();
        let values = draft.values.as_slice();
        let mut homes = [0; MAX_VALUES];
        fill_files(values, &mut homes[..values.len()]);
        max_live_in(ii, &homes[..values.len()], file, self.lives())
    }

    /// How often the body of a loop is to be repeated so that each instance that lives has a name of its own: the most
    /// copies of a value of an unallotted file, and 1 where there is none.
    pub fn unroll(&self) -> u64
        ensures value { result ≡ unroll_of self.now }
        ensures well_formed { IsLawfulSolution self.now }
    {
        let ii = self.ii();
        let draft = self.problem().draft();
        let kinds = draft.files.as_slice();
        let values = draft.values.as_slice();
        let mut homes = [0; MAX_VALUES];
        fill_files(values, &mut homes[..values.len()]);
        unroll_in(ii, kinds, &homes[..values.len()], self.lives())
    }
}

/// How many instances of a value that lives so live at once at the most.
fn copies_of(ii: u64, life: Lifetime) -> u64
    requires some { 1 ≤ ii }
    requires few { ii ≤ MAX_INTERVAL }
    requires life { IsLifeSpan life }
    ensures { result ≡ copies_of ii life }
{
    (life.last + 1 - life.first + (ii - 1)) / ii
}

/// Whether all values are of one file.
fn are_all_in(values: &[Value], file: usize) -> bool
    ensures { IsTrue result → All (λ (value : Value). value.file ≡ file) values.now }
{
    values.iter().all(|value| value.file == file)
}

/// Writes the file of each value.
fn fill_files(values: &[Value], files: &mut [usize])
    requires { length files.old ≡ length values.now }
    ensures { files.new ≡ map (λ (value : Value). value.file) values.now }
{
    for k in 0..values.len() {
        files[k] = values[k].file;
    }
}

/// The most instances of these values that live in the cycle of a row.
fn greatest_crowd(ii: u64, lives: &[Lifetime]) -> u64
    requires few { ii ≤ MAX_INTERVAL }
    requires lives { All IsLifeSpan lives.now }
    requires few_lives { length lives.now ≤ MAX_VALUES }
    ensures { result ≡ greatest_of (map (λ row. crowd_in ii row lives.now (length lives.now)) (range_with_len 0 ii)) }
{
    let mut greatest = 0;
    for row in 0..ii {
        greatest = greatest.max(crowd_in(ii, row, lives));
    }
    greatest
}

/// The most instances of the values of a file that live in one cycle; `files` has the file of each value.
fn max_live_in(ii: u64, files: &[usize], file: usize, lives: &[Lifetime]) -> u64
    requires few { ii ≤ MAX_INTERVAL }
    requires few_values { length files.now ≤ MAX_VALUES }
    requires lives { All IsLifeSpan lives.now }
    requires each { length lives.now ≡ length files.now }
    ensures { result ≡ greatest_of (map (λ row. crowd_in ii row (in_file files.now file lives.now) (length (in_file files.now file lives.now))) (range_with_len 0 ii)) }
{
    let mut held = [Lifetime::default(); MAX_VALUES];
    let count = gather(files, file, lives, &mut held);
    greatest_crowd(ii, &held[..count])
}

/// The most copies of a value of an unallotted file, and at least 1; `files` has the file of each value.
fn unroll_in(ii: u64, kinds: &[File], files: &[usize], lives: &[Lifetime]) -> u64
    requires some { 1 ≤ ii }
    requires few { ii ≤ MAX_INTERVAL }
    requires lives { All IsLifeSpan lives.now }
    requires each { length lives.now ≡ length files.now }
    ensures { result ≡ max 1 (greatest_of (map (copies_of ii) (unallotted_in kinds.now files.now lives.now))) }
{
    let mut greatest = 1;
    for k in 0..files.len() {
        if is_unallotted(kinds, files[k]) {
            greatest = greatest.max(copies_of(ii, lives[k]));
        }
    }
    greatest
}

/// Whether the file with this number is there, and unallotted.
fn is_unallotted(kinds: &[File], file: usize) -> bool
    ensures { result ≡ is_unallotted (slice_get kinds.now file) }
{
    matches!(kinds.get(file), Some(File::Unallotted))
}
