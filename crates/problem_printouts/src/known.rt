//! The names of the problems of a file, with their numbers. They stand in a map by their order, so that no choice of names makes
//! a look-up long.

ghost use Rattle.std.specs.Prelude.{◌≡◌, ℕ, List, if◌then◌else◌, IfOk, None, OnOk, Some};
ghost use Rattle.std.specs.Option.{option_or};
ghost use Rattle.machine_data.specs.Opcodes.{same_word};
ghost use Rattle.problem_printouts.specs.Judging.{problem_names};
ghost use Rattle.problem_printouts.specs.inner.Known.{known_at, AreNumbers};

use machine_data::OutOfMemory;
use problem_reader::ProblemFile;
use std::alloc::Global;
use std::collections::BTreeMap;

/// Adds a name with its number, unless it is there.
fn add_name<'n>(
    numbers: &mut BTreeMap<&'n [u8], usize>,
    name: &'n [u8],
    number: usize,
) -> Result<(), OutOfMemory>
    ensures { OnOk result ((q : List ℕ) → known_at numbers.new q ≡ option_or (known_at numbers.old q) (if same_word q name.now then Some number else None)) }
{
    if numbers.contains_key(name) {
        return Ok(());
    }
    match numbers.insert(name, number) {
        Ok(_) => Ok(()),
        Err(failed) => Err(OutOfMemory::from(failed)),
    }
}

/// The number of each name: that of the first problem that has it.
pub(crate) fn numbers_of(
    alloc: Global,
    file: &ProblemFile,
) -> Result<BTreeMap<&[u8], usize>, OutOfMemory>
    ensures { IfOk result (AreNumbers (problem_names file.now)) }
{
    let mut numbers = BTreeMap::new(alloc);
    for number in 0..file.problems() {
        add_name(&mut numbers, file.name(number).as_str().as_bytes(), number)?;
    }
    Ok(numbers)
}
