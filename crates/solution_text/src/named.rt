//! Registers, as the operations of a solution name them.

ghost use Rattle.std.specs.Prelude.{◌≡◌, ◌++◌, ◌<◌, ◌≤◌, length, OnOk};
ghost use Rattle.instances.specs.Runs.{home_of};
ghost use Rattle.solutions.specs.Runs.{run_of};
ghost use Rattle.solution_text.specs.declared.named.TheConstants.{MAX_ABOVE};
ghost use Rattle.solution_text.specs.Registers.{register_after, register_text, spaced_register};

use crate::names::push_name;
use machine_data::OutOfMemory;
use problems::{Draft, File};
use solutions::Solution;
use writing::{Text, push_told};

/// How far above the number of a value, in registers, one may be asked for. It is no limit of problems, and keeps sums small: where
/// an operation names a register, a distance and a stage together come to less than 80.
pub const MAX_ABOVE: u64 = 4_096;

/// A register of a rotating file.
#[derive(Clone, Copy, PartialEq, Eq)]
pub struct Register {
    /// The number of the file, from 0.
    pub file: usize,
    /// The register's number in the file, from 0, as an operation names it.
    pub number: usize,
}

/// The register that is `above` after the number of a value, counted round its file; `None` if the file is unallotted. By the
/// stage of its maker it is where that puts the value, by the distance and the stage of a read where that finds it, and by a
/// number of iterations where the instance that many iterations before the first one is put before the first turn.
pub fn register_after(solution: &Solution, value: usize, above: u64) -> Option<Register>
    requires there { value < length solution.now.problem.draft.values.items }
    requires few { above ≤ MAX_ABOVE }
    ensures { result ≡ register_after (home_of (run_of solution.now) value) above }
{
    let draft = solution.problem().draft();
    let file = draft.values[value].file;
    match draft.files[file] {
        File::Rotating(registers) => Some(Register {
            file,
            number: (solution.number(value) + above as usize) % registers,
        }),
        File::Unallotted => None,
    }
}

/// Appends a register by its file and its number.
pub(crate) fn push_register(
    text: &mut Vec<u8>,
    draft: &Draft,
    register: Register,
) -> Result<(), OutOfMemory>
    ensures ok { OnOk result (text.new.items ≡ text.old.items ++ register_text draft.now register) }
{
    push_name(text, draft.names.files.as_slice(), register.file)?;
    push_told(text, ".", register.number as u64)
}

/// Appends a blank, then a register, where there is one.
pub(crate) fn push_spaced(
    text: &mut Vec<u8>,
    draft: &Draft,
    register: Option<Register>,
) -> Result<(), OutOfMemory>
    ensures ok { OnOk result (text.new.items ≡ text.old.items ++ spaced_register draft.now register) }
{
    match register {
        Some(register) => {
            text.push_piece(" ")?;
            push_register(text, draft, register)
        }
        None => Ok(()),
    }
}
