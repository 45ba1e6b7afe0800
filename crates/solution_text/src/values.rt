//! The lines of the values of a solution, and of the registers that hold values of before the first iteration.

ghost use Rattle.std.specs.Prelude.{◌≡◌, ◌++◌, ◌<◌, ◌≤◌, length, map, Some, OnOk};
ghost use Rattle.std.specs.List.{All};
ghost use Rattle.machine_data.specs.declared.limits.TheConstants.{MAX_DISTANCE};
ghost use Rattle.instances.specs.Runs.{carried_by};
ghost use Rattle.problems.specs.declared.draft.File.TheVariants.{Rotating, Unallotted};
ghost use Rattle.registers.specs.declared.value.Read.{Read};
ghost use Rattle.solutions.specs.Runs.{run_of};
ghost use Rattle.solution_text.specs.Values.{initial_line, initial_lines, initials_of, live_text, value_line, value_line_in, value_lines};
ghost use Rattle.solution_text.specs.inner.Carried.{AreCarried, IsRaised, out_of};

use crate::named::register_after;
use crate::parts::{Part, push_parts};
use machine_data::OutOfMemory;
use machine_data::limits::MAX_VALUES;
use problems::{File, Value};
use registers::Read;
use solutions::Solution;
use writing::{Text, push_told};

/// Appends the file of a value and when the value lives.
fn push_live(text: &mut Vec<u8>, solution: &Solution, value: usize) -> Result<(), OutOfMemory>
    requires { value < length solution.now.problem.draft.values.items }
    ensures ok { OnOk result (text.new.items ≡ text.old.items ++ live_text solution.now value) }
{
    let draft = solution.problem().draft();
    let life = solution.life(value);
    push_parts(
        text,
        draft,
        &[
            Part::File(draft.values[value].file),
            Part::Told(": live ", life.first),
            Part::Told(" to ", life.last),
        ],
    )
}

/// Appends the line of a value of a rotating file, of this many registers.
fn push_allotted(
    text: &mut Vec<u8>,
    solution: &Solution,
    value: usize,
    _registers: usize,
) -> Result<(), OutOfMemory>
    requires { value < length solution.now.problem.draft.values.items }
    ensures ok { OnOk result (text.new.items ≡ text.old.items ++ value_line_in solution.now value (Some (Rotating _registers))) }
{
    push_parts(
        text,
        solution.problem().draft(),
        &[
            Part::Piece("value "),
            Part::Value(value),
            Part::Told(" number ", solution.number(value) as u64),
            Part::Piece(" # "),
        ],
    )?;
    push_live(text, solution, value)?;
    text.push_piece("\n")
}

/// Appends the line of a value of an unallotted file.
fn push_unallotted(text: &mut Vec<u8>, solution: &Solution, value: usize) -> Result<(), OutOfMemory>
    requires { value < length solution.now.problem.draft.values.items }
    ensures ok { OnOk result (text.new.items ≡ text.old.items ++ value_line_in solution.now value (Some Unallotted)) }
{
    push_parts(
        text,
        solution.problem().draft(),
        &[
            Part::Piece("# value "),
            Part::Value(value),
            Part::Piece(" "),
        ],
    )?;
    push_live(text, solution, value)?;
    push_told(text, ", copies ", solution.copies(value))?;
    text.push_piece("\n")
}

/// Appends the line of a value.
#[tactic(auto, unfolding(crate::specs::Values::value_line))]
fn push_value(text: &mut Vec<u8>, solution: &Solution, value: usize) -> Result<(), OutOfMemory>
    requires { value < length solution.now.problem.draft.values.items }
    ensures ok { OnOk result (text.new.items ≡ text.old.items ++ value_line solution.now value) }
{
    let draft = solution.problem().draft();
    match draft.files[draft.values[value].file] {
        File::Rotating(registers) => push_allotted(text, solution, value, registers),
        File::Unallotted => push_unallotted(text, solution, value),
    }
}

/// Appends the lines of all values, in order.
pub(crate) fn push_values(text: &mut Vec<u8>, solution: &Solution) -> Result<(), OutOfMemory>
    ensures ok { OnOk result (text.new.items ≡ text.old.items ++ value_lines solution.now) }
{
    for value in 0..solution.problem().draft().values.len() {
        push_value(text, solution, value)?;
    }
    Ok(())
}

/// How many iterations a value is carried on: it needs one initial value for each of these.
pub fn carried(solution: &Solution, value: usize) -> u64
    requires { value < length solution.now.problem.draft.values.items }
    ensures value { result ≡ carried_by (run_of solution.now) value }
    ensures few { result ≤ MAX_DISTANCE }
{
    let draft = solution.problem().draft();
    let mut iterations = if draft.values[value].out { 1 } else { 0 };
    for read in &draft.reads {
        if read.value == value {
            iterations = read.distance.max(iterations);
        }
    }
    iterations
}

/// Appends the line of the initial value of the instance `iterations` iterations before the first, where it has a register.
#[tactic(auto, unfolding(crate::specs::Values::initial_line))]
fn push_initial(
    text: &mut Vec<u8>,
    solution: &Solution,
    value: usize,
    iterations: u64,
) -> Result<(), OutOfMemory>
    requires there { value < length solution.now.problem.draft.values.items }
    requires few { iterations ≤ MAX_DISTANCE }
    ensures ok { OnOk result (text.new.items ≡ text.old.items ++ initial_line solution.now value iterations) }
{
    let Some(register) = register_after(solution, value, iterations) else {
        return Ok(());
    };
    push_parts(
        text,
        solution.problem().draft(),
        &[
            Part::Piece("# initial "),
            Part::Register(register),
            Part::Piece(" "),
            Part::Value(value),
            Part::Told(" distance ", iterations),
            Part::Piece("\n"),
        ],
    )
}

/// Appends the lines of the initial values of a value that is carried on for this many iterations.
#[tactic(auto, unfolding(crate::specs::Values::initials_of))]
fn push_initials_of(
    text: &mut Vec<u8>,
    solution: &Solution,
    value: usize,
    iterations: u64,
) -> Result<(), OutOfMemory>
    requires there { value < length solution.now.problem.draft.values.items }
    requires carried { iterations ≡ carried_by (run_of solution.now) value }
    requires few { iterations ≤ MAX_DISTANCE }
    ensures ok { OnOk result (text.new.items ≡ text.old.items ++ initials_of solution.now value) }
{
    for before in 0..iterations {
        push_initial(text, solution, value, before + 1)?;
    }
    Ok(())
}

/// Writes of each value whether it is live at the end, as the number of iterations that it is then carried on.
fn fill_outs(values: &[Value], iterations: &mut [u64])
    requires { length iterations.old ≡ length values.now }
    ensures { iterations.new ≡ map out_of values.now }
{
    for k in 0..values.len() {
        iterations[k] = if values[k].out { 1 } else { 0 };
    }
}

/// Raises the entry of each value to the distances of its reads.
fn raise_to_reads(reads: &[Read], iterations: &mut [u64])
    requires { All (λ (r : Read). r.value < length iterations.old) reads.now }
    ensures { IsRaised reads.now iterations.old iterations.new }
{
    for read in reads {
        let most = read.distance.max(iterations[read.value]);
        iterations[read.value] = most;
    }
}

/// Writes how many iterations each value is carried on.
fn fill_carried(solution: &Solution, iterations: &mut [u64])
    requires { length iterations.old ≡ length solution.now.problem.draft.values.items }
    ensures { AreCarried solution.now iterations.new }
{
    let draft = solution.problem().draft();
    fill_outs(draft.values.as_slice(), iterations);
    raise_to_reads(draft.reads.as_slice(), iterations);
}

/// Appends the lines of all initial values, value by value; `iterations` has how many iterations each value is carried on.
fn push_carried(
    text: &mut Vec<u8>,
    solution: &Solution,
    iterations: &[u64],
) -> Result<(), OutOfMemory>
    requires { AreCarried solution.now iterations.now }
    ensures ok { OnOk result (text.new.items ≡ text.old.items ++ initial_lines solution.now) }
{
    for value in 0..solution.problem().draft().values.len() {
        push_initials_of(text, solution, value, iterations[value])?;
    }
    Ok(())
}

/// Appends the lines of all initial values, value by value, with room for as many values as there are.
fn push_initials_in(
    text: &mut Vec<u8>,
    solution: &Solution,
    room: &mut [u64],
) -> Result<(), OutOfMemory>
    requires { length solution.now.problem.draft.values.items ≤ length room.old }
    ensures ok { OnOk result (text.new.items ≡ text.old.items ++ initial_lines solution.now) }
{
    let count = solution.problem().draft().values.len();
    fill_carried(solution, &mut room[..count]);
    push_carried(text, solution, &room[..count])
}

/// Values for which there is little room to clear: most problems have no more.
const FEW_VALUES: usize = 128;

/// Appends the lines of all initial values, value by value.
pub(crate) fn push_initials(text: &mut Vec<u8>, solution: &Solution) -> Result<(), OutOfMemory>
    ensures ok { OnOk result (text.new.items ≡ text.old.items ++ initial_lines solution.now) }
{
    if solution.problem().draft().values.len() <= FEW_VALUES {
        let mut few = [0; FEW_VALUES];
        push_initials_in(text, solution, &mut few)
    } else {
        let mut all = [0; MAX_VALUES];
        push_initials_in(text, solution, &mut all)
    }
}
