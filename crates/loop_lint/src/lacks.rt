//! Statements whose opcode a machine has no table for.

ghost use Rattle.std.specs.Prelude.{◌≡◌, ◌≤◌, ◌<◌, ◌^◌, ◌++◌, false, IfOk, OnOk, if◌then◌else◌, length, map, option_map, [], is_none};
ghost use Rattle.loop_lines.specs.Parsed.{form_seen};
ghost use Rattle.machine_data.specs.Machines.{table_of};
ghost use Rattle.loop_lint.specs.Lacks.{AreToldOn, SilentWith, column_of, count_before, inside_after, lack, lacks_for, lacks_from, line_of, merged, opcode_word, width_of};
ghost use Rattle.loop_lint.specs.Lints.{text_lines};
ghost use Rattle.loop_lines.specs.Columns.{placed_words};
ghost use Rattle.loop_lint.specs.inner.Lacking.{IsPassed};
ghost use Rattle.loop_lint.specs.declared.lacks.LoopLint.TheVariants as lint;

use crate::fault::LintFault;
use crate::lint::lint_loops;
use crate::spots::spot_at;
use crate::tell::Line;
use loop_lines::{Form, form_of, next_line};
use machine_data::limits::MAX_TEXT;
use machine_data::{Machine, Opcode, OutOfMemory};
use std::alloc::Global;

/// A statement whose opcode the machine has no table for.
#[derive(Clone, Copy)]
pub struct NoTable {
    /// The line's number, from 1.
    pub line: usize,
    /// The column of the opcode's first byte, from 1.
    pub column: usize,
    /// How many bytes the opcode has.
    pub width: usize,
}

/// What is told of a line of a loop text.
#[derive(Drop)]
pub enum LoopLint {
    /// A fault of the text.
    Fault(LintFault),
    /// A statement whose opcode the machine has no table for.
    NoTable(NoTable),
}

impl LoopLint {
    /// The line's number, from 1; 0 for a text that is too long.
    pub fn line(&self) -> usize
        ensures { result ≡ line_of self.now }
    {
        match self {
            LoopLint::Fault(fault) => fault.line,
            LoopLint::NoTable(lack) => lack.line,
        }
    }

    /// The column of the word's first byte, from 1; 0 where the line is 0.
    pub fn column(&self) -> usize
        ensures { result ≡ column_of self.now }
    {
        match self {
            LoopLint::Fault(fault) => fault.column,
            LoopLint::NoTable(lack) => lack.column,
        }
    }

    /// How many bytes the word has: 0 where none is there.
    pub fn width(&self) -> usize
        ensures { result ≡ width_of self.now }
    {
        match self {
            LoopLint::Fault(fault) => fault.width,
            LoopLint::NoTable(lack) => lack.width,
        }
    }
}

/// The number of the word that is the opcode of a statement.
fn opcode_word(opcode: Opcode) -> usize
    ensures { result ≡ opcode_word opcode }
{
    match opcode {
        Opcode::Store => 0,
        _ => 2,
    }
}

/// Tells a line that is a statement whose opcode the machine has no table for.
fn tell_lack(
    lacks: &mut Vec<NoTable>,
    machine: &Machine,
    line: Line<'_>,
    form: &Form<'_>,
) -> Result<(), OutOfMemory>
    ensures { OnOk result (lacks.new.items ≡ lacks.old.items ++ lack machine.now line.entry.number (placed_words line.entry.bytes.now) (form_seen form.now)) }
{
    let Form::Statement(source) = form else {
        return Ok(());
    };
    if machine.table(source.opcode).is_some() {
        return Ok(());
    }
    let spot = spot_at(line.bytes, opcode_word(source.opcode));
    lacks.push(NoTable {
        line: line.number,
        column: spot.column,
        width: spot.width,
    })?;
    Ok(())
}

/// Whether the next line is inside a loop, by whether this one is.
fn inside_after(inside: bool, form: &Form<'_>) -> bool
    ensures { result ≡ inside_after inside (form_seen form.now) }
{
    match form {
        Form::Loop(_) => true,
        Form::End => false,
        _ => inside,
    }
}

/// Tells a line of a text, where it is inside a loop. The result is whether the next one is.
#[tactic(auto, using(crate::proofs::Lacking::passes_blank, crate::proofs::Lacking::passes_line))]
fn tell_line(
    lacks: &mut Vec<NoTable>,
    machine: &Machine,
    line: Line<'_>,
    inside: bool,
) -> Result<bool, OutOfMemory>
    ensures { IfOk result (λ after. IsPassed machine.now line.entry.number inside line.entry.bytes.now lacks.old.items after lacks.new.items) }
{
    let Some(form) = form_of(line.bytes) else {
        return Ok(inside);
    };
    if inside {
        tell_lack(lacks, machine, line, &form)?;
    }
    Ok(inside_after(inside, &form))
}

/// The statements of a text whose opcode the machine has no table for.
fn lacks_in(alloc: Global, machine: &Machine, text: &[u8]) -> Result<Vec<NoTable>, OutOfMemory>
    requires { length text.now ≤ MAX_TEXT }
    ensures { IfOk result (λ lacks. lacks.items ≡ lacks_from machine.now 1 false (text_lines text.now)) }
{
    let mut lacks = Vec::new(alloc);
    let mut rest = text;
    let mut number = 1;
    let mut inside = false;
    while !rest.is_empty() {
        let (bytes, after) = next_line(rest);
        let line = Line { number, bytes };
        inside = tell_line(&mut lacks, machine, line, inside)?;
        rest = after;
        number += 1;
    }
    Ok(lacks)
}

/// The same where there is a machine, and the text is not too long.
#[tactic(auto, using(crate::proofs::Lacking::lacks_short, crate::proofs::Lacking::lacks_long))]
fn lacks_for(
    alloc: Global,
    machine: Option<&Machine>,
    text: &[u8],
) -> Result<Vec<NoTable>, OutOfMemory>
    ensures { IfOk result (λ lacks. lacks.items ≡ lacks_for (option_map (λ m. m.now) machine.entry) text.now) }
{
    let Some(machine) = machine else {
        return Ok(Vec::new(alloc));
    };
    if text.len() > MAX_TEXT {
        return Ok(Vec::new(alloc));
    }
    lacks_in(alloc, machine, text)
}

/// How many of these are of lines before this one.
fn count_before(lacks: &[NoTable], line: usize) -> usize
    ensures value { result ≡ count_before line lacks.now }
    ensures within { result ≤ length lacks.now }
{
    for (i, lack) in lacks.iter().enumerate() {
        if lack.line >= line {
            return i;
        }
    }
    lacks.len()
}

/// Pushes statements without a table.
fn push_all(lints: &mut Vec<LoopLint>, lacks: &[NoTable]) -> Result<(), OutOfMemory>
    ensures { OnOk result (lints.new.items ≡ lints.old.items ++ map lint.NoTable lacks.now) }
{
    for lack in lacks {
        lints.push(LoopLint::NoTable(*lack))?;
    }
    Ok(())
}

/// Faults, with the statements without a table among them.
fn merged(
    alloc: Global,
    faults: Vec<LintFault>,
    lacks: &[NoTable],
) -> Result<Vec<LoopLint>, OutOfMemory>
    ensures { IfOk result (λ lints. lints.items ≡ merged faults.items lacks.now) }
{
    let mut lints = Vec::new(alloc);
    let mut left = lacks;
    let mut faults = faults.into_iter();
    while let Some(fault) = faults.next() {
        let (before, after) = left.split_at(count_before(left, fault.line));
        push_all(&mut lints, before)?;
        lints.push(LoopLint::Fault(fault))?;
        left = after;
    }
    push_all(&mut lints, left)?;
    Ok(lints)
}

/// Every fault of a loop text, as [`lint_loops`] tells them, and among them, in the order of the lines, each statement inside
/// a loop whose opcode the machine has no table for, if there is a machine. Of a line it stands after the line's faults.
///
/// # Errors
/// Memory ran out, which says nothing of the text.
#[tactic(auto, using(crate::proofs::Lacking::told_on, crate::proofs::Lacking::silent_with))]
pub fn lint_loops_for(
    alloc: Global,
    text: &[u8],
    machine: Option<&Machine>,
) -> Result<Vec<LoopLint>, OutOfMemory>
    ensures told { IfOk result (λ lints. AreToldOn (option_map (λ m. m.now) machine.entry) text.now lints.items) }
    ensures silent { IfOk result (λ lints. SilentWith (option_map (λ m. m.now) machine.entry) text.now lints.items) }
{
    let faults = lint_loops(alloc, text)?;
    let lacks = lacks_for(alloc, machine, text)?;
    merged(alloc, faults, &lacks)
}
