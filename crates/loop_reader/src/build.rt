//! The loop of a block that passed all checks.

ghost use Rattle.std.specs.Prelude.{◌≡◌, ◌+◌, ◌*◌, ◌≤◌, ◌<◌, ◌++◌, [], true, None, ℕ, List, IfOk, OnOk, length, option_map, option_to_list};
ghost use Rattle.std.specs.Borrow.{Bor};
ghost use Rattle.loop_data.specs.Loops.{IsLoop, IsName};
ghost use Rattle.loop_reader.specs.Meaning.{array_in, loop_of, param_in, statement_in, has_statement, is_statement};
ghost use Rattle.loop_lines.specs.Parsed.{form_seen, statement_seen};
ghost use Rattle.loop_reader.specs.inner.Blocks.{entry_faults, forms_in, one_if};
ghost use Rattle.loop_reader.specs.inner.Checks.{IsBlock, IsGiven};
ghost use Rattle.loop_reader.specs.inner.Building.{IsFew, IsNamed, name_in, row_of, rows_of};
ghost use Rattle.loop_reader.specs.inner.Found.{AreFound, operand_if, operand_with, out_by, place_with, statement_by, statement_with};

use crate::checks::given::Given;
use crate::names::found::{Target, Targets};
use crate::names::index::{Counts, Index};
use loop_data::{Array, Cells, Initial, Loop, Operand, Operands, Param, Place, Statement};
use loop_lines::{Form, StatementWords, Subscript, Use, cells_of};
use machine_data::limits::MAX_DISTANCE;
use machine_data::{Name, OutOfMemory};
use smallvec::SmallVec;
use std::alloc::Global;

/// The name that these bytes are.
fn name_of(bytes: &[u8]) -> Name
    requires name { IsName bytes.now }
    ensures { result ≡ bytes.now }
{
    let text = std::str::from_utf8(bytes).unwrap();
    Name::new(text).unwrap()
}

fn maybe_name(name: Option<&[u8]>) -> Option<Name>
    requires name { IsNamed (option_map (λ (n : Bor (List ℕ)). n.now) name) }
    ensures { result ≡ option_map (λ (n : Bor (List ℕ)). n.now) name.entry }
{
    match name {
        None => None,
        Some(name) => Some(name_of(name)),
    }
}

/// What a use reads, whose name stands for this.
#[inline]
fn operand(read: &Use<'_>, target: Target) -> Operand
    ensures { result ≡ operand_with read.now target }
{
    let distance = match read {
        Use::Number(value) => return Operand::Constant(value.unwrap_or(0)),
        Use::Plain(_) => 0,
        Use::At(_, distance) => distance.unwrap_or(0),
    };
    match target {
        Target::Param(number) => Operand::Parameter(number),
        Target::Value(number) => Operand::Value {
            statement: number,
            distance,
        },
    }
}

/// Appends what a use reads, if it is there.
#[inline]
fn push_operand(
    operands: &mut SmallVec<Operand, 3>,
    read: &Option<Use<'_>>,
    target: Target,
) -> Result<(), OutOfMemory>
    ensures { OnOk result (operands.new.items ≡ operands.old.items ++ operand_if read.now target) }
{
    if let Some(read) = read {
        operands.push(operand(read, target))?;
    }
    Ok(())
}

#[inline]
fn place(place: &Option<Subscript<'_>>, array: u8) -> Option<Place>
    ensures { result ≡ place_with place.now array }
{
    match place {
        None => None,
        Some(place) => Some(Place {
            array,
            offset: place.offset.unwrap_or(0),
        }),
    }
}

fn statement(
    alloc: Global,
    source: &StatementWords<'_>,
    found: &Targets,
) -> Result<Statement, OutOfMemory>
    requires name { IsNamed (statement_seen source.now).name }
    ensures { IfOk result (λ s. s ≡ statement_with source.now found.now) }
{
    let mut operands = SmallVec::new(alloc);
    push_operand(&mut operands, &source.uses.first, found.first)?;
    push_operand(&mut operands, &source.uses.second, found.second)?;
    push_operand(&mut operands, &source.uses.third, found.third)?;
    Ok(Statement {
        opcode: source.opcode,
        name: maybe_name(source.name),
        place: place(&source.place, found.number),
        operands: Operands::new(operands),
    })
}

/// Appends the initial values of a statement's value, by number.
fn push_inits(inits: &mut Vec<Initial>, given: &Given, statement: u8) -> Result<(), OutOfMemory>
    requires room { 16 * statement + 16 ≤ length given.now.inits }
    ensures { OnOk result (inits.new.items ≡ inits.old.items ++ row_of given.now.inits statement 16) }
{
    if given.inits.is_bare(statement as usize) {
        return Ok(());
    }
    for m in 0..MAX_DISTANCE as usize {
        if let Some(value) = given.inits.at(statement as usize, m) {
            inits.push(Initial {
                statement,
                number: m as u8 + 1,
                value,
            })?;
        }
    }
    Ok(())
}

/// The parts of a loop, as far as its lines are read.
#[derive(Drop)]
struct Parts {
    arrays: Vec<Array>,
    params: Vec<Param>,
    statements: Vec<Statement>,
    inits: Vec<Initial>,
    outs: Vec<u8>,
}

impl Parts {
    fn add(
        &mut self,
        alloc: Global,
        given: &Given,
        form: &Form<'_>,
        found: &Targets,
    ) -> Result<(), OutOfMemory>
        requires name { IsNamed (name_in (form_seen form.now)) }
        requires few { length self.old.statements.items + one_if (is_statement (form_seen form.now)) ≤ 128 }
        requires room { 16 * (length self.old.statements.items + one_if (is_statement (form_seen form.now))) ≤ length given.now.inits }
        ensures arrays { OnOk result (self.new.arrays.items ≡ self.old.arrays.items ++ option_to_list (array_in (form_seen form.now))) }
        ensures params { OnOk result (self.new.params.items ≡ self.old.params.items ++ option_to_list (param_in (form_seen form.now))) }
        ensures statements { OnOk result (self.new.statements.items ≡ self.old.statements.items ++ option_to_list (statement_by form.now found.now)) }
        ensures inits { OnOk result (self.new.inits.items ≡ self.old.inits.items ++ rows_of given.now.inits (length self.old.statements.items) (option_to_list (statement_in (form_seen form.now)))) }
        ensures outs { OnOk result (self.new.outs.items ≡ self.old.outs.items ++ option_to_list (out_by form.now found.now)) }
    {
        match form {
            Form::Array(name, cells) => self.arrays.push(Array {
                name: name_of(*name),
                cells: Cells::new(cells_of(alloc, *cells)?),
            })?,
            Form::Param(name, value) => self.params.push(Param {
                name: name_of(*name),
                value: value.unwrap_or(0),
            })?,
            Form::Statement(source) => {
                if source.name.is_some() {
                    push_inits(&mut self.inits, given, self.statements.len() as u8)?;
                }
                self.statements.push(statement(alloc, source, found)?)?;
            }
            Form::Out(_) => self.outs.push(found.number)?,
            _ => {}
        }
        Ok(())
    }
}

/// Builds the `Loop` of a block that passed all checks; `given` holds its initial values, `found` its
/// resolved names.
pub(crate) fn build<'a>(
    alloc: Global,
    name: &'a [u8],
    index: &Index<'_, 'a>,
    counts: Counts,
    given: &Given,
    found: &[Targets],
) -> Result<Loop, OutOfMemory>
    requires name { IsName name.now }
    requires block { IsBlock (forms_in index.now) }
    requires some { has_statement (forms_in index.now) ≡ true }
    requires faultless { entry_faults (forms_in index.now) [] index.now ≡ [] }
    requires given { IsGiven (forms_in index.now) (forms_in index.now) given.now.inits given.now.outs.items }
    requires found { IsFew (forms_in index.now) → AreFound (forms_in index.now) index.now found.now }
    ensures value { IfOk result (λ l. l ≡ loop_of (name.now, forms_in index.now)) }
    ensures well_formed { IfOk result (λ l. IsLoop l) }
{
    let mut parts = Parts {
        arrays: Vec::with_capacity(alloc, counts.arrays)?,
        params: Vec::with_capacity(alloc, counts.params)?,
        statements: Vec::with_capacity(alloc, counts.statements)?,
        inits: Vec::new(alloc),
        outs: Vec::new(alloc),
    };
    let lines = index.lines();
    for (i, line) in lines.iter().enumerate() {
        parts.add(alloc, given, &line.form, &found[i])?;
    }
    let Parts {
        arrays,
        params,
        statements,
        inits,
        outs,
    } = parts;
    Ok(Loop::new(name_of(name), arrays, params, statements, inits, outs))
}
