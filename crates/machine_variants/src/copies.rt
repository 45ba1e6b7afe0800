//! Copies of loops, each to be prepared on another machine.

ghost use Rattle.std.specs.Prelude.{◌≡◌, IfOk};

use loop_data::{Array, Cells, Loop, Operands, Param, Statement};
use machine_data::{Name, OutOfMemory};
use smallvec::SmallVec;
use std::alloc::Global;

/// Copies of arrays.
fn copied_arrays(alloc: Global, arrays: &[Array]) -> Result<Vec<Array>, OutOfMemory>
    ensures { IfOk result (λ copies. copies.items ≡ arrays.now) }
{
    let mut copies = Vec::with_capacity(alloc, arrays.len())?;
    for array in arrays {
        copies.push(copied_array(alloc, array)?)?;
    }
    Ok(copies)
}

/// A copy of an array.
fn copied_array(alloc: Global, array: &Array) -> Result<Array, OutOfMemory>
    ensures { IfOk result (λ copy. copy ≡ array.now) }
{
    let cells = Vec::from_slice(alloc, array.cells.as_slice())?;
    Ok(Array {
        name: array.name.copied(),
        cells: Cells::new(cells),
    })
}

/// Copies of parameters.
fn copied_params(alloc: Global, params: &[Param]) -> Result<Vec<Param>, OutOfMemory>
    ensures { IfOk result (λ copies. copies.items ≡ params.now) }
{
    let mut copies = Vec::with_capacity(alloc, params.len())?;
    for param in params {
        copies.push(Param {
            name: param.name.copied(),
            value: param.value,
        })?;
    }
    Ok(copies)
}

/// A copy of a name, where there is one.
fn copied_name(name: &Option<Name>) -> Option<Name>
    ensures { result ≡ name.now }
{
    match name {
        Some(name) => Some(name.copied()),
        None => None,
    }
}

/// A copy of a statement.
fn copied_statement(alloc: Global, statement: &Statement) -> Result<Statement, OutOfMemory>
    ensures { IfOk result (λ copy. copy ≡ statement.now) }
{
    let operands = SmallVec::from_slice(alloc, statement.operands.as_slice())?;
    Ok(Statement {
        opcode: statement.opcode,
        name: copied_name(&statement.name),
        place: statement.place,
        operands: Operands::new(operands),
    })
}

/// Copies of statements.
fn copied_statements(alloc: Global, statements: &[Statement]) -> Result<Vec<Statement>, OutOfMemory>
    ensures { IfOk result (λ copies. copies.items ≡ statements.now) }
{
    let mut copies = Vec::with_capacity(alloc, statements.len())?;
    for statement in statements {
        copies.push(copied_statement(alloc, statement)?)?;
    }
    Ok(copies)
}

/// The same loop once more.
///
/// # Errors
/// Memory ran out.
pub fn copied_loop(alloc: Global, innermost: &Loop) -> Result<Loop, OutOfMemory>
    ensures { IfOk result (λ copy. copy ≡ innermost.now) }
{
    let arrays = copied_arrays(alloc, innermost.arrays())?;
    let params = copied_params(alloc, innermost.params())?;
    let statements = copied_statements(alloc, innermost.statements())?;
    let inits = Vec::from_slice(alloc, innermost.inits())?;
    let outs = Vec::from_slice(alloc, innermost.outs())?;
    let name = innermost.name().copied();
    Ok(Loop::new(name, arrays, params, statements, inits, outs))
}
