//! The draft of a problem that a caller in C gives.

ghost use Rattle.std.specs.Prelude.{◌≡◌, map, IfOk};
ghost use Rattle.capi.specs.Given.{IsDraftOf, file_of, given_kind, hold_of, holds_of, kind_of, order_of, read_of, rows_of, value_of};

use crate::given::{Hold, Kind, Order, Problem, Read, Value};
use machine_data::OutOfMemory;
use problems::{Draft, File, Names};
use smallvec::SmallVec;
use std::alloc::Global;

/// The register file of `registers` rotating registers, or an unallotted one for 0.
fn file_of(registers: u32) -> File
    ensures { result ≡ file_of registers }
{
    if registers == 0 {
        File::Unallotted
    } else {
        File::Rotating(registers as usize)
    }
}

/// The register files.
fn files_of(alloc: Global, files: &[u32]) -> Result<Vec<File>, OutOfMemory>
    ensures { IfOk result (λ v. v.items ≡ map file_of files.now) }
{
    let mut made = Vec::with_capacity(alloc, files.len())?;
    for registers in files {
        made.push(file_of(*registers))?;
    }
    Ok(made)
}

/// The rows of an alternative.
fn holds_of(alloc: Global, holds: &[Hold]) -> Result<SmallVec<problems::Hold, 2>, OutOfMemory>
    ensures { IfOk result (λ v. v.items ≡ map hold_of holds.now) }
{
    let mut made = SmallVec::with_capacity(alloc, holds.len())?;
    for hold in holds {
        made.push(problems::Hold {
            unit: hold.unit as usize,
            offset: u64::from(hold.offset),
        })?;
    }
    Ok(made)
}

/// The alternatives of a kind.
fn alternatives_of(
    alloc: Global,
    alternatives: &[&[Hold]],
) -> Result<SmallVec<SmallVec<problems::Hold, 2>, 2>, OutOfMemory>
    ensures { IfOk result (λ v. map rows_of v.items ≡ map holds_of alternatives.now) }
{
    let mut made = SmallVec::with_capacity(alloc, alternatives.len())?;
    for holds in alternatives {
        made.push(holds_of(alloc, holds)?)?;
    }
    Ok(made)
}

/// A kind.
fn kind_of(alloc: Global, kind: &Kind<'_>) -> Result<problems::Kind, OutOfMemory>
    ensures { IfOk result (λ made. kind_of made ≡ given_kind kind.now) }
{
    let alternatives = alternatives_of(alloc, kind.alternatives)?;
    Ok(problems::Kind {
        latency: kind.latency,
        alternatives,
    })
}

/// The kinds.
fn kinds_of(alloc: Global, kinds: &[Kind<'_>]) -> Result<Vec<problems::Kind>, OutOfMemory>
    ensures { IfOk result (λ v. map kind_of v.items ≡ map given_kind kinds.now) }
{
    let mut made = Vec::with_capacity(alloc, kinds.len())?;
    for kind in kinds {
        made.push(kind_of(alloc, kind)?)?;
    }
    Ok(made)
}

/// The kind of each operation.
fn operations_of(alloc: Global, operations: &[u32]) -> Result<Vec<usize>, OutOfMemory>
    ensures { IfOk result (λ v. v.items ≡ operations.now) }
{
    let mut made = Vec::with_capacity(alloc, operations.len())?;
    for kind in operations {
        made.push(*kind as usize)?;
    }
    Ok(made)
}

/// The values.
fn values_of(alloc: Global, values: &[Value]) -> Result<Vec<problems::Value>, OutOfMemory>
    ensures { IfOk result (λ v. v.items ≡ map value_of values.now) }
{
    let mut made = Vec::with_capacity(alloc, values.len())?;
    for value in values {
        made.push(problems::Value {
            maker: value.maker as usize,
            lands: u64::from(value.lands),
            out: value.out != 0,
            file: value.file as usize,
        })?;
    }
    Ok(made)
}

/// The reads.
fn reads_of(alloc: Global, reads: &[Read]) -> Result<Vec<registers::Read>, OutOfMemory>
    ensures { IfOk result (λ v. v.items ≡ map read_of reads.now) }
{
    let mut made = Vec::with_capacity(alloc, reads.len())?;
    for read in reads {
        made.push(registers::Read {
            value: read.value as usize,
            reader: read.reader as usize,
            distance: u64::from(read.distance),
            offset: u64::from(read.offset),
        })?;
    }
    Ok(made)
}

/// The orders.
fn orders_of(alloc: Global, orders: &[Order]) -> Result<Vec<problems::Order>, OutOfMemory>
    ensures { IfOk result (λ v. v.items ≡ map order_of orders.now) }
{
    let mut made = Vec::with_capacity(alloc, orders.len())?;
    for order in orders {
        made.push(problems::Order {
            from: order.from as usize,
            to: order.to as usize,
            delay: i64::from(order.delay),
            distance: u64::from(order.distance),
        })?;
    }
    Ok(made)
}

/// The draft of a problem.
pub(crate) fn draft_of(alloc: Global, problem: &Problem<'_>) -> Result<Draft, OutOfMemory>
    ensures { IfOk result (IsDraftOf problem.now) }
{
    let names = Names {
        units: Vec::new(alloc),
        files: Vec::new(alloc),
        kinds: Vec::new(alloc),
        operations: Vec::new(alloc),
        values: Vec::new(alloc),
    };
    Ok(Draft {
        units: problem.units as usize,
        files: files_of(alloc, problem.files)?,
        kinds: kinds_of(alloc, problem.kinds)?,
        operations: operations_of(alloc, problem.operations)?,
        values: values_of(alloc, problem.values)?,
        reads: reads_of(alloc, problem.reads)?,
        orders: orders_of(alloc, problem.orders)?,
        names,
    })
}
