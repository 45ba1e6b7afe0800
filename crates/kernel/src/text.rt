//! Kernels as text.

ghost use Rattle.std.specs.Prelude.{◌≡◌, ◌+◌, ◌<◌, ◌≤◌, ◌⊎◌, ◌==◌, ◌++◌, length, codes, filter, Some, decimal, IfOk, string_bytes};
ghost use Rattle.std.specs.List.{All, Any, flat_map};
ghost use Rattle.kernel.specs.declared.kernels.operation.Address.{Address};
ghost use Rattle.kernel.specs.declared.kernels.operation.Operation.{Operation};
ghost use Rattle.kernel.specs.declared.kernels.operation.Source.{Source};
ghost use Rattle.kernel.specs.Check.{ParameterIsThere, IsShaped, IsPlaced, IsWellFormed};
ghost use Rattle.kernel.specs.Text.{register_text, address_text, source_text, spaced, spaced_option, sources_text, alternative_text, operation_text, joined, kernel_row_text, rows_text, preload_text, out_text, kernel_text_of, room_of};

use crate::kernels::operation::{Address, Operation, Source};
use crate::kernels::parts::{Kernel, Out, Parts, Preload};
use machine_data::{Opcode, OutOfMemory};
use std::alloc::Global;
use writing::{push_both, push_number, push_signed, push_told, push_with_sign};

/// The text of a kernel: a line for each preload, each row of a turn and each value that is live at
/// the end. A row without operations has its line too.
pub fn kernel_text(alloc: Global, kernel: &Kernel) -> Result<String, OutOfMemory>
    ensures text { IfOk result (λ text. string_bytes text ≡ kernel_text_of kernel.now) }
{
    let mut text = String::with_capacity(alloc, text_room(kernel))?;
    write_kernel(&mut text, kernel)?;
    Ok(text)
}

/// Appends the text of a kernel, as [`kernel_text`] makes it. Where memory runs out the text is left with
/// a part of it.
#[tactic(auto, unfolding(crate::specs::Text::kernel_text_of))]
pub fn write_kernel(text: &mut String, kernel: &Kernel) -> Result<(), OutOfMemory>
    ensures text { IfOk result (λ _. string_bytes text.new ≡ string_bytes text.old ++ kernel_text_of kernel.now) }
{
    let parts = kernel.parts();
    write_preloads(text, parts.preloads.as_slice())?;
    write_rows(text, parts)?;
    write_outs(text, parts.outs.as_slice())
}

/// How many bytes to reserve for the text of a kernel, so that it need not grow.
pub fn text_room(kernel: &Kernel) -> usize
    ensures value { result ≡ room_of kernel.now }
    ensures few { result ≤ 155648 }
{
    let parts = kernel.parts();
    parts.ii as usize * 8
        + parts.operations.as_slice().len() * 96
        + parts.preloads.as_slice().len() * 32
        + parts.outs.as_slice().len() * 32
}

/// Writes the lines of the preloads.
fn write_preloads(text: &mut String, preloads: &[Preload]) -> Result<(), OutOfMemory>
    ensures { IfOk result (λ _. string_bytes text.new ≡ string_bytes text.old ++ flat_map preload_text preloads.now) }
{
    for preload in preloads {
        write_preload(text, *preload)?;
    }
    Ok(())
}

/// Writes the line of a preload.
fn write_preload(text: &mut String, preload: Preload) -> Result<(), OutOfMemory>
    ensures { IfOk result (λ _. string_bytes text.new ≡ string_bytes text.old ++ preload_text preload) }
{
    push_told(text, "pre r", u64::from(preload.register))?;
    push_signed(text, " ", preload.value)?;
    text.push_str("\n")
}

/// Writes the lines of the values that are live at the end.
fn write_outs(text: &mut String, outs: &[Out]) -> Result<(), OutOfMemory>
    ensures { IfOk result (λ _. string_bytes text.new ≡ string_bytes text.old ++ flat_map out_text outs.now) }
{
    for out in outs {
        write_out(text, out)?;
    }
    Ok(())
}

/// Writes the line of a value that is live at the end.
fn write_out(text: &mut String, out: &Out) -> Result<(), OutOfMemory>
    ensures { IfOk result (λ _. string_bytes text.new ≡ string_bytes text.old ++ out_text out.now) }
{
    push_both(text, "out ", out.name.as_str())?;
    push_told(text, " r", u64::from(out.register))?;
    text.push_str("\n")
}

/// Writes the lines of the rows. There are many more rows than operations at times, so the operations
/// are looked through only in rows that have some.
fn write_rows(text: &mut String, parts: &Parts) -> Result<(), OutOfMemory>
    requires { IsWellFormed parts.now }
    ensures { IfOk result (λ _. string_bytes text.new ≡ string_bytes text.old ++ rows_text parts.now 0 parts.now.ii) }
{
    let operations = parts.operations.as_slice();
    let mut next = next_row(operations, 0, parts.ii);
    for row in 0..parts.ii {
        if row < next {
            write_empty_row(text, row)?;
        } else {
            write_row(text, parts, row)?;
            next = next_row(operations, row + 1, parts.ii);
        }
    }
    Ok(())
}

/// The first row from one on and below an end that has operations, or the end where none has.
fn next_row(operations: &[Operation], from: u64, end: u64) -> u64
    ensures least { All (λ (op : Operation). (op.row < from) ⊎ (result ≤ op.row)) operations.now }
    ensures bound { from ≤ end → from ≤ result }
    ensures there { (result ≡ end) ⊎ Any (λ (op : Operation). op.row ≡ result) operations.now }
{
    let mut next = end;
    for op in operations {
        let row = u64::from(op.row);
        if from <= row && row < next {
            next = row;
        }
    }
    next
}

/// Writes the line of a row without operations.
fn write_empty_row(text: &mut String, row: u64) -> Result<(), OutOfMemory>
    ensures { IfOk result (λ _. string_bytes text.new ≡ string_bytes text.old ++ ((decimal row ++ codes ":") ++ codes "\n")) }
{
    push_number(text, row)?;
    text.push_str(":\n")
}

/// Writes the line of a row.
#[tactic(auto, unfolding(crate::specs::Text::kernel_row_text))]
fn write_row(text: &mut String, parts: &Parts, row: u64) -> Result<(), OutOfMemory>
    requires { IsWellFormed parts.now }
    ensures { IfOk result (λ _. string_bytes text.new ≡ string_bytes text.old ++ kernel_row_text parts.now row) }
{
    push_number(text, row)?;
    text.push_str(":")?;
    write_operations(text, parts, row)?;
    text.push_str("\n")
}

/// Writes the operations of a row: a blank before the first, and a bar between two.
fn write_operations(text: &mut String, parts: &Parts, row: u64) -> Result<(), OutOfMemory>
    requires { IsWellFormed parts.now }
    ensures { IfOk result (λ _. string_bytes text.new ≡ string_bytes text.old ++ joined parts.now (codes " ") (filter (λ (op : Operation). op.row == row) parts.now.operations)) }
{
    let mut before = " ";
    for op in parts.operations.as_slice() {
        if u64::from(op.row) == row {
            text.push_str(before)?;
            write_operation(text, parts, op)?;
            before = " | ";
        }
    }
    Ok(())
}

/// Writes an operation.
#[tactic(auto, unfolding(crate::specs::Text::operation_text))]
fn write_operation(text: &mut String, parts: &Parts, op: &Operation) -> Result<(), OutOfMemory>
    requires shaped { IsShaped (length parts.now.params) op.now }
    requires placed { IsPlaced (length parts.now.arrays) op.now }
    ensures { IfOk result (λ _. string_bytes text.new ≡ string_bytes text.old ++ operation_text parts.now op.now) }
{
    text.push_str(op.opcode.word())?;
    write_destination(text, op.destination)?;
    write_place(text, parts, op.address)?;
    write_sources(text, parts, op.opcode, op.sources.as_slice())?;
    push_told(text, " ?", u64::from(op.stage))?;
    write_alternative(text, op.alternative)
}

/// Writes the register that is written, if there is one, after a blank.
fn write_destination(text: &mut String, destination: Option<u16>) -> Result<(), OutOfMemory>
    ensures { IfOk result (λ _. string_bytes text.new ≡ string_bytes text.old ++ spaced_option register_text destination) }
{
    match destination {
        Some(register) => push_told(text, " r", u64::from(register)),
        None => Ok(()),
    }
}

/// Writes the number of an alternative, unless it is 0.
fn write_alternative(text: &mut String, alternative: u8) -> Result<(), OutOfMemory>
    ensures { IfOk result (λ _. string_bytes text.new ≡ string_bytes text.old ++ alternative_text alternative) }
{
    if alternative == 0 {
        return Ok(());
    }
    push_told(text, " !", u64::from(alternative))
}

/// Writes an address, if there is one, after a blank.
fn write_place(
    text: &mut String,
    parts: &Parts,
    address: Option<Address>,
) -> Result<(), OutOfMemory>
    requires { (a : Address) → address ≡ Some a → a.array < length parts.now.arrays }
    ensures { IfOk result (λ _. string_bytes text.new ≡ string_bytes text.old ++ spaced_option (address_text parts.now) address) }
{
    match address {
        Some(address) => write_address(text, parts, address),
        None => Ok(()),
    }
}

/// Writes an address after a blank.
fn write_address(text: &mut String, parts: &Parts, address: Address) -> Result<(), OutOfMemory>
    requires { address.array < length parts.now.arrays }
    ensures { IfOk result (λ _. string_bytes text.new ≡ string_bytes text.old ++ spaced (address_text parts.now address)) }
{
    let array = &parts.arrays.as_slice()[usize::from(address.array)];
    push_both(text, " ", array.as_str())?;
    text.push_str("[k")?;
    push_with_sign(text, i64::from(address.offset))?;
    text.push_str("]")
}

/// Writes what an operation reads; the guard of a store stands after `if`.
fn write_sources(
    text: &mut String,
    parts: &Parts,
    opcode: Opcode,
    sources: &[Source],
) -> Result<(), OutOfMemory>
    requires { All (ParameterIsThere (length parts.now.params)) sources.now }
    ensures { IfOk result (λ _. string_bytes text.new ≡ string_bytes text.old ++ sources_text parts.now opcode sources.now) }
{
    match opcode {
        Opcode::Store => write_stored(text, parts, sources),
        _ => write_plain(text, parts, sources),
    }
}

/// Writes what a store reads: its value and, after `if`, its guard.
fn write_stored(text: &mut String, parts: &Parts, sources: &[Source]) -> Result<(), OutOfMemory>
    requires { All (ParameterIsThere (length parts.now.params)) sources.now }
    ensures { IfOk result (λ _. string_bytes text.new ≡ string_bytes text.old ++ sources_text parts.now Opcode.Store sources.now) }
{
    match sources {
        [value, guard] => {
            write_source(text, parts, *value)?;
            text.push_str(" if")?;
            write_source(text, parts, *guard)
        }
        _ => write_plain(text, parts, sources),
    }
}

/// Writes sources, each after a blank.
fn write_plain(text: &mut String, parts: &Parts, sources: &[Source]) -> Result<(), OutOfMemory>
    requires { All (ParameterIsThere (length parts.now.params)) sources.now }
    ensures { IfOk result (λ _. string_bytes text.new ≡ string_bytes text.old ++ flat_map (λ (source : Source). spaced (source_text parts.now source)) sources.now) }
{
    for source in sources {
        write_source(text, parts, *source)?;
    }
    Ok(())
}

/// Writes a source after a blank.
fn write_source(text: &mut String, parts: &Parts, source: Source) -> Result<(), OutOfMemory>
    requires { ParameterIsThere (length parts.now.params) source }
    ensures { IfOk result (λ _. string_bytes text.new ≡ string_bytes text.old ++ spaced (source_text parts.now source)) }
{
    match source {
        Source::Register(name) => push_told(text, " r", u64::from(name)),
        Source::Parameter(number) => {
            let param = &parts.params.as_slice()[usize::from(number)];
            push_both(text, " ", param.name.as_str())
        }
        Source::Constant(value) => push_signed(text, " ", value),
    }
}
