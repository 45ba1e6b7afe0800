//! The rules of well-formed kernels, one by one.

ghost use Rattle.std.specs.Prelude.{◌≡◌, ◌<◌, ◌≤◌, ◌↔◌, IsTrue, MatchOption};
ghost use Rattle.std.specs.List.{All};
ghost use Rattle.loop_data.specs.Arithmetic.{operands_of};
ghost use Rattle.kernel.specs.declared.kernels.operation.Operation.{Operation};
ghost use Rattle.kernel.specs.declared.kernels.parts.Out.{Out};
ghost use Rattle.kernel.specs.Kernels.{HasOperationShape};
ghost use Rattle.kernel.specs.Check.{HasSize, SourceIsThere, RegistersAreThere, ParameterIsThere, IsShaped, AddressIsThere, IsPlaced, ArePreloads, IsWellFormed};
ghost use Rattle.kernel.specs.Rules.{Keeps, order_of, IsFirstFailing};

use crate::kernels::check::Rule;
use crate::kernels::operation::{Address, Operation, Source};
use crate::kernels::parts::{Out, Parts, Preload};
use machine_data::Opcode;
use machine_data::limits::{
    MAX_ARRAYS, MAX_INTERVAL, MAX_LATENCY, MAX_PARAMETERS, MAX_REGISTERS, MAX_STAGES,
    MAX_STATEMENTS, MAX_SUBSCRIPT,
};

/// The rules, in the order in which they are tested.
const RULES: [Rule; 9] = [
    Rule::Size,
    Rule::Row,
    Rule::Stage,
    Rule::Latency,
    Rule::Register,
    Rule::Shape,
    Rule::Place,
    Rule::Preload,
    Rule::Out,
];

/// The greatest number of registers, and so of preloads.
const REGISTERS: usize = MAX_REGISTERS as usize;

/// How far the cell of an address may be from the iteration's number.
const FARTHEST: i32 = MAX_SUBSCRIPT as i32;

/// The first rule that fails, if one does.
pub(crate) fn first_failing(parts: &Parts) -> Option<Rule>
    ensures { MatchOption result (IsWellFormed parts.now) (λ rule. IsFirstFailing parts.now rule) }
{
    for rule in RULES {
        if !keeps(parts, rule) {
            return Some(rule);
        }
    }
    None
}

/// Whether the parts keep a rule. Only parts of the right size are asked about the others.
fn keeps(parts: &Parts, rule: Rule) -> bool
    requires { 0 < order_of rule → HasSize parts.now }
    ensures { IsTrue result ↔ Keeps rule parts.now }
{
    let operations = parts.operations.as_slice();
    match rule {
        Rule::Size => has_size(parts),
        Rule::Row => have_rows(operations, parts.ii),
        Rule::Stage => have_stages(operations, parts.stages),
        Rule::Latency => have_latencies(operations),
        Rule::Register => have_registers(operations, parts.registers),
        Rule::Shape => are_shaped(operations, parts.params.as_slice().len()),
        Rule::Place => are_placed(operations, parts.arrays.as_slice().len()),
        Rule::Preload => are_preloads(parts.preloads.as_slice(), parts.registers),
        Rule::Out => have_outs(parts.outs.as_slice(), parts.registers),
    }
}

/// Whether the numbers and the lists' lengths are in range.
fn has_size(parts: &Parts) -> bool
    ensures { IsTrue result ↔ HasSize parts.now }
{
    let operations = parts.operations.as_slice().len();
    (1 <= parts.ii && parts.ii <= MAX_INTERVAL)
        && (1 <= parts.stages && parts.stages <= MAX_STAGES)
        && (1 <= parts.registers && parts.registers <= u64::from(MAX_REGISTERS))
        && (1 <= operations && operations <= MAX_STATEMENTS)
        && parts.arrays.as_slice().len() <= MAX_ARRAYS
        && parts.params.as_slice().len() <= MAX_PARAMETERS
        && parts.preloads.as_slice().len() <= REGISTERS
        && parts.outs.as_slice().len() <= MAX_STATEMENTS
}

/// Whether each operation's row is below the interval.
fn have_rows(operations: &[Operation], ii: u64) -> bool
    ensures { IsTrue result ↔ All (λ (op : Operation). op.row < ii) operations.now }
{
    operations.iter().all(|op| u64::from(op.row) < ii)
}

/// Whether each operation's stage is below the number of stages.
fn have_stages(operations: &[Operation], stages: u64) -> bool
    ensures { IsTrue result ↔ All (λ (op : Operation). op.stage < stages) operations.now }
{
    operations.iter().all(|op| u64::from(op.stage) < stages)
}

/// Whether each operation's latency is 1 to 64.
fn have_latencies(operations: &[Operation]) -> bool
    ensures { IsTrue result ↔ All (λ (op : Operation). (1 ≤ op.latency) × (op.latency ≤ MAX_LATENCY)) operations.now }
{
    operations
        .iter()
        .all(|op| 1 <= op.latency && op.latency <= MAX_LATENCY)
}

/// Whether each operation's registers are there.
fn have_registers(operations: &[Operation], registers: u64) -> bool
    ensures { IsTrue result ↔ All (RegistersAreThere registers) operations.now }
{
    for op in operations {
        if !registers_are_there(op, registers) {
            return false;
        }
    }
    true
}

/// Whether an operation's registers are there.
fn registers_are_there(op: &Operation, registers: u64) -> bool
    ensures { IsTrue result ↔ RegistersAreThere registers op.now }
{
    let sources = op.sources.as_slice();
    let destination_is_there = match op.destination {
        Some(name) => u64::from(name) < registers,
        None => true,
    };
    destination_is_there
        && sources
            .iter()
            .all(|source| source_is_there(*source, registers))
}

/// Whether a source is no register, or one that is there.
fn source_is_there(source: Source, registers: u64) -> bool
    ensures { IsTrue result ↔ SourceIsThere registers source }
{
    match source {
        Source::Register(name) => u64::from(name) < registers,
        _ => true,
    }
}

/// Whether each operation has what its opcode needs.
fn are_shaped(operations: &[Operation], params: usize) -> bool
    ensures { IsTrue result ↔ All (IsShaped params) operations.now }
{
    operations.iter().all(|op| is_shaped(op, params))
}

/// Whether an operation has what its opcode needs, and names parameters that are there.
fn is_shaped(op: &Operation, params: usize) -> bool
    ensures { IsTrue result ↔ IsShaped params op.now }
{
    let sources = op.sources.as_slice();
    has_shape(op)
        && sources
            .iter()
            .all(|source| parameter_is_there(*source, params))
}

/// Whether a source is no parameter, or one that is there.
fn parameter_is_there(source: Source, params: usize) -> bool
    ensures { IsTrue result ↔ ParameterIsThere params source }
{
    match source {
        Source::Parameter(number) => usize::from(number) < params,
        _ => true,
    }
}

/// Whether an operation has the destination, the address and the number of sources that its opcode
/// needs.
fn has_shape(op: &Operation) -> bool
    ensures { IsTrue result ↔ HasOperationShape op.now.opcode op.now }
{
    let sources = op.sources.as_slice().len();
    match op.opcode {
        Opcode::Load => op.destination.is_some() && op.address.is_some() && sources == 0,
        Opcode::Store => {
            op.destination.is_none() && op.address.is_some() && 1 <= sources && sources <= 2
        }
        opcode => op.destination.is_some()
            && op.address.is_none()
            && sources == operands_of(opcode),
    }
}

/// How many sources an opcode takes that touches no cell.
fn operands_of(opcode: Opcode) -> usize
    ensures { result ≡ operands_of opcode }
{
    match opcode {
        Opcode::Load | Opcode::Store => 0,
        Opcode::Mov => 1,
        Opcode::Sel => 3,
        _ => 2,
    }
}

/// Whether each operation's address is there.
fn are_placed(operations: &[Operation], arrays: usize) -> bool
    ensures { IsTrue result ↔ All (IsPlaced arrays) operations.now }
{
    for op in operations {
        if !is_placed(op, arrays) {
            return false;
        }
    }
    true
}

/// Whether an operation has no address, or one that is there.
fn is_placed(op: &Operation, arrays: usize) -> bool
    ensures { IsTrue result ↔ IsPlaced arrays op.now }
{
    match op.address {
        Some(address) => address_is_there(op, address, arrays),
        None => true,
    }
}

/// Whether an operation's address is in an array that is there, and its cells are in range.
fn address_is_there(op: &Operation, address: Address, arrays: usize) -> bool
    ensures { IsTrue result ↔ AddressIsThere arrays op.now address }
{
    let cell = i32::from(op.stage) + i32::from(address.offset);
    usize::from(address.array) < arrays && -FARTHEST <= cell && cell <= FARTHEST
}

/// Whether preloads name different registers that are there.
fn are_preloads(preloads: &[Preload], registers: u64) -> bool
    requires { registers ≤ MAX_REGISTERS }
    ensures { IsTrue result ↔ ArePreloads registers preloads.now }
{
    let mut is_taken = [false; REGISTERS];
    for preload in preloads {
        let register = usize::from(preload.register);
        if u64::from(preload.register) >= registers || is_taken[register] {
            return false;
        }
        is_taken[register] = true;
    }
    true
}

/// Whether the register of each live value is there.
fn have_outs(outs: &[Out], registers: u64) -> bool
    ensures { IsTrue result ↔ All (λ (o : Out). o.register < registers) outs.now }
{
    outs.iter().all(|out| u64::from(out.register) < registers)
}
