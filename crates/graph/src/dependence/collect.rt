//! The dependences of a loop, found by the subscripts of its statements.

ghost use Rattle.loop_data.specs.declared.language.statement.Statement.{Statement};
ghost use Rattle.std.specs.Prelude.{slice_get, pos, ◌+ℤ◌, ◌≡◌, ℕ, ℤ, ◌+◌, ◌<◌, ◌≤◌, length, Some, IfSome, IfOk};
ghost use Rattle.std.specs.List.{All, Contains};
ghost use Rattle.edges.specs.Edges.{EdgeData};
ghost use Rattle.graph.specs.Subscripts.{IsDelay, IsMemoryEdge, ReadsBelow, AreLatencies, IsFound, GainsEdges, HasUses, HasMeetings};
ghost use Rattle.graph.specs.inner.SameArrays.{AreLinked};
ghost use Rattle.machine_data.specs.declared.limits.TheConstants.{MAX_LATENCY};

use edges::Edge;
use loop_data::{Operand, Statement};
use machine_data::limits::MAX_STATEMENTS;
use machine_data::{Opcode, OutOfMemory};
use std::alloc::Global;

/// The delay of a dependence through memory, of the operation with the second opcode on the one with
/// the first, by their latencies.
fn memory_delay(from: Opcode, to: Opcode, latency: u8, later: u8) -> Option<i8>
    requires short { latency ≤ MAX_LATENCY }
    requires later_short { later ≤ 64 }
    ensures sound { IfSome result (λ delay. IsDelay from to latency later delay) }
    ensures complete { (delay : ℤ) → IsDelay from to latency later delay → result ≡ Some delay }
{
    match (from, to) {
        (Opcode::Store, Opcode::Load) => Some(latency as i8),
        (Opcode::Load, Opcode::Store) => Some(1 - later as i8),
        (Opcode::Store, Opcode::Store) => Some(1 + latency as i8 - later as i8),
        _ => None,
    }
}

/// How many iterations later a place comes upon the cell of another one, by their offsets.
fn iterations_until(place: i8, later: i8) -> Option<u8>
    ensures sound { IfSome result (λ distance. place ≡ (later +ℤ pos distance)) }
    ensures complete { (distance : ℕ) → place ≡ (later +ℤ pos distance) → result ≡ Some distance }
{
    let distance = i16::from(place) - i16::from(later);
    if distance < 0 {
        return None;
    }
    Some(distance as u8)
}

/// The dependence through memory of the second operation on the first, by their numbers.
fn memory_edge(
    first: &Statement,
    from: u8,
    second: &Statement,
    to: u8,
    latencies: &[u8],
) -> Option<Edge>
    requires latencies { AreLatencies latencies.now }
    requires from_in { from < length latencies.now }
    requires to_in { to < length latencies.now }
    ensures sound { IfSome result (λ e. IsMemoryEdge latencies.now from first.now to second.now e) }
    ensures complete { (e : EdgeData) → IsMemoryEdge latencies.now from first.now to second.now e → result ≡ Some e }
{
    let (Some(place), Some(later)) = (first.place, second.place) else {
        return None;
    };
    let distance = iterations_until(place.offset, later.offset)?;
    if place.array != later.array || (distance == 0 && from >= to) {
        return None;
    }
    let delay = memory_delay(
        first.opcode,
        second.opcode,
        latencies[from as usize],
        latencies[to as usize],
    )?;
    Some(Edge {
        from,
        to,
        distance,
        delay,
    })
}

/// Appends the dependences of an operation on the operations whose values it uses.
fn push_uses(
    statements: &[Statement],
    to: usize,
    latencies: &[u8],
    list: &mut Vec<Edge>,
) -> Result<(), OutOfMemory>
    requires few { length statements.now ≤ MAX_STATEMENTS }
    requires to_in { to < length statements.now }
    requires reads { All (λ (s : Statement). All (ReadsBelow (length latencies.now)) s.operands) statements.now }
    requires latencies { AreLatencies latencies.now }
    ensures gains { IfOk result (λ _. GainsEdges statements.now latencies.now list.old.items list.new.items) }
    ensures complete { IfOk result (λ _. (reader : Statement) → slice_get statements.now to ≡ Some reader → HasUses latencies.now to reader.operands list.new.items) }
{
    for operand in statements[to].operands.as_slice() {
        if let Operand::Value {
            statement,
            distance,
        } = *operand
        {
            list.push(Edge {
                from: statement,
                to: to as u8,
                distance,
                delay: latencies[statement as usize] as i8,
            })?;
        }
    }
    Ok(())
}

/// The statements that touch each array, in their order: the first one, and after each the next. At the
/// end of an array's stands the number of statements.
#[derive(Drop)]
struct SameArrays {
    first: [u8; 256],
    next: [u8; MAX_STATEMENTS],
}

/// The statements that touch each array.
fn same_arrays(statements: &[Statement]) -> SameArrays
    requires few { length statements.now ≤ MAX_STATEMENTS }
    ensures { AreLinked statements.now 0 result.first result.next }
{
    let end = statements.len() as u8;
    let mut first = [end; 256];
    let mut next = [end; MAX_STATEMENTS];
    for i in (0..statements.len()).rev() {
        let statement = &statements[i];
        if let Some(place) = statement.place {
            next[i] = first[place.array as usize];
            first[place.array as usize] = i as u8;
        }
    }
    SameArrays { first, next }
}

/// Appends the dependences of an operation through memory, on the operations that touch the same array.
fn push_meetings(
    statements: &[Statement],
    to: usize,
    latencies: &[u8],
    same: &SameArrays,
    list: &mut Vec<Edge>,
) -> Result<(), OutOfMemory>
    requires few { length statements.now ≤ MAX_STATEMENTS }
    requires to_in { to < length statements.now }
    requires latencies { AreLatencies latencies.now }
    requires same { length latencies.now ≡ length statements.now }
    requires linked { AreLinked statements.now 0 same.now.first same.now.next }
    ensures gains { IfOk result (λ _. GainsEdges statements.now latencies.now list.old.items list.new.items) }
    ensures complete { IfOk result (λ _. HasMeetings statements.now latencies.now to (length statements.now) list.new.items) }
{
    let second = &statements[to];
    let Some(place) = second.place else {
        return Ok(());
    };
    let mut from = same.first[place.array as usize];
    while (from as usize) < statements.len() {
        let first = &statements[from as usize];
        if let Some(edge) = memory_edge(first, from, second, to as u8, latencies) {
            list.push(edge)?;
        }
        from = same.next[from as usize];
    }
    Ok(())
}

/// All dependences, some of them more than once.
pub fn collect(
    alloc: Global,
    statements: &[Statement],
    latencies: &[u8],
) -> Result<Vec<Edge>, OutOfMemory>
    requires few { length statements.now ≤ MAX_STATEMENTS }
    requires reads { All (λ (s : Statement). All (ReadsBelow (length latencies.now)) s.operands) statements.now }
    requires latencies { AreLatencies latencies.now }
    requires same { length latencies.now ≡ length statements.now }
    ensures sound { IfOk result (λ v. All (IsFound statements.now latencies.now) v.items) }
    ensures complete { IfOk result (λ v. (e : EdgeData) → IsFound statements.now latencies.now e → Contains v.items e) }
{
    let mut list = Vec::with_capacity(alloc, statements.len() * 2)?;
    let same = same_arrays(statements);
    for to in 0..statements.len() {
        push_uses(statements, to, latencies, &mut list)?;
        push_meetings(statements, to, latencies, &same, &mut list)?;
    }
    Ok(list)
}
