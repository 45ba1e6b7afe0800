//! The text of the dependences of loops.

ghost use Rattle.std.specs.Prelude.{◌≡◌, ◌≤◌, ◌<◌, ◌++◌, ℕ, List, Vec, length, OnOk};
ghost use Rattle.std.specs.Global.{Global};
ghost use Rattle.machine_data.specs.Machines.{MachineData};
ghost use Rattle.graph.specs.Graphs.{IsGraphOf};
ghost use Rattle.graph.specs.Units.{first_lacking};
ghost use Rattle.walks.specs.Walks.{FitsCircuits, IsHeight};
ghost use Rattle.graph_text.specs.Edges.{AreEdgesParts, IsEdgesPart, edge_line, numbered, op_line};
ghost use Rattle.lower_bounds.specs.Faults.{TextAnswers, lacking_in};
ghost use Rattle.graph_text.specs.Kinds.{IsOfKind};
ghost use Rattle.lower_bounds.specs.Texts.{AreTexts, numbers_of};
ghost use Rattle.machine_data.specs.declared.limits.TheConstants.{MAX_INTERVAL};

use crate::kind::{Kind, kind_of};
use crate::listing::sums::push_sums;
use crate::names::{opcode_word, push_name};
use edges::{Edge, Edges};
use loop_data::Loop;
use lower_bounds::{TextFault, measure, push_bounds_line};
use machine_data::{Machine, OutOfMemory};
use std::alloc::Global;
use walks::{heights, longer_intervals_fit, mii};
use writing::{Text, push_both, push_told};

/// A guess of how many bytes the lines of a loop take, for the first reservation.
const PART: usize = 1024;

/// Appends a word, the number of an operation, and its name after a blank.
fn push_numbered(
    text: &mut Vec<u8>,
    word: &str,
    innermost: &Loop,
    number: u8,
) -> Result<(), OutOfMemory>
    requires { number < length innermost.now.statements }
    ensures ok { OnOk result (text.new.items ≡ text.old.items ++ (word.now ++ numbered innermost.now number)) }
{
    push_told(text, word, u64::from(number))?;
    text.push_piece(" ")?;
    push_name(text, innermost, number)
}

/// Appends the line of an operation.
fn push_op(
    text: &mut Vec<u8>,
    innermost: &Loop,
    graph: &Edges,
    number: u8,
    height: u64,
) -> Result<(), OutOfMemory>
    requires there { number < length innermost.now.statements }
    requires all { length graph.now.latencies ≡ length innermost.now.statements }
    ensures ok { OnOk result (text.new.items ≡ text.old.items ++ op_line innermost.now graph.now.latencies number height) }
{
    push_numbered(text, "op ", innermost, number)?;
    push_both(text, " ", opcode_word(innermost, number))?;
    push_told(
        text,
        " latency ",
        u64::from(graph.latency(usize::from(number))),
    )?;
    push_told(text, " height ", height)?;
    text.push_piece("\n")
}

/// Appends the lines of the operations, with their heights at an interval.
fn push_ops(
    alloc: Global,
    text: &mut Vec<u8>,
    innermost: &Loop,
    graph: &Edges,
    interval: u64,
) -> Result<(), OutOfMemory>
    requires all { length graph.now.latencies ≡ length innermost.now.statements }
    requires fits { FitsCircuits graph.now.edges interval }
    requires limit { interval ≤ MAX_INTERVAL }
    ensures ok { OnOk result ((lines : List ℕ) × AreTexts (IsHeight graph.now.edges graph.now.latencies interval) (op_line innermost.now graph.now.latencies) (numbers_of innermost.now) lines × (text.new.items ≡ text.old.items ++ lines)) }
{
    let heights = heights(alloc, graph, interval)?;
    for number in 0..graph.operations() {
        push_op(text, innermost, graph, number as u8, heights[number])?;
    }
    Ok(())
}

/// Appends the line of a dependence of this kind, as [`edges_lines`] writes it.
///
/// # Errors
/// [`OutOfMemory`] where memory ran out. The text is left with a part of the line.
pub fn push_edge(
    text: &mut Vec<u8>,
    innermost: &Loop,
    edge: &Edge,
    kind: Kind,
) -> Result<(), OutOfMemory>
    requires from { edge.now.from < length innermost.now.statements }
    requires to { edge.now.to < length innermost.now.statements }
    ensures ok { OnOk result (text.new.items ≡ text.old.items ++ edge_line innermost.now edge.now kind) }
{
    push_numbered(text, "edge ", innermost, edge.from)?;
    push_numbered(text, " ", innermost, edge.to)?;
    push_both(text, " ", kind.word())?;
    push_sums(text, i64::from(edge.delay), u64::from(edge.distance))?;
    text.push_piece("\n")
}

/// Appends the lines of the dependences.
fn push_edges(text: &mut Vec<u8>, innermost: &Loop, graph: &Edges) -> Result<(), OutOfMemory>
    requires { (machine : MachineData) × IsGraphOf machine innermost.now graph.now }
    ensures ok { OnOk result ((lines : List ℕ) × AreTexts (IsOfKind innermost.now graph.now.latencies) (edge_line innermost.now) graph.now.edges lines × (text.new.items ≡ text.old.items ++ lines)) }
{
    for edge in graph.all() {
        push_edge(text, innermost, edge, kind_of(innermost, edge))?;
    }
    Ok(())
}

/// Appends the part of a loop.
fn push_part(
    alloc: Global,
    text: &mut Vec<u8>,
    machine: &Machine,
    innermost: &Loop,
) -> Result<(), TextFault>
    ensures exact { TextAnswers (lacking_in machine.now innermost.now) (λ _. (part : List ℕ) × IsEdgesPart machine.now innermost.now part × (text.new.items ≡ text.old.items ++ part)) result }
{
    let measured = measure(alloc, machine, innermost)?;
    let bounds = measured.bounds;
    longer_intervals_fit();
    push_bounds_line(text, innermost, bounds)?;
    let interval = mii(bounds.resources, bounds.recurrences);
    push_ops(alloc, text, innermost, &measured.graph, interval)?;
    push_edges(text, innermost, &measured.graph)?;
    Ok(())
}

/// The dependences of loops. Each loop, in order, has its line of bounds, as
/// [`bounds_lines`](lower_bounds::bounds_lines) writes it; a line for each operation,
/// `op K NAME OPCODE latency L height H`, with its number, latency and height at the lower bound of the
/// interval, in cycles; and a line for each dependence, `edge P NAME Q NAME KIND delay D distance N`, with the
/// operation that comes first, the one that depends on it, the [kind](crate::Kind), the delay in cycles
/// and the distance in iterations. An operation is named by its value, and a store by its place.
///
/// # Errors
/// [`TextFault::NoTable`] for the first statement whose opcode the machine has no table for, and
/// [`TextFault::Memory`] where memory ran out.
pub fn edges_lines(alloc: Global, machine: &Machine, loops: &[Loop]) -> Result<Vec<u8>, TextFault>
    ensures exact { TextAnswers (first_lacking machine.now loops.now) (λ (text : Vec ℕ Global). AreEdgesParts machine.now loops.now text.items) result }
{
    let mut text = Vec::with_capacity(alloc, PART.saturating_mul(loops.len()))?;
    for innermost in loops {
        push_part(alloc, &mut text, machine, innermost)?;
    }
    Ok(text)
}
