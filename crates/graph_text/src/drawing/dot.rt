//! The dependences of a loop as a graph in the language of Graphviz.

ghost use Rattle.std.specs.Prelude.{◌≡◌, ◌<◌, ◌++◌, ◌↔◌, ℕ, List, length, IsTrue, OnOk};
ghost use Rattle.std.specs.List.{Contains, flat_map};
ghost use Rattle.machine_data.specs.Machines.{MachineData};
ghost use Rattle.graph.specs.Graphs.{IsGraphOf};
ghost use Rattle.graph_text.specs.Dot.{IsDotText, IsStroke, arrow_end, arrow_line, arrow_start, at_text, graph_head, node_line, style_text};
ghost use Rattle.lower_bounds.specs.Texts.{AreTexts, numbers_of};

use crate::kind::{Kind, kind_of};
use crate::names::{opcode_word, push_name};
use edges::{Edge, Edges};
use loop_data::Loop;
use lower_bounds::{LowerBounds, Measured, push_bounds_told};
use machine_data::OutOfMemory;
use writing::{Text, push_both, push_signed, push_told};

/// How an edge is drawn.
#[derive(Clone, Copy)]
pub(crate) struct Stroke {
    pub(crate) kind: Kind,
    /// Whether it is one of the circuit.
    pub(crate) bold: bool,
}

/// Appends what stands before the operations.
fn push_head(text: &mut Vec<u8>, innermost: &Loop, bounds: LowerBounds) -> Result<(), OutOfMemory>
    ensures ok { OnOk result (text.new.items ≡ text.old.items ++ graph_head innermost.now bounds) }
{
    let name = innermost.name().as_str();
    push_both(text, "digraph \"", name)?;
    push_both(text, "\" {\n  label=\"", name)?;
    push_bounds_told(text, bounds)?;
    text.push_piece("\"\n  node [shape=box]\n")
}

/// Appends the line of an operation.
fn push_node(text: &mut Vec<u8>, innermost: &Loop, number: u8) -> Result<(), OutOfMemory>
    requires { number < length innermost.now.statements }
    ensures ok { OnOk result (text.new.items ≡ text.old.items ++ node_line innermost.now number) }
{
    push_told(text, "  ", u64::from(number))?;
    text.push_piece(" [label=\"")?;
    push_name(text, innermost, number)?;
    push_both(text, " ", opcode_word(innermost, number))?;
    text.push_piece("\"]\n")
}

/// Appends the lines of the operations.
fn push_nodes(text: &mut Vec<u8>, innermost: &Loop) -> Result<(), OutOfMemory>
    ensures ok { OnOk result (text.new.items ≡ text.old.items ++ flat_map (node_line innermost.now) (numbers_of innermost.now)) }
{
    for number in 0..innermost.statements().len() {
        push_node(text, innermost, number as u8)?;
    }
    Ok(())
}

/// Appends a distance, unless it is 0.
fn push_distance(text: &mut Vec<u8>, distance: u8) -> Result<(), OutOfMemory>
    ensures ok { OnOk result (text.new.items ≡ text.old.items ++ at_text distance) }
{
    match distance {
        0 => Ok(()),
        _ => push_told(text, " @", u64::from(distance)),
    }
}

/// Appends what makes an edge bold.
fn push_style(text: &mut Vec<u8>, bold: bool) -> Result<(), OutOfMemory>
    ensures ok { OnOk result (text.new.items ≡ text.old.items ++ style_text bold) }
{
    if bold {
        text.push_piece(",style=bold")?;
    }
    Ok(())
}

/// Appends what the line of an edge has before its label's word: `  P -> Q [label="`.
///
/// # Errors
/// [`OutOfMemory`] where memory ran out. The text is left with a part of that.
pub fn push_arrow_start(text: &mut Vec<u8>, edge: &Edge) -> Result<(), OutOfMemory>
    ensures ok { OnOk result (text.new.items ≡ text.old.items ++ arrow_start edge.now) }
{
    push_told(text, "  ", u64::from(edge.from))?;
    push_told(text, " -> ", u64::from(edge.to))?;
    text.push_piece(" [label=\"")
}

/// Appends what the line of an edge has after its label's word, ` D @N"]`: the delay in cycles, unless that is 0
/// the distance in iterations, and what makes the edge bold, if it is.
///
/// # Errors
/// [`OutOfMemory`] where memory ran out. The text is left with a part of that.
pub fn push_arrow_end(text: &mut Vec<u8>, edge: &Edge, bold: bool) -> Result<(), OutOfMemory>
    ensures ok { OnOk result (text.new.items ≡ text.old.items ++ arrow_end edge.now bold) }
{
    push_signed(text, " ", i64::from(edge.delay))?;
    push_distance(text, edge.distance)?;
    text.push_piece("\"")?;
    push_style(text, bold)?;
    text.push_piece("]\n")
}

/// Appends the line of an edge.
fn push_arrow(text: &mut Vec<u8>, edge: &Edge, stroke: Stroke) -> Result<(), OutOfMemory>
    ensures ok { OnOk result (text.new.items ≡ text.old.items ++ arrow_line edge.now stroke) }
{
    push_arrow_start(text, edge)?;
    text.push_piece(stroke.kind.word())?;
    push_arrow_end(text, edge, stroke.bold)
}

/// Whether an edge is one of a circuit.
fn is_in(circuit: &[Edge], edge: &Edge) -> bool
    ensures { IsTrue result ↔ Contains circuit.now edge.now }
{
    circuit.contains(edge)
}

/// Appends the lines of the edges.
fn push_arrows(
    text: &mut Vec<u8>,
    innermost: &Loop,
    graph: &Edges,
    circuit: &[Edge],
) -> Result<(), OutOfMemory>
    requires { (machine : MachineData) × IsGraphOf machine innermost.now graph.now }
    ensures ok { OnOk result ((arrows : List ℕ) × AreTexts (IsStroke innermost.now graph.now.latencies circuit.now) arrow_line graph.now.edges arrows × (text.new.items ≡ text.old.items ++ arrows)) }
{
    for edge in graph.all() {
        let stroke = Stroke {
            kind: kind_of(innermost, edge),
            bold: is_in(circuit, edge),
        };
        push_arrow(text, edge, stroke)?;
    }
    Ok(())
}

/// Appends a loop's dependences as a graph in the language of Graphviz. Its label is the loop's name with the
/// lower bounds of the interval, in cycles. Each operation is a node with its number, labelled with its
/// name and opcode: it is named by its value, and a store by its place. Each dependence is an edge, labelled
/// with its [kind](Kind), its delay in cycles and, unless that is 0, after an `@` its distance in iterations.
/// The edges of the circuit are bold; a circuit without edges makes none bold.
///
/// # Errors
/// [`OutOfMemory`] where memory ran out. The text is left with a part of the graph.
pub fn push_dot(
    text: &mut Vec<u8>,
    innermost: &Loop,
    measured: &Measured,
    circuit: &[Edge],
) -> Result<(), OutOfMemory>
    requires { (machine : MachineData) × IsGraphOf machine innermost.now measured.now.graph }
    ensures ok { OnOk result ((part : List ℕ) × IsDotText innermost.now measured.now.bounds measured.now.graph circuit.now part × (text.new.items ≡ text.old.items ++ part)) }
{
    push_head(text, innermost, measured.bounds)?;
    push_nodes(text, innermost)?;
    push_arrows(text, innermost, &measured.graph, circuit)?;
    text.push_piece("}\n")
}
