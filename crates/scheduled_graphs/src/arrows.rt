//! The lines of edges.

ghost use Rattle.std.specs.Prelude.{◌≡◌, ◌++◌, ◌↔◌, ℕ, List, IsTrue, OnOk};
ghost use Rattle.std.specs.List.{Contains};
ghost use Rattle.scheduled_graphs.specs.Arrows.{AreArrows, arrow_line};

use edges::Edge;
use graph_marks::push_arrow_end;
use graph_text::{Kind, kind_of, push_arrow_start};
use loop_schedules::Prepared;
use machine_data::OutOfMemory;
use writing::Text;

/// How an edge is drawn.
#[derive(Clone, Copy)]
pub(crate) struct Stroke {
    pub(crate) kind: Kind,
    /// Whether it is one of the circuit.
    pub(crate) red: bool,
}

/// Appends the line of an edge.
fn push_arrow(text: &mut Vec<u8>, edge: &Edge, stroke: Stroke) -> Result<(), OutOfMemory>
    ensures ok { OnOk result (text.new.items ≡ text.old.items ++ arrow_line edge.now stroke) }
{
    push_arrow_start(text, edge)?;
    text.push_piece(stroke.kind.word())?;
    push_arrow_end(text, edge, stroke.red)
}

/// Whether an edge is one of a circuit.
fn is_in(circuit: &[Edge], edge: &Edge) -> bool
    ensures { IsTrue result ↔ Contains circuit.now edge.now }
{
    circuit.contains(edge)
}

/// Appends the lines of the edges.
pub(crate) fn push_arrows(
    text: &mut Vec<u8>,
    prepared: &Prepared,
    circuit: &[Edge],
) -> Result<(), OutOfMemory>
    ensures ok { OnOk result ((arrows : List ℕ) × AreArrows prepared.now circuit.now arrows × (text.new.items ≡ text.old.items ++ arrows)) }
{
    let innermost = prepared.innermost();
    for edge in prepared.edges().all() {
        let stroke = Stroke {
            kind: kind_of(innermost, edge),
            red: is_in(circuit, edge),
        };
        push_arrow(text, edge, stroke)?;
    }
    Ok(())
}
