//! The ends of the lines of edges.

ghost use Rattle.std.specs.Prelude.{◌≡◌, ◌++◌, OnOk};
ghost use Rattle.graph_text.specs.Dot.{at_text};
ghost use Rattle.graph_marks.specs.Arrows.{arrow_end, carried_text, circuit_text};

use edges::Edge;
use machine_data::OutOfMemory;
use writing::{Text, push_signed, push_told};

/// Appends a distance, unless it is 0.
fn push_distance(text: &mut Vec<u8>, distance: u8) -> Result<(), OutOfMemory>
    ensures ok { OnOk result (text.new.items ≡ text.old.items ++ at_text distance) }
{
    match distance {
        0 => Ok(()),
        _ => push_told(text, " @", u64::from(distance)),
    }
}

/// Appends what makes an edge dashed, if it has a distance.
fn push_carried(text: &mut Vec<u8>, distance: u8) -> Result<(), OutOfMemory>
    ensures ok { OnOk result (text.new.items ≡ text.old.items ++ carried_text distance) }
{
    match distance {
        0 => Ok(()),
        _ => text.push_piece(",style=dashed,constraint=false"),
    }
}

/// Appends what makes an edge red, if it is one of the circuit.
fn push_circuit(text: &mut Vec<u8>, red: bool) -> Result<(), OutOfMemory>
    ensures ok { OnOk result (text.new.items ≡ text.old.items ++ circuit_text red) }
{
    if red {
        text.push_piece(",color=red,penwidth=2")?;
    }
    Ok(())
}

/// Appends what the line of an edge has after its label's word, ` D @N",style=dashed,constraint=false,color=red,penwidth=2]`: the delay in
/// cycles and, unless that is 0, the distance in iterations; the edge is dashed where it goes to a later iteration, and red where it is one
/// of the circuit.
///
/// # Errors
/// [`OutOfMemory`] where memory ran out. The text is left with a part of that.
pub fn push_arrow_end(text: &mut Vec<u8>, edge: &Edge, red: bool) -> Result<(), OutOfMemory>
    ensures ok { OnOk result (text.new.items ≡ text.old.items ++ arrow_end edge.now red) }
{
    push_signed(text, " ", i64::from(edge.delay))?;
    push_distance(text, edge.distance)?;
    text.push_piece("\"")?;
    push_carried(text, edge.distance)?;
    push_circuit(text, red)?;
    text.push_piece("]\n")
}
