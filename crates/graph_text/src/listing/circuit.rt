//! The line of a circuit.

ghost use Rattle.std.specs.Prelude.{◌≡◌, ◌≤◌, ◌++◌, length, OnOk};
ghost use Rattle.graph_text.specs.CircuitLines.{circuit_line, sums_line};

use crate::listing::sums::push_sums;
use circuits::{Sums, sums_of};
use edges::Edge;
use machine_data::OutOfMemory;
use writing::{Text, push_told};

/// Appends the line of the sums of a circuit and of the bound that it needs, in cycles.
fn push_sums_line(text: &mut Vec<u8>, sums: Sums, bound: u64) -> Result<(), OutOfMemory>
    ensures ok { OnOk result (text.new.items ≡ text.old.items ++ sums_line sums.delay sums.distance bound) }
{
    text.push_piece("circuit")?;
    push_sums(text, sums.delay, sums.distance)?;
    push_told(text, " needs ", bound)?;
    text.push_piece("\n")
}

/// Appends the line of a circuit and of the bound that it needs, in cycles: `circuit delay D distance N needs C`,
/// with the sums of the delays of its edges, in cycles, and of their distances, in iterations. A circuit without
/// edges has the line `circuit none`.
///
/// # Errors
/// [`OutOfMemory`] where memory ran out. The text is left with a part of the line.
pub fn push_circuit_line(
    text: &mut Vec<u8>,
    circuit: &[Edge],
    bound: u64,
) -> Result<(), OutOfMemory>
    requires few { length circuit.now ≤ 128 }
    ensures ok { OnOk result (text.new.items ≡ text.old.items ++ circuit_line circuit.now bound) }
{
    if circuit.is_empty() {
        return text.push_piece("circuit none\n");
    }
    push_sums_line(text, sums_of(circuit), bound)
}
