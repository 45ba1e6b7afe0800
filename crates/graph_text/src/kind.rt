//! The kinds of dependence.

ghost use Rattle.std.specs.Prelude.{◌≡◌, ℕ, List};
ghost use Rattle.graph_text.specs.Kinds.{IsOfKind, IsTimed, kind_word};

use edges::Edge;
use loop_data::Loop;
use machine_data::Opcode;

/// Why an operation depends on another one.
#[derive(Clone, Copy, PartialEq, Eq)]
pub enum Kind {
    /// It uses the other one's value.
    Value,
    /// It reads the cell that the other one writes.
    Memory,
    /// It writes the cell that the other one reads.
    Anti,
    /// It writes the cell that the other one writes.
    Output,
}

impl Kind {
    /// The kind's word, as `value`.
    pub fn word(self) -> &'static str
        ensures { result.now ≡ kind_word self }
    {
        match self {
            Kind::Value => "value",
            Kind::Memory => "memory",
            Kind::Anti => "anti",
            Kind::Output => "output",
        }
    }
}

/// The kind of a dependence of a loop. It is told by the opcodes, but for the dependence of a store on a
/// load: the store may use the load's value, which takes a cycle at least, or write the cell that was
/// read, which may be issued in the cycle of the load.
pub fn kind_of(innermost: &Loop, edge: &Edge) -> Kind
    requires { (latencies : List ℕ) × IsTimed innermost.now latencies edge.now }
    ensures { (latencies : List ℕ) → IsTimed innermost.now latencies edge.now → IsOfKind innermost.now latencies edge.now result }
{
    let statements = innermost.statements();
    let from = statements[usize::from(edge.from)].opcode;
    let to = statements[usize::from(edge.to)].opcode;
    match from {
        Opcode::Store => match to {
            Opcode::Load => Kind::Memory,
            _ => Kind::Output,
        },
        _ if edge.delay > 0 => Kind::Value,
        _ => Kind::Anti,
    }
}
