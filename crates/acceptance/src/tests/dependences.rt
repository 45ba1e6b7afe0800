//! How many rounds settle the heights of worked loops, and the circuits that do not fit an interval, where it is not the one below the
//! bound, as it is for a graph that `dot` draws.

ghost use Rattle.std.specs.Prelude.{◌≤◌};

use super::given::{ACC, CHAIN, LATE, LONE, M1, M2, M4};
use circuits::circuit_above;
use edges::{Edge, Edges};
use graph::edges;
use loops::read_loops;
use machine::read_machine;
use std::alloc::Global;
use std::test::Fail;
use walks::rounds;

/// The edges of the loop of a text on the machine of a text.
fn dependences_of(alloc: Global, machine: &str, text: &str) -> Result<Edges, Fail> {
    let machine = read_machine(alloc, machine.as_bytes())?;
    let loops = read_loops(alloc, text.as_bytes())?;
    let innermost = loops.as_slice().first().ok_or("a loop")?;
    Ok(edges(alloc, &machine, innermost)?)
}

/// Whether an interval is at or above the recurrence bound, and how many rounds are made.
fn rounds_of(alloc: Global, machine: &str, text: &str, ii: u16) -> Result<(bool, u64), Fail> {
    let dependences = dependences_of(alloc, machine, text)?;
    Ok(rounds(alloc, &dependences, u64::from(ii).clamp(1, 16384))?)
}

// The recurrence of `CHAIN` takes 5 cycles.
#[test]
fn settles_in_rounds(rt: HostRuntime) -> Result<(), Fail> {
    for (machine, text, ii, wanted) in [
        (M1, CHAIN, 4, (false, 3)),
        (M1, CHAIN, 5, (true, 3)),
        (M4, LATE, 2, (true, 2)),
        (M2, LONE, 1, (true, 1)),
    ] {
        let found = rounds_of(rt.alloc(), machine, text, ii)?;
        assert_eq!(rt; found, wanted, "at {ii}: {text}");
    }
    Ok(())
}

/// Two operations, each of which needs the other's value.
const TURNS: &str = "loop turns
param p = 1
init y@1 = 0
x = add y@1 p
y = add x p
end
";

/// A loop whose operations need no value of an earlier iteration.
const STRAIGHT: &str = "loop straight
param p = 1
x = add p p
y = add x p
end
";

/// The circuit of `TURNS`: four cycles within one iteration.
const TURNS_CIRCUIT: &[Edge] = &[
    Edge {
        from: 0,
        to: 1,
        distance: 0,
        delay: 2,
    },
    Edge {
        from: 1,
        to: 0,
        distance: 1,
        delay: 2,
    },
];

/// The edges, in ascending order, of the circuit that a loop has above an interval; none where every circuit fits it.
fn circuit_of(alloc: Global, machine: &str, text: &str, ii: u16) -> Result<Vec<Edge>, Fail> {
    let dependences = dependences_of(alloc, machine, text)?;
    let found = circuit_above(alloc, &dependences, u64::from(ii).min(16384))?;
    let Some(mut circuit) = found else {
        return Ok(Vec::new(alloc));
    };
    circuit.sort()?;
    Ok(circuit)
}

#[test]
fn finds_circuits(rt: HostRuntime) -> Result<(), Fail> {
    for (machine, text, ii, wanted) in [
        (M2, TURNS, 0, TURNS_CIRCUIT),
        (M2, TURNS, 4, &[]),
        (M1, CHAIN, 5, &[]),
        (M1, ACC, 1, &[]),
        (M2, STRAIGHT, 0, &[]),
        (M2, STRAIGHT, 16384, &[]),
    ] {
        let found = circuit_of(rt.alloc(), machine, text, ii)?;
        assert!(rt; found.as_slice() == wanted, "above {ii}: {text}");
    }
    Ok(())
}
