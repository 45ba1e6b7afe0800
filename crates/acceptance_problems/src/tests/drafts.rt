//! A small problem that is given by numbers, and names that are at fault.

use edges::Edge;
use machine_data::OutOfMemory;
use problems::{
    Draft, Fault, File, Hold, Kind, Label, Names, Order, Part, Problem, Value, first_fault,
};
use registers::Read;
use settings::Settings;
use smallvec::SmallVec;
use std::alloc::Global;
use std::process::Abort;

/// What the first operation makes, and the second reads in its own iteration, one cycle after its issue.
const MADE: Value = Value {
    maker: 0,
    lands: 2,
    out: false,
    file: 0,
};

const READ: Read = Read {
    value: 0,
    reader: 1,
    distance: 0,
    offset: 1,
};

/// What the second operation makes, and reads in the next iteration. It is live at the end.
const CARRIED: Value = Value {
    maker: 1,
    lands: 1,
    out: true,
    file: 1,
};

const AGAIN: Read = Read {
    value: 1,
    reader: 1,
    distance: 1,
    offset: 0,
};

/// The third operation is issued at the earliest one cycle before the second.
const ORDER: Order = Order {
    from: 1,
    to: 2,
    delay: -1,
    distance: 0,
};

/// No names.
pub(super) fn no_names(alloc: Global) -> Names {
    Names {
        units: Vec::new(alloc),
        files: Vec::new(alloc),
        kinds: Vec::new(alloc),
        operations: Vec::new(alloc),
        values: Vec::new(alloc),
    }
}

/// A kind of operations that hold one unit at their issue.
fn kind(alloc: Global, latency: u64, unit: usize) -> Result<Kind, OutOfMemory> {
    let mut alternatives = SmallVec::new(alloc);
    let holds = SmallVec::from_slice(alloc, &[Hold { unit, offset: 0 }])?;
    alternatives.push(holds)?;
    Ok(Kind {
        latency,
        alternatives,
    })
}

/// Kinds: one on each unit.
fn kinds(alloc: Global) -> Result<Vec<Kind>, OutOfMemory> {
    let mut kinds = Vec::new(alloc);
    kinds.push(kind(alloc, 2, 0)?)?;
    kinds.push(kind(alloc, 1, 1)?)?;
    Ok(kinds)
}

/// A draft without names: two units, and three operations of two kinds, one on the first unit, and two on the second.
fn draft(alloc: Global) -> Result<Draft, OutOfMemory> {
    Ok(Draft {
        units: 2,
        files: Vec::from_slice(alloc, &[File::Rotating(8), File::Unallotted])?,
        kinds: kinds(alloc)?,
        operations: Vec::from_slice(alloc, &[0, 1, 1])?,
        values: Vec::from_slice(alloc, &[MADE, CARRIED])?,
        reads: Vec::from_slice(alloc, &[READ, AGAIN])?,
        orders: Vec::from_slice(alloc, &[ORDER])?,
        names: no_names(alloc),
    })
}

/// The problem of a draft, of which so many intervals above the least one are tried.
pub(super) fn problem(rt: &impl Abort, alloc: Global, draft: Draft, above: u64) -> Problem {
    let settings = Settings::new(6, above, 1, 1).expect(rt, "settings");
    Problem::new(alloc, draft, &settings).expect(rt, "a problem")
}

/// The edges of the problem: reads, then orders.
const EDGES: &[Edge] = &[
    Edge {
        from: 0,
        to: 1,
        distance: 0,
        delay: 1,
    },
    Edge {
        from: 1,
        to: 1,
        distance: 1,
        delay: 1,
    },
    Edge {
        from: 1,
        to: 2,
        distance: 0,
        delay: -1,
    },
];

/// A problem has these edges, and all else that the draft comes to.
fn is_worked(problem: &Problem) -> bool {
    let scheduling = problem.scheduling();
    scheduling.edges().all() == EDGES
        && scheduling.resources() == 2
        && scheduling.recurrences() == 1
        && scheduling.ratio() == 6
        && scheduling.ceiling() == 32
        && problem.draft().units == 2
        && scheduling.operations() == 3
}

#[test]
fn a_draft_makes_a_problem(rt: HostRuntime) {
    let draft = draft(rt.alloc()).expect(&rt, "memory");
    let problem = problem(&rt, rt.alloc(), draft, 32);
    assert!(rt; is_worked(&problem));
}

/// Names of the files, with the fault of the draft with them. All other faults are told to callers in C, too: `tests/library.d/faults.c` has them.
const NAMED: &[(&[&str], Option<Fault>)] = &[
    (&["a", "b"], None),
    (&["a"], Some(Fault::NameCount(Part::Files))),
    (&["a", "a"], Some(Fault::Repeated(Part::Files, 1))),
];

/// The first fault of the draft whose files have these names.
fn fault_of(rt: &impl Abort, alloc: Global, names: &[&str]) -> Option<Fault> {
    let mut draft = draft(alloc).expect(rt, "memory");
    for name in names {
        let label = Label::new(name).expect(rt, "a name");
        draft.names.files.push(label).expect(rt, "memory");
    }
    first_fault(alloc, &draft).expect(rt, "memory")
}

#[test]
fn names_at_fault(rt: HostRuntime) {
    for (names, fault) in NAMED {
        assert!(rt; fault_of(&rt, rt.alloc(), names) == *fault, "{fault:?}");
    }
}

#[test]
fn labels_are_of_printable_bytes(rt: HostRuntime) {
    for text in ["", "a b", "a#b", "\u{7f}", "\u{e9}"] {
        assert!(rt; Label::new(text).is_none(), "at {text}");
    }
    let label = Label::new("x!~");
    assert!(rt; matches!(&label, Some(label) if label.as_str() == "x!~"));
}
