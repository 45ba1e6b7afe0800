//! What is told of a problem whose parts have no names, which no text can give: they are told by their numbers. All is worked by hand.
//!
//! The operation 0 holds the unit 0; the operation 1 holds that unit, or the unit 1 and one cycle later the unit 0. It reads the value 0 of its iteration, its own value 1 of the one before,
//! and two iterations later the value 2, which the operation 0 makes too, in a file that is not allotted. `tests/sessions/solutions.session` has the same problem with names.

use super::drafts::{no_names, problem};
use edges::Edge;
use machine_data::OutOfMemory;
use modulo::Culprit;
use outcome_text::push_outcome;
use problem_graphs::push_edges;
use problem_reader::read_problems;
use problems::{Draft, Problem};
use schedules::Breach;
use solution_text::{Missing, push_broken, push_failed, push_missing};
use solutions::{Broken, Cause, solve_with_culprit};
use std::alloc::Global;
use std::process::Abort;

const TEXT: &[u8] = b"machine m
units u v
file r rotating 4
file m unallotted
kind x latency 2 | u
kind y latency 1 | u | v u@1
problem sum
op x x
op y y
value x of x lands 2 in r
value y of y lands 1 in r out
value p of x lands 1 in m
read y x
read y y distance 1
read y p distance 2
end";

/// The draft of the text.
fn named(rt: &impl Abort, alloc: Global) -> Draft {
    let file = read_problems(alloc, TEXT).expect(rt, "a text of problems");
    assert!(rt; file.problems() == 1);
    file.draft(alloc, 0).expect(rt, "memory")
}

/// The draft of the text without its names.
fn unnamed(rt: &impl Abort, alloc: Global) -> Draft {
    let mut draft = named(rt, alloc);
    draft.names = no_names(alloc);
    draft
}

/// Its problem, of which five intervals above the least one are tried.
fn unnamed_problem(rt: &impl Abort, alloc: Global) -> Problem {
    problem(rt, alloc, unnamed(rt, alloc), 5)
}

/// The operation 1 is as high as its latency 1, and the operation 0 by the delay of its value 0 higher.
const SOLVED: &[u8] = b"problem sum ops 2 res 2 rec 1 mii 2
op 0 0 0 latency 2 height 3
op 1 1 1 latency 1 height 1
edge 0 0 1 1 value 0 delay 2 distance 0
edge 1 1 1 1 value 1 delay 1 distance 1
edge 0 0 1 1 value 2 delay 1 distance 2
# sum ops 2 res 2 rec 1 mii 2
# full 0
solution sum ii 2 # stages 2
op 0 time 0 by 0 # row 0 stage 0: 0; writes 0.0
op 1 time 2 by 1 # row 0 stage 1: 1 0@1; reads 0.1 0.3, writes 0.2
value 0 number 0 # 0: live 2 to 2
value 1 number 1 # 0: live 2 to 4
# value 2 1: live 1 to 6, copies 3
# initial 0.2 1 distance 1
# file 0 max_live 3 of 4
# file 1 max_live 3
# unroll 3
end
";

/// Appends the lines of the edges, and of the solution where there is one.
fn push_solved(alloc: Global, text: &mut Vec<u8>, problem: &Problem) -> Result<bool, OutOfMemory> {
    push_edges(alloc, text, "sum", problem)?;
    let solved = solve_with_culprit(alloc, problem)?;
    push_outcome(alloc, text, "sum", problem, &solved)
}

#[test]
fn edges_and_a_solution(rt: HostRuntime) {
    let problem = unnamed_problem(&rt, rt.alloc());
    let mut text = Vec::new(rt.alloc());
    let is_met = push_solved(rt.alloc(), &mut text, &problem).expect(&rt, "memory");
    assert!(rt; is_met && text.as_slice() == SOLVED);
}

/// Appends what is told for a cause with a culprit.
fn push_blamed(
    text: &mut Vec<u8>,
    name: &str,
    problem: &Problem,
    cause: Cause,
    culprit: Culprit,
) -> Result<(), OutOfMemory> {
    push_failed(text, name, b"", problem, cause, Some(&culprit))
}

/// Appends what is told for some causes, with culprits and without one.
fn push_failures(alloc: Global, text: &mut Vec<u8>, problem: &Problem) -> Result<(), OutOfMemory> {
    push_blamed(text, "a", problem, Cause::Table, Culprit::Blocked(1))?;
    push_blamed(text, "b", problem, Cause::Stages, Culprit::Late(0, 450))?;
    push_failed(text, "c", b"", problem, Cause::Stages, None)?;
    push_failed(text, "d", b"", problem, Cause::Registers(0, 1), None)?;
    let unplaced = Culprit::Unplaced(Vec::from_slice(alloc, &[0, 1])?);
    push_blamed(text, "e", problem, Cause::Budget, unplaced)
}

const FAILED: &[u8] = b"# a ops 2 res 2 rec 1 mii 2
# failed a at 7: table: 1
# b ops 2 res 2 rec 1 mii 2
# failed b at 7: stages: 0 at 450
# c ops 2 res 2 rec 1 mii 2
# failed c at 7: stages
# d ops 2 res 2 rec 1 mii 2
# failed d at 7: registers of 0: 1
# e ops 2 res 2 rec 1 mii 2
# failed e at 7: budget: 0 1
";

#[test]
fn failures(rt: HostRuntime) {
    let problem = unnamed_problem(&rt, rt.alloc());
    let mut text = Vec::new(rt.alloc());
    push_failures(rt.alloc(), &mut text, &problem).expect(&rt, "memory");
    assert!(rt; text.as_slice() == FAILED);
}

/// One break of each kind, and those whose texts differ by their numbers twice.
const BROKEN: &[Broken] = &[
    Broken::Interval,
    Broken::Numbers,
    Broken::Number(2),
    Broken::Schedule(Breach::Count),
    Broken::Schedule(Breach::Time(1)),
    Broken::Schedule(Breach::Alternative(0)),
    Broken::Schedule(Breach::Slot {
        earlier: 0,
        later: 1,
        unit: 1,
        residue: 6,
    }),
    Broken::Schedule(Breach::Slot {
        earlier: 1,
        later: 1,
        unit: 0,
        residue: 0,
    }),
    Broken::Schedule(Breach::Edge(
        Edge {
            from: 0,
            to: 1,
            distance: 2,
            delay: -3,
        },
        5,
    )),
    Broken::Schedule(Breach::Edge(
        Edge {
            from: 1,
            to: 0,
            distance: 0,
            delay: 64,
        },
        1,
    )),
    Broken::Schedule(Breach::Stage(1)),
    Broken::Registers {
        file: 0,
        earlier: 0,
        later: 1,
        register: 3,
        cycle: 12,
    },
    Broken::Registers {
        file: 1,
        earlier: 2,
        later: 2,
        register: 0,
        cycle: 7,
    },
];

/// What is missing, for each sort.
const MISSING: &[Missing] = &[Missing::Solution, Missing::Time(1), Missing::Number(2)];

/// Appends the lines of all that, for an interval that is one too long.
fn push_verdicts(text: &mut Vec<u8>, draft: &Draft) -> Result<(), OutOfMemory> {
    for broken in BROKEN {
        push_broken(text, "sum", draft, 16385, *broken)?;
    }
    for missing in MISSING {
        push_missing(text, "sum", draft, *missing)?;
    }
    Ok(())
}

const VERDICTS: &[u8] = b"sum broken: interval 16385 is not 1 to 16384
sum broken: not one number for each value
sum broken: the number of 2 is out of range
sum broken: not one time for each operation
sum broken: the time of 1 is out of range
sum broken: 0 has no such alternative
sum broken: 0 and 1 both hold 1 in row 6
sum broken: 1 holds 0 twice in row 0
sum broken: 0 to 1 with delay -3 and distance 2: 5 cycles too early
sum broken: 1 to 0 with delay 64 and distance 0: 1 cycle too early
sum broken: 1 is in stage 64 or later
sum broken: 0 and 1 are both in 0.3 in cycle 12
sum broken: 2 meets a later instance of itself in 1.0 in cycle 7
sum broken: no solution
sum broken: no time of 1
sum broken: no number of 2
";

#[test]
fn verdicts(rt: HostRuntime) {
    let draft = unnamed(&rt, rt.alloc());
    let mut text = Vec::new(rt.alloc());
    push_verdicts(&mut text, &draft).expect(&rt, "memory");
    assert!(rt; text.as_slice() == VERDICTS);
}
