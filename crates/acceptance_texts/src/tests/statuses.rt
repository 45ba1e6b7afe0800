//! Lack of memory as a status, however it is told. That runs end so wherever memory is refused is shown by `tests/refused_memory`. The lines of the other statuses are told by the program's
//! sessions.

use exit_status::Status;
use loops::{LoopFault, LoopFaultKind};
use machine::MachineFault;
use problem_reader::{TextFault, Wrong as ProblemWrong};
use solution_reader::{SolutionFault, Wrong as SolutionWrong};
use std::alloc::Global;
use std::process::Abort;

const OF_LOOPS: LoopFault = LoopFault {
    line: 0,
    kind: LoopFaultKind::Memory,
};

const OF_PROBLEMS: TextFault = TextFault {
    line: 0,
    column: 0,
    width: 0,
    what: ProblemWrong::Memory,
};

const OF_SOLUTIONS: SolutionFault = SolutionFault {
    line: 0,
    column: 0,
    width: 0,
    what: SolutionWrong::Memory,
};

/// The line of a status.
fn line_of(rt: &impl Abort, alloc: Global, status: &Status) -> String {
    let line = status.line().expect(rt, "a line");
    line.to_string(alloc).expect(rt, "memory")
}

/// The line of a status is that of lack of memory.
fn has_line(rt: &impl Abort, alloc: Global, status: &Status) -> bool {
    line_of(rt, alloc, status).as_str() == "out of memory"
}

/// A status is that of lack of memory.
fn is_of_memory(rt: &impl Abort, alloc: Global, status: Status) -> bool {
    status.number() == 7 && has_line(rt, alloc, &status)
}

/// Lack of memory, as the parts of the program tell of it.
#[test]
fn statuses_tell_of_memory(rt: HostRuntime) {
    let alloc = rt.alloc();
    assert!(rt; is_of_memory(&rt, alloc, Status::OutOfMemory));
    assert!(rt; is_of_memory(&rt, alloc, Status::Machine(MachineFault::Memory)));
    assert!(rt; is_of_memory(&rt, alloc, Status::Loops(OF_LOOPS)));
    assert!(rt; is_of_memory(&rt, alloc, Status::Problems(OF_PROBLEMS)));
    assert!(rt; is_of_memory(&rt, alloc, Status::Solutions(OF_SOLUTIONS)));
}
