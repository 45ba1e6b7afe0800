//! How a run of the program ends.

ghost use Rattle.std.specs.Prelude.{◌≡◌, is_some, IfSome};
ghost use Rattle.exit_status.specs.Statuses.{has_line, status_number, problems_number, solutions_number, refusal_of_file, refusal_of_machine, refusal_of_loops};
ghost use Rattle.exit_status.specs.Statuses.{refusal_of_problems, refusal_of_problem_text, refusal_of_solution_text};

use file_faults::FileFault;
use machine_data::{Name, Opcode};
use problem_faults::ProblemsFault;
use problem_faults::refused_problems::{TextFault, Wrong as ProblemsWrong};
use problem_faults::refused_solutions::{SolutionFault, Wrong as SolutionsWrong};
use reader_faults::{LoopFault, LoopFaultKind, MachineFault};
use std::fmt;
use std::marker::Model;

/// How a run of the program ends. Each has a number, by which the process exits, and those that tell
/// of a fault have a line for the standard error.
#[derive(Drop)]
pub enum Status {
    /// The work is done and its output is written.
    Done,
    /// The output is written, and it tells of a loop or a problem that is not met.
    Unmet,
    /// The output is written, and it tells of faults of the machine's text.
    MachineFaulty,
    /// The output is written, and it tells of faults of the loops' text alone.
    LoopsFaulty,
    /// The machine's file can't be read.
    MachineUnread,
    /// The loops' file can't be read.
    LoopsUnread,
    /// The file of scheduling problems can't be read.
    ProblemsUnread,
    /// The file of solutions can't be read.
    SolutionsUnread,
    /// The machine text is refused.
    Machine(MachineFault),
    /// The loop text is refused.
    Loops(LoopFault),
    /// The machine has no reservation table for an opcode of the loop with this name.
    NoTable { name: Name, opcode: Opcode },
    /// No loop of the text has this name, which was given on the command line.
    NoLoop(String),
    /// The text of scheduling problems is refused.
    Problems(TextFault),
    /// The text of solutions is refused.
    Solutions(SolutionFault),
    /// A write or the flush failed. What went out is a beginning of the output.
    Unwritten,
    /// Memory ran out.
    OutOfMemory,
}

impl Status {
    /// The number by which the process exits.
    pub fn number(&self) -> u8
        ensures { result ≡ status_number self.now }
    {
        match self {
            Status::Done => 0,
            Status::Unmet => 1,
            Status::MachineFaulty => 4,
            Status::LoopsFaulty => 5,
            Status::MachineUnread | Status::LoopsUnread => 3,
            Status::ProblemsUnread | Status::SolutionsUnread => 3,
            Status::Machine(MachineFault::Memory) => 7,
            Status::Machine(_) => 4,
            Status::Loops(fault) => match fault.kind {
                LoopFaultKind::Memory => 7,
                _ => 5,
            },
            Status::NoTable { .. } | Status::NoLoop(_) => 5,
            Status::Problems(fault) => problems_number(fault.what),
            Status::Solutions(fault) => solutions_number(fault.what),
            Status::Unwritten => 6,
            Status::OutOfMemory => 7,
        }
    }

    /// The line for the standard error, without the program's name before it and the line feed after
    /// it, where the status is a fault. What an output tells that is written whole has no such line.
    pub fn line(&self) -> Option<Line<'_>>
        ensures there { is_some result ≡ has_line self.now }
        ensures own { IfSome result (λ line. line ≡ self.now) }
    {
        match self {
            Status::Done | Status::Unmet | Status::MachineFaulty | Status::LoopsFaulty => None,
            _ => Some(Line { status: self }),
        }
    }
}

/// The number by which the process exits where the text of problems has this fault.
fn problems_number(what: ProblemsWrong) -> u8
    ensures { result ≡ problems_number what }
{
    match what {
        ProblemsWrong::Memory => 7,
        _ => 4,
    }
}

/// The number by which the process exits where the text of solutions has this fault.
fn solutions_number(what: SolutionsWrong) -> u8
    ensures { result ≡ solutions_number what }
{
    match what {
        SolutionsWrong::Memory => 7,
        _ => 5,
    }
}

/// A machine text that is refused only for lack of memory ends in `OutOfMemory`.
impl From<MachineFault> for Status {
    ghost from_gives = { λ fault status. status ≡ refusal_of_machine fault };

    fn from(fault: MachineFault) -> Status {
        match fault {
            MachineFault::Memory => Status::OutOfMemory,
            fault => Status::Machine(fault),
        }
    }
}

/// A loop text that is refused only for lack of memory ends in `OutOfMemory`.
impl From<LoopFault> for Status {
    ghost from_gives = { λ fault status. status ≡ refusal_of_loops fault };

    fn from(fault: LoopFault) -> Status {
        match fault.kind {
            LoopFaultKind::Memory => Status::OutOfMemory,
            _ => Status::Loops(fault),
        }
    }
}

/// Texts that have no listing end as their fault says, and in `OutOfMemory` where memory ran out.
impl From<FileFault> for Status {
    ghost from_gives = { λ fault status. status ≡ refusal_of_file fault };

    fn from(fault: FileFault) -> Status {
        match fault {
            FileFault::Machine(fault) => Status::from(fault),
            FileFault::Loops(fault) => Status::from(fault),
            FileFault::NoTable(name, opcode) => Status::NoTable { name, opcode },
            FileFault::Memory => Status::OutOfMemory,
        }
    }
}

/// A text of problems that is refused only for lack of memory ends in `OutOfMemory`.
impl From<TextFault> for Status {
    ghost from_gives = { λ fault status. status ≡ refusal_of_problem_text fault };

    fn from(fault: TextFault) -> Status {
        match fault.what {
            ProblemsWrong::Memory => Status::OutOfMemory,
            _ => Status::Problems(fault),
        }
    }
}

/// A text of solutions that is refused only for lack of memory ends in `OutOfMemory`.
impl From<SolutionFault> for Status {
    ghost from_gives = { λ fault status. status ≡ refusal_of_solution_text fault };

    fn from(fault: SolutionFault) -> Status {
        match fault.what {
            SolutionsWrong::Memory => Status::OutOfMemory,
            _ => Status::Solutions(fault),
        }
    }
}

/// Texts of problems and solutions that have no answer end as their fault says, and in `OutOfMemory` where memory ran out.
impl From<ProblemsFault> for Status {
    ghost from_gives = { λ fault status. status ≡ refusal_of_problems fault };

    fn from(fault: ProblemsFault) -> Status {
        match fault {
            ProblemsFault::Problems(fault) => Status::from(fault),
            ProblemsFault::Solutions(fault) => Status::from(fault),
            ProblemsFault::Memory => Status::OutOfMemory,
        }
    }
}

/// The line for the standard error that tells of a fault. Contracts see the status.
#[derive(Drop)]
pub struct Line<'a> {
    status: &'a Status,
}

impl<'a> Model for Line<'a> {
    ghost use Rattle.exit_status.specs.declared.status.Status.{Status};

    ghost Value = { Status };

    ghost view = { λ l. l.status.now };
}

impl fmt::Display for Line<'_> {
    ghost use Rattle.std.specs.Prelude.{Some};
    ghost use Rattle.exit_status.specs.Statuses.{line_of};

    ghost output = { λ line. Some (line_of line) };

    fn fmt<W: fmt::Write>(&self, f: &mut fmt::Formatter<W>) -> fmt::Result {
        match self.status {
            Status::Done | Status::Unmet => Ok(()),
            Status::MachineFaulty | Status::LoopsFaulty => Ok(()),
            Status::MachineUnread => f.write_str("machine: cannot read"),
            Status::LoopsUnread => f.write_str("loops: cannot read"),
            Status::ProblemsUnread => f.write_str("problems: cannot read"),
            Status::SolutionsUnread => f.write_str("solutions: cannot read"),
            Status::Machine(MachineFault::Memory) | Status::OutOfMemory => {
                f.write_str("out of memory")
            }
            Status::Machine(fault) => write!(f, "machine: {fault}"),
            Status::Loops(fault) => match fault.kind {
                LoopFaultKind::Memory => f.write_str("out of memory"),
                _ => write!(f, "loops: {fault}"),
            },
            Status::NoTable { name, opcode } => {
                let word = opcode.word();
                write!(f, "loops: loop {name}: no table for {word}")
            }
            Status::NoLoop(name) => write!(f, "loops: no loop {name}"),
            Status::Problems(fault) => match fault.what {
                ProblemsWrong::Memory => f.write_str("out of memory"),
                _ => write!(f, "problems: {fault}"),
            },
            Status::Solutions(fault) => match fault.what {
                SolutionsWrong::Memory => f.write_str("out of memory"),
                _ => write!(f, "solutions: {fault}"),
            },
            Status::Unwritten => f.write_str("cannot write"),
        }
    }
}
