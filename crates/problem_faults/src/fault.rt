//! Why the texts of a command over problems have no answer.

ghost use Rattle.std.specs.Prelude.{◌≡◌};
ghost use Rattle.problem_faults.specs.declared.fault.ProblemsFault.TheVariants.{Memory};
ghost use Rattle.problem_faults.specs.Faults.{of_problems, of_solutions};

use crate::refused_problems::{TextFault, Wrong as ProblemWrong};
use crate::refused_solutions::{SolutionFault, Wrong as SolutionWrong};
use machine_data::OutOfMemory;
use std::fmt;
use thiserror::Error;

/// Why the texts of a command over problems have no answer.
#[derive(Clone, Copy, Debug, PartialEq, Eq, Error)]
pub enum ProblemsFault {
    /// The text of problems is at fault: its first line at fault, with that line's first fault.
    Problems(TextFault),
    /// The text of solutions is at fault, in the same way, or it has a name that no problem has, or no part of its problem: the
    /// first such name.
    Solutions(SolutionFault),
    /// Memory ran out. This says nothing of the texts.
    Memory,
}

impl fmt::Display for ProblemsFault {
    ghost use Rattle.std.specs.Prelude.{Some};
    ghost use Rattle.problem_faults.specs.Faults.{told_of};

    ghost output = { λ fault. Some (told_of fault) };

    fn fmt<W: fmt::Write>(&self, f: &mut fmt::Formatter<W>) -> fmt::Result {
        match self {
            ProblemsFault::Problems(fault) => write!(f, "problems: {fault}"),
            ProblemsFault::Solutions(fault) => write!(f, "solutions: {fault}"),
            ProblemsFault::Memory => f.write_str("out of memory"),
        }
    }
}

impl From<TextFault> for ProblemsFault {
    ghost from_gives = { λ fault e. e ≡ of_problems fault };

    fn from(fault: TextFault) -> ProblemsFault {
        match fault.what {
            ProblemWrong::Memory => ProblemsFault::Memory,
            _ => ProblemsFault::Problems(fault),
        }
    }
}

impl From<SolutionFault> for ProblemsFault {
    ghost from_gives = { λ fault e. e ≡ of_solutions fault };

    fn from(fault: SolutionFault) -> ProblemsFault {
        match fault.what {
            SolutionWrong::Memory => ProblemsFault::Memory,
            _ => ProblemsFault::Solutions(fault),
        }
    }
}

impl From<OutOfMemory> for ProblemsFault {
    ghost from_gives = { λ _ e. e ≡ Memory };

    fn from(_cause: OutOfMemory) -> ProblemsFault {
        ProblemsFault::Memory
    }
}
