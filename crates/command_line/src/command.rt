//! Commands.

ghost use Rattle.std.specs.Prelude.{◌≡◌, option_map};
ghost use Rattle.command_line.specs.Lines.{first_lint_path, first_path, last_lint_path, last_path, machine_of_work};

use settings::{Format, Settings, Trip};

/// What the program is asked to do.
#[derive(Debug, Drop)]
pub enum Command {
    /// Do this with the loops of a text.
    Loops {
        /// The path of the loops' file.
        loops: String,
        /// The names of the loops that it is done with; none where it is done with all of them.
        names: Vec<String>,
        /// What is done with the loops.
        work: Work,
    },
    /// Solve each problem of a text, with these settings.
    Solve {
        /// The path of the problems' file.
        problems: String,
        /// How hard it is tried, and by how many workers.
        settings: Settings,
        /// In which format what each problem comes to is told.
        format: Format,
    },
    /// Tell something of each problem of a text.
    Problems {
        /// The path of the problems' file.
        problems: String,
        /// What is told.
        told: Report,
    },
    /// Judge a text of solutions of the problems of a text.
    Check {
        /// The path of the problems' file.
        problems: String,
        /// The path of the solutions' file.
        solutions: String,
    },
    /// Tell the faults of texts.
    Lint {
        /// The texts.
        texts: LintTexts,
        /// In which format their faults are told.
        format: Format,
    },
}

/// The texts whose faults are told.
#[derive(Debug, Drop)]
pub enum LintTexts {
    /// A machine's alone.
    Machine {
        /// The path of the machine's file.
        machine: String,
    },
    /// That of loops alone.
    Loops {
        /// The path of the loops' file.
        loops: String,
    },
    /// A machine's and that of loops.
    Both {
        /// The path of the machine's file.
        machine: String,
        /// The path of the loops' file.
        loops: String,
    },
}

/// What is done with loops.
#[derive(Debug, Drop)]
pub enum Work {
    /// Run each plainly, and tell what it changed. No machine is read.
    Plain {
        /// How many iterations each is run.
        trip: Trip,
        /// How many workers share the loops, 1 to 64.
        workers: usize,
    },
    /// Tell something of them on a machine.
    OnMachine {
        /// The path of the machine's file.
        machine: String,
        /// What is told.
        task: Task,
    },
}

/// What is told of loops on a machine.
#[derive(Debug, Drop)]
pub enum Task {
    /// The bounds of each loop.
    Bounds,
    /// The dependences of each loop.
    Edges,
    /// The dependences of each loop, as graphs for Graphviz.
    Dot,
    /// What comes of a search for kernels with these settings.
    Search(Settings, Search),
}

/// What is told where a kernel is searched for, for each loop.
#[derive(Debug, Drop)]
pub enum Search {
    /// The listing.
    Schedule,
    /// The listing as a JSON document.
    Json,
    /// Why each loop has its interval.
    Explain(Format),
    /// The same as a page for a browser.
    Page,
    /// The dependences of each loop, as graphs for Graphviz that show the schedule.
    Scheduled,
    /// What variants of the machine bring each loop.
    Vary(Format),
    /// What they bring all loops together.
    Total,
    /// What the run of each kernel changes, with this trip count.
    Run(Trip),
}

/// What is told of scheduling problems.
#[derive(Debug, Drop)]
pub enum Report {
    /// The operations of each problem and what they wait for.
    Edges,
    /// The same, as graphs for Graphviz.
    Dot,
    /// The graphs with the schedule of each problem, where a solution is searched for with these settings.
    Scheduled(Settings),
    /// Why each problem has its interval, where a solution is searched for with these settings.
    Explain(Settings),
}

impl Command {
    /// The path of the file that is read first, where the command reads two: the machine's, or the problems' of a check.
    pub fn first_path(&self) -> Option<&str>
        ensures { option_map (λ path. path.now) result ≡ first_path self.now }
    {
        match self {
            Command::Loops { work, .. } => machine_of(work),
            Command::Solve { .. } | Command::Problems { .. } => None,
            Command::Check { problems, .. } => Some(problems.as_str()),
            Command::Lint { texts, .. } => texts.first_path(),
        }
    }

    /// The path of the file that is read last: the loops', the problems' where they are not checked, the solutions' of a check, or that of a machine
    /// whose faults alone are told.
    pub fn last_path(&self) -> &str
        ensures { result.now ≡ last_path self.now }
    {
        match self {
            Command::Loops { loops, .. } => loops.as_str(),
            Command::Solve { problems, .. } => problems.as_str(),
            Command::Problems { problems, .. } => problems.as_str(),
            Command::Check { solutions, .. } => solutions.as_str(),
            Command::Lint { texts, .. } => texts.last_path(),
        }
    }
}

impl LintTexts {
    /// The path of the machine's file, where the loops' is read after it.
    fn first_path(&self) -> Option<&str>
        ensures { option_map (λ path. path.now) result ≡ first_lint_path self.now }
    {
        match self {
            LintTexts::Machine { .. } | LintTexts::Loops { .. } => None,
            LintTexts::Both { machine, .. } => Some(machine.as_str()),
        }
    }

    /// The path of the loops' file, or that of a machine alone.
    fn last_path(&self) -> &str
        ensures { result.now ≡ last_lint_path self.now }
    {
        match self {
            LintTexts::Machine { machine } => machine.as_str(),
            LintTexts::Loops { loops } | LintTexts::Both { loops, .. } => loops.as_str(),
        }
    }
}

/// The path of the machine's file, where one is read.
fn machine_of(work: &Work) -> Option<&str>
    ensures { option_map (λ path. path.now) result ≡ machine_of_work work.now }
{
    match work {
        Work::Plain { .. } => None,
        Work::OnMachine { machine, .. } => Some(machine.as_str()),
    }
}
