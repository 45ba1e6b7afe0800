//! Loops that are prepared for scheduling.

ghost use Rattle.std.specs.Prelude.{◌≡◌, ◌<◌, ◌≤◌, max, length, replicate, None, IfOk};
ghost use Rattle.graph.specs.TablesAnswer.{TablesAnswer};
ghost use Rattle.graph.specs.Units.{first_without_table};
ghost use Rattle.loop_schedules.specs.Problems.{IsProblem, IsProblemOf, mii_of, with_loop, without_loop};
ghost use Rattle.machine_data.specs.declared.limits.TheConstants.{MAX_CEILING, MAX_INTERVAL, MAX_RATIO};

use crate::loop_problems::loop_problem;
use edges::Edges;
use graph::GraphFault;
use loop_data::Loop;
use machine_data::{Alternatives, Machine, OutOfMemory};
use mrt::ModuloTable;
use schedules::Problem;
use std::alloc::Global;
use std::marker::Model;

/// A loop with its dependences on a machine, the alternatives that the machine offers for each
/// operation, the two lower bounds of the initiation interval, and what is to be tried. Contracts see all
/// of this, and know that edges and bounds are the loop's.
pub struct Prepared {
    innermost: Loop,
    problem: Problem,
    registers: u16,
}

// Written out, so that a crate above calls it. What is derived would be proved once more there, for each part.
impl Drop for Prepared {
    fn drop(self) {
        let Prepared {
            innermost: _,
            problem: _,
            registers: _,
        } = self;
    }
}

impl Model for Prepared {
    ghost use Rattle.loop_schedules.specs.Problems.{ProblemData, IsProblem};

    ghost Value = { ProblemData };

    ghost view = { λ p. record { loop = p.innermost; graph = p.problem.graph; operations = p.problem.operations; registers = p.registers; resources = p.problem.resources; recurrences = p.problem.recurrences; ratio = p.problem.ratio; ceiling = p.problem.ceiling } };

    ghost invariant = { λ p. IsProblem (record { loop = p.innermost; graph = p.problem.graph; operations = p.problem.operations; registers = p.registers; resources = p.problem.resources; recurrences = p.problem.recurrences; ratio = p.problem.ratio; ceiling = p.problem.ceiling }) };
}

impl Prepared {
    /// A loop prepared for scheduling on a machine: with a budget of `ratio` placements for each
    /// operation, 1 to 64, and `ceiling` intervals above the least one to be tried, 0 to 255.
    ///
    /// # Errors
    /// [`GraphFault::NoTable`] for the first statement whose opcode the machine has no table for, and
    /// [`GraphFault::Memory`] where memory ran out.
    pub fn new(
        alloc: Global,
        machine: &Machine,
        innermost: Loop,
        ratio: u64,
        ceiling: u64,
    ) -> Result<Prepared, GraphFault>
        requires ratio { (1 ≤ ratio) × (ratio ≤ MAX_RATIO) }
        requires ceiling { ceiling ≤ MAX_CEILING }
        ensures exact { TablesAnswer (first_without_table machine.now innermost) (IsProblemOf machine.now innermost ratio ceiling) result }
    {
        let problem = loop_problem(alloc, machine, &innermost, ratio, ceiling)?;
        Ok(Prepared::of(machine, innermost, problem))
    }

    /// A loop with what [`loop_problem`](crate::loop_problem) finds for it on the machine.
    pub fn of(machine: &Machine, innermost: Loop, problem: Problem) -> Prepared
        requires { IsProblem (with_loop innermost machine.now.registers problem) }
        ensures { result ≡ with_loop innermost machine.now.registers problem }
    {
        Prepared {
            innermost,
            problem,
            registers: machine.registers(),
        }
    }

    /// The problem of its operations, which an attempt is made at.
    pub fn problem(&self) -> &Problem
        ensures value { result.now ≡ without_loop self.now }
        ensures well_formed { IsProblem self.now }
    {
        &self.problem
    }

    /// The loop.
    pub fn innermost(&self) -> &Loop
        ensures value { result.now ≡ self.now.loop }
        ensures well_formed { IsProblem self.now }
    {
        &self.innermost
    }

    /// The dependences between the operations, and the operations' latencies.
    pub fn edges(&self) -> &Edges
        ensures value { result.now ≡ self.now.graph }
        ensures well_formed { IsProblem self.now }
    {
        self.problem.edges()
    }

    /// The alternatives of each operation, in text order.
    pub fn alternatives(&self) -> &[Alternatives]
        ensures value { result.now ≡ self.now.operations }
        ensures well_formed { IsProblem self.now }
    {
        self.problem.alternatives()
    }

    /// A table of its operations at an interval of 1 to 16,384 cycles, with nothing placed. Operations of one opcode share
    /// their alternatives in it.
    ///
    /// # Errors
    /// [`OutOfMemory`] where memory ran out.
    pub fn table<T: ModuloTable>(&self, alloc: Global, ii: u64) -> Result<T, OutOfMemory>
        requires some { 0 < ii }
        requires few { ii ≤ MAX_INTERVAL }
        ensures empty { IfOk result (λ table. T.placed table ≡ replicate (length self.now.operations) None) }
        ensures operations { IfOk result (λ table. T.operations table ≡ self.now.operations) }
        ensures interval { IfOk result (λ table. T.interval table ≡ ii) }
    {
        self.problem.table(alloc, ii)
    }

    /// The number of operations, 1 to 128.
    pub fn operations(&self) -> usize
        ensures value { result ≡ length self.now.operations }
        ensures well_formed { IsProblem self.now }
    {
        self.problem.operations()
    }

    /// The least interval that is tried, in cycles, 1 to 8,192: the greater of the two lower bounds.
    pub fn mii(&self) -> u64
        ensures value { result ≡ mii_of self.now }
        ensures some { 1 ≤ result }
        ensures range { result ≤ 8192 }
        ensures well_formed { IsProblem self.now }
    {
        self.problem.mii()
    }

    /// The number of rotating registers of the machine, 1 to 256.
    pub fn registers(&self) -> u16
        ensures value { result ≡ self.now.registers }
        ensures well_formed { IsProblem self.now }
    {
        self.registers
    }

    /// The resource-constrained lower bound of the interval, in cycles, at most 2,048.
    pub fn resources(&self) -> u64
        ensures value { result ≡ self.now.resources }
        ensures well_formed { IsProblem self.now }
    {
        self.problem.resources()
    }

    /// The recurrence-constrained lower bound of the interval, in cycles, 1 to 8,192.
    pub fn recurrences(&self) -> u64
        ensures value { result ≡ self.now.recurrences }
        ensures well_formed { IsProblem self.now }
    {
        self.problem.recurrences()
    }

    /// How many times as many placements as operations an attempt may make, 1 to 64.
    pub fn ratio(&self) -> u64
        ensures value { result ≡ self.now.ratio }
        ensures well_formed { IsProblem self.now }
    {
        self.problem.ratio()
    }

    /// How many intervals above the least one are tried, 0 to 255.
    pub fn ceiling(&self) -> u64
        ensures value { result ≡ self.now.ceiling }
        ensures well_formed { IsProblem self.now }
    {
        self.problem.ceiling()
    }
}
