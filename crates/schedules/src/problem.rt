//! Problems: what is scheduled.

ghost use Rattle.std.specs.Prelude.{◌≡◌, ◌<◌, ◌≤◌, max, length, replicate, None, IfOk, IsOk};
ghost use Rattle.schedules.specs.Problems.{AreKinds, IsProblem, IsProblemOf, mii_of};
ghost use Rattle.schedules.specs.inner.Kinds.{KnowsKinds};
ghost use Rattle.machine_data.specs.declared.limits.TheConstants.{MAX_CEILING, MAX_INTERVAL, MAX_RATIO};

use edges::Edges;
use machine_data::limits::MAX_STATEMENTS;
use machine_data::{Alternatives, OutOfMemory};
use mrt::ModuloTable;
use std::alloc::Global;
use std::marker::Model;

/// Operations, by the edges between them, the latency and the alternatives of each, with the two lower bounds
/// of the initiation interval, and what is to be tried. Contracts see all of this, and know that the bounds are
/// those of the edges and the alternatives.
pub struct Problem {
    edges: Edges,
    alternatives: Vec<Alternatives>,
    /// For each operation the number of one that has the same alternatives; empty where that is not known.
    kinds: Vec<usize>,
    resources: u64,
    recurrences: u64,
    ratio: u64,
    ceiling: u64,
}

// Written out, so that a crate above calls it. What is derived would be proved once more there, for each part.
impl Drop for Problem {
    fn drop(self) {
        let Problem {
            edges: _,
            alternatives: _,
            kinds: _,
            resources: _,
            recurrences: _,
            ratio: _,
            ceiling: _,
        } = self;
    }
}

impl Model for Problem {
    ghost use Rattle.schedules.specs.Problems.{ProblemData, IsProblem};
    ghost use Rattle.schedules.specs.inner.Kinds.{KnowsKinds};

    ghost Value = { ProblemData };

    ghost view = { λ p. record { graph = p.edges; operations = p.alternatives.items; resources = p.resources; recurrences = p.recurrences; ratio = p.ratio; ceiling = p.ceiling } };

    ghost invariant = { λ p. IsProblem (record { graph = p.edges; operations = p.alternatives.items; resources = p.resources; recurrences = p.recurrences; ratio = p.ratio; ceiling = p.ceiling })
        × KnowsKinds p.alternatives.items p.kinds.items };
}

impl Problem {
    /// The problem of operations with these edges, latencies and alternatives: with a budget of `ratio` times
    /// as many placements as operations, 1 to 64, and `ceiling` intervals above the least one to be tried, 0
    /// to 255. Both lower bounds of the interval are found here.
    ///
    /// # Errors
    /// None: no memory is taken.
    pub fn new(
        alloc: Global,
        edges: Edges,
        alternatives: Vec<Alternatives>,
        ratio: u64,
        ceiling: u64,
    ) -> Result<Problem, OutOfMemory>
        requires each { length edges.latencies ≡ length alternatives.items }
        requires ratio { (1 ≤ ratio) × (ratio ≤ MAX_RATIO) }
        requires ceiling { ceiling ≤ MAX_CEILING }
        ensures exact { IfOk result (IsProblemOf edges alternatives.items ratio ceiling) }
        ensures no_memory { IsOk result }
    {
        let unknown = Vec::new(alloc);
        Problem::made(alloc, edges, alternatives, unknown, ratio, ceiling)
    }

    /// The problem that [`Problem::new`] gives, with the same limits, where it is known which operations have the same
    /// alternatives: `kinds` has for each operation the number, from 0, of one with the same alternatives, as the first of
    /// its opcode.
    ///
    /// # Errors
    /// None: no memory is taken.
    pub fn of_kinds(
        alloc: Global,
        edges: Edges,
        alternatives: Vec<Alternatives>,
        kinds: Vec<usize>,
        ratio: u64,
        ceiling: u64,
    ) -> Result<Problem, OutOfMemory>
        requires each { length edges.latencies ≡ length alternatives.items }
        requires kinds { AreKinds alternatives.items kinds.items }
        requires ratio { (1 ≤ ratio) × (ratio ≤ MAX_RATIO) }
        requires ceiling { ceiling ≤ MAX_CEILING }
        ensures exact { IfOk result (IsProblemOf edges alternatives.items ratio ceiling) }
        ensures no_memory { IsOk result }
    {
        Problem::made(alloc, edges, alternatives, kinds, ratio, ceiling)
    }

    /// The problem with these parts, for which both lower bounds are found.
    fn made(
        alloc: Global,
        edges: Edges,
        alternatives: Vec<Alternatives>,
        kinds: Vec<usize>,
        ratio: u64,
        ceiling: u64,
    ) -> Result<Problem, OutOfMemory>
        requires each { length edges.latencies ≡ length alternatives.items }
        requires kinds { KnowsKinds alternatives.items kinds.items }
        requires ratio { (1 ≤ ratio) × (ratio ≤ MAX_RATIO) }
        requires ceiling { ceiling ≤ MAX_CEILING }
        ensures exact { IfOk result (IsProblemOf edges alternatives.items ratio ceiling) }
        ensures no_memory { IsOk result }
    {
        prove!(edges.operations() <= MAX_STATEMENTS);
        let resources = unit_bound::res_mii_of(alternatives.as_slice());
        let recurrences = walks::rec_mii(alloc, &edges)?;
        Ok(Problem {
            edges,
            alternatives,
            kinds,
            resources,
            recurrences,
            ratio,
            ceiling,
        })
    }

    /// A table of its operations at an interval of 1 to 16,384 cycles, with nothing placed. Where it is known which
    /// operations have the same alternatives, that is not sought.
    ///
    /// # Errors
    /// [`OutOfMemory`] where memory ran out.
    pub fn table<T: ModuloTable>(&self, alloc: Global, ii: u64) -> Result<T, OutOfMemory>
        requires some { 0 < ii }
        requires few { ii ≤ MAX_INTERVAL }
        ensures empty { IfOk result (λ table. T.placed table ≡ replicate (length self.now.operations) None) }
        ensures operations { IfOk result (λ table. T.operations table ≡ self.now.operations) }
        ensures interval { IfOk result (λ table. T.interval table ≡ ii) }
    {
        let operations = &self.alternatives;
        if self.kinds.is_empty() {
            return T::make(alloc, operations, ii);
        }
        T::of_kinds(alloc, operations, &self.kinds, ii)
    }

    /// The edges between the operations, and the operations' latencies.
    pub fn edges(&self) -> &Edges
        ensures value { result.now ≡ self.now.graph }
        ensures well_formed { IsProblem self.now }
    {
        &self.edges
    }

    /// The alternatives of each operation.
    pub fn alternatives(&self) -> &[Alternatives]
        ensures value { result.now ≡ self.now.operations }
        ensures well_formed { IsProblem self.now }
    {
        self.alternatives.as_slice()
    }

    /// The number of operations, 1 to 128.
    pub fn operations(&self) -> usize
        ensures value { result ≡ length self.now.operations }
        ensures well_formed { IsProblem self.now }
    {
        self.alternatives.len()
    }

    /// The least interval that is tried, in cycles, 1 to 8,192: the greater of the two lower bounds.
    pub fn mii(&self) -> u64
        ensures value { result ≡ mii_of self.now }
        ensures some { 1 ≤ result }
        ensures range { result ≤ 8192 }
        ensures well_formed { IsProblem self.now }
    {
        self.resources.max(self.recurrences)
    }

    /// The resource-constrained lower bound of the interval, in cycles, at most 2,048.
    pub fn resources(&self) -> u64
        ensures value { result ≡ self.now.resources }
        ensures well_formed { IsProblem self.now }
    {
        self.resources
    }

    /// The recurrence-constrained lower bound of the interval, in cycles, 1 to 8,192.
    pub fn recurrences(&self) -> u64
        ensures value { result ≡ self.now.recurrences }
        ensures well_formed { IsProblem self.now }
    {
        self.recurrences
    }

    /// How many times as many placements as operations an attempt may make, 1 to 64.
    pub fn ratio(&self) -> u64
        ensures value { result ≡ self.now.ratio }
        ensures well_formed { IsProblem self.now }
    {
        self.ratio
    }

    /// How many intervals above the least one are tried, 0 to 255.
    pub fn ceiling(&self) -> u64
        ensures value { result ≡ self.now.ceiling }
        ensures well_formed { IsProblem self.now }
    {
        self.ceiling
    }
}
