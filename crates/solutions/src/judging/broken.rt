//! What solutions that are given break.

use schedules::Breach;

/// What lists of places and numbers break first, where they are no solution. Numbers count from 0.
#[derive(Clone, Copy, PartialEq, Eq)]
pub enum Broken {
    /// The interval is not 1 to 16,384 cycles.
    Interval,
    /// There is not one number for each value.
    Numbers,
    /// The number of this value is not below the registers of its rotating file, or in an unallotted file not 0.
    Number(usize),
    /// The places are no schedule.
    Schedule(Breach),
    /// Instances of two values, or two of one value, stand in one register in one cycle.
    Registers {
        /// The number of the file.
        file: usize,
        /// The number of the value that comes first.
        earlier: usize,
        /// The number of the other value, or the same one.
        later: usize,
        /// The register, of which the instance of iteration 0 of the later value takes its place.
        register: usize,
        /// A cycle in which both live, counted from the beginning of iteration 0.
        cycle: u64,
    },
}
