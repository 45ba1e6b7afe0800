//! The short lists that a loop is made of.

use crate::language::statement::Operand;
use crate::list::ListOf;
use crate::short_list::ShortListOf;
use machine_data::Name;

/// What a statement reads, in text order. Contracts see the list.
pub type Operands = ShortListOf<Operand>;

/// The cells that are written for an array before the first iteration, from cell 0 on. Contracts see
/// the list.
pub type Cells = ListOf<i64>;

/// An array.
#[derive(Drop)]
pub struct Array {
    pub name: Name,
    /// At most 1,024 cells.
    pub cells: Cells,
}

/// A parameter, which has one value in every iteration.
#[derive(Drop)]
pub struct Param {
    pub name: Name,
    pub value: i64,
}

/// An initial value: what the value of a statement was `number` iterations before the first one.
#[derive(Clone, Copy, PartialEq, Eq)]
pub struct Initial {
    /// The statement's number, from 0.
    pub statement: u8,
    /// Iterations, 1 to 16.
    pub number: u8,
    pub value: i64,
}
