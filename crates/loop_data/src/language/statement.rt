//! The statements of a loop.

use crate::language::lists::Operands;
use machine_data::{Name, Opcode};

/// What a statement reads.
#[derive(Clone, Copy, PartialEq, Eq)]
pub enum Operand {
    /// This number.
    Constant(i64),
    /// The parameter of this number, from 0.
    Parameter(u8),
    /// The value of a statement, by its number, as it was `distance` iterations ago: 0 is this
    /// iteration. Before the first iteration it is the initial value of that number.
    Value { statement: u8, distance: u8 },
}

impl Default for Operand {
    ghost use Rattle.std.specs.Prelude.{pos, ◌≡◌};
    ghost use Rattle.loop_data.specs.declared.language.statement.Operand.TheVariants.{Constant};

    ghost is_default = { λ o. o ≡ Constant (pos 0) };

    fn default() -> Operand {
        Operand::Constant(0)
    }
}

/// A cell that moves with the iterations: in iteration `j` it is the array's cell `j + offset`.
#[derive(Clone, Copy, PartialEq, Eq)]
pub struct Place {
    /// The array's number, from 0.
    pub array: u8,
    /// Cells, -64 to 64.
    pub offset: i8,
}

/// One operation of an iteration.
///
/// A `load` has a name and a place, a `store` a place and one operand or, where it is guarded, two,
/// and every other opcode a name and as many operands as it takes.
#[derive(Drop)]
pub struct Statement {
    pub opcode: Opcode,
    /// The name of the value, of which a `store` has none.
    pub name: Option<Name>,
    /// The cell that a `load` reads and a `store` writes.
    pub place: Option<Place>,
    /// What the statement reads beside the place; the second operand of a `store` is its guard.
    pub operands: Operands,
}
