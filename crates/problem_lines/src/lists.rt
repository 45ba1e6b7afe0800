//! The names of a `units` line.

ghost use Rattle.std.specs.Prelude.{◌≡◌, [], ◌∷◌, true, IfOk, IfSome, MatchOption};
ghost use Rattle.problem_lines.specs.Fits.{surplus};
ghost use Rattle.problem_lines.specs.Lines.{places_fault, unit_places};
ghost use Rattle.problem_lines.specs.Names.{is_unit_name};
ghost use Rattle.problem_lines.specs.Seen.{word_seen};
ghost use Rattle.problem_lines.specs.inner.Cursors.{are_unit_names};
ghost use Rattle.problem_lines.specs.inner.Pieces.{fault_seen};

use crate::fault::LineFault;
use crate::left::Left;
use crate::word::Word;
use problem_faults::Expected;
use std::marker::Model;

/// The names of a `units` line, from left to right. Contracts see those that are left.
#[derive(Drop)]
pub struct UnitNames<'a> {
    left: Left<'a>,
}

impl<'a> Model for UnitNames<'a> {
    ghost use Rattle.std.specs.Prelude.{◌≡◌, List, true};
    ghost use Rattle.loop_lines.specs.Columns.{Placed};
    ghost use Rattle.problem_lines.specs.inner.Cursors.{are_unit_names};

    ghost Value = { List Placed };

    ghost view = { λ u. u.left.words };

    ghost invariant = { λ u. are_unit_names u.left.words ≡ true };
}

impl<'a> UnitNames<'a> {
    /// Names that are left of a line.
    pub(crate) fn of(left: Left<'a>) -> UnitNames<'a>
        requires { are_unit_names left.words ≡ true }
        ensures { result ≡ left.entry.words }
    {
        UnitNames { left }
    }

    /// The next name, which has no `@` and no `|`.
    pub fn next_name(&mut self) -> Option<Word<'a>>
        ensures names { MatchOption result (self.old ≡ []) (λ w. self.old ≡ word_seen w ∷ self.new) }
        ensures end { MatchOption result (self.new ≡ []) (λ w. is_unit_name w.bytes.now ≡ true) }
    {
        let piece = self.left.next()?;
        Some(Word {
            bytes: piece.bytes,
            column: piece.column,
        })
    }
}

/// Takes the names that are left of a line, of which there has to be one at least.
pub(crate) fn take_units(left: &mut Left<'_>) -> Result<(), LineFault>
    ensures fault { fault_seen result ≡ places_fault surplus left.old.after (unit_places left.old.words) left.old.words }
    ensures sound { IfOk result (λ _. are_unit_names left.old.words ≡ true) }
{
    if let Err(fault) = left.take(Expected::UnitName) {
        return Err(fault);
    }
    while !left.is_done() {
        if let Err(fault) = left.take(Expected::UnitName) {
            return Err(fault);
        }
    }
    Ok(())
}
