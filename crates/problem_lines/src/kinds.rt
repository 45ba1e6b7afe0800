//! The alternatives of a `kind` line, and their holds.

ghost use Rattle.std.specs.Prelude.{◌≡◌, ◌<◌, [], ◌∷◌, length, true, false, Some, IfOk, MatchOption, MatchResult};
ghost use Rattle.problem_lines.specs.Lines.{alternatives_in, holds_in};
ghost use Rattle.problem_lines.specs.Names.{is_hold, is_unit_name};
ghost use Rattle.problem_lines.specs.Seen.{hold_seen};
ghost use Rattle.problem_lines.specs.inner.Cursors.{are_holds, holds_fault};
ghost use Rattle.problem_lines.specs.inner.Pieces.{fault_seen, placed};
ghost use Rattle.problem_lines.specs.Forms.{hold_of};

use crate::fault::LineFault;
use crate::keyword::is_text;
use crate::left::Left;
use crate::names::split_hold;
use crate::number::{Number, number_in};
use crate::piece::Piece;
use crate::word::Word;
use problem_faults::Expected;
use std::marker::Model;

/// A unit that is held.
#[derive(Clone, Copy)]
pub struct HoldWord<'a> {
    /// The unit's name, which has no `@` and no `|`.
    pub unit: Word<'a>,
    /// How many cycles after the issue it is held, where the text says so; else 0.
    pub offset: Option<Number>,
}

/// The holds of an alternative, from left to right. Contracts see those that are left.
#[derive(Drop)]
pub struct Holds<'a> {
    left: Left<'a>,
}

impl<'a> Model for Holds<'a> {
    ghost use Rattle.std.specs.Prelude.{◌≡◌, List, true};
    ghost use Rattle.problem_lines.specs.Forms.{HoldForm};
    ghost use Rattle.problem_lines.specs.Lines.{holds_in};
    ghost use Rattle.problem_lines.specs.inner.Cursors.{are_holds};

    ghost Value = { List HoldForm };

    ghost view = { λ h. holds_in h.left.words };

    ghost invariant = { λ h. are_holds h.left.words ≡ true };
}

/// The alternatives of a `kind` line, from left to right. Contracts see those that are left.
#[derive(Drop)]
pub struct Alternatives<'a> {
    left: Left<'a>,
}

impl<'a> Model for Alternatives<'a> {
    ghost use Rattle.std.specs.Prelude.{◌≡◌, List, true};
    ghost use Rattle.problem_lines.specs.Forms.{HoldForm};
    ghost use Rattle.problem_lines.specs.Lines.{alternatives_in};
    ghost use Rattle.problem_lines.specs.inner.Cursors.{are_holds};

    ghost Value = { List (List HoldForm) };

    ghost view = { λ a. alternatives_in a.left.words };

    ghost invariant = { λ a. are_holds a.left.words ≡ true };
}

/// What a word that is a hold says.
fn hold_in(piece: Piece<'_>) -> HoldWord<'_>
    requires { is_hold piece.bytes.now ≡ true }
    ensures value { hold_seen result ≡ hold_of (placed piece.entry) }
    ensures unit { is_unit_name result.unit.bytes.now ≡ true }
{
    match split_hold(piece.bytes) {
        None => HoldWord {
            unit: Word {
                bytes: piece.bytes,
                column: piece.column,
            },
            offset: None,
        },
        Some((unit, digits)) => HoldWord {
            unit: Word {
                bytes: unit,
                column: piece.column,
            },
            offset: Some(number_in(digits, piece.column + unit.len() + 1)),
        },
    }
}

impl<'a> Holds<'a> {
    /// The next hold of the alternative.
    pub fn next_hold(&mut self) -> Option<HoldWord<'a>>
        ensures holds { MatchOption result (self.old ≡ []) (λ h. self.old ≡ hold_seen h ∷ self.new) }
        ensures end { MatchOption result (self.new ≡ []) (λ h. is_unit_name h.unit.bytes.now ≡ true) }
    {
        if self.left.is_bar_next() {
            return None;
        }
        let piece = self.left.next()?;
        Some(hold_in(piece))
    }
}

impl<'a> Alternatives<'a> {
    /// Alternatives that are left of a line.
    pub(crate) fn of(left: Left<'a>) -> Alternatives<'a>
        requires { are_holds left.words ≡ true }
        ensures { result ≡ alternatives_in left.entry.words }
    {
        Alternatives { left }
    }

    /// The holds of the next alternative. It passes over those of the one before.
    pub fn next_alternative(&mut self) -> Option<Holds<'a>>
        ensures alternatives { MatchOption result (self.old ≡ []) (λ holds. self.old ≡ holds ∷ self.new) }
        ensures end { MatchOption result (self.new ≡ []) (λ holds. Unit {0}) }
    {
        while let Some(piece) = self.left.next() {
            if is_text(piece.bytes, "|") {
                return Some(Holds {
                    left: self.left.copied(),
                });
            }
        }
        None
    }
}

/// Takes a hold, or a bar where a hold stands before it. The result is whether it was a bar.
fn take_hold_or_bar(left: &mut Left<'_>, first: bool) -> Result<bool, LineFault>
    requires { first ≡ false → 0 < length left.old.words }
    ensures fault { MatchResult result (λ bar. holds_fault first left.old ≡ holds_fault bar left.new) (λ fault. holds_fault first left.old ≡ Some fault) }
    ensures shorter { IfOk result (λ _. length left.new.words < length left.old.words) }
    ensures sound { IfOk result (λ _. are_holds left.new.words ≡ true → are_holds left.old.words ≡ true) }
{
    if !first && left.is_bar_next() {
        left.take(Expected::Bar)?;
        return Ok(true);
    }
    left.take(Expected::Hold)?;
    Ok(false)
}

/// Takes the alternatives that are left of a line, after the first one's bar.
pub(crate) fn take_holds(left: &mut Left<'_>) -> Result<(), LineFault>
    ensures fault { fault_seen result ≡ holds_fault true left.old }
    ensures sound { IfOk result (λ _. are_holds left.old.words ≡ true) }
{
    let mut first = true;
    while first || !left.is_done() {
        match take_hold_or_bar(left, first) {
            Ok(bar) => first = bar,
            Err(fault) => return Err(fault),
        }
    }
    Ok(())
}
