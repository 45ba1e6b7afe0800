//! What is left of a line, word by word.

ghost use Rattle.std.specs.Prelude.{◌≡◌, ◌==◌, [], ◌∷◌, None, true, codes, length, IfOk, MatchOption};
ghost use Rattle.problem_lines.specs.Fits.{fits, misfit, surplus};
ghost use Rattle.problem_lines.specs.Numbers.{integer_of, number_of};
ghost use Rattle.problem_lines.specs.Seen.{word_seen};
ghost use Rattle.problem_lines.specs.Lines.{after_out, is_word, places_fault};
ghost use Rattle.loop_lines.specs.Columns.{Placed, column_after};
ghost use Rattle.problem_lines.specs.Words.{left_of, word_at};
ghost use Rattle.problem_faults.specs.declared.expected.Expected.TheVariants as expected;
ghost use Rattle.problem_lines.specs.inner.Cursors.{offset_left, offset_places, starts_bar};
ghost use Rattle.problem_lines.specs.inner.Pieces.{fault_seen, placed};

use crate::fault::LineFault;
use crate::keyword::{is_text, keyword_of, solution_keyword_of};
use crate::names::{is_hold, is_name, is_unit_name};
use crate::number::{Integer, Number, integer_in};
use crate::piece::Piece;
use crate::scan::first_word;
use crate::word::Word;
use loop_lines::{int_of, number_of};
use problem_faults::Expected;
use std::marker::Model;

/// What is left of a line. Contracts see its words, and the column after those before it.
#[derive(Drop)]
pub(crate) struct Left<'a> {
    rest: &'a [u8],
    /// The column of the first byte of the rest: the one after the last word that was taken.
    column: usize,
}

impl<'a> Model for Left<'a> {
    ghost use Rattle.std.specs.Prelude.{◌+◌, ◌<◌, ◌^◌, length};
    ghost use Rattle.problem_lines.specs.Words.{LeftWords, left_of};

    ghost Value = { LeftWords };

    ghost view = { λ l. left_of l.column l.rest.now };

    ghost invariant = { λ l. l.column + length l.rest.now < 2 ^ 64 };
}

/// The word may stand where this is expected.
#[inline(always)]
fn fits(what: Expected, word: &[u8]) -> bool
    ensures { result ≡ fits what word.now }
{
    match what {
        Expected::Keyword => keyword_of(word).is_some(),
        Expected::Name => is_name(word),
        Expected::UnitName => is_unit_name(word),
        Expected::Number => number_of(word).is_some(),
        Expected::Integer => int_of(word).is_some(),
        Expected::Hold => is_hold(word),
        Expected::Latency => is_text(word, "latency"),
        Expected::Storage => is_text(word, "rotating") || is_text(word, "unallotted"),
        Expected::Bar => is_text(word, "|"),
        Expected::Of => is_text(word, "of"),
        Expected::Lands => is_text(word, "lands"),
        Expected::In => is_text(word, "in"),
        Expected::Distance => is_text(word, "distance"),
        Expected::Offset => is_text(word, "offset"),
        Expected::Delay => is_text(word, "delay"),
        Expected::SolutionKeyword => solution_keyword_of(word).is_some(),
        Expected::Ii => is_text(word, "ii"),
        Expected::Time => is_text(word, "time"),
        Expected::By => is_text(word, "by"),
        Expected::NumberWord => is_text(word, "number"),
        Expected::Nothing => false,
    }
}

/// The fault that this has to stand at a column where no word is left.
fn missing(column: usize, what: Expected) -> LineFault
    ensures { result ≡ record { column = column; width = 0; what = what } }
{
    LineFault {
        column,
        width: 0,
        what,
    }
}

impl<'a> Left<'a> {
    /// The whole of a line.
    pub(crate) fn new(line: &'a [u8]) -> Left<'a>
        ensures { result ≡ left_of 1 line.now }
    {
        Left {
            rest: line,
            column: 1,
        }
    }

    /// The same once more.
    pub(crate) fn copied(&self) -> Left<'a>
        ensures { result ≡ self.now }
    {
        Left {
            rest: self.rest,
            column: self.column,
        }
    }

    /// Takes the next word.
    pub(crate) fn next(&mut self) -> Option<Piece<'a>>
        ensures words { MatchOption result (self.old.words ≡ []) (λ p. self.old.words ≡ placed p ∷ self.new.words) }
        ensures after { MatchOption result (self.new ≡ self.old) (λ p. self.new.after ≡ column_after (placed p)) }
    {
        let (piece, rest) = first_word(self.rest, self.column)?;
        self.rest = rest;
        self.column = piece.column + piece.bytes.len();
        Some(piece)
    }

    /// No word is left.
    pub(crate) fn is_done(&self) -> bool
        ensures { result ≡ (length self.now.words == 0) }
    {
        first_word(self.rest, self.column).is_none()
    }

    /// Takes the next word, where this has to stand.
    ///
    /// # Errors
    /// There is none, or another.
    #[inline(always)]
    pub(crate) fn take(&mut self, what: Expected) -> Result<Piece<'a>, LineFault>
        ensures fault { fault_seen result ≡ misfit self.old.after what self.old.words }
        ensures word { IfOk result (λ p. self.old.words ≡ placed p ∷ self.new.words) }
        ensures fits { IfOk result (λ p. fits what p.bytes.now ≡ true) }
        ensures after { IfOk result (λ p. self.new.after ≡ column_after (placed p)) }
    {
        let column = self.column;
        match self.next() {
            None => Err(missing(column, what)),
            Some(piece) => if fits(what, piece.bytes) {
                Ok(piece)
            } else {
                Err(piece.misfit(what))
            },
        }
    }

    /// Takes the next word, which has to be a name.
    pub(crate) fn name(&mut self) -> Result<Word<'a>, LineFault>
        ensures fault { fault_seen result ≡ misfit self.old.after expected.Name self.old.words }
        ensures word { IfOk result (λ w. self.old.words ≡ word_seen w ∷ self.new.words) }
        ensures after { IfOk result (λ w. self.new.after ≡ column_after (word_seen w)) }
    {
        let column = self.column;
        match self.next() {
            None => Err(missing(column, Expected::Name)),
            Some(piece) => if piece.is_name() {
                Ok(Word {
                    bytes: piece.bytes,
                    column: piece.column,
                })
            } else {
                Err(piece.misfit(Expected::Name))
            },
        }
    }

    /// Takes the next word, which has to be a number.
    pub(crate) fn number(&mut self) -> Result<Number, LineFault>
        ensures fault { fault_seen result ≡ misfit self.old.after expected.Number self.old.words }
        ensures word { IfOk result (λ n. (w : Placed) × (self.old.words ≡ w ∷ self.new.words) × (n ≡ number_of w) × (self.new.after ≡ column_after w)) }
    {
        let column = self.column;
        let Some(piece) = self.next() else {
            return Err(missing(column, Expected::Number));
        };
        match number_of(piece.bytes) {
            Some(value) => Ok(Number {
                value,
                column: piece.column,
                width: piece.bytes.len(),
            }),
            None => Err(piece.misfit(Expected::Number)),
        }
    }

    /// Takes the next word, where this has to stand, and a number after it.
    #[inline(always)]
    pub(crate) fn number_after(&mut self, what: Expected) -> Result<Number, LineFault>
        ensures fault { fault_seen result ≡ places_fault (λ _. None) self.old.after (what ∷ expected.Number ∷ []) self.old.words }
        ensures word { IfOk result (λ n. (v w : Placed) × (self.old.words ≡ v ∷ w ∷ self.new.words) × (n ≡ number_of w) × (self.new.after ≡ column_after w)) }
    {
        self.take(what)?;
        self.number()
    }

    /// Takes the next word, where this has to stand, and a name after it.
    #[inline(always)]
    pub(crate) fn name_after(&mut self, what: Expected) -> Result<Word<'a>, LineFault>
        ensures fault { fault_seen result ≡ places_fault (λ _. None) self.old.after (what ∷ expected.Name ∷ []) self.old.words }
        ensures word { IfOk result (λ w. (v : Placed) × (self.old.words ≡ v ∷ word_seen w ∷ self.new.words) × (self.new.after ≡ column_after (word_seen w))) }
    {
        self.take(what)?;
        self.name()
    }

    /// Takes the last two words: this has to stand in place of the first, and the second has to be a number.
    #[inline(always)]
    pub(crate) fn last_number(&mut self, what: Expected) -> Result<Number, LineFault>
        ensures fault { fault_seen result ≡ places_fault surplus self.old.after (what ∷ expected.Number ∷ []) self.old.words }
        ensures word { IfOk result (λ n. (v w : Placed) × (self.old.words ≡ v ∷ w ∷ []) × (n ≡ number_of w)) }
    {
        self.take(what)?;
        let number = self.number()?;
        self.finish()?;
        Ok(number)
    }

    /// Takes the offset that may stand at the end of a line.
    #[inline(always)]
    pub(crate) fn offset(&mut self) -> Result<Option<Number>, LineFault>
        ensures fault { fault_seen result ≡ places_fault surplus self.old.after (offset_places self.old.words) self.old.words }
        ensures value { IfOk result (λ offset. offset ≡ offset_left self.old.words) }
    {
        if self.is_done() {
            return Ok(None);
        }
        Ok(Some(self.last_number(Expected::Offset)?))
    }

    /// Takes the next word, which has to be an integer.
    pub(crate) fn integer(&mut self) -> Result<Integer, LineFault>
        ensures fault { fault_seen result ≡ misfit self.old.after expected.Integer self.old.words }
        ensures word { IfOk result (λ n. (w : Placed) × (self.old.words ≡ w ∷ self.new.words) × (n ≡ integer_of w) × (self.new.after ≡ column_after w)) }
    {
        let piece = self.take(Expected::Integer)?;
        Ok(integer_in(piece.bytes, piece.column))
    }

    /// The next word is a bar.
    pub(crate) fn is_bar_next(&self) -> bool
        ensures { result ≡ starts_bar self.now.words }
    {
        match first_word(self.rest, self.column) {
            None => false,
            Some((piece, _)) => is_text(piece.bytes, "|"),
        }
    }

    /// Takes the next word if it is `out`. The result is whether it was.
    pub(crate) fn take_out(&mut self) -> bool
        ensures out { result ≡ is_word (word_at self.old.words 0) (codes "out") }
        ensures words { self.new.words ≡ after_out self.old.words }
    {
        match first_word(self.rest, self.column) {
            Some((piece, rest)) if is_text(piece.bytes, "out") => {
                self.rest = rest;
                self.column = piece.column + piece.bytes.len();
                true
            }
            _ => false,
        }
    }

    /// No word is left.
    ///
    /// # Errors
    /// There is one.
    pub(crate) fn finish(&self) -> Result<(), LineFault>
        ensures fault { fault_seen result ≡ surplus self.now.words }
        ensures done { IfOk result (λ _. self.now.words ≡ []) }
    {
        match first_word(self.rest, self.column) {
            None => Ok(()),
            Some((piece, _)) => Err(LineFault {
                column: piece.column,
                width: piece.bytes.len(),
                what: Expected::Nothing,
            }),
        }
    }
}
