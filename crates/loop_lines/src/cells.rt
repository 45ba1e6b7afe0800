//! The cells of an array line.

ghost use Rattle.std.specs.Prelude.{◌≡◌, ◌||◌, ◌≤◌, ℕ, List, [], ◌∷◌, IfOk, IfSome, MatchOption, if◌then◌else◌, true, is_none, length, map, nat_lt, option_map, pos, unwrap_or};
ghost use Rattle.std.specs.List.{list_any};
ghost use Rattle.loop_lines.specs.Cells.{are_wide, cells_seen};
ghost use Rattle.loop_lines.specs.Forms.{int_of, ints_of, is_number};
ghost use Rattle.loop_lines.specs.Words.{words_of};

use crate::feeds::count_digits;
use crate::number::{int_of, short_int};
use crate::words::{after_byte, begins_stop, next_word, without_space};
use machine_data::OutOfMemory;
use machine_data::limits::MAX_CELLS;
use std::alloc::Global;

/// The words of an array line after `=`. They are marked where they are wide, so that the others are
/// not looked through again.
#[derive(Clone, Copy)]
pub struct CellWords<'a> {
    words: &'a [u8],
    /// How many they are, for the room that their cells take.
    count: usize,
    wide: bool,
}

/// Whether a `-` stands in front, and what follows it.
#[inline(always)]
fn sign_of(word: &[u8]) -> (bool, &[u8])
    ensures { word.now ≡ (if result.0 then 45 ∷ result.1.now else result.1.now) }
{
    match after_byte(word, b'-') {
        Some(more) => (true, more),
        None => (false, word),
    }
}

/// The first word, where it is an integer of sixteen digits at most after at most one space: whether
/// it has a `-`, its digits, and what follows it. Cells are mostly written so, and found faster so than
/// as words.
#[inline(always)]
fn short_cell(rest: &[u8]) -> Option<(bool, &[u8], &[u8])>
    ensures words { IfSome result (λ x. words_of rest.now ≡ (if x.0 then 45 ∷ x.1.now else x.1.now) ∷ words_of x.2.now) }
    ensures number { IfSome result (λ x. is_number x.1.now ≡ true) }
    ensures few { IfSome result (λ x. length x.1.now ≤ 16) }
{
    let (negative, unsigned) = sign_of(without_space(rest));
    let count = count_digits(unsigned);
    if count == 0 {
        return None;
    }
    let (digits, after) = unsigned.split_at(count);
    if begins_stop(after) {
        Some((negative, digits, after))
    } else {
        None
    }
}

/// The cell that the first word is, however it is written, and what follows it.
#[inline(never)]
fn word_cell(rest: &[u8]) -> Option<(Option<Option<i64>>, &[u8])>
    ensures { MatchOption result (words_of rest.now ≡ [])
        (λ x. (word : List ℕ) × (words_of rest.now ≡ word ∷ words_of x.1.now) × (x.0 ≡ int_of word)) }
{
    let (word, after) = next_word(rest)?;
    Some((int_of(word.bytes), after))
}

/// The cell that the first word is, and what follows it.
#[inline(always)]
fn next_cell(rest: &[u8]) -> Option<(Option<Option<i64>>, &[u8])>
    ensures { MatchOption result (words_of rest.now ≡ [])
        (λ x. (word : List ℕ) × (words_of rest.now ≡ word ∷ words_of x.1.now) × (x.0 ≡ int_of word)) }
{
    if let Some((negative, digits, after)) = short_cell(rest) {
        return Some((Some(Some(short_int(negative, digits))), after));
    }
    word_cell(rest)
}

/// Words that are integers: how many, and whether some does not fit 64 bits or there are too many.
fn measure(rest: &[u8]) -> Option<(usize, bool)>
    ensures { result ≡ option_map (λ cells. (length cells, are_wide cells)) (ints_of (words_of rest.now)) }
{
    let mut wide = false;
    let mut count = 0;
    let mut left = rest;
    while let Some((cell, after)) = next_cell(left) {
        let value = cell?;
        wide = wide || value.is_none();
        count += 1;
        left = after;
    }
    let wide = wide || count > MAX_CELLS;
    Some((count, wide))
}

/// The words of a rest of a line, where they are integers.
pub(crate) fn cell_words(rest: &[u8]) -> Option<CellWords<'_>>
    ensures { option_map cells_seen result ≡ ints_of (words_of rest.now) }
{
    let (count, wide) = measure(rest)?;
    Some(CellWords {
        words: rest,
        count,
        wide,
    })
}

/// Some cell does not fit 64 bits, or there are too many.
pub fn are_wide(cells: CellWords<'_>) -> bool
    ensures { result ≡ (list_any is_none (cells_seen cells.entry) || nat_lt 1024 (length (cells_seen cells.entry))) }
{
    cells.wide && matches!(measure(cells.words), Some((_, true)))
}

/// The cells.
pub fn cells_of(alloc: Global, words: CellWords<'_>) -> Result<Vec<i64>, OutOfMemory>
    ensures { IfOk result (λ cells. cells.items ≡ map (λ cell. unwrap_or cell (pos 0)) (cells_seen words.entry)) }
{
    let mut cells = Vec::with_capacity(alloc, words.count)?;
    let mut wide = false;
    let mut left = words.words;
    while let Some((cell, after)) = next_cell(left) {
        let Some(value) = cell else {
            return Ok(Vec::new(alloc));
        };
        wide = wide || value.is_none();
        cells.push(value.unwrap_or(0))?;
        left = after;
    }
    if !words.wide && (wide || cells.len() > MAX_CELLS) {
        cells.clear();
    }
    Ok(cells)
}
