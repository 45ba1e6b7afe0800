//! A text with the marks of the words that are sought in it.

ghost use Rattle.std.specs.Prelude.{◌≡◌, ◌+◌, ◌<◌, ◌≤◌, ◌^◌, length, option_map, IfSome, OnOk};
ghost use Rattle.std.specs.List.{All};
ghost use Rattle.machine_lint.specs.Words.{inside_from, key_from, table_from};
ghost use Rattle.machine_lint.specs.inner.Marks.{mark_at};
ghost use Rattle.machine_lint.specs.inner.Sought.{IsAnswer};

use crate::place::{Place, place_at};
use crate::search::find_key;
use crate::sought::answers::{Answer, Asked, answer_of, find_marks, sort_asked, unanswered};
use machine::OutOfMemory;
use std::alloc::Global;
use std::marker::Model;

/// An offset at which a word stands, with its line and its column.
#[derive(Clone, Copy)]
pub(crate) struct Mark {
    pub(crate) at: usize,
    pub(crate) place: Place,
}

/// A text with the marks of words that have been sought in it. Contracts see the text.
#[derive(Drop)]
pub(crate) struct Indexed<'a> {
    text: &'a [u8],
    /// Where words stand that have been sought, by their words and offsets.
    answers: Vec<Answer<'a>>,
}

impl<'a> Model for Indexed<'a> {
    ghost use Rattle.std.specs.Prelude.{ℕ, List};
    ghost use Rattle.std.specs.List.{All};
    ghost use Rattle.machine_lint.specs.inner.Sought.{IsAnswer};

    ghost Value = { List ℕ };

    ghost view = { λ i. i.text.now };

    ghost invariant = { λ i. All (IsAnswer i.text.now) i.answers.items };
}

/// The mark of an offset.
fn mark_at(text: &[u8], at: usize) -> Mark
    requires inside { at ≤ length text.now }
    requires short { length text.now < 2 ^ 32 }
    ensures { result ≡ mark_at text.now at }
{
    Mark {
        at,
        place: place_at(text, at),
    }
}

/// The mark of the first place from an offset on at which a word stands as a key does, or at all.
fn mark_from(text: &[u8], word: &str, from: usize) -> Option<Mark>
    requires short { length text.now < 2 ^ 32 }
    ensures { result ≡ option_map (mark_at text.now) (key_from text.now word.now from) }
{
    let at = find_key(text, word, from)?;
    Some(mark_at(text, at))
}

/// The same, which is told at once where the word has been sought from that offset on.
fn find_word(text: &[u8], answers: &[Answer<'_>], word: &str, from: usize) -> Option<Mark>
    requires short { length text.now < 2 ^ 32 }
    requires right { All (IsAnswer text.now) answers.now }
    ensures { result ≡ option_map (mark_at text.now) (key_from text.now word.now from) }
{
    match answer_of(answers, word.as_bytes(), from) {
        Some(mark) => mark,
        None => mark_from(text, word, from),
    }
}

impl<'a> Indexed<'a> {
    /// The text, in which nothing has been sought yet.
    pub(crate) fn new(alloc: Global, text: &'a [u8]) -> Indexed<'a>
        ensures { result ≡ text.now }
    {
        Indexed {
            text,
            answers: Vec::new(alloc),
        }
    }

    /// Finds where words stand from offsets on, all in one walk, so that each is told at once. They are put in their order.
    pub(crate) fn seek(&mut self, asked: &mut Vec<Asked<'a>>) -> Result<(), OutOfMemory>
        requires short { length self.now < 2 ^ 32 }
        ensures { OnOk result (self.new ≡ self.old) }
    {
        sort_asked(asked)?;
        let alloc = *self.answers.allocator();
        self.answers = unanswered(alloc, asked.as_slice())?;
        find_marks(alloc, self.text, self.answers.as_mut_slice())
    }

    /// The first place from an offset on at which a word stands as a key does, or at all.
    pub(crate) fn find_key(&self, word: &str, from: usize) -> Option<Mark>
        requires short { length self.now < 2 ^ 32 }
        ensures is { result ≡ option_map (mark_at self.now) (key_from self.now word.now from) }
        ensures inside { IfSome result (λ mark. mark.at < length self.now) }
    {
        find_word(self.text, self.answers.as_slice(), word, from)
    }

    /// The place of a word after the first `ops`.
    pub(crate) fn find_table(&self, word: &str) -> Option<Mark>
        requires short { length self.now < 2 ^ 32 }
        ensures is { result ≡ option_map (mark_at self.now) (table_from self.now word.now) }
        ensures inside { IfSome result (λ mark. mark.at < length self.now) }
    {
        match self.find_key("ops", 0) {
            Some(mark) => self.find_key(word, mark.at + 3),
            None => None,
        }
    }

    /// The place of a key after the word of its table.
    pub(crate) fn find_in_table(&self, word: &str, key: &str) -> Option<Mark>
        requires short { length self.now < 2 ^ 32 }
        ensures is { result ≡ option_map (mark_at self.now) (inside_from self.now word.now key.now) }
    {
        match self.find_table(word) {
            Some(mark) => self.find_key(key, mark.at + word.len()),
            None => None,
        }
    }
}
