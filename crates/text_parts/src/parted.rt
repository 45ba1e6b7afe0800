//! What a command writes, whole or in parts.

ghost use Rattle.std.specs.Prelude.{◌≡◌};
ghost use Rattle.text_parts.specs.Parted.{joined_text, text_in};

use std::marker::Model;
use written::Printout;

/// What a command writes: a text, or several, one after another. Contracts see all of it as one text, with whether every
/// loop is met.
#[derive(Drop)]
pub struct Parted {
    held: Held,
}

/// How it is held.
#[derive(Drop)]
enum Held {
    Whole(Printout),
    Texts(Texts),
}

/// Texts one after another, with whether every loop is met.
#[derive(Drop)]
struct Texts {
    texts: Vec<Vec<u8>>,
    all_met: bool,
}

/// The bytes of what a command writes, as they are held.
#[derive(Clone, Copy)]
pub enum Bytes<'a> {
    /// Of one text.
    Whole(&'a [u8]),
    /// Of texts, one after another.
    Texts(&'a [Vec<u8>]),
}

impl Model for Parted {
    ghost use Rattle.written.specs.Written.{Written};
    ghost use Rattle.text_parts.specs.inner.Held.{written_of};

    ghost Value = { Written };

    ghost view = { λ p. written_of p.held };
}

impl Parted {
    /// This printout alone.
    pub fn whole(printout: Printout) -> Parted
        ensures { result ≡ printout }
    {
        Parted {
            held: Held::Whole(printout),
        }
    }

    /// These texts, one after another, with whether every loop is met.
    pub fn of_texts(texts: Vec<Vec<u8>>, all_met: bool) -> Parted
        ensures text { result.text ≡ joined_text texts.items }
        ensures all_met { result.all_met ≡ all_met }
    {
        Parted {
            held: Held::Texts(Texts { texts, all_met }),
        }
    }

    /// Its bytes.
    pub fn bytes(&self) -> Bytes<'_>
        ensures { text_in result ≡ self.now.text }
    {
        match &self.held {
            Held::Whole(printout) => Bytes::Whole(printout.text()),
            Held::Texts(held) => Bytes::Texts(held.texts.as_slice()),
        }
    }

    /// Whether every loop is met.
    pub fn all_met(&self) -> bool
        ensures { result ≡ self.now.all_met }
    {
        match &self.held {
            Held::Whole(printout) => printout.all_met(),
            Held::Texts(held) => held.all_met,
        }
    }
}
