//! Words, kept.

ghost use Rattle.std.specs.Prelude.{◌≡◌, IfOk};

use machine_data::OutOfMemory;
use std::alloc::Global;
use std::marker::Model;

/// Some bytes, as of a name. Contracts see them as a list.
#[derive(Drop)]
pub struct Word {
    bytes: Vec<u8>,
}

impl Model for Word {
    ghost use Rattle.std.specs.Prelude.{ℕ, List};

    ghost Value = { List ℕ };

    ghost view = { λ w. w.bytes.items };
}

impl Word {
    /// The word with these bytes.
    pub fn new(bytes: Vec<u8>) -> Word
        ensures { result ≡ bytes.items }
    {
        Word { bytes }
    }

    /// A word with a copy of these bytes.
    pub fn of(alloc: Global, bytes: &[u8]) -> Result<Word, OutOfMemory>
        ensures { IfOk result (λ word. word ≡ bytes.now) }
    {
        let mut copy = Vec::new(alloc);
        copy.extend_from_slice(bytes)?;
        Ok(Word::new(copy))
    }

    /// The word's bytes.
    pub fn as_bytes(&self) -> &[u8]
        ensures { result.now ≡ self.now }
    {
        self.bytes.as_slice()
    }
}
