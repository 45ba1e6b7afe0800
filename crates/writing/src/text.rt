//! Texts that grow by pieces at their end.

ghost use Rattle.std.specs.Prelude.{◌≡◌, ℕ, List, ◌++◌, OnOk, OnErr};

use crate::OutOfMemory;

/// A text that grows. Contracts see its bytes.
pub trait Text {
    /// The bytes of the text.
    ghost bytes: { Self → List ℕ };

    /// Pushes a piece after the text.
    ///
    /// # Errors
    /// [`OutOfMemory`] where memory ran out. The text is what it was.
    fn push_piece(&mut self, piece: &str) -> Result<(), OutOfMemory>
        ensures ok { OnOk result (bytes self.new ≡ bytes self.old ++ piece.now) }
        ensures err { OnErr result (bytes self.new ≡ bytes self.old) };
}

impl Text for String {
    ghost use Rattle.std.specs.Prelude.{string_bytes};

    ghost bytes = { λ s. string_bytes s };

    fn push_piece(&mut self, piece: &str) -> Result<(), OutOfMemory> {
        self.push_str(piece)
    }
}

impl Text for Vec<u8> {
    ghost bytes = { λ v. v.items };

    fn push_piece(&mut self, piece: &str) -> Result<(), OutOfMemory> {
        self.extend_from_slice(piece.as_bytes())
    }
}
