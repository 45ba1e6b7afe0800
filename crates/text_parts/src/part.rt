//! A part of a text.

ghost use Rattle.std.specs.Prelude.{◌≡◌, ℕ, List};

/// A part that has a text. Contracts see its bytes.
pub trait HasText: Drop {
    ghost bytes: { Self → List ℕ };

    /// Its text.
    fn text(&self) -> &[u8]
        ensures { result.now ≡ bytes self.now };

    /// Its text, without a copy.
    fn into_text(self) -> Vec<u8>
        ensures { result.items ≡ bytes self };
}

/// What is written of a loop.
#[derive(Drop)]
pub struct Part {
    /// The text.
    pub text: Vec<u8>,
    /// Whether the loop is met.
    pub met: bool,
}

impl HasText for Part {
    ghost use Rattle.text_parts.specs.Parts.{text_of};

    ghost bytes = { text_of };

    fn text(&self) -> &[u8] {
        self.text.as_slice()
    }

    fn into_text(self) -> Vec<u8> {
        self.text
    }
}

impl HasText for Vec<u8> {
    ghost bytes = { λ text. text.items };

    fn text(&self) -> &[u8] {
        self.as_slice()
    }

    fn into_text(self) -> Vec<u8> {
        self
    }
}
