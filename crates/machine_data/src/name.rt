//! Short names, kept in place.

ghost use Rattle.std.specs.Prelude.{◌≡◌, ◌<◌, ◌≤◌, ◌↔◌, length, IsSome, IfSome};

use crate::limits::MAX_NAME;
use arrayvec::ArrayString;
use std::fmt;
use std::marker::Model;

/// A name of 1 to 16 bytes, of a unit or of a part of a loop. Contracts see its bytes.
#[derive(Drop)]
pub struct Name {
    text: ArrayString<MAX_NAME>,
}

impl Model for Name {
    ghost use Rattle.std.specs.Prelude.{◌<◌, ◌≤◌, ℕ, List, length};

    ghost Value = { List ℕ };

    ghost view = { λ n. n.text.bytes };

    ghost invariant = { λ n. (0 < length n.text.bytes) × (length n.text.bytes ≤ 16) };
}

impl Name {
    /// The name with this text, where it has 1 to 16 bytes.
    pub fn new(text: &str) -> Option<Name>
        ensures fits { IsSome result ↔ ((0 < length text.now) × (length text.now ≤ MAX_NAME)) }
        ensures value { IfSome result (λ n. n ≡ text.now) }
    {
        if text.is_empty() {
            return None;
        }
        match ArrayString::from(text) {
            Ok(text) => Some(Name { text }),
            Err(_) => None,
        }
    }

    /// The name's text.
    pub fn as_str(&self) -> &str
        ensures value { result.now ≡ self.now }
        ensures some { 0 < length self.now }
        ensures short { length self.now ≤ MAX_NAME }
    {
        self.text.as_str()
    }

    /// The same name once more. Nothing is allocated.
    pub fn copied(&self) -> Name
        ensures { result ≡ self.now }
    {
        Name { text: self.text }
    }
}

impl fmt::Display for Name {
    ghost output = { λ n. Some n };

    ghost styled_output = { λ n style. Some (styled_text style n) };

    ghost use Rattle.std.specs.Prelude.{Some};
    ghost use Rattle.std.specs.Fmt.{styled_text};

    fn fmt<W: fmt::Write>(&self, f: &mut fmt::Formatter<W>) -> fmt::Result {
        f.pad(self.as_str())
    }
}

impl fmt::Debug for Name {
    ghost use Rattle.std.specs.Fmt.{debug_str};

    ghost debug_output = { debug_str };

    fn fmt<W: fmt::Write>(&self, f: &mut fmt::Formatter<W>) -> fmt::Result {
        fmt::Debug::fmt(self.as_str(), f)
    }
}
