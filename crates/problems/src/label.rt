//! Names of the parts of a scheduling problem, kept in place.

ghost use Rattle.std.specs.Prelude.{◌≡◌, ◌↔◌, IsSome, IfSome, IsTrue};
ghost use Rattle.problems.specs.Labels.{IsLabel, IsPrintable};

use arrayvec::ArrayString;
use machine_data::limits::MAX_LABEL;
use std::fmt;
use std::marker::Model;

/// A name of 1 to 64 bytes, each of printable ASCII (33 to 126) but `#`. Contracts see its bytes.
#[derive(Drop)]
pub struct Label {
    text: ArrayString<MAX_LABEL>,
}

impl Model for Label {
    ghost use Rattle.std.specs.Prelude.{ℕ, List};
    ghost use Rattle.problems.specs.Labels.{IsLabel};

    ghost Value = { List ℕ };

    ghost view = { λ l. l.text.bytes };

    ghost invariant = { λ l. IsLabel l.text.bytes };
}

/// Whether a name may have this byte.
fn is_printable(byte: u8) -> bool
    ensures { IsTrue result ↔ IsPrintable byte }
{
    (33..=126).contains(&byte) && byte != b'#'
}

impl Label {
    /// The name with this text. `None` exactly where the text is no name: where it has no byte or more than
    /// 64, or one that is not of printable ASCII or is `#`.
    pub fn new(text: &str) -> Option<Label>
        ensures fits { IsSome result ↔ IsLabel text.now }
        ensures value { IfSome result (λ label. label ≡ text.now) }
    {
        if text.is_empty() || !text.as_bytes().iter().all(|byte| is_printable(*byte)) {
            return None;
        }
        match ArrayString::from(text) {
            Ok(text) => Some(Label { text }),
            Err(_) => None,
        }
    }

    /// The name with these bytes, which are known to be one: they are not tested again.
    pub fn of_name(bytes: &[u8]) -> Label
        requires { IsLabel bytes.now }
        ensures { result ≡ bytes.now }
    {
        // (they are ASCII)
        let text = unsafe { std::str::from_utf8_unchecked(bytes) };
        match ArrayString::from(text) {
            Ok(text) => Label { text },
            Err(_) => unreachable!(),
        }
    }

    /// The name's text.
    pub fn as_str(&self) -> &str
        ensures value { result.now ≡ self.now }
        ensures well_formed { IsLabel self.now }
    {
        self.text.as_str()
    }

    /// The same name once more. Nothing is allocated.
    pub fn copied(&self) -> Label
        ensures { result ≡ self.now }
    {
        Label { text: self.text }
    }
}

impl fmt::Display for Label {
    ghost output = { λ l. Some l };

    ghost styled_output = { λ l style. Some (styled_text style l) };

    ghost use Rattle.std.specs.Prelude.{Some};
    ghost use Rattle.std.specs.Fmt.{styled_text};

    fn fmt<W: fmt::Write>(&self, f: &mut fmt::Formatter<W>) -> fmt::Result {
        f.pad(self.as_str())
    }
}

impl fmt::Debug for Label {
    ghost use Rattle.std.specs.Fmt.{debug_str};

    ghost debug_output = { debug_str };

    fn fmt<W: fmt::Write>(&self, f: &mut fmt::Formatter<W>) -> fmt::Result {
        fmt::Debug::fmt(self.as_str(), f)
    }
}
