//! Names where they stand in a line.

ghost use Rattle.std.specs.Prelude.{◌≡◌, true};
ghost use Rattle.problem_lines.specs.Names.{is_name};

use problems::Label;

/// A name where it stands: 1 to 64 bytes of printable ASCII, none of them `#`.
#[derive(Clone, Copy)]
pub struct Word<'a> {
    /// Its text.
    pub bytes: &'a [u8],
    /// The column of its first byte, from 1.
    pub column: usize,
    /// It is a name.
    pub ghost named: { is_name bytes.now ≡ true },
}

impl<'a> Word<'a> {
    /// The name as a label. Nothing is allocated.
    pub fn label(self) -> Label
        ensures { result ≡ self.entry.bytes.now }
    {
        Label::of_name(self.bytes)
    }
}
