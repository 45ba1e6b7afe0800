//! Words where they stand in a line, before they are judged.

ghost use Rattle.std.specs.Prelude.{◌≡◌, ◌+◌, ◌<◌, ◌^◌, length};
ghost use Rattle.std.specs.List.{list_all};
ghost use Rattle.problem_lines.specs.Fits.{fault_on};
ghost use Rattle.problem_lines.specs.Names.{is_name, is_printable};

use crate::fault::LineFault;
use machine_data::limits::MAX_LABEL;
use problem_faults::Expected;

/// A word where it stands.
#[derive(Clone, Copy)]
pub(crate) struct Piece<'a> {
    pub bytes: &'a [u8],
    /// The column of its first byte, from 1.
    pub column: usize,
    /// Whether all its bytes may stand in a name.
    pub printable: bool,
    pub ghost room: { column + length bytes.now < 2 ^ 64 },
    pub ghost told: { printable ≡ list_all is_printable bytes.now },
}

impl<'a> Piece<'a> {
    /// The word is a name: 1 to 64 bytes of printable ASCII, none of them `#`.
    pub(crate) fn is_name(self) -> bool
        ensures { result ≡ is_name self.entry.bytes.now }
    {
        !self.bytes.is_empty() && self.bytes.len() <= MAX_LABEL && self.printable
    }

    /// The fault that this has to stand in its place.
    pub(crate) fn misfit(self, what: Expected) -> LineFault
        ensures { result ≡ fault_on what (record { bytes = self.entry.bytes.now; column = self.entry.column }) }
    {
        LineFault {
            column: self.column,
            width: self.bytes.len(),
            what,
        }
    }
}
