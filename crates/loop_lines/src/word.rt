//! A word of a line.

ghost use Rattle.std.specs.Prelude.{◌≡◌, not};
ghost use Rattle.std.specs.List.{position_or_len};
ghost use Rattle.loop_data.specs.Names.{is_name_byte};

/// A word, and how many bytes in front of it may stand in a name. They are counted where its end is
/// found, so that names are looked through once.
#[derive(Clone, Copy)]
pub(crate) struct Word<'a> {
    pub(crate) bytes: &'a [u8],
    pub(crate) named: usize,
    ghost counted: { named ≡ position_or_len (λ c. not (is_name_byte c)) bytes.now },
}
