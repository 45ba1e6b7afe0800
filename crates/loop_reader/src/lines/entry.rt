//! The lines of a block, as they are kept until its end is seen.

use loop_lines::Form;

/// A line that stands in a block.
#[derive(Clone, Copy)]
pub(crate) struct LineEntry<'a> {
    /// The line's number, from 1.
    pub(crate) line: usize,
    pub(crate) form: Form<'a>,
}
