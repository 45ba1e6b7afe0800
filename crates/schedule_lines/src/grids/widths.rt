//! The widths of the first column, and of the last one with the numbers of live registers.

ghost use Rattle.std.specs.Prelude.{◌≡◌, ◌∷◌, codes, decimal, map};
ghost use Rattle.std.specs.List.{range_with_len};
ghost use Rattle.schedule_lines.specs.Columns.{width_of};

use crate::grids::cells::digits_of;

/// The width of the column of these numbers.
pub(crate) fn live_width(counts: &[u64]) -> usize
    ensures { result ≡ width_of (codes "live" ∷ map decimal counts.now) }
{
    let mut width = b"live".len();
    for count in counts {
        width = width.max(digits_of(*count));
    }
    width
}

/// The width of the column of the rows' numbers.
pub(crate) fn row_width(ii: u64) -> usize
    ensures { result ≡ width_of (codes "row" ∷ map decimal (range_with_len 0 ii)) }
{
    let mut width = b"row".len();
    for row in 0..ii {
        width = width.max(digits_of(row));
    }
    width
}
