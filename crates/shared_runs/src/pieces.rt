//! The lines of the arrays of a run, in pieces.

ghost use Rattle.std.specs.Prelude.{◌≡◌, ◌*◌, ◌<◌, IfOk, length};
ghost use Rattle.loop_data.specs.declared.language.lists.Array.{Array};
ghost use Rattle.loop_data.specs.Run.{HasShapeOf};
ghost use Rattle.shared_runs.specs.inner.Pieces.{ArePieces, piece_lines};

use crate::pool::Pool;
use lines_of_runs::push_stretch;
use loop_data::{Loop, Memory};
use machine_data::OutOfMemory;
use std::alloc::Global;

/// In how many pieces the lines of each array are written.
const PIECES: usize = 8;

/// How many pieces the lines of all arrays of a loop have.
pub(crate) fn count_of(innermost: &Loop) -> usize
    ensures { result ≡ length innermost.now.arrays * 8 }
{
    innermost.arrays().len() * PIECES
}

/// The first pieces of the arrays' lines, which one worker of a pool writes for as long as no other worker has to wait for that.
///
/// # Errors
/// Memory was refused.
pub(crate) fn first_pieces(
    alloc: Global,
    innermost: &Loop,
    after: &Memory,
    pool: &Pool,
) -> Result<Vec<Vec<u8>>, OutOfMemory>
    requires { HasShapeOf innermost.now after.now }
    ensures { IfOk result (λ pieces. ArePieces innermost.now after.now pieces.items) }
{
    pool.begin_lines();
    let pieces = pieces_for_now(alloc, innermost, after, pool);
    pool.end_lines();
    pieces
}

/// The same, by a worker that the pool counts among those who write.
fn pieces_for_now(
    alloc: Global,
    innermost: &Loop,
    after: &Memory,
    pool: &Pool,
) -> Result<Vec<Vec<u8>>, OutOfMemory>
    requires { HasShapeOf innermost.now after.now }
    ensures { IfOk result (λ pieces. ArePieces innermost.now after.now pieces.items) }
{
    let mut pieces = Vec::new(alloc);
    for number in 0..count_of(innermost) {
        if pool.others_wait() {
            break;
        }
        pieces.push(piece_text(alloc, innermost, after, number)?)?;
    }
    Ok(pieces)
}

/// The lines of a piece of an array.
///
/// # Errors
/// Memory was refused.
pub(crate) fn piece_text(
    alloc: Global,
    innermost: &Loop,
    after: &Memory,
    number: usize,
) -> Result<Vec<u8>, OutOfMemory>
    requires shape { HasShapeOf innermost.now after.now }
    requires within { number < length innermost.now.arrays * 8 }
    ensures { IfOk result (λ text. (d : Array) → text.items ≡ piece_lines innermost.now after.now d number) }
{
    let array = number / PIECES;
    let piece = number % PIECES;
    let cells = after.cells(array).len();
    let size = cells / PIECES + 1;
    let from = cells.min(piece * size);
    let end = cells.min((piece + 1) * size);
    let mut text = Vec::new(alloc);
    push_stretch(&mut text, innermost, after, array, from, end)?;
    Ok(text)
}
