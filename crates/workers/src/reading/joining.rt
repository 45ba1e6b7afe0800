//! The loops of pieces, put together.

ghost use Rattle.std.specs.Prelude.{◌≡◌, ◌++◌, IfOk, MatchOption, OnOk};
ghost use Rattle.workers.specs.inner.Pieces.{AreJoined, HasFault};

use loop_data::Loop;
use loop_reader::LoopFault;
use machine_data::OutOfMemory;
use std::alloc::Global;

/// What is read of a piece.
pub(crate) type Read = Result<Vec<Loop>, LoopFault>;

/// The loops of all pieces, in the order of the pieces, or `None` where a piece is at fault. The loops are moved.
pub(crate) fn joined(alloc: Global, read: Vec<Read>) -> Result<Option<Vec<Loop>>, OutOfMemory>
    ensures { IfOk result (λ joined. MatchOption joined (HasFault read.items) (λ loops. AreJoined read.items loops.items)) }
{
    let mut loops = Vec::new(alloc);
    let mut parts = read.into_iter();
    while let Some(part) = parts.next() {
        let Ok(part) = part else {
            return Ok(None);
        };
        if let Err(fault) = add_part(&mut loops, part) {
            return Err(fault);
        }
    }
    Ok(Some(loops))
}

/// Adds the loops of a piece.
fn add_part(loops: &mut Vec<Loop>, mut part: Vec<Loop>) -> Result<(), OutOfMemory>
    ensures { OnOk result (loops.new.items ≡ loops.old.items ++ part.items) }
{
    loops.append(&mut part)
}
