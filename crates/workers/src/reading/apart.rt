//! A text read by workers.

ghost use Rattle.std.specs.Prelude.{◌≡◌, ◌<◌, ◌≤◌, ℕ, List, IfOk, IfSome, Ok, length, slice_index_or, vec_len};
ghost use Rattle.std.specs.Borrow.{Bor};
ghost use Rattle.std.specs.List.{All, AllZip};
ghost use Rattle.loop_data.specs.Loops.{IsLoop};
ghost use Rattle.loop_reader.specs.Meaning.{loops_in, seen};
ghost use Rattle.reader_faults.specs.LoopFaults.{LoopsAnswer};
ghost use Rattle.workers.specs.inner.Pieces.{IsRead, names_of};

use crate::reading::cutting::{piece_count, pieces_of};
use crate::reading::joining::{Read, joined};
use crate::reading::names::names_differ;
use loop_data::Loop;
use loop_reader::{LoopFault, read_loops};
use machine_data::limits::{MAX_LOOPS, MAX_TEXT};
use machine_data::{Name, OutOfMemory};
use shared_jobs::{Jobs, parts_of, shared};
use std::alloc::Global;
use std::thread::Threads;

/// About how much work it is to read a byte, in statements that are executed once.
const READ: u64 = 2;

/// The loops of a text, as [`read_loops`](loop_reader::read_loops) gives them, read by at most `workers` workers side by
/// side. One worker starts no thread, and neither does a text below 64 KiB. Where a piece of the text is at fault by itself, where
/// loops of two pieces have one name or are too many, and where memory is refused, the calling thread reads
/// the text as a whole, so that a fault is told with its line. Nothing that is answered depends on workers.
///
/// # Errors
/// Those of `read_loops`.
pub fn read_by_workers<R: Threads + Sync>(
    rt: &R,
    alloc: Global,
    text: &[u8],
    workers: usize,
) -> Result<Vec<Loop>, LoopFault>
    ensures exact { LoopsAnswer (seen result) (loops_in text.now) }
    ensures well_formed { IfOk result (λ loops. All IsLoop loops.items × (length loops.items ≤ MAX_LOOPS)) }
{
    match read_apart(rt, alloc, text, workers) {
        Some(loops) => Ok(loops),
        None => read_loops(alloc, text),
    }
}

/// The loops of a text, of which workers read pieces. It is `None` where the calling thread had better read the text.
pub(crate) fn read_apart<R: Threads + Sync>(
    rt: &R,
    alloc: Global,
    text: &[u8],
    workers: usize,
) -> Option<Vec<Loop>>
    ensures exact { IfSome result (λ loops. loops_in text.now ≡ Ok loops.items) }
    ensures well_formed { IfSome result (λ loops. All IsLoop loops.items × (length loops.items ≤ MAX_LOOPS)) }
{
    let count = piece_count(text.len(), workers);
    if count < 2 || text.len() > MAX_TEXT {
        return None;
    }
    let Ok(pieces) = pieces_of(alloc, text, count) else {
        return None;
    };
    let jobs = jobs_of(alloc, pieces.as_slice(), count)?;
    let Ok(read) = read_pieces(rt, alloc, pieces.as_slice(), &jobs) else {
        return None;
    };
    let Ok(Some(loops)) = joined(alloc, read) else {
        return None;
    };
    if loops.len() > MAX_LOOPS {
        return None;
    }
    let Ok(names) = names_of(alloc, loops.as_slice()) else {
        return None;
    };
    match names_differ(alloc, names.as_slice()) {
        Ok(true) => Some(loops),
        _ => None,
    }
}

/// The names of loops, in order.
fn names_of(alloc: Global, loops: &[Loop]) -> Result<Vec<Name>, OutOfMemory>
    ensures { IfOk result (λ names. names.items ≡ names_of loops.now) }
{
    let mut names = Vec::with_capacity(alloc, loops.len())?;
    for one in loops {
        names.push(one.name().copied())?;
    }
    Ok(names)
}

/// The jobs of pieces that are to be read.
pub(crate) fn jobs_of(alloc: Global, pieces: &[&[u8]], workers: usize) -> Option<Jobs>
    ensures each { IfSome result (λ s. vec_len s.list ≡ length pieces.now) }
    ensures within { IfSome result (λ s. All (λ (j : _). j.number < length pieces.now) s.list.items) }
{
    shared(
        alloc,
        pieces.len(),
        workers,
        &|number| { READ.saturating_mul(pieces[number].len() as u64) },
    )
}

/// What is read of each of these pieces, by these jobs.
fn read_pieces<R: Threads + Sync>(
    rt: &R,
    alloc: Global,
    pieces: &[&[u8]],
    jobs: &Jobs,
) -> Result<Vec<Read>, OutOfMemory>
    requires each { vec_len jobs.now.list ≡ length pieces.now }
    requires within { All (λ (j : _). j.number < length pieces.now) jobs.now.list.items }
    ensures { IfOk result (λ read. AllZip IsRead pieces.now read.items) }
{
    let read = parts_of(
        rt,
        alloc,
        jobs,
        &|number: usize| -> Result<Read, OutOfMemory>
            requires { number < length pieces.now }
            ensures { IfOk result (λ read. (d : Bor (List ℕ)) → IsRead (slice_index_or pieces.entry.now number d) read) }
        { read_piece(alloc, pieces, number) },
    )?;
    Ok(read)
}

/// What is read of the piece of a number.
fn read_piece(alloc: Global, pieces: &[&[u8]], number: usize) -> Result<Read, OutOfMemory>
    requires { number < length pieces.now }
    ensures { IfOk result (λ read. (d : Bor (List ℕ)) → IsRead (slice_index_or pieces.now number d) read) }
{
    Ok(read_loops(alloc, pieces[number]))
}
