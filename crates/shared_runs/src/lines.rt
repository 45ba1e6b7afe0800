//! The lines of all that workers made of loops, in order.

ghost use Rattle.std.specs.Prelude.{◌≡◌, ◌-◌, ◌*◌, ◌<◌, ◌≤◌, ◌++◌, IfOk, OnOk, length, slice_index_or};
ghost use Rattle.std.specs.List.{All, flat_map, range_with_len};
ghost use Rattle.loop_data.specs.declared.language.lists.Array.{Array};
ghost use Rattle.loop_data.specs.Loops.{LoopData};
ghost use Rattle.loop_data.specs.Run.{HasShapeOf, opening_of};
ghost use Rattle.lines_of_runs.specs.Plain.{run_lines};
ghost use Rattle.shared_runs.specs.inner.Lines.{AreWritten, IsPiece, bytes_in, bytes_left};
ghost use Rattle.shared_runs.specs.inner.Made.{Fits, bytes_of};
ghost use Rattle.shared_runs.specs.inner.Pieces.{ArePieces, piece_lines};
ghost use Rattle.text_parts.specs.Parted.{joined_text};

use crate::made::Made;
use crate::pieces::{count_of, piece_text};
use lines_of_runs::{push_head, push_outs};
use loop_data::{Loop, Memory};
use machine_data::OutOfMemory;
use shared_jobs::{parts_of, shared};
use std::alloc::Global;
use std::sync::Arc;
use std::thread::Threads;

/// Lines that stand together in what `plain` writes.
#[derive(Drop)]
pub(crate) enum Lines<'a> {
    /// They are written.
    Written(Vec<u8>),
    /// They are the piece of this number of the run of a loop to a memory, and still to be written.
    Left(&'a Loop, Arc<Memory>, usize),
}

/// The lines of all that was made of loops, in order, as texts that stand one after another. At most `workers` workers write
/// what is left of them, that of all loops at once.
///
/// # Errors
/// The calling thread was refused memory.
pub(crate) fn lines_of_all<R: Threads + Sync>(
    rt: &R,
    alloc: Global,
    loops: &[Loop],
    made: Vec<Made>,
    workers: usize,
) -> Result<Vec<Vec<u8>>, OutOfMemory>
    requires { All (Fits loops.now) made.items }
    ensures { IfOk result (λ texts. (d : LoopData) → joined_text texts.items ≡ flat_map (bytes_of loops.now d) made.items) }
{
    let lines = all_lines(alloc, loops, made)?;
    let left = left_texts(rt, alloc, lines.as_slice(), workers)?;
    texts_in_order(alloc, lines, left)
}

/// The lines of all that was made of loops, in order, some of them still to be written.
fn all_lines(alloc: Global, loops: &[Loop], made: Vec<Made>) -> Result<Vec<Lines<'_>>, OutOfMemory>
    requires { All (Fits loops.now) made.items }
    ensures pieces { IfOk result (λ lines. All IsPiece lines.items) }
    ensures text { IfOk result (λ lines. (d : LoopData) (e : Array) → flat_map (bytes_in e) lines.items ≡ flat_map (bytes_of loops.now d) made.items) }
{
    let mut lines = Vec::with_capacity(alloc, made.len())?;
    let mut made = made.into_iter();
    while let Some(one) = made.next() {
        add_made(alloc, &mut lines, loops, one)?;
    }
    Ok(lines)
}

/// Adds the lines of what was made of a loop.
fn add_made<'a>(
    alloc: Global,
    lines: &mut Vec<Lines<'a>>,
    loops: &'a [Loop],
    made: Made,
) -> Result<(), OutOfMemory>
    requires { Fits loops.now made }
    ensures pieces { OnOk result (All IsPiece lines.old.items → All IsPiece lines.new.items) }
    ensures text { OnOk result ((d : LoopData) (e : Array) → flat_map (bytes_in e) lines.new.items ≡ flat_map (bytes_in e) lines.old.items ++ bytes_of loops.now d made) }
{
    match made {
        Made::After(number, memory, begun) => {
            add_run(alloc, lines, &loops[number], memory, begun)?;
        }
        Made::Text(text) => lines.push(Lines::Written(text))?,
    }
    Ok(())
}

/// Adds the lines of a run of a loop from its opening memory to this one. The first pieces of them are there.
fn add_run<'a>(
    alloc: Global,
    lines: &mut Vec<Lines<'a>>,
    innermost: &'a Loop,
    after: Memory,
    begun: Vec<Vec<u8>>,
) -> Result<(), OutOfMemory>
    requires shape { HasShapeOf innermost.now after }
    requires begun { ArePieces innermost.now after begun.items }
    ensures pieces { OnOk result (All IsPiece lines.old.items → All IsPiece lines.new.items) }
    ensures text { OnOk result ((e : Array) → flat_map (bytes_in e) lines.new.items ≡ flat_map (bytes_in e) lines.old.items ++ run_lines innermost.now (opening_of innermost.now after.trip) after) }
{
    let mut head = Vec::new(alloc);
    push_head(&mut head, innermost, after.trip())?;
    let mut outs = Vec::new(alloc);
    push_outs(&mut outs, innermost, &after)?;
    let from = begun.len();
    lines.push(Lines::Written(head))?;
    add_begun(lines, begun)?;
    add_left(alloc, lines, innermost, after, from)?;
    lines.push(Lines::Written(outs))?;
    Ok(())
}

/// Adds pieces that are written.
fn add_begun(lines: &mut Vec<Lines<'_>>, begun: Vec<Vec<u8>>) -> Result<(), OutOfMemory>
    ensures pieces { OnOk result (All IsPiece lines.old.items → All IsPiece lines.new.items) }
    ensures text { OnOk result ((e : Array) → flat_map (bytes_in e) lines.new.items ≡ flat_map (bytes_in e) lines.old.items ++ joined_text begun.items) }
{
    let mut begun = begun.into_iter();
    while let Some(text) = begun.next() {
        lines.push(Lines::Written(text))?;
    }
    Ok(())
}

/// Adds the pieces of the lines of a run from one on, which are still to be written.
fn add_left<'a>(
    alloc: Global,
    lines: &mut Vec<Lines<'a>>,
    innermost: &'a Loop,
    after: Memory,
    from: usize,
) -> Result<(), OutOfMemory>
    requires shape { HasShapeOf innermost.now after }
    requires within { from ≤ length innermost.now.arrays * 8 }
    ensures pieces { OnOk result (All IsPiece lines.old.items → All IsPiece lines.new.items) }
    ensures text { OnOk result ((e : Array) → flat_map (bytes_in e) lines.new.items
        ≡ flat_map (bytes_in e) lines.old.items ++ flat_map (piece_lines innermost.now after e) (range_with_len from (length innermost.now.arrays * 8 - from))) }
{
    let after = Arc::new(alloc, after)?;
    for number in from..count_of(innermost) {
        lines.push(Lines::Left(innermost, Arc::try_clone(&after)?, number))?;
    }
    Ok(())
}

/// The texts of these lines, one for each, as far as they are still to be written. Of those that are written they are empty. At most
/// `workers` workers write them side by side. One worker starts no thread, and neither do few cells.
fn left_texts<R: Threads + Sync>(
    rt: &R,
    alloc: Global,
    lines: &[Lines<'_>],
    workers: usize,
) -> Result<Vec<Vec<u8>>, OutOfMemory>
    requires { All IsPiece lines.now }
    ensures { IfOk result (λ texts. AreWritten lines.now texts.items) }
{
    let jobs = shared(
        alloc,
        lines.len(),
        workers,
        &|number| left_work(&lines[number]),
    );
    if let Some(jobs) = jobs {
        let written = parts_of(rt, alloc, &jobs, &|number| text_at(alloc, lines, number))?;
        return Ok(written);
    }
    let mut texts = Vec::with_capacity(alloc, lines.len())?;
    for number in 0..lines.len() {
        texts.push(text_at(alloc, lines, number)?)?;
    }
    Ok(texts)
}

/// About how much work it is to write these lines. (The line of a cell is about as much work as eight statements, and a piece has an
/// eighth of the cells of an array.)
fn left_work(lines: &Lines<'_>) -> u64 {
    match lines {
        Lines::Written(_) => 0,
        Lines::Left(_, after, _) => after.trip(),
    }
}

/// The text of the lines at a place, if they are still to be written, and else none.
fn text_at(alloc: Global, lines: &[Lines<'_>], number: usize) -> Result<Vec<u8>, OutOfMemory>
    requires number { number < length lines.now }
    requires pieces { All IsPiece lines.now }
    ensures { IfOk result (λ text. (e : Array) (l : Lines) → text.items ≡ bytes_left e (slice_index_or lines.now number l)) }
{
    left_text(alloc, &lines[number])
}

/// The text of these lines, if they are still to be written, and else none.
fn left_text(alloc: Global, lines: &Lines<'_>) -> Result<Vec<u8>, OutOfMemory>
    requires { IsPiece lines.now }
    ensures { IfOk result (λ text. (e : Array) → text.items ≡ bytes_left e lines.now) }
{
    match lines {
        Lines::Written(_) => Ok(Vec::new(alloc)),
        Lines::Left(innermost, after, number) => piece_text(alloc, innermost, after, *number),
    }
}

/// The texts of lines, in order, where `left` has those that were still to be written. Empty ones are left out. (The pieces of an array
/// that the run leaves as it was are empty.)
fn texts_in_order(
    alloc: Global,
    lines: Vec<Lines<'_>>,
    left: Vec<Vec<u8>>,
) -> Result<Vec<Vec<u8>>, OutOfMemory>
    requires { AreWritten lines.items left.items }
    ensures { IfOk result (λ texts. (e : Array) → joined_text texts.items ≡ flat_map (bytes_in e) lines.entry.items) }
{
    let mut texts = Vec::with_capacity(alloc, lines.len())?;
    let mut left = left.into_iter();
    let mut lines = lines.into_iter();
    while let Some(one) = lines.next() {
        // (there are as many texts as lines)
        let Some(text) = left.next() else {
            break;
        };
        add_lines(&mut texts, one, text)?;
    }
    Ok(texts)
}

/// Adds the text of lines, where `left` has it if it was still to be written.
fn add_lines(texts: &mut Vec<Vec<u8>>, lines: Lines<'_>, left: Vec<u8>) -> Result<(), OutOfMemory>
    requires { (e : Array) → left.items ≡ bytes_left e lines }
    ensures { OnOk result ((e : Array) → joined_text texts.new.items ≡ joined_text texts.old.items ++ bytes_in e lines.entry) }
{
    match lines {
        Lines::Written(text) => add_text(texts, text)?,
        Lines::Left(..) => add_text(texts, left)?,
    }
    Ok(())
}

/// Adds a text, unless it is empty.
fn add_text(texts: &mut Vec<Vec<u8>>, text: Vec<u8>) -> Result<(), OutOfMemory>
    ensures { OnOk result (joined_text texts.new.items ≡ joined_text texts.old.items ++ text.items) }
{
    if !text.is_empty() {
        texts.push(text)?;
    }
    Ok(())
}
