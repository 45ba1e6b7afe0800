//! Reading a loop text.

ghost use Rattle.std.specs.Prelude.{◌≡◌, ◌+◌, ◌≤◌, ◌<◌, ◌^◌, ℕ, true, List, [], None, length, IfOk};
ghost use Rattle.std.specs.List.{All};
ghost use Rattle.loop_data.specs.Names.{is_name};
ghost use Rattle.loop_data.specs.Loops.{IsLoop};
ghost use Rattle.loop_reader.specs.Meaning.{loops_in, seen};
ghost use Rattle.reader_faults.specs.LoopFaults.{LoopsAnswer};
ghost use Rattle.loop_reader.specs.inner.Known.{known_as};
ghost use Rattle.loop_reader.specs.inner.Texts.{AnswersBlock, AnswersEnd, AnswersOpening, AnswersText};

use crate::build::build;
use crate::checks::check::{first_fault, is_long};
use crate::checks::given::Given;
use crate::lines::collect::{Stop, collect_block};
use crate::lines::entry::LineEntry;
use crate::names::found::Targets;
use crate::names::index::{Declared, Index, index_names};
use crate::names::known::Names;
use loop_data::Loop;
use loop_lines::{Form, form_of, next_line};
use machine_data::OutOfMemory;
use machine_data::limits::{MAX_LOOPS, MAX_TEXT};
use reader_faults::{LoopFault, LoopFaultKind};
use std::alloc::Global;

/// What is kept from block to block.
#[derive(Drop)]
struct Buffers<'a> {
    lines: Vec<LineEntry<'a>>,
    names: Names<'a>,
    given: Given,
    found: Vec<Targets>,
}

impl<'a> Buffers<'a> {
    fn new(alloc: Global) -> Result<Buffers<'a>, OutOfMemory> {
        let names = Names::new(alloc)?;
        Ok(Buffers {
            lines: Vec::new(alloc),
            names,
            given: Given::new(alloc),
            found: Vec::new(alloc),
        })
    }
}

/// A block that was read: its loop, the text after it and the number of that text's first line.
#[derive(Drop)]
struct BlockRead<'a> {
    found: Loop,
    rest: &'a [u8],
    line: usize,
}

/// Reads a block from the line of this number on, which is the one after the block's first.
fn read_block<'a>(
    alloc: Global,
    room: &mut Buffers<'a>,
    name: &'a [u8],
    text: &'a [u8],
    number: usize,
) -> Result<BlockRead<'a>, LoopFault>
    requires name { is_name name.now ≡ true }
    requires short { length name.now ≤ 16 }
    requires room { number + length text.now < 2 ^ 32 }
    ensures { AnswersBlock name.now number text.now result }
{
    let (sound, stop) = collect_block(&mut room.lines, text, number)?;
    let (counts, once) = index_names(&mut room.names, room.lines.as_slice())?;
    let index = Index::new(&room.names, room.lines.as_slice(), once);
    room.given.reset(counts.statements)?;
    let first = first_fault(&index, sound, &mut room.given, &mut room.found)?;
    let (line, rest) = end_of(first, stop, counts.statements)?;
    let found = build(
        alloc,
        name,
        &index,
        counts,
        &room.given,
        room.found.as_slice(),
    )?;
    Ok(BlockRead {
        found,
        rest,
        line: line + 1,
    })
}

/// The line that ends a block of `statements` statements, and the text after it; else the block's first
/// fault, where `first` is that of its lines, which stop there. A block needs at least one statement.
fn end_of<'a>(
    first: Option<LoopFault>,
    stop: Stop<'a>,
    statements: usize,
) -> Result<(usize, &'a [u8]), LoopFault>
    ensures { AnswersEnd first stop.entry statements result }
{
    if let Some(fault) = first {
        return Err(fault);
    }
    let (line, kind) = match stop {
        Stop::End(line, rest) if statements > 0 => return Ok((line, rest)),
        Stop::End(line, _) => (line, LoopFaultKind::Limit),
        Stop::Unfit(line, _) => (line, LoopFaultKind::Syntax),
        Stop::Open(line) => (line, LoopFaultKind::NoEnd),
    };
    Err(LoopFault { line, kind })
}

/// The first fault of a line that opens a block after `loops` others; else its name is added to theirs.
fn open<'a>(names: &mut Names<'a>, loops: usize, name: &'a [u8]) -> Result<(), LoopFaultKind>
    ensures { AnswersOpening names.old names.new loops name.now result }
{
    if is_long(name) || loops >= MAX_LOOPS {
        return Err(LoopFaultKind::Limit);
    }
    // What the name stands for is asked nowhere.
    if !names.add(name, Declared::Value(loops))? {
        return Err(LoopFaultKind::RepeatedName);
    }
    Ok(())
}

/// Reads a loop text of at most 1,048,576 bytes and 1,024 loops.
///
/// The loops come in text order. The fault is that of the first line that has one, and of its faults
/// the first in the order of [`LoopFaultKind`].
pub fn read_loops(alloc: Global, text: &[u8]) -> Result<Vec<Loop>, LoopFault>
    ensures exact { LoopsAnswer (seen result) (loops_in text.now) }
    ensures well_formed { IfOk result (λ loops. All IsLoop loops.items × (length loops.items ≤ MAX_LOOPS)) }
{
    if text.len() > MAX_TEXT {
        return Err(LoopFault {
            line: 0,
            kind: LoopFaultKind::Limit,
        });
    }
    let mut room = Buffers::new(alloc)?;
    let mut names = Names::new(alloc)?;
    let mut loops = Vec::new(alloc);
    read_all(alloc, &mut room, &mut names, &mut loops, text)?;
    Ok(loops)
}

/// Reads a text that is not too long. The tables of names and of loops have none yet.
fn read_all<'a>(
    alloc: Global,
    room: &mut Buffers<'a>,
    names: &mut Names<'a>,
    loops: &mut Vec<Loop>,
    text: &'a [u8],
) -> Result<(), LoopFault>
    requires short { length text.now ≤ MAX_TEXT }
    requires nameless { (q : List ℕ) → known_as names.old q ≡ None }
    requires none { loops.old.items ≡ [] }
    ensures { AnswersText text.now loops.new.items result }
{
    let mut rest = text;
    let mut line = 1;
    while !rest.is_empty() {
        let (this, after) = next_line(rest);
        match form_of(this) {
            None => {
                rest = after;
                line += 1;
            }
            Some(form) => match form {
                Form::Loop(name) => {
                    if let Err(kind) = open(names, loops.len(), name) {
                        return Err(LoopFault::at(line, kind));
                    }
                    let block = read_block(alloc, room, name, after, line + 1)?;
                    loops.push(block.found)?;
                    rest = block.rest;
                    line = block.line;
                }
                _ => {
                    return Err(LoopFault {
                        line,
                        kind: LoopFaultKind::Syntax,
                    });
                }
            },
        }
    }
    Ok(())
}
