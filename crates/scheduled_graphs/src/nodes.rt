//! The lines of operations.

ghost use Rattle.std.specs.Prelude.{◌≡◌, ◌<◌, ◌≤◌, ◌++◌, length, OnOk};
ghost use Rattle.std.specs.List.{flat_map};
ghost use Rattle.graph_text.specs.Dot.{node_line};
ghost use Rattle.graph_text.specs.Names.{opcode_word};
ghost use Rattle.lower_bounds.specs.Texts.{numbers_of};
ghost use Rattle.scheduled_graphs.specs.Nodes.{node_start, placed_line, placed_lines};

use graph_marks::push_place;
use graph_text::push_name;
use loop_data::Loop;
use loop_schedules::Schedule;
use machine_data::OutOfMemory;
use writing::{Text, push_both, push_told};

/// The word of the opcode of the operation of this number.
fn opcode_word(innermost: &Loop, number: u8) -> &'static str
    requires { number < length innermost.now.statements }
    ensures { result.now ≡ opcode_word innermost.now number }
{
    innermost.statements()[usize::from(number)].opcode.word()
}

/// Appends what the line of an operation has up to its opcode: `  K [label="NAME OPCODE`.
fn push_start(text: &mut Vec<u8>, innermost: &Loop, number: u8) -> Result<(), OutOfMemory>
    requires { number < length innermost.now.statements }
    ensures ok { OnOk result (text.new.items ≡ text.old.items ++ node_start innermost.now number) }
{
    push_told(text, "  ", u64::from(number))?;
    text.push_piece(" [label=\"")?;
    push_name(text, innermost, number)?;
    push_both(text, " ", opcode_word(innermost, number))
}

/// Appends the line of an operation that is issued at a time, in cycles.
fn push_placed(
    text: &mut Vec<u8>,
    innermost: &Loop,
    number: u8,
    ii: u64,
    time: u64,
) -> Result<(), OutOfMemory>
    requires there { number < length innermost.now.statements }
    requires some { 1 ≤ ii }
    ensures ok { OnOk result (text.new.items ≡ text.old.items ++ placed_line innermost.now ii time number) }
{
    push_start(text, innermost, number)?;
    push_place(text, ii, time)
}

/// Appends the lines of the operations of a schedule.
pub(crate) fn push_all_placed(text: &mut Vec<u8>, schedule: &Schedule) -> Result<(), OutOfMemory>
    ensures ok { OnOk result (text.new.items ≡ text.old.items ++ placed_lines schedule.now) }
{
    let innermost = schedule.prepared().innermost();
    for number in 0..innermost.statements().len() {
        push_placed(
            text,
            innermost,
            number as u8,
            schedule.ii(),
            schedule.time(number),
        )?;
    }
    Ok(())
}

/// Appends the line of an operation that has no place.
fn push_node(text: &mut Vec<u8>, innermost: &Loop, number: u8) -> Result<(), OutOfMemory>
    requires { number < length innermost.now.statements }
    ensures ok { OnOk result (text.new.items ≡ text.old.items ++ node_line innermost.now number) }
{
    push_start(text, innermost, number)?;
    text.push_piece("\"]\n")
}

/// Appends the lines of the operations, none of which has a place.
pub(crate) fn push_nodes(text: &mut Vec<u8>, innermost: &Loop) -> Result<(), OutOfMemory>
    ensures ok { OnOk result (text.new.items ≡ text.old.items ++ flat_map (node_line innermost.now) (numbers_of innermost.now)) }
{
    for number in 0..innermost.statements().len() {
        push_node(text, innermost, number as u8)?;
    }
    Ok(())
}
