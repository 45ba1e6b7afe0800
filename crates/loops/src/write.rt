//! The canonical text of a loop.

ghost use Rattle.std.specs.Prelude.{◌≡◌, ◌+◌, ◌<◌, ℕ, [], ◌∷◌, ◌++◌, length, map, codes, Option, Some, None, Ok, IfOk, string_bytes};
ghost use Rattle.std.specs.List.{All, flat_map};
ghost use Rattle.std.specs.Fmt.{signed_decimal};
ghost use Rattle.loop_data.specs.declared.language.statement.Operand.{Operand};
ghost use Rattle.loop_data.specs.Loops.{IsPlace, IsStatement, MayRead};
ghost use Rattle.loop_reader.specs.Meaning.{loops_in};
ghost use Rattle.loops.specs.Text.{array_name, param_name, value_name, operand_word, offset_text, place_word, array_words, param_words, init_words, place_words, stored_words, statement_words, out_words, following, line_text, text_of};

use loop_data::{Array, Initial, Loop, Operand, Param, Place, Statement};
use machine_data::OutOfMemory;
use machine_data::limits::MAX_NAME;
use std::alloc::Global;
use writing::{push_at, push_both, push_signed, push_with_sign};

/// The one canonical text of a loop: a line for its name, each array, parameter, initial value,
/// statement and value that is live at the end, and `end`. A subscript constant and a distance of 0
/// are left out. It is read back as the loop alone.
pub fn write_loop(alloc: Global, innermost: &Loop) -> Result<String, OutOfMemory>
    ensures text { IfOk result (λ text. string_bytes text ≡ text_of innermost.now) }
    ensures reads_back { IfOk result (λ text. loops_in (string_bytes text) ≡ Ok (innermost.now ∷ [])) }
{
    let mut text = String::with_capacity(alloc, capacity_for(innermost))?;
    write_head(&mut text, innermost)?;
    write_arrays(&mut text, innermost.arrays())?;
    write_params(&mut text, innermost.params())?;
    write_inits(&mut text, innermost)?;
    write_statements(&mut text, innermost)?;
    write_outs(&mut text, innermost)?;
    text.push_str("end\n")?;
    Ok(text)
}

/// Bytes of a number of 64 bits, with its sign and the blank before it.
const NUMBER_BYTES: usize = 21;

/// Bytes of a line with a name alone: the longest is `array NAME =`.
const NAME_BYTES: usize = MAX_NAME + 9;

/// Bytes of the line of a parameter or an initial value: the longest is `init NAME@16 = NUMBER`.
const VALUE_BYTES: usize = MAX_NAME + NUMBER_BYTES + 11;

/// Bytes of a statement: the longest is `NAME = sel` with three numbers.
const STATEMENT_BYTES: usize = MAX_NAME + 3 * NUMBER_BYTES + 9;

/// Bytes that are enough for the text, so that it isn't moved while it grows. The sums saturate, so that
/// none overflows whatever the lengths are.
fn capacity_for(innermost: &Loop) -> usize {
    let mut bytes = NAME_BYTES + 4;
    for array in innermost.arrays() {
        let cells = array.cells.as_slice().len();
        bytes = bytes.saturating_add(
            cells
                .saturating_mul(NUMBER_BYTES)
                .saturating_add(NAME_BYTES),
        );
    }
    let values = innermost
        .params()
        .len()
        .saturating_add(innermost.inits().len());
    let statements = innermost.statements().len();
    bytes
        .saturating_add(values.saturating_mul(VALUE_BYTES))
        .saturating_add(statements.saturating_mul(STATEMENT_BYTES))
        .saturating_add(innermost.outs().len().saturating_mul(NAME_BYTES))
}

/// Writes the line that names the loop.
fn write_head(text: &mut String, innermost: &Loop) -> Result<(), OutOfMemory>
    ensures { IfOk result (λ _. string_bytes text.new ≡ string_bytes text.old ++ line_text (codes "loop" ∷ innermost.now.name ∷ [])) }
{
    push_both(text, "loop ", innermost.name().as_str())?;
    text.push_str("\n")
}

/// Writes the lines of the arrays.
fn write_arrays(text: &mut String, arrays: &[Array]) -> Result<(), OutOfMemory>
    ensures { IfOk result (λ _. string_bytes text.new ≡ string_bytes text.old ++ flat_map (λ (a : Array). line_text (array_words a)) arrays.now) }
{
    for array in arrays {
        write_array(text, array)?;
    }
    Ok(())
}

/// Writes the line of an array.
fn write_array(text: &mut String, array: &Array) -> Result<(), OutOfMemory>
    ensures { IfOk result (λ _. string_bytes text.new ≡ string_bytes text.old ++ line_text (array_words array.now)) }
{
    push_both(text, "array ", array.name.as_str())?;
    text.push_str(" =")?;
    write_numbers(text, array.cells.as_slice())?;
    text.push_str("\n")
}

/// Writes numbers, each after a blank.
fn write_numbers(text: &mut String, numbers: &[i64]) -> Result<(), OutOfMemory>
    ensures { IfOk result (λ _. string_bytes text.new ≡ string_bytes text.old ++ following (map signed_decimal numbers.now)) }
{
    for number in numbers {
        push_signed(text, " ", *number)?;
    }
    Ok(())
}

/// Writes the lines of the parameters.
fn write_params(text: &mut String, params: &[Param]) -> Result<(), OutOfMemory>
    ensures { IfOk result (λ _. string_bytes text.new ≡ string_bytes text.old ++ flat_map (λ (p : Param). line_text (param_words p)) params.now) }
{
    for param in params {
        write_param(text, param)?;
    }
    Ok(())
}

/// Writes the line of a parameter.
fn write_param(text: &mut String, param: &Param) -> Result<(), OutOfMemory>
    ensures { IfOk result (λ _. string_bytes text.new ≡ string_bytes text.old ++ line_text (param_words param.now)) }
{
    push_both(text, "param ", param.name.as_str())?;
    push_signed(text, " = ", param.value)?;
    text.push_str("\n")
}

/// Writes the lines of the initial values.
fn write_inits(text: &mut String, innermost: &Loop) -> Result<(), OutOfMemory>
    ensures { IfOk result (λ _. string_bytes text.new ≡ string_bytes text.old ++ flat_map (λ (i : Initial). line_text (init_words innermost.now i)) innermost.now.inits) }
{
    for init in innermost.inits() {
        write_init(text, innermost, init)?;
    }
    Ok(())
}

/// Writes the line of an initial value.
fn write_init(text: &mut String, innermost: &Loop, init: &Initial) -> Result<(), OutOfMemory>
    ensures { IfOk result (λ _. string_bytes text.new ≡ string_bytes text.old ++ line_text (init_words innermost.now init.now)) }
{
    text.push_str("init ")?;
    let name = innermost.value_name(init.statement);
    push_at(text, name, u64::from(init.number))?;
    push_signed(text, " = ", init.value)?;
    text.push_str("\n")
}

/// The name of an array.
fn array_name(innermost: &Loop, array: u8) -> &str
    requires { array < length innermost.now.arrays }
    ensures { result.now ≡ array_name innermost.now array }
{
    innermost.arrays()[usize::from(array)].name.as_str()
}

/// The name of a parameter.
fn param_name(innermost: &Loop, param: u8) -> &str
    requires { param < length innermost.now.params }
    ensures { result.now ≡ param_name innermost.now param }
{
    innermost.params()[usize::from(param)].name.as_str()
}

/// Writes the lines of the statements.
fn write_statements(text: &mut String, innermost: &Loop) -> Result<(), OutOfMemory>
    ensures { IfOk result (λ _. string_bytes text.new ≡ string_bytes text.old ++ flat_map (λ (s : Statement). line_text (statement_words innermost.now s)) innermost.now.statements) }
{
    for statement in innermost.statements() {
        write_statement(text, innermost, statement)?;
    }
    Ok(())
}

/// Writes the line of a statement.
fn write_statement(
    text: &mut String,
    innermost: &Loop,
    statement: &Statement,
) -> Result<(), OutOfMemory>
    requires { (number : ℕ) × IsStatement innermost.now number statement.now }
    ensures { IfOk result (λ _. string_bytes text.new ≡ string_bytes text.old ++ line_text (statement_words innermost.now statement.now)) }
{
    let operands = statement.operands.as_slice();
    match &statement.name {
        Some(name) => {
            push_both(text, name.as_str(), " = ")?;
            text.push_str(statement.opcode.word())?;
            write_place(text, innermost, statement.place)?;
            write_operands(text, innermost, operands)?;
        }
        None => {
            text.push_str(statement.opcode.word())?;
            write_place(text, innermost, statement.place)?;
            write_stored(text, innermost, operands)?;
        }
    }
    text.push_str("\n")
}

/// Writes a place, if there is one, after a blank.
fn write_place(text: &mut String, innermost: &Loop, place: Option<Place>) -> Result<(), OutOfMemory>
    requires { (p : Place) → place ≡ Some p → IsPlace innermost.now p }
    ensures { IfOk result (λ _. string_bytes text.new ≡ string_bytes text.old ++ following (place_words innermost.now place)) }
{
    match place {
        Some(place) => write_cell(text, innermost, place),
        None => Ok(()),
    }
}

/// Writes a place after a blank.
fn write_cell(text: &mut String, innermost: &Loop, place: Place) -> Result<(), OutOfMemory>
    requires { IsPlace innermost.now place }
    ensures { IfOk result (λ _. string_bytes text.new ≡ string_bytes text.old ++ 32 ∷ place_word innermost.now place) }
{
    push_both(text, " ", array_name(innermost, place.array))?;
    text.push_str("[i")?;
    write_offset(text, place.offset)?;
    text.push_str("]")
}

/// Writes the constant of a subscript with its sign, unless it is 0.
#[tactic(auto, using(crate::proofs::Texts::signed_offset))]
fn write_offset(text: &mut String, offset: i8) -> Result<(), OutOfMemory>
    ensures { IfOk result (λ _. string_bytes text.new ≡ string_bytes text.old ++ offset_text offset) }
{
    if offset == 0 {
        return Ok(());
    }
    push_with_sign(text, i64::from(offset))
}

/// Writes operands, each after a blank.
fn write_operands(
    text: &mut String,
    innermost: &Loop,
    operands: &[Operand],
) -> Result<(), OutOfMemory>
    requires { (number : ℕ) × All (MayRead innermost.now number) operands.now }
    ensures { IfOk result (λ _. string_bytes text.new ≡ string_bytes text.old ++ following (map (operand_word innermost.now) operands.now)) }
{
    for operand in operands {
        write_operand(text, innermost, *operand)?;
    }
    Ok(())
}

/// Writes what a store reads: its value and, after `if`, its guard.
fn write_stored(
    text: &mut String,
    innermost: &Loop,
    operands: &[Operand],
) -> Result<(), OutOfMemory>
    requires { (number : ℕ) × All (MayRead innermost.now number) operands.now }
    ensures { IfOk result (λ _. string_bytes text.new ≡ string_bytes text.old ++ following (stored_words (map (operand_word innermost.now) operands.now))) }
{
    match operands {
        [] => Ok(()),
        [value] => write_operand(text, innermost, *value),
        [value, guards @ ..] => {
            write_operand(text, innermost, *value)?;
            text.push_str(" if")?;
            write_operands(text, innermost, guards)
        }
    }
}

/// Writes an operand after a blank.
fn write_operand(text: &mut String, innermost: &Loop, operand: Operand) -> Result<(), OutOfMemory>
    requires { (number : ℕ) × MayRead innermost.now number operand }
    ensures { IfOk result (λ _. string_bytes text.new ≡ string_bytes text.old ++ 32 ∷ operand_word innermost.now operand) }
{
    match operand {
        Operand::Constant(value) => push_signed(text, " ", value),
        Operand::Parameter(number) => push_both(text, " ", param_name(innermost, number)),
        Operand::Value {
            statement,
            distance,
        } => {
            text.push_str(" ")?;
            push_at(text, innermost.value_name(statement), u64::from(distance))
        }
    }
}

/// Writes the lines of the values that are live at the end.
fn write_outs(text: &mut String, innermost: &Loop) -> Result<(), OutOfMemory>
    ensures { IfOk result (λ _. string_bytes text.new ≡ string_bytes text.old ++ flat_map (λ s. line_text (out_words innermost.now s)) innermost.now.outs) }
{
    for statement in innermost.outs() {
        write_out(text, innermost, *statement)?;
    }
    Ok(())
}

/// Writes the line of a value that is live at the end.
fn write_out(text: &mut String, innermost: &Loop, statement: u8) -> Result<(), OutOfMemory>
    ensures { IfOk result (λ _. string_bytes text.new ≡ string_bytes text.old ++ line_text (out_words innermost.now statement)) }
{
    push_both(text, "out ", innermost.value_name(statement))?;
    text.push_str("\n")
}
