//! What is wrong with a line of a loop text, and what is expected, in words.

ghost use Rattle.std.specs.Prelude.{◌≡◌, ◌++◌, IfOk, OnOk, codes, string_bytes};
ghost use Rattle.loop_lint.specs.Hints.{name_in};
ghost use Rattle.machine_data.specs.Opcodes.{same_word};
ghost use Rattle.lint_text.specs.What.{allowed, allowed_part, begins_integer, has_form, hint_text, init_text, inits_more, inits_text, message_of, misplaced, name_text, what};

use crate::words::add_bytes;
use loop_lines::{Form, form_of};
use loop_lint::{Hint, LoopLint, name_in};
use loop_reader::LoopFaultKind;
use machine_data::OutOfMemory;
use machine_data::limits::MAX_NAME;
use std::alloc::Global;
use writing::push_told;

/// Whether a line has one of the forms.
fn has_form(line: &[u8]) -> bool
    ensures { result ≡ has_form line.now }
{
    match form_of(line) {
        None | Some(Form::Malformed) => false,
        Some(_) => true,
    }
}

/// The bytes are those of this text.
fn is_text(bytes: &[u8], text: &str) -> bool
    ensures { result ≡ same_word bytes.now text.now }
{
    bytes == text.as_bytes()
}

/// Whether a word begins as an integer does.
fn begins_integer(word: &[u8]) -> bool
    ensures { result ≡ begins_integer word.now }
{
    match word.split_first() {
        Some((first, _)) => first.is_ascii_digit() || *first == b'-',
        None => false,
    }
}

/// What is said of a name, a number, a place, a use or a cell that is outside its limits.
#[tactic(auto, unfolding(crate::specs::What::allowed_part))]
fn allowed_part(word: &[u8]) -> &'static str
    ensures { result.now ≡ allowed_part word.now }
{
    if word.contains(&b'[') {
        "limit: expected a name of at most 16 bytes and a constant of -64 to 64"
    } else if word.contains(&b'@') {
        "limit: expected a name of at most 16 bytes and a number of 1 to 16"
    } else if begins_integer(word) {
        "limit: expected a number of 64 bits, and at most 1024 cells"
    } else if word.len() > MAX_NAME {
        "limit: expected a name of at most 16 bytes"
    } else {
        "limit: expected at most 128 statements"
    }
}

/// What is said of a word that is outside its limits.
#[tactic(auto, unfolding(crate::specs::What::allowed))]
fn allowed(word: &[u8]) -> &'static str
    ensures { result.now ≡ allowed word.now }
{
    if word.is_empty() {
        "limit: expected a text of at most 1048576 bytes"
    } else if is_text(word, "loop") {
        "limit: expected at most 1024 loops"
    } else if is_text(word, "array") {
        "limit: expected at most 32 arrays"
    } else if is_text(word, "param") {
        "limit: expected at most 64 parameters"
    } else if is_text(word, "end") {
        "limit: expected at least one statement"
    } else if is_text(word, "store") {
        "limit: expected at most 128 statements"
    } else {
        allowed_part(word)
    }
}

/// What is said of a syntax fault of a line, at this word.
#[tactic(auto, unfolding(crate::specs::What::misplaced))]
fn misplaced(line: &[u8], word: &[u8]) -> &'static str
    ensures { result.now ≡ misplaced line.now word.now }
{
    if has_form(line) {
        "syntax: this line stands in a wrong place"
    } else if word.is_empty() {
        "syntax: a word is missing here"
    } else {
        "syntax: no form of a line goes on here"
    }
}

/// What is said of a fault of a line, at this word.
fn what(kind: LoopFaultKind, line: &[u8], word: &[u8]) -> &'static str
    ensures { result.now ≡ what kind line.now word.now }
{
    match kind {
        LoopFaultKind::Syntax => misplaced(line, word),
        LoopFaultKind::Limit => allowed(word),
        LoopFaultKind::RepeatedName => "repeated name: an earlier line has it",
        LoopFaultKind::UnknownName => "unknown name: no line of the loop declares it",
        LoopFaultKind::UseBeforeDefinition => {
            "use before definition: given on this line or a later one"
        }
        LoopFaultKind::MissingInit => "missing init: an initial value is missing",
        LoopFaultKind::NoEnd => "no end: the text ends inside a loop, expected end",
        LoopFaultKind::Memory => "out of memory",
    }
}

/// Pushes an initial value of the name in a word.
fn push_init(text: &mut String, word: &[u8], number: u8) -> Result<(), OutOfMemory>
    ensures { OnOk result (string_bytes text.new ≡ string_bytes text.old ++ init_text word.now number) }
{
    add_bytes(text, name_in(word))?;
    push_told(text, "@", u64::from(number))
}

/// Pushes more initial values of the name in a word.
fn push_more(text: &mut String, word: &[u8], numbers: &[u8]) -> Result<(), OutOfMemory>
    ensures { OnOk result (string_bytes text.new ≡ string_bytes text.old ++ inits_more word.now numbers.now) }
{
    for number in numbers {
        text.push_str(", ")?;
        push_init(text, word, *number)?;
    }
    Ok(())
}

/// Pushes the initial values with these numbers of the name in a word.
fn push_inits(text: &mut String, word: &[u8], numbers: &[u8]) -> Result<(), OutOfMemory>
    ensures { OnOk result (string_bytes text.new ≡ string_bytes text.old ++ inits_text word.now numbers.now) }
{
    let Some((first, more)) = numbers.split_first() else {
        return Ok(());
    };
    text.push_str(": expected init ")?;
    push_init(text, word, *first)?;
    push_more(text, word, more)
}

/// Pushes a name that may be meant.
pub(crate) fn push_name(text: &mut String, name: &[u8]) -> Result<(), OutOfMemory>
    ensures { OnOk result (string_bytes text.new ≡ string_bytes text.old ++ name_text name.now) }
{
    text.push_str(": did you mean ")?;
    add_bytes(text, name)?;
    text.push_str("?")?;
    Ok(())
}

/// Pushes what helps to mend a fault at a word.
fn push_hint(text: &mut String, word: &[u8], hint: &Hint) -> Result<(), OutOfMemory>
    ensures { OnOk result (string_bytes text.new ≡ string_bytes text.old ++ hint_text word.now hint.now) }
{
    match hint {
        Hint::Nothing => Ok(()),
        Hint::Name(name) => push_name(text, name.as_bytes()),
        Hint::Inits(numbers) => push_inits(text, word, numbers.as_bytes()),
    }
}

/// What is said of a line, at this word.
pub(crate) fn loop_message(
    alloc: Global,
    lint: &LoopLint,
    line: &[u8],
    word: &[u8],
) -> Result<String, OutOfMemory>
    ensures { IfOk result (λ text. string_bytes text ≡ message_of line.now word.now lint.now) }
{
    match lint {
        LoopLint::Fault(fault) => {
            let mut text = String::from_str(alloc, what(fault.kind, line, word))?;
            push_hint(&mut text, word, &fault.hint)?;
            Ok(text)
        }
        LoopLint::NoTable(_) => {
            String::from_str(alloc, "no table: the machine has none for this opcode")
        }
    }
}
