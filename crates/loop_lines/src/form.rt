//! The form of a line, by its words alone.

ghost use Rattle.std.specs.Prelude.{◌≡◌, option_map};
ghost use Rattle.loop_lines.specs.Forms.{Malformed, array_line, compute_line, end_line, form_of, init_line, line_form, load_line, loop_line, out_line, param_line, store_line, value_line};
ghost use Rattle.loop_data.specs.Arithmetic.{operands_of};
ghost use Rattle.loop_lines.specs.Parsed.{form_seen};
ghost use Rattle.loop_lines.specs.Words.{words_of};

use crate::cells::{CellWords, cell_words};
use crate::name::is_name;
use crate::number::int_of;
use crate::operand::{at_of, guard_of, place_of, use_of};
use crate::word::Word;
use crate::words::{
    after_equals, equation, is_over, is_text, next_word, one_word, three_words, two_words,
};
use machine_data::Opcode;

/// A use of a statement. Numbers outside their limits are `None`.
#[derive(Clone, Copy)]
pub enum Use<'a> {
    Number(Option<i64>),
    Plain(&'a [u8]),
    At(&'a [u8], Option<u8>),
}

/// An array's name and the constant of a subscript.
#[derive(Clone, Copy)]
pub struct Subscript<'a> {
    pub array: &'a [u8],
    pub offset: Option<i8>,
}

/// The uses of a statement, from the left on: after a `None` stand no others.
#[derive(Clone, Copy)]
pub struct Uses<'a> {
    pub first: Option<Use<'a>>,
    pub second: Option<Use<'a>>,
    pub third: Option<Use<'a>>,
}

/// A statement by its words.
#[derive(Clone, Copy)]
pub struct StatementWords<'a> {
    pub opcode: Opcode,
    pub name: Option<&'a [u8]>,
    pub place: Option<Subscript<'a>>,
    pub uses: Uses<'a>,
}

/// A line that has words.
#[derive(Clone, Copy)]
pub enum Form<'a> {
    Loop(&'a [u8]),
    /// The name and the cells.
    Array(&'a [u8], CellWords<'a>),
    Param(&'a [u8], Option<i64>),
    Init(&'a [u8], Option<u8>, Option<i64>),
    Statement(StatementWords<'a>),
    Out(&'a [u8]),
    End,
    Malformed,
}

/// The form of a line, which has none where it has no words.
#[inline(always)]
pub fn form_of(line: &[u8]) -> Option<Form<'_>>
    ensures { option_map form_seen result ≡ line_form (words_of line.now) }
{
    let (word, rest) = next_word(line)?;
    let mut form = Form::Malformed;
    read_form(&mut form, word, rest);
    Some(form)
}

/// Writes the form of a line by its first word and the rest. A form is large, so each line function
/// writes it where it is to stand, and leaves it malformed where the words are not of its form.
#[inline(never)]
#[tactic(auto, unfolding(crate::specs::Forms::form_of))]
fn read_form<'a>(form: &mut Form<'a>, word: Word<'a>, rest: &'a [u8])
    requires { form_seen form.old ≡ Malformed }
    ensures { form_seen form.new ≡ form_of word.entry.bytes.now (words_of rest.now) }
{
    match word.bytes {
        [b'l', more @ ..] if is_text(more, "oop") => loop_line(form, rest),
        [b'a', more @ ..] if is_text(more, "rray") => array_line(form, rest),
        [b'p', more @ ..] if is_text(more, "aram") => param_line(form, rest),
        [b'i', more @ ..] if is_text(more, "nit") => init_line(form, rest),
        [b's', more @ ..] if is_text(more, "tore") => store_line(form, rest),
        [b'o', more @ ..] if is_text(more, "ut") => out_line(form, rest),
        [b'e', more @ ..] if is_text(more, "nd") => end_line(form, rest),
        _ => value_line(form, word, rest),
    }
}

/// `loop NAME`
fn loop_line<'a>(form: &mut Form<'a>, rest: &'a [u8])
    requires { form_seen form.old ≡ Malformed }
    ensures { form_seen form.new ≡ loop_line (words_of rest.now) }
{
    if let Some(name) = one_word(rest)
        && is_name(name)
    {
        *form = Form::Loop(name.bytes);
    }
}

/// `out NAME`
fn out_line<'a>(form: &mut Form<'a>, rest: &'a [u8])
    requires { form_seen form.old ≡ Malformed }
    ensures { form_seen form.new ≡ out_line (words_of rest.now) }
{
    if let Some(name) = one_word(rest)
        && is_name(name)
    {
        *form = Form::Out(name.bytes);
    }
}

/// `end`
fn end_line<'a>(form: &mut Form<'a>, rest: &'a [u8])
    requires { form_seen form.old ≡ Malformed }
    ensures { form_seen form.new ≡ end_line (words_of rest.now) }
{
    if is_over(rest) {
        *form = Form::End;
    }
}

/// `array NAME = INT INT ..`
#[tactic(auto, using(crate::proofs::Equals::no_array))]
fn array_line<'a>(form: &mut Form<'a>, rest: &'a [u8])
    requires { form_seen form.old ≡ Malformed }
    ensures { form_seen form.new ≡ array_line (words_of rest.now) }
{
    let Some((name, rest)) = next_word(rest) else {
        return;
    };
    let Some(cells) = after_equals(rest) else {
        return;
    };
    if !is_name(name) {
        return;
    }
    if let Some(cells) = cell_words(cells) {
        *form = Form::Array(name.bytes, cells);
    }
}

/// `param NAME = INT`
#[tactic(auto, using(crate::proofs::Equals::no_param))]
fn param_line<'a>(form: &mut Form<'a>, rest: &'a [u8])
    requires { form_seen form.old ≡ Malformed }
    ensures { form_seen form.new ≡ param_line (words_of rest.now) }
{
    let Some((name, value)) = equation(rest) else {
        return;
    };
    if !is_name(name) {
        return;
    }
    if let Some(value) = int_of(value.bytes) {
        *form = Form::Param(name.bytes, value);
    }
}

/// `init NAME@NUM = INT`
#[tactic(auto, using(crate::proofs::Equals::no_init))]
fn init_line<'a>(form: &mut Form<'a>, rest: &'a [u8])
    requires { form_seen form.old ≡ Malformed }
    ensures { form_seen form.new ≡ init_line (words_of rest.now) }
{
    let Some((what, value)) = equation(rest) else {
        return;
    };
    let Some((name, number)) = at_of(what) else {
        return;
    };
    if let Some(value) = int_of(value.bytes) {
        *form = Form::Init(name, number, value);
    }
}

/// `store NAME[SUB] USE`, and `store NAME[SUB] USE if USE`
#[tactic(auto, using(crate::proofs::Stores::no_guard, crate::proofs::Stores::no_uses, crate::proofs::Stores::last_nothing, crate::proofs::Stores::store_by_parts))]
fn store_line<'a>(form: &mut Form<'a>, rest: &'a [u8])
    requires { form_seen form.old ≡ Malformed }
    ensures { form_seen form.new ≡ store_line (words_of rest.now) }
{
    let Some((place, rest)) = next_word(rest) else {
        return;
    };
    let Some((value, rest)) = next_word(rest) else {
        return;
    };
    let Some(place) = place_of(place) else {
        return;
    };
    let Some(value) = use_of(value) else {
        return;
    };
    let Some(guard) = guard_of(rest) else {
        return;
    };
    *form = Form::Statement(StatementWords {
        opcode: Opcode::Store,
        name: None,
        place: Some(place),
        uses: Uses {
            first: Some(value),
            second: guard,
            third: None,
        },
    });
}

/// A statement that gives a value.
#[tactic(auto, using(crate::proofs::Equals::no_value))]
fn value_line<'a>(form: &mut Form<'a>, word: Word<'a>, rest: &'a [u8])
    requires { form_seen form.old ≡ Malformed }
    ensures { form_seen form.new ≡ value_line word.entry.bytes.now (words_of rest.now) }
{
    let Some(rest) = after_equals(rest) else {
        return;
    };
    let Some((opcode, rest)) = next_word(rest) else {
        return;
    };
    if !is_name(word) {
        return;
    }
    let name = word.bytes;
    match Opcode::named(opcode.bytes) {
        None | Some(Opcode::Store) => {}
        Some(Opcode::Load) => load_line(form, name, rest),
        Some(Opcode::Mov) => one_use_line(form, name, Opcode::Mov, rest),
        Some(Opcode::Sel) => three_uses_line(form, name, Opcode::Sel, rest),
        Some(opcode) => two_uses_line(form, name, opcode, rest),
    }
}

/// `NAME = load NAME[SUB]`
#[inline(always)]
fn load_line<'a>(form: &mut Form<'a>, name: &'a [u8], rest: &'a [u8])
    requires { form_seen form.old ≡ Malformed }
    ensures { form_seen form.new ≡ load_line name.now (words_of rest.now) }
{
    let Some(place) = one_word(rest) else {
        return;
    };
    let Some(place) = place_of(place) else {
        return;
    };
    *form = Form::Statement(StatementWords {
        opcode: Opcode::Load,
        name: Some(name),
        place: Some(place),
        uses: Uses {
            first: None,
            second: None,
            third: None,
        },
    });
}

/// `NAME = OP USE`
fn one_use_line<'a>(form: &mut Form<'a>, name: &'a [u8], opcode: Opcode, rest: &'a [u8])
    requires malformed { form_seen form.old ≡ Malformed }
    requires one { operands_of opcode ≡ 1 }
    ensures { form_seen form.new ≡ compute_line name.now opcode (words_of rest.now) }
{
    let Some(first) = one_word(rest) else {
        return;
    };
    let Some(first) = use_of(first) else {
        return;
    };
    *form = Form::Statement(StatementWords {
        opcode,
        name: Some(name),
        place: None,
        uses: Uses {
            first: Some(first),
            second: None,
            third: None,
        },
    });
}

/// `NAME = OP USE USE`
fn two_uses_line<'a>(form: &mut Form<'a>, name: &'a [u8], opcode: Opcode, rest: &'a [u8])
    requires malformed { form_seen form.old ≡ Malformed }
    requires two { operands_of opcode ≡ 2 }
    ensures { form_seen form.new ≡ compute_line name.now opcode (words_of rest.now) }
{
    let Some((first, second)) = two_words(rest) else {
        return;
    };
    let Some(first) = use_of(first) else {
        return;
    };
    let Some(second) = use_of(second) else {
        return;
    };
    *form = Form::Statement(StatementWords {
        opcode,
        name: Some(name),
        place: None,
        uses: Uses {
            first: Some(first),
            second: Some(second),
            third: None,
        },
    });
}

/// `NAME = OP USE USE USE`
fn three_uses_line<'a>(form: &mut Form<'a>, name: &'a [u8], opcode: Opcode, rest: &'a [u8])
    requires malformed { form_seen form.old ≡ Malformed }
    requires three { operands_of opcode ≡ 3 }
    ensures { form_seen form.new ≡ compute_line name.now opcode (words_of rest.now) }
{
    let Some((first, second, third)) = three_words(rest) else {
        return;
    };
    let Some(first) = use_of(first) else {
        return;
    };
    let Some(second) = use_of(second) else {
        return;
    };
    let Some(third) = use_of(third) else {
        return;
    };
    *form = Form::Statement(StatementWords {
        opcode,
        name: Some(name),
        place: None,
        uses: Uses {
            first: Some(first),
            second: Some(second),
            third: Some(third),
        },
    });
}
