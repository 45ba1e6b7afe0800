//! What a word is by itself.

ghost use Rattle.std.specs.Prelude.{◌≡◌, ◌≢◌, ◌<◌, ℕ, ◌==◌, ◌-◌, ◌&&◌, nat_lt, not, List, ◌∷◌, true, false, take, slice_index, length, is_some, MatchOption};
ghost use Rattle.std.specs.List.{before_first, after_first, list_all, list_any, position_or_len};
ghost use Rattle.machine_data.specs.Opcodes.{opcode_named, same_word};
ghost use Rattle.loop_data.specs.Names.{is_letter, is_name, is_name_byte, is_reserved, starts_name};
ghost use Rattle.loop_lines.specs.Forms.{is_number, named_use_of, place_of, subscript_of, use_of};
ghost use Rattle.loop_lint.specs.Misfits.{fits, gives_value, is_init};

use loop_lines::{int_of, number_of};
use machine_data::Opcode;

/// What has to stand in a place of a line.
#[derive(Clone, Copy)]
pub(crate) enum Expected {
    Name,
    /// `NAME@NUM`
    Init,
    /// `NAME[SUB]`
    Place,
    Integer,
    Use,
    /// An opcode that gives a value.
    Opcode,
    /// `=`
    Equals,
    /// `if`
    If,
}

/// The bytes are those of this text.
pub(crate) fn is_text(bytes: &[u8], text: &str) -> bool
    ensures { result ≡ same_word bytes.now text.now }
{
    bytes == text.as_bytes()
}

/// A letter or `_`.
fn is_letter(byte: u8) -> bool
    ensures { result ≡ is_letter byte }
{
    byte.is_ascii_alphabetic() || byte == b'_'
}

/// A letter, a digit or `_`.
fn is_name_byte(byte: u8) -> bool
    ensures { result ≡ is_name_byte byte }
{
    is_letter(byte) || byte.is_ascii_digit()
}

/// Letters, digits and `_`.
fn are_name_bytes(word: &[u8]) -> bool
    ensures { result ≡ list_all is_name_byte word.now }
{
    word.iter().all(|byte| is_name_byte(*byte))
}

/// A letter or `_`, then letters, digits and `_`.
#[tactic(auto, using(crate::proofs::Fitting::letter_first, crate::proofs::Fitting::no_letter))]
fn starts_name(word: &[u8]) -> bool
    ensures { result ≡ starts_name word.now }
{
    match word {
        [] => false,
        [first, ..] => is_letter(*first) && are_name_bytes(word),
    }
}

/// A keyword or an opcode.
fn is_reserved(word: &[u8]) -> bool
    ensures { result ≡ is_reserved word.now }
{
    is_text(word, "loop")
        || is_text(word, "array")
        || is_text(word, "param")
        || is_text(word, "init")
        || is_text(word, "end")
        || is_text(word, "out")
        || is_text(word, "if")
        || is_text(word, "i")
        || Opcode::named(word).is_some()
}

/// A name.
#[tactic(auto, unfolding(loop_data::specs::Names::is_name))]
pub(crate) fn is_name(word: &[u8]) -> bool
    ensures { result ≡ is_name word.now }
{
    starts_name(word) && !is_reserved(word)
}

/// How many bytes stand before the first one of this value: all of them where it is not there.
fn count_before(text: &[u8], byte: u8) -> usize
    ensures { result ≡ position_or_len (λ c. c == byte) text.now }
{
    for (i, b) in text.iter().enumerate() {
        if *b == byte {
            return i;
        }
    }
    text.len()
}

/// What stands before the first byte of this value, and what follows it.
#[tactic(auto, using(crate::proofs::Signs::any_there, crate::proofs::Signs::none_there))]
pub(crate) fn split_at_byte(text: &[u8], byte: u8) -> Option<(&[u8], &[u8])>
    ensures { MatchOption result
        (list_any (λ c. c == byte) text.now ≡ false)
        (λ x. (list_any (λ c. c == byte) text.now ≡ true)
        × (x.0.now ≡ before_first (λ c. c == byte) text.now)
        × (x.1.now ≡ after_first (λ c. c == byte) text.now)) }
{
    let end = count_before(text, byte);
    if end < text.len() {
        Some((&text[..end], &text[end + 1..]))
    } else {
        None
    }
}

/// One or more digits.
fn is_number(word: &[u8]) -> bool
    ensures { result ≡ is_number word.now }
{
    number_of(word).is_some()
}

/// `NAME@NUM`.
fn is_init(word: &[u8]) -> bool
    ensures { result ≡ is_init word.now }
{
    match split_at_byte(word, b'@') {
        None => false,
        Some((name, digits)) => is_name(name) && is_number(digits),
    }
}

/// A use that is no integer: a name or `NAME@NUM`.
fn is_named_use(word: &[u8]) -> bool
    ensures { result ≡ is_some (named_use_of word.now) }
{
    match split_at_byte(word, b'@') {
        None => is_name(word),
        Some((name, digits)) => is_name(name) && is_number(digits),
    }
}

/// An integer, a name or `NAME@NUM`.
#[tactic(auto, using(crate::proofs::Fitting::some_use), unfolding(loop_lines::specs::Forms::use_of))]
fn is_use(word: &[u8]) -> bool
    ensures { result ≡ is_some (use_of word.now) }
{
    int_of(word).is_some() || is_named_use(word)
}

/// `i`, `i+NUM` or `i-NUM`.
#[tactic(auto, unfolding(loop_lines::specs::Forms::subscript_of))]
fn is_subscript(word: &[u8]) -> bool
    ensures { result ≡ is_some (subscript_of word.now) }
{
    match word {
        [b'i'] => true,
        [b'i', b'+' | b'-', digits @ ..] => is_number(digits),
        _ => false,
    }
}

/// What stands before a `]` at the end.
fn before_bracket(bytes: &[u8]) -> Option<&[u8]>
    ensures { MatchOption result
        ((nat_lt 0 (length bytes.now) && (slice_index bytes.now (length bytes.now - 1) == 93)) ≡ false)
        (λ x. ((nat_lt 0 (length bytes.now) && (slice_index bytes.now (length bytes.now - 1) == 93)) ≡ true) × (x.now ≡ take (length bytes.now - 1) bytes.now)) }
{
    match bytes {
        [inner @ .., b']'] => Some(inner),
        _ => None,
    }
}

/// `NAME[SUB]`.
fn is_place(word: &[u8]) -> bool
    ensures { result ≡ is_some (place_of word.now) }
{
    let Some((name, rest)) = split_at_byte(word, b'[') else {
        return false;
    };
    match before_bracket(rest) {
        None => false,
        Some(inner) => is_name(name) && is_subscript(inner),
    }
}

/// An opcode that gives a value.
fn gives_value(opcode: Option<Opcode>) -> bool
    ensures { result ≡ gives_value opcode }
{
    !matches!(opcode, None | Some(Opcode::Store))
}

/// The word may stand where this is expected.
pub(crate) fn fits(what: Expected, word: &[u8]) -> bool
    ensures { result ≡ fits what word.now }
{
    match what {
        Expected::Name => is_name(word),
        Expected::Init => is_init(word),
        Expected::Place => is_place(word),
        Expected::Integer => int_of(word).is_some(),
        Expected::Use => is_use(word),
        Expected::Opcode => gives_value(Opcode::named(word)),
        Expected::Equals => is_text(word, "="),
        Expected::If => is_text(word, "if"),
    }
}
