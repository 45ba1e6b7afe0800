//! The words of a statement: its cell and what it uses.

ghost use Rattle.std.specs.Prelude.{◌≡◌, ◌==◌, ◌&&◌, if◌then◌else◌, false, true, None, MatchOption, length, nat_lt, option_map};
ghost use Rattle.std.specs.List.{before_first, after_first, list_all, list_any, position_or_len};
ghost use Rattle.loop_lines.specs.Forms.{at_of, named_use_of, place_of, use_of};
ghost use Rattle.loop_data.specs.Names.{is_name, is_name_byte};
ghost use Rattle.loop_lines.specs.Parsed.{at_seen, guard_of, guard_seen, subscript_seen, use_seen};
ghost use Rattle.loop_lines.specs.Words.{words_of};

use crate::form::{Subscript, Use, Uses};
use crate::name::begins_name;
use crate::number::{int_of, small_of, subscript_of};
use crate::word::Word;
use crate::words::{after_byte, before_byte, is_text, next_word, one_word};

/// What stands before the first byte of this value, and what follows it, where all before it may stand
/// in a name.
fn split_name(word: Word<'_>, byte: u8) -> Option<(&[u8], &[u8])>
    requires { is_name_byte byte ≡ false }
    ensures { MatchOption result
        ((nat_lt (position_or_len (λ c. c == byte) word.entry.bytes.now) (length word.entry.bytes.now) && is_name (before_first (λ c. c == byte) word.entry.bytes.now)) ≡ false)
        (λ x. (list_any (λ c. c == byte) word.entry.bytes.now ≡ true)
        × (list_all is_name_byte x.0.now ≡ true)
        × (x.0.now ≡ before_first (λ c. c == byte) word.entry.bytes.now)
        × (x.1.now ≡ after_first (λ c. c == byte) word.entry.bytes.now)) }
{
    let (name, rest) = word.bytes.split_at(word.named);
    match after_byte(rest, byte) {
        Some(after) => Some((name, after)),
        None => None,
    }
}

/// The name and the number of `NAME@NUM`. A number above 16 is `None`.
#[tactic(auto, using(crate::proofs::Parted::no_named_at))]
pub(crate) fn at_of(word: Word<'_>) -> Option<(&[u8], Option<u8>)>
    ensures { option_map at_seen result
        ≡ (if list_any (λ c. c == 64) word.entry.bytes.now then at_of (before_first (λ c. c == 64) word.entry.bytes.now) (after_first (λ c. c == 64) word.entry.bytes.now) else None) }
{
    let (name, digits) = split_name(word, b'@')?;
    let number = small_of(digits)?;
    if begins_name(name) {
        Some((name, number))
    } else {
        None
    }
}

/// The use `NAME@NUM` by its parts. All bytes of the first may stand in a name.
fn use_at<'a>(name: &'a [u8], digits: &[u8]) -> Option<Use<'a>>
    requires { list_all is_name_byte name.now ≡ true }
    ensures { option_map use_seen result ≡ at_of name.now digits.now }
{
    let number = small_of(digits)?;
    if begins_name(name) {
        Some(Use::At(name, number))
    } else {
        None
    }
}

/// A use that is no integer: a name or `NAME@NUM`.
#[tactic(auto, using(crate::proofs::NameBytes::front_taken, crate::proofs::NameBytes::all_stand, crate::proofs::NameBytes::plain_use_taken, crate::proofs::NameBytes::at_use_taken, crate::proofs::NameBytes::no_use_taken))]
#[inline(always)]
fn named_use_of(word: Word<'_>) -> Option<Use<'_>>
    ensures { option_map use_seen result ≡ named_use_of word.entry.bytes.now }
{
    let (name, rest) = word.bytes.split_at(word.named);
    match rest {
        [] => if begins_name(word.bytes) {
            Some(Use::Plain(word.bytes))
        } else {
            None
        },
        [b'@', digits @ ..] => use_at(name, digits),
        _ => None,
    }
}

/// A use: an integer, a name or `NAME@NUM`.
#[tactic(auto, using(crate::proofs::NameBytes::no_number, crate::proofs::NameBytes::no_number_empty, crate::proofs::NameBytes::no_named), unfolding(crate::specs::Forms::use_of))]
#[inline(always)]
pub(crate) fn use_of(word: Word<'_>) -> Option<Use<'_>>
    ensures { option_map use_seen result ≡ use_of word.entry.bytes.now }
{
    match word.bytes {
        [first, ..] if *first == b'-' || first.is_ascii_digit() => {
            let value = int_of(word.bytes)?;
            Some(Use::Number(value))
        }
        _ => named_use_of(word),
    }
}

/// A place: `NAME[SUB]`.
#[tactic(auto, using(crate::proofs::Parted::no_named_place), unfolding(crate::specs::Forms::place_of))]
#[inline(always)]
pub(crate) fn place_of(word: Word<'_>) -> Option<Subscript<'_>>
    ensures { option_map subscript_seen result ≡ place_of word.entry.bytes.now }
{
    let (array, rest) = split_name(word, b'[')?;
    let inner = before_byte(rest, b']')?;
    if !begins_name(array) {
        return None;
    }
    let offset = subscript_of(inner)?;
    Some(Subscript { array, offset })
}

/// What follows the value of a `store`: nothing, or `if USE`. The outer `Option` is whether it does.
pub(crate) fn guard_of(rest: &[u8]) -> Option<Option<Use<'_>>>
    ensures { option_map guard_seen result ≡ guard_of (words_of rest.now) }
{
    let Some((word, rest)) = next_word(rest) else {
        return Some(None);
    };
    let guard = one_word(rest)?;
    if is_text(word.bytes, "if") {
        let guard = use_of(guard)?;
        Some(Some(guard))
    } else {
        None
    }
}
