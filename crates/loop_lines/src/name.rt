//! Names.

ghost use Rattle.std.specs.Prelude.{◌≡◌, not, true};
ghost use Rattle.std.specs.List.{list_all, position_or_len};
ghost use Rattle.loop_data.specs.Names.{is_letter, is_name, is_name_byte, is_reserved};

use crate::feeds::{HALF, LANES, count_named};
use crate::word::Word;
use crate::words::is_text;

/// A letter or `_`.
fn is_letter(byte: u8) -> bool
    ensures { result ≡ is_letter byte }
{
    byte.is_ascii_alphabetic() || byte == b'_'
}

/// Which bytes may stand in a name, by their values: letters, digits and `_`.
static NAME_BYTES: [bool; 256] = [
    false, false, false, false, false, false, false, false, false, false, false, false, false,
    false, false, false, false, false, false, false, false, false, false, false, false, false,
    false, false, false, false, false, false, false, false, false, false, false, false, false,
    false, false, false, false, false, false, false, false, false, true, true, true, true, true,
    true, true, true, true, true, false, false, false, false, false, false, false, true, true,
    true, true, true, true, true, true, true, true, true, true, true, true, true, true, true, true,
    true, true, true, true, true, true, true, true, false, false, false, false, true, false, true,
    true, true, true, true, true, true, true, true, true, true, true, true, true, true, true, true,
    true, true, true, true, true, true, true, true, true, false, false, false, false, false, false,
    false, false, false, false, false, false, false, false, false, false, false, false, false,
    false, false, false, false, false, false, false, false, false, false, false, false, false,
    false, false, false, false, false, false, false, false, false, false, false, false, false,
    false, false, false, false, false, false, false, false, false, false, false, false, false,
    false, false, false, false, false, false, false, false, false, false, false, false, false,
    false, false, false, false, false, false, false, false, false, false, false, false, false,
    false, false, false, false, false, false, false, false, false, false, false, false, false,
    false, false, false, false, false, false, false, false, false, false, false, false, false,
    false, false, false, false, false, false, false, false, false, false, false, false, false,
    false, false, false, false, false, false, false, false, false, false,
];

/// A letter, a digit or `_`.
fn is_name_byte(byte: u8) -> bool
    ensures { result ≡ is_name_byte byte }
{
    NAME_BYTES[byte as usize]
}

/// How many bytes in front may stand in a name.
pub(crate) fn count_name(text: &[u8]) -> usize
    ensures { result ≡ position_or_len (λ c. not (is_name_byte c)) text.now }
{
    let mut at = 0;
    while text.len() - at >= LANES {
        let ahead = count_named::<16>(text, at);
        if ahead < LANES {
            return at + ahead;
        }
        at += LANES;
    }
    while text.len() - at >= HALF {
        let ahead = count_named::<8>(text, at);
        if ahead < HALF {
            return at + ahead;
        }
        at += HALF;
    }
    while at < text.len() && is_name_byte(text[at]) {
        at += 1;
    }
    at
}

/// How many bytes the longest reserved words have, as `array`.
const LONGEST: usize = 5;

/// The word is a keyword or an opcode.
#[inline(always)]
#[tactic(auto, using(crate::proofs::Reserved::long_is_free))]
fn is_reserved(word: &[u8]) -> bool
    ensures { result ≡ is_reserved word.now }
{
    word.len() <= LONGEST && is_one_of_few(word)
}

/// The word is a keyword or an opcode. The first byte leaves few of them to compare.
#[inline(never)]
fn is_one_of_few(word: &[u8]) -> bool
    ensures { result ≡ is_reserved word.now }
{
    let [first, rest @ ..] = word else {
        return false;
    };
    match *first {
        b'a' => is_text(rest, "rray") || is_text(rest, "dd") || is_text(rest, "nd"),
        b'e' => is_text(rest, "nd"),
        b'i' => is_text(rest, "nit") || is_text(rest, "f") || rest.is_empty(),
        b'l' => is_text(rest, "oop") || is_text(rest, "oad") || is_text(rest, "t"),
        b'm' => is_text(rest, "ul")
            || is_text(rest, "in")
            || is_text(rest, "ax")
            || is_text(rest, "ov"),
        b'o' => is_text(rest, "ut") || is_text(rest, "r"),
        b'p' => is_text(rest, "aram"),
        b's' => is_text(rest, "tore") || is_text(rest, "ub") || is_text(rest, "el"),
        b'x' => is_text(rest, "or"),
        _ => false,
    }
}

/// These bytes, which may all stand in a name, are one: the first is a letter or `_`, and they are not
/// reserved.
#[tactic(auto, using(crate::proofs::NameBytes::starts_by_first), unfolding(loop_data::specs::Names::is_name))]
#[inline(always)]
pub(crate) fn begins_name(word: &[u8]) -> bool
    requires { list_all is_name_byte word.now ≡ true }
    ensures { result ≡ is_name word.now }
{
    match word {
        [] => false,
        [first, ..] => is_letter(*first) && !is_reserved(word),
    }
}

/// The word is a name: a letter or `_`, then letters, digits and `_`, and not reserved.
#[tactic(auto, using(crate::proofs::NameBytes::all_stand, crate::proofs::NameBytes::no_name_short))]
pub(crate) fn is_name(word: Word<'_>) -> bool
    ensures { result ≡ is_name word.entry.bytes.now }
{
    if word.named < word.bytes.len() {
        return false;
    }
    begins_name(word.bytes)
}
