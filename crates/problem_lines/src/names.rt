//! Names and holds.

ghost use Rattle.std.specs.Prelude.{◌≡◌, true, false, MatchOption};
ghost use Rattle.std.specs.List.{list_all, list_any, position_or_len, before_first, after_first};
ghost use Rattle.problem_lines.specs.Names.{is_at, is_hold, is_name, is_printable, is_sign, is_unit_name};

use loop_lines::number_of;
use machine_data::limits::MAX_LABEL;

/// Whether a name may have this byte.
pub(crate) fn is_printable(byte: u8) -> bool
    ensures { result ≡ is_printable byte }
{
    // (most are above `#`)
    (byte > b'#' && byte <= 126) || byte == b'"' || byte == b'!'
}

/// All bytes of a word may stand in a name.
fn are_printable(word: &[u8]) -> bool
    ensures { result ≡ list_all is_printable word.now }
{
    word.iter().all(|byte| is_printable(*byte))
}

/// The word is a name: 1 to 64 bytes of printable ASCII, none of them `#`.
pub(crate) fn is_name(word: &[u8]) -> bool
    ensures { result ≡ is_name word.now }
{
    !word.is_empty() && word.len() <= MAX_LABEL && are_printable(word)
}

/// An `@` or a `|`.
fn is_sign(byte: u8) -> bool
    ensures { result ≡ is_sign byte }
{
    byte == b'@' || byte == b'|'
}

/// Some byte of a word is an `@` or a `|`.
fn has_sign(word: &[u8]) -> bool
    ensures { result ≡ list_any is_sign word.now }
{
    word.iter().any(|byte| is_sign(*byte))
}

/// The word is a name without `@` and `|`.
pub(crate) fn is_unit_name(word: &[u8]) -> bool
    ensures { result ≡ is_unit_name word.now }
{
    is_name(word) && !has_sign(word)
}

/// How many bytes stand before the first `@`: all of them where there is none.
fn count_unit(word: &[u8]) -> usize
    ensures { result ≡ position_or_len is_at word.now }
{
    for (i, byte) in word.iter().enumerate() {
        if *byte == b'@' {
            return i;
        }
    }
    word.len()
}

/// What stands before the first `@`, and what follows it.
#[tactic(auto, using(crate::proofs::Signs::any_there, crate::proofs::Signs::none_there))]
pub(crate) fn split_hold(word: &[u8]) -> Option<(&[u8], &[u8])>
    ensures { MatchOption result (list_any is_at word.now ≡ false)
        (λ x. (list_any is_at word.now ≡ true) × (x.0.now ≡ before_first is_at word.now) × (x.1.now ≡ after_first is_at word.now)) }
{
    let end = count_unit(word);
    if end < word.len() {
        Some((&word[..end], &word[end + 1..]))
    } else {
        None
    }
}

/// The word is `UNIT` or `UNIT@NUM`.
pub(crate) fn is_hold(word: &[u8]) -> bool
    ensures { result ≡ is_hold word.now }
{
    match split_hold(word) {
        None => is_unit_name(word),
        Some((unit, digits)) => is_unit_name(unit) && number_of(digits).is_some(),
    }
}
