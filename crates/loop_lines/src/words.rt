//! Lines of a text and words of a line.

ghost use Rattle.std.specs.Prelude.{◌≡◌, ◌≢◌, ◌==◌, ◌-◌, ◌<◌, ◌≤◌, ◌&&◌, nat_lt, not, ℕ, List, [], ◌∷◌, codes, length, take, slice_index, false, true, MatchBool, MatchOption};
ghost use Rattle.std.specs.List.{position_or_len};
ghost use Rattle.loop_data.specs.Names.{is_name_byte};
ghost use Rattle.machine_data.specs.Opcodes.{same_word};
ghost use Rattle.loop_lines.specs.Words.{is_blank, lines_of, starts_blank, stops_word, words_of};
ghost use Rattle.loop_lines.specs.inner.Stops.{begins_equals, begins_stop, is_equation};

use crate::feeds::{LANES, count_high, count_line};
use crate::name::count_name;
use crate::word::Word;

/// The bytes are those of this text.
pub(crate) fn is_text(bytes: &[u8], text: &str) -> bool
    ensures value { result ≡ same_word bytes.now text.now }
    ensures turned { result ≡ same_word text.now bytes.now }
{
    bytes == text.as_bytes()
}

/// What follows this byte, where the bytes begin with it.
pub(crate) fn after_byte(bytes: &[u8], byte: u8) -> Option<&[u8]>
    ensures { MatchOption result ((rest : List ℕ) → bytes.now ≢ byte ∷ rest) (λ x. bytes.now ≡ byte ∷ x.now) }
{
    match bytes {
        [first, rest @ ..] if *first == byte => Some(rest),
        _ => None,
    }
}

/// What stands before this byte, where the bytes end with it.
pub(crate) fn before_byte(bytes: &[u8], byte: u8) -> Option<&[u8]>
    ensures { MatchOption result
        ((nat_lt 0 (length bytes.now) && (slice_index bytes.now (length bytes.now - 1) == byte)) ≡ false)
        (λ x. ((nat_lt 0 (length bytes.now) && (slice_index bytes.now (length bytes.now - 1) == byte)) ≡ true) × (x.now ≡ take (length bytes.now - 1) bytes.now)) }
{
    match bytes {
        [inner @ .., last] if *last == byte => Some(inner),
        _ => None,
    }
}

/// The first line of a text that is not empty, and what follows it.
#[tactic(auto, using(crate::proofs::Cuts::line_taken, crate::proofs::Cuts::line_whole))]
pub fn next_line(text: &[u8]) -> (&[u8], &[u8])
    requires { 0 < length text.now }
    ensures lines { lines_of text.now ≡ result.0.now ∷ lines_of result.1.now }
    ensures shorter { length result.1.now < length text.now }
{
    let end = count_line(text);
    if end < text.len() {
        (&text[..end], &text[end + 1..])
    } else {
        (text, &[])
    }
}

/// A space, a tab or a carriage return.
pub(crate) fn is_blank(byte: u8) -> bool
    ensures { result ≡ is_blank byte }
{
    byte == b' ' || byte == b'\t' || byte == b'\r'
}

/// A blank, or `#`, with which a comment begins. Most words end at a space, and the bytes of names,
/// numbers and signs are all above `#`.
#[inline]
pub fn ends_word(byte: u8) -> bool
    ensures { result ≡ stops_word byte }
{
    byte == b' ' || (byte <= b'#' && (is_blank(byte) || byte == b'#'))
}

/// No word goes on into this text.
pub(crate) fn begins_stop(text: &[u8]) -> bool
    ensures { result ≡ begins_stop text.now }
{
    match text {
        [] => true,
        [first, ..] => ends_word(*first),
    }
}

/// What follows a space in front, if there is one.
#[tactic(auto, using(crate::proofs::Short::space_passed))]
pub(crate) fn without_space(rest: &[u8]) -> &[u8]
    ensures { words_of result.now ≡ words_of rest.now }
{
    match after_byte(rest, b' ') {
        Some(more) => more,
        None => rest,
    }
}

/// What follows the blanks in front.
#[tactic(auto, using(crate::proofs::Cuts::blank_passed))]
fn without_blanks(text: &[u8]) -> &[u8]
    ensures same_words { words_of result.now ≡ words_of text.now }
    ensures no_blank { starts_blank result.now ≡ false }
{
    let mut rest = without_space(text);
    while let [first, more @ ..] = rest {
        if !is_blank(*first) {
            break;
        }
        rest = more;
    }
    rest
}

/// How many bytes stand before the first blank or `#`.
pub fn count_word(text: &[u8]) -> usize
    ensures { result ≡ position_or_len stops_word text.now }
{
    let mut at = 0;
    if text.len() >= LANES {
        at = count_high(text);
    }
    while at < text.len() && !ends_word(text[at]) {
        at += 1;
    }
    at
}

/// How many bytes stand before the first blank or `#`, where these in front may stand in a name.
#[inline(always)]
fn count_past(text: &[u8], named: usize) -> usize
    requires { named ≡ position_or_len (λ c. not (is_name_byte c)) text.now }
    ensures value { result ≡ position_or_len stops_word text.now }
    ensures past { named ≤ result }
{
    let (_, rest) = text.split_at(named);
    if begins_stop(rest) {
        named
    } else {
        named + count_word(rest)
    }
}

/// The next word of a rest of a line, and what follows it.
#[inline(always)]
#[tactic(auto, using(crate::proofs::Cuts::words_none))]
pub(crate) fn next_word(rest: &[u8]) -> Option<(Word<'_>, &[u8])>
    ensures { MatchOption result (words_of rest.now ≡ []) (λ x. words_of rest.now ≡ x.0.bytes.now ∷ words_of x.1.now) }
{
    let rest = without_blanks(rest);
    let named = count_name(rest);
    let end = count_past(rest, named);
    if end == 0 {
        return None;
    }
    let (bytes, after) = rest.split_at(end);
    Some((Word { bytes, named }, after))
}

/// A rest of a line has no more words.
#[inline(always)]
#[tactic(auto, using(crate::proofs::Ends::none_left, crate::proofs::Ends::some_left))]
pub(crate) fn is_over(rest: &[u8]) -> bool
    ensures { MatchBool result (words_of rest.now ≡ []) (0 < length (words_of rest.now)) }
{
    begins_stop(without_blanks(rest))
}

/// What follows the word `=`, where it comes first. Mostly it stands between two spaces.
#[inline(always)]
#[tactic(auto, using(crate::proofs::Equals::taken, crate::proofs::Equals::spaced, crate::proofs::Equals::other_byte, crate::proofs::Equals::longer_word))]
pub(crate) fn after_equals(rest: &[u8]) -> Option<&[u8]>
    ensures { MatchOption result (begins_equals (words_of rest.now) ≡ false) (λ x. words_of rest.now ≡ codes "=" ∷ words_of x.now) }
{
    if let [b' ', b'=', b' ', after @ ..] = rest {
        return Some(after);
    }
    let rest = without_blanks(rest);
    match after_byte(rest, b'=') {
        Some(after) if begins_stop(after) => Some(after),
        _ => None,
    }
}

/// The word of a rest that has one word.
#[inline(always)]
pub(crate) fn one_word(rest: &[u8]) -> Option<Word<'_>>
    ensures { MatchOption result (length (words_of rest.now) ≢ 1) (λ x. words_of rest.now ≡ x.bytes.now ∷ []) }
{
    let (first, rest) = next_word(rest)?;
    if is_over(rest) { Some(first) } else { None }
}

/// The first and the last word of a rest that has three, of which the second is `=`.
pub(crate) fn equation(rest: &[u8]) -> Option<(Word<'_>, Word<'_>)>
    ensures { MatchOption result (is_equation (words_of rest.now) ≡ false) (λ x. words_of rest.now ≡ x.0.bytes.now ∷ (codes "=" ∷ (x.1.bytes.now ∷ []))) }
{
    let (left, rest) = next_word(rest)?;
    let rest = after_equals(rest)?;
    let right = one_word(rest)?;
    Some((left, right))
}

/// The words of a rest that has two.
#[inline(always)]
pub(crate) fn two_words(rest: &[u8]) -> Option<(Word<'_>, Word<'_>)>
    ensures { MatchOption result (length (words_of rest.now) ≢ 2) (λ x. words_of rest.now ≡ x.0.bytes.now ∷ (x.1.bytes.now ∷ [])) }
{
    let (first, rest) = next_word(rest)?;
    let second = one_word(rest)?;
    Some((first, second))
}

/// The words of a rest that has three.
pub(crate) fn three_words(rest: &[u8]) -> Option<(Word<'_>, Word<'_>, Word<'_>)>
    ensures { MatchOption result (length (words_of rest.now) ≢ 3) (λ x. words_of rest.now ≡ x.0.bytes.now ∷ (x.1.bytes.now ∷ (x.2.bytes.now ∷ []))) }
{
    let (first, rest) = next_word(rest)?;
    let (second, third) = two_words(rest)?;
    Some((first, second, third))
}
