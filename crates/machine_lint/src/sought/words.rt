//! Words that are sought in a text, in their order, so that all that come first in a text are found at once.

ghost use Rattle.std.specs.Prelude.{◌≡◌, ℕ, List, ◌<◌, ◌≤◌, length, IfOk, IfSome, OnOk, true};
ghost use Rattle.std.specs.Cmp.Lexicographic.{slice_cmp};
ghost use Rattle.std.specs.Ordering.{is_le, nat_cmp};
ghost use Rattle.std.specs.declared.cmp.Ordering.TheVariants.{Less};
ghost use Rattle.machine_lint.specs.inner.Sought.{AreLinks, Ascends, Reaches, begins, nth, texts};

use machine::OutOfMemory;
use std::alloc::Global;

/// The bytes of a block.
const BLOCK: usize = 64;

/// Whether a word comes first in a text.
fn begins(word: &[u8], text: &[u8]) -> bool
    ensures { result ≡ begins word.now text.now }
{
    text.starts_with(word)
}

/// Whether a word is not above a text. `cmp` passes what is equal many bytes at a time, which `<=` of slices does not.
fn is_up_to(word: &[u8], text: &[u8]) -> bool
    ensures { result ≡ is_le (slice_cmp nat_cmp word.now text.now) }
{
    word.cmp(&text).is_le()
}

/// Whether a word is above all others, which ascend.
fn is_above(words: &[&[u8]], word: &[u8]) -> bool
    requires { Ascends (texts words.now) }
    ensures { result ≡ true → (i : ℕ) → i < length words.now → slice_cmp nat_cmp (nth (texts words.now) i) word.now ≡ Less }
{
    match words.last() {
        Some(last) => last.cmp(&word).is_lt(),
        None => true,
    }
}

/// Puts a word after others, if it is above all of them.
pub(crate) fn put_above<'a>(words: &mut Vec<&'a [u8]>, word: &'a [u8]) -> Result<(), OutOfMemory>
    requires { Ascends (texts words.now.items) }
    ensures { OnOk result (Ascends (texts words.new.items)) }
{
    if !is_above(words.as_slice(), word) {
        return Ok(());
    }
    words.push(word)?;
    Ok(())
}

/// The last of some words that is not above a text. It is the last that may come first in the text, and begins with all
/// others that do.
pub(crate) fn last_up_to(words: &[&[u8]], text: &[u8]) -> Option<usize>
    requires { Ascends (texts words.now) }
    ensures inside { IfSome result (λ k. k < length words.now) }
    ensures others { (j : ℕ) → j < length words.now → begins (nth (texts words.now) j) text.now ≡ true → Reaches (texts words.now) result j }
{
    words
        .partition_point(|word| is_up_to(*word, text))
        .checked_sub(1)
}

/// How many bytes two texts have in common at their start, counted in whole blocks. `==` goes over long slices many bytes at
/// a time.
fn equal_blocks(text: &[u8], other: &[u8]) -> usize
    ensures text { result ≤ length text.now }
    ensures other { result ≤ length other.now }
{
    let mut at = 0;
    while text.len() - at >= BLOCK && other.len() - at >= BLOCK {
        if text[at..at + BLOCK] != other[at..at + BLOCK] {
            break;
        }
        at += BLOCK;
    }
    at
}

/// How many bytes two texts have in common at their start. Whatever comes first in both is no longer.
fn common(text: &[u8], other: &[u8]) -> usize
    ensures { (w : List ℕ) → begins w text.now ≡ true → begins w other.now ≡ true → length w ≤ result }
{
    let most = text.len().min(other.len());
    for at in equal_blocks(text, other)..most {
        if text[at] != other[at] {
            return at;
        }
    }
    most
}

/// How long the words are at most with which a word and a text begin. Where no link leads on, the word is the only one, so
/// that it is not compared twice.
fn most_of(word: &[u8], leads_on: bool, text: &[u8]) -> usize
    ensures { (w : List ℕ) → begins w word.now ≡ true → begins w text.now ≡ true → length w ≤ result }
{
    if leads_on {
        common(word, text)
    } else {
        word.len()
    }
}

/// How long the words from one on along the links are at most that come first in a text.
fn most_from(words: &[&[u8]], links: &[Option<usize>], from: Option<usize>, text: &[u8]) -> usize
    requires few { length links.now ≤ length words.now }
    requires from { IfSome from (λ k. k < length links.now) }
    ensures { (j : ℕ) → Reaches (texts words.now) from j → begins (nth (texts words.now) j) text.now ≡ true → length (nth (texts words.now) j) ≤ result }
{
    match from {
        Some(number) => most_of(words[number], links[number].is_some(), text),
        None => 0,
    }
}

/// Whether a word comes first in a text, where it is known how long such a word is at most.
fn begins_within(word: &[u8], text: &[u8], most: usize) -> bool
    requires { begins word.now text.now ≡ true → length word.now ≤ most }
    ensures { result ≡ begins word.now text.now }
{
    word.len() <= most && begins(word, text)
}

/// The last word that comes first in a text, from a word on along the links.
pub(crate) fn descend(
    words: &[&[u8]],
    links: &[Option<usize>],
    from: Option<usize>,
    text: &[u8],
) -> Option<usize>
    requires links { AreLinks (texts words.now) links.now }
    requires few { length links.now ≤ length words.now }
    requires from { IfSome from (λ k. k < length links.now) }
    ensures first { IfSome result (λ k. (k < length links.now) × (begins (nth (texts words.now) k) text.now ≡ true)) }
    ensures others { (j : ℕ) → begins (nth (texts words.now) j) text.now ≡ true → Reaches (texts words.now) from j → Reaches (texts words.now) result j }
{
    let most = most_from(words, links, from, text);
    let mut now = from;
    while let Some(number) = now {
        if begins_within(words[number], text, most) {
            return Some(number);
        }
        now = links[number];
    }
    None
}

/// For each of some words the last before it that comes first in it.
pub(crate) fn links(alloc: Global, words: &[&[u8]]) -> Result<Vec<Option<usize>>, OutOfMemory>
    requires { Ascends (texts words.now) }
    ensures are { IfOk result (λ links. AreLinks (texts words.now) links.items) }
    ensures all { IfOk result (λ links. length links.items ≡ length words.now) }
{
    let mut links = Vec::new(alloc);
    for word in words {
        let link = descend(words, links.as_slice(), links.len().checked_sub(1), word);
        links.push(link)?;
    }
    Ok(links)
}
