//! Bytes looked at by eight at a time.

ghost use Rattle.std.specs.Prelude.{◌≡◌, ◌==◌, ◌||◌, ◌+◌, ◌<◌, ◌≤◌, ℕ, false, true, length, take, drop, nat_lt, slice_index};
ghost use Rattle.std.specs.Int.{bit_at};
ghost use Rattle.std.specs.Str.{bytes_eq};
ghost use Rattle.machine_data.specs.Opcodes.{same_word};
ghost use Rattle.problem_lines.specs.Names.{is_printable};

use std::simd::prelude::*;

/// How many bytes are looked at at once.
const EIGHT: usize = 8;

/// Eight bytes from a place on.
#[inline(always)]
fn load(text: &[u8], at: usize) -> u8x8
    requires { at + 8 ≤ length text.now }
    ensures long { length result ≡ 8 }
    ensures each { (k : ℕ) → k < 8 → slice_index result k ≡ slice_index text.now (at + k) }
{
    u8x8::from_slice(&text[at..])
}

/// Which of eight bytes are at most `#` or above `~`, that of the lowest bit first.
#[inline(always)]
fn other_bytes(bytes: u8x8) -> u64
    ensures { (k : ℕ) → k < 8 → (bit_at result k == 1) ≡ (nat_lt (slice_index bytes k) 36 || nat_lt 126 (slice_index bytes k)) }
{
    let below = bytes.simd_lt(u8x8::splat(b'$')).to_bitmask();
    let above = bytes.simd_gt(u8x8::splat(b'~')).to_bitmask();
    below | above
}

/// How many of the eight bytes from a place on stand before the first that is at most `#` or above `~`.
#[inline(always)]
fn count_ahead(text: &[u8], at: usize) -> usize
    requires { at + 8 ≤ length text.now }
    ensures few { result ≤ 8 }
    ensures named { (k : ℕ) → k < result → is_printable (slice_index text.now (at + k)) ≡ true }
{
    other_bytes(load(text, at)).trailing_zeros().min(8) as usize
}

/// Whether a name may have this byte, which is none of the two below `#`.
fn is_high(byte: u8) -> bool
    ensures { result ≡ true → is_printable byte ≡ true }
{
    byte > b'#' && byte <= b'~'
}

/// How many bytes in front may stand in a name and are above `#`, looked for by eight at a time. No lesser answer is wrong: it only
/// decides how long a word takes.
#[inline(always)]
pub(crate) fn count_named(text: &[u8]) -> usize
    ensures within { result ≤ length text.now }
    ensures named { (k : ℕ) → k < result → is_printable (slice_index text.now k) ≡ true }
{
    let mut at = 0;
    while text.len() - at >= EIGHT {
        let ahead = count_ahead(text, at);
        at += ahead;
        if ahead < EIGHT {
            return at;
        }
    }
    while at < text.len() && is_high(text[at]) {
        at += 1;
    }
    at
}

/// Whether eight bytes of two texts are the same, from a place on.
#[inline(always)]
fn are_eight_same(one: &[u8], other: &[u8], at: usize) -> bool
    requires one { at + 8 ≤ length one.now }
    requires other { at + 8 ≤ length other.now }
    ensures { result ≡ bytes_eq (take 8 (drop at one.now)) (take 8 (drop at other.now)) }
{
    other[at..].starts_with(&one[at..at + EIGHT])
}

/// Two texts are the same.
#[inline]
#[tactic(auto, using(crate::proofs::EightBytes::more_same, crate::proofs::EightBytes::differ_eight, crate::proofs::EightBytes::differ_one, crate::proofs::EightBytes::differ_long, crate::proofs::EightBytes::same_whole))]
pub fn are_same(one: &[u8], other: &[u8]) -> bool
    ensures { result ≡ same_word one.now other.now }
{
    if one.len() != other.len() {
        return false;
    }
    let mut at = 0;
    while one.len() - at >= EIGHT {
        if !are_eight_same(one, other, at) {
            return false;
        }
        at += EIGHT;
    }
    while at < one.len() {
        if one[at] != other[at] {
            return false;
        }
        at += 1;
    }
    true
}
