//! Ends of lines, of words and of numbers, found by sixteen bytes at a time.

ghost use Rattle.std.specs.Prelude.{◌≡◌, ◌==◌, ◌||◌, ◌+◌, ◌<◌, ◌≤◌, ℕ, false, true, length, nat_le, nat_lt, not, slice_index};
ghost use Rattle.std.specs.Char.{is_ascii_digit};
ghost use Rattle.std.specs.Int.{bit_at};
ghost use Rattle.std.specs.List.{position_or_len};
ghost use Rattle.loop_data.specs.Names.{is_name_byte};

use std::simd::prelude::*;

/// How many bytes are looked at at once.
pub(crate) const LANES: usize = 16;

/// How many are, where fewer are left.
pub(crate) const HALF: usize = 8;

/// So many bytes from a place on.
#[inline(always)]
fn load<const N: usize>(text: &[u8], at: usize) -> Simd<u8, N>
    requires { at + N ≤ length text.now }
    ensures long { length result ≡ N }
    ensures each { (k : ℕ) → k < N → slice_index result k ≡ slice_index text.now (at + k) }
{
    Simd::from_slice(&text[at..])
}

/// Which of sixteen bytes are line feeds, that of the lowest bit first.
#[inline(always)]
fn feeds(bytes: u8x16) -> u64
    ensures { (k : ℕ) → k < 16 → (bit_at result k == 1) ≡ (slice_index bytes k == 10) }
{
    bytes.simd_eq(u8x16::splat(b'\n')).to_bitmask()
}

/// How many of the sixteen bytes from a place on stand before the first line feed.
#[inline(always)]
fn count_ahead(text: &[u8], at: usize) -> usize
    requires { at + 16 ≤ length text.now }
    ensures few { result ≤ 16 }
    ensures before { (k : ℕ) → k < result → (slice_index text.now (at + k) == 10) ≡ false }
    ensures here { result < 16 → (slice_index text.now (at + result) == 10) ≡ true }
{
    feeds(load::<16>(text, at)).trailing_zeros().min(16) as usize
}

/// Which of sixteen bytes are at most `#`, as those that end a word are; that of the lowest bit first.
#[inline(always)]
fn low_bytes(bytes: u8x16) -> u64
    ensures { (k : ℕ) → k < 16 → (bit_at result k == 1) ≡ nat_le (slice_index bytes k) 35 }
{
    bytes.simd_le(u8x16::splat(b'#')).to_bitmask()
}

/// How many of the first sixteen bytes stand before the first that is at most `#`.
#[inline(always)]
pub(crate) fn count_high(text: &[u8]) -> usize
    requires { 16 ≤ length text.now }
    ensures few { result ≤ 16 }
    ensures high { (k : ℕ) → k < result → nat_le (slice_index text.now k) 35 ≡ false }
{
    low_bytes(load::<16>(text, 0)).trailing_zeros().min(16) as usize
}

/// Which of at most 64 bytes are outside a range, that of the lowest bit first.
#[inline(always)]
fn outside<const N: usize>(bytes: Simd<u8, N>, first: u8, last: u8) -> u64
    requires long { length bytes ≡ N }
    requires few { N ≤ 64 }
    ensures { (k : ℕ) → k < N → (bit_at result k == 1) ≡ (nat_lt (slice_index bytes.entry k) first || nat_lt last (slice_index bytes.entry k)) }
{
    let below = bytes.simd_lt(Simd::splat(first)).to_bitmask();
    let above = bytes.simd_gt(Simd::splat(last)).to_bitmask();
    below | above
}

/// Which of at most 64 bytes may stand in no name, that of the lowest bit first.
#[inline(always)]
fn nameless<const N: usize>(bytes: Simd<u8, N>) -> u64
    requires long { length bytes ≡ N }
    requires few { N ≤ 64 }
    ensures { (k : ℕ) → k < N → (bit_at result k == 1) ≡ not (is_name_byte (slice_index bytes.entry k)) }
{
    let letters = outside(bytes, b'a', b'z') & outside(bytes, b'A', b'Z');
    letters & outside(bytes, b'0', b'9') & outside(bytes, b'_', b'_')
}

/// How many of so many bytes from a place on stand before the first that may stand in no name.
#[inline(always)]
pub(crate) fn count_named<const N: usize>(text: &[u8], at: usize) -> usize
    requires room { at + N ≤ length text.now }
    requires few { N < 64 }
    ensures few { result ≤ N }
    ensures before { (k : ℕ) → k < result → is_name_byte (slice_index text.now (at + k)) ≡ true }
    ensures here { result < N → is_name_byte (slice_index text.now (at + result)) ≡ false }
{
    let first = nameless(load::<N>(text, at)).trailing_zeros() as usize;
    first.min(N)
}

/// How many of so many bytes in front stand before the first that is no digit.
#[inline(always)]
fn count_front<const N: usize>(text: &[u8]) -> usize
    requires room { N ≤ length text.now }
    requires few { N < 64 }
    ensures few { result ≤ N }
    ensures digits { (k : ℕ) → k < result → is_ascii_digit (slice_index text.now k) ≡ true }
{
    let first = outside(load::<N>(text, 0), b'0', b'9').trailing_zeros() as usize;
    first.min(N)
}

/// How many digits stand in front, of which at most sixteen are looked for. No lesser answer is wrong: it
/// only decides how long a cell takes.
#[inline(always)]
pub(crate) fn count_digits(text: &[u8]) -> usize
    ensures few { result ≤ 16 }
    ensures within { result ≤ length text.now }
    ensures digits { (k : ℕ) → k < result → is_ascii_digit (slice_index text.now k) ≡ true }
{
    if text.len() >= LANES {
        return count_front::<16>(text);
    }
    if text.len() >= HALF {
        return count_front::<8>(text);
    }
    let mut at = 0;
    while at < text.len() && text[at].is_ascii_digit() {
        at += 1;
    }
    at
}

/// How many bytes stand before the first line feed: all of them where there is none.
pub(crate) fn count_line(text: &[u8]) -> usize
    ensures { result ≡ position_or_len (λ c. c == 10) text.now }
{
    let mut at = 0;
    while text.len() - at >= LANES {
        let ahead = count_ahead(text, at);
        if ahead < LANES {
            return at + ahead;
        }
        at += LANES;
    }
    while at < text.len() && text[at] != b'\n' {
        at += 1;
    }
    at
}
