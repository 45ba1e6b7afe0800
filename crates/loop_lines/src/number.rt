//! The numbers of a line.

ghost use Rattle.std.specs.Prelude.{◌≡◌, ◌-◌, ◌^◌, ◌≤◌, min, if◌then◌else◌, true, ◌∷◌, length, pos, Some, None};
ghost use Rattle.std.specs.Str.{all_ascii_digits};
ghost use Rattle.std.specs.Str.Parse.{digits_value};
ghost use Rattle.loop_lines.specs.Forms.{is_number, int_of, small_of, offset_of, subscript_of};

use crate::words::after_byte;
use machine_data::limits::{MAX_DISTANCE, MAX_SUBSCRIPT};

/// One more digit fits after each number below this.
const SMALL: u64 = u64::MAX / 10;

/// The value of a number, which is one or more digits, or `u64::MAX` where it is above that. `None` if the word is no number.
pub fn number_of(word: &[u8]) -> Option<u64>
    ensures { result ≡ (if is_number word.now then Some (min (digits_value 10 word.now) (2 ^ 64 - 1)) else None) }
{
    if word.is_empty() {
        return None;
    }
    let mut value: u64 = 0;
    let mut rest = word;
    while let [digit, more @ ..] = rest {
        if !digit.is_ascii_digit() {
            return None;
        }
        let digit = u64::from(*digit - b'0');
        value = if value < SMALL {
            10 * value + digit
        } else {
            value.saturating_mul(10).saturating_add(digit)
        };
        rest = more;
    }
    Some(value)
}

/// The value of digits, of which there are sixteen at most.
#[inline(always)]
fn short_value(digits: &[u8]) -> i64
    requires digits { all_ascii_digits digits.now ≡ true }
    requires few { length digits.now ≤ 16 }
    ensures { result ≡ pos (digits_value 10 digits.now) }
{
    let mut value = 0;
    for digit in digits {
        value = 10 * value + i64::from(*digit) - i64::from(b'0');
    }
    value
}

/// The value of an integer of sixteen digits at most, by its sign and them.
#[inline(always)]
#[tactic(auto, using(crate::proofs::Short::digits_are, crate::proofs::Short::minus_value, crate::proofs::Short::plus_value))]
pub(crate) fn short_int(negative: bool, digits: &[u8]) -> i64
    requires number { is_number digits.now ≡ true }
    requires few { length digits.now ≤ 16 }
    ensures { Some (Some result) ≡ int_of (if negative then 45 ∷ digits.now else digits.now) }
{
    let value = short_value(digits);
    if negative { -value } else { value }
}

/// The value of an integer, which is a number with or without a `-` before it: the outer `Option` is whether the word is one, the
/// inner is `None` outside 64 bits.
#[tactic(auto, using(crate::proofs::Numbers::minus_is, crate::proofs::Numbers::plus_is), unfolding(crate::specs::Forms::int_of))]
pub fn int_of(word: &[u8]) -> Option<Option<i64>>
    ensures { result ≡ int_of word.now }
{
    match after_byte(word, b'-') {
        Some(digits) => {
            let value = number_of(digits)?;
            Some(0i64.checked_sub_unsigned(value))
        }
        None => {
            let value = number_of(word)?;
            Some(0i64.checked_add_unsigned(value))
        }
    }
}

/// A number's value: the outer `Option` is whether the word is a number, the inner is `None` above 16.
pub(crate) fn small_of(word: &[u8]) -> Option<Option<u8>>
    ensures { result ≡ (if is_number word.now then Some (small_of word.now) else None) }
{
    let value = number_of(word)?;
    Some(if value <= MAX_DISTANCE as u64 {
        Some(value as u8)
    } else {
        None
    })
}

/// A subscript's constant by its sign and digits: the inner `Option` is `None` outside -64 to 64.
fn offset_of(negative: bool, digits: &[u8]) -> Option<Option<i8>>
    ensures { result ≡ offset_of negative digits.now }
{
    let value = number_of(digits)?;
    if value > MAX_SUBSCRIPT as u64 {
        return Some(None);
    }
    let offset = value as i8;
    Some(Some(if negative { -offset } else { offset }))
}

/// The constant of a subscript `i`, `i+NUM` or `i-NUM`: the inner `Option` is `None` outside -64 to 64.
#[tactic(auto, unfolding(crate::specs::Forms::subscript_of))]
pub(crate) fn subscript_of(word: &[u8]) -> Option<Option<i8>>
    ensures { result ≡ subscript_of word.now }
{
    let rest = after_byte(word, b'i')?;
    if rest.is_empty() {
        return Some(Some(0));
    }
    match after_byte(rest, b'+') {
        Some(digits) => offset_of(false, digits),
        None => offset_of(true, after_byte(rest, b'-')?),
    }
}
