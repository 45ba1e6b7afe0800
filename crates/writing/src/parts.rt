//! Parts of lines.

ghost use Rattle.std.specs.Prelude.{◌≡◌, ◌<◌, ◌≤◌, ◌++◌, decimal, OnOk, OnErr};
ghost use Rattle.std.specs.Fmt.{signed_decimal};
ghost use Rattle.writing.specs.Words.{at, told, told_signed, with_sign};
ghost use Rattle.writing.specs.Texts.{HasPart};

use crate::OutOfMemory;
use crate::text::Text;
use itoa::Buffer;

/// Pushes two pieces.
///
/// # Errors
/// [`OutOfMemory`] where memory ran out. The text has the beginning of both after it, or nothing of them.
pub fn push_both<T: Text>(text: &mut T, first: &str, second: &str) -> Result<(), OutOfMemory>
    ensures ok { OnOk result (T.bytes text.new ≡ T.bytes text.old ++ (first.now ++ second.now)) }
    ensures err { OnErr result (HasPart (T.bytes text.old) (first.now ++ second.now) (T.bytes text.new)) }
{
    text.push_piece(first)?;
    text.push_piece(second)
}

/// Pushes a number in decimal digits.
///
/// # Errors
/// [`OutOfMemory`] where memory ran out. The text is what it was.
pub fn push_number<T: Text>(text: &mut T, number: u64) -> Result<(), OutOfMemory>
    ensures ok { OnOk result (T.bytes text.new ≡ T.bytes text.old ++ decimal number) }
    ensures err { OnErr result (T.bytes text.new ≡ T.bytes text.old) }
{
    // (most numbers have one digit or two, and need no buffer)
    if number < 10 {
        return text.push_piece(one_digit(number));
    }
    if number < 100 {
        return text.push_piece(two_digits(number));
    }
    push_long(text, number)
}

/// The two digits of each number below 100.
const PAIRS: &str =
    "00010203040506070809101112131415161718192021222324252627282930313233343536373839404142434445464748495051525354555657585960616263646566676869707172737475767778798081828384858687888990919293949596979899";

/// The digit of a number below 10.
#[inline(always)]
fn one_digit(number: u64) -> &'static str
    requires { number < 10 }
    ensures { result.now ≡ decimal number }
{
    let end = number as usize * 2 + 2;
    &PAIRS[end - 1..end]
}

/// The digits of a number of 10 to 99.
#[inline(always)]
fn two_digits(number: u64) -> &'static str
    requires low { 10 ≤ number }
    requires high { number < 100 }
    ensures { result.now ≡ decimal number }
{
    let start = number as usize * 2;
    &PAIRS[start..start + 2]
}

/// Pushes a number of any length. Kept out of [`push_number`], which is short without it.
#[cold]
#[inline(never)]
fn push_long<T: Text>(text: &mut T, number: u64) -> Result<(), OutOfMemory>
    ensures ok { OnOk result (T.bytes text.new ≡ T.bytes text.old ++ decimal number) }
    ensures err { OnErr result (T.bytes text.new ≡ T.bytes text.old) }
{
    let mut digits = Buffer::new();
    text.push_piece(digits.format(number))
}

/// Pushes a number in decimal digits, after a `-` where it is negative.
///
/// # Errors
/// [`OutOfMemory`] where memory ran out. The text is what it was.
pub fn push_integer<T: Text>(text: &mut T, number: i64) -> Result<(), OutOfMemory>
    ensures ok { OnOk result (T.bytes text.new ≡ T.bytes text.old ++ signed_decimal number) }
    ensures err { OnErr result (T.bytes text.new ≡ T.bytes text.old) }
{
    let mut digits = Buffer::new();
    text.push_piece(digits.format(number))
}

/// Pushes a word, then a number.
///
/// # Errors
/// [`OutOfMemory`] where memory ran out. The text has the beginning of both after it, or nothing of them.
pub fn push_told<T: Text>(text: &mut T, word: &str, number: u64) -> Result<(), OutOfMemory>
    ensures ok { OnOk result (T.bytes text.new ≡ T.bytes text.old ++ told word.now number) }
    ensures err { OnErr result (HasPart (T.bytes text.old) (told word.now number) (T.bytes text.new)) }
{
    text.push_piece(word)?;
    push_number(text, number)
}

/// Pushes a word, then a number that may be negative.
///
/// # Errors
/// [`OutOfMemory`] where memory ran out. The text has the beginning of both after it, or nothing of them.
pub fn push_signed<T: Text>(text: &mut T, word: &str, number: i64) -> Result<(), OutOfMemory>
    ensures ok { OnOk result (T.bytes text.new ≡ T.bytes text.old ++ told_signed word.now number) }
    ensures err { OnErr result (HasPart (T.bytes text.old) (told_signed word.now number) (T.bytes text.new)) }
{
    text.push_piece(word)?;
    push_integer(text, number)
}

/// Pushes a number after its sign, also where it isn't negative.
///
/// # Errors
/// [`OutOfMemory`] where memory ran out. The text has the beginning of both after it, or nothing of them.
pub fn push_with_sign<T: Text>(text: &mut T, number: i64) -> Result<(), OutOfMemory>
    ensures ok { OnOk result (T.bytes text.new ≡ T.bytes text.old ++ with_sign number) }
    ensures err { OnErr result (HasPart (T.bytes text.old) (with_sign number) (T.bytes text.new)) }
{
    let sign = if number < 0 { "-" } else { "+" };
    push_told(text, sign, number.unsigned_abs())
}

/// Pushes a name and, where the number isn't 0, an `@`, then the number.
///
/// # Errors
/// [`OutOfMemory`] where memory ran out. The text has the beginning of all after it, or nothing of it.
pub fn push_at<T: Text>(text: &mut T, name: &str, number: u64) -> Result<(), OutOfMemory>
    ensures ok { OnOk result (T.bytes text.new ≡ T.bytes text.old ++ at name.now number) }
    ensures err { OnErr result (HasPart (T.bytes text.old) (at name.now number) (T.bytes text.new)) }
{
    text.push_piece(name)?;
    if number == 0 {
        return Ok(());
    }
    push_told(text, "@", number)
}
