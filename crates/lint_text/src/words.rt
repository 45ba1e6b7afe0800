//! Words of a loop text, printed with what is no printable ASCII escaped.

ghost use Rattle.std.specs.Prelude.{◌≡◌, ◌<◌, ◌++◌, IfOk, OnOk, string_bytes};
ghost use Rattle.lint_text.specs.Words.{hex_digit, piece_at, shown, shown_byte, word_told};

use machine_data::OutOfMemory;
use std::alloc::Global;
use writing::Text;

/// The bytes of a line from a column on, from 1, no more than the width.
pub(crate) fn piece_at(line: &[u8], column: usize, width: usize) -> &[u8]
    ensures { result.now ≡ piece_at line.now column width }
{
    let start = column.saturating_sub(1).min(line.len());
    let rest = &line[start..];
    &rest[..width.min(rest.len())]
}

/// The digit of a number below 16.
fn hex_digit(digit: u8) -> u8
    requires { digit < 16 }
    ensures { result ≡ hex_digit digit }
{
    if digit < 10 {
        b'0' + digit
    } else {
        b'a' + (digit - 10)
    }
}

/// Pushes a byte, as `\xHH` where it is no printable ASCII.
fn push_byte(text: &mut Vec<u8>, byte: u8) -> Result<(), OutOfMemory>
    ensures { OnOk result (text.new.items ≡ text.old.items ++ shown_byte byte) }
{
    if (32..127).contains(&byte) {
        text.push(byte)?;
        return Ok(());
    }
    text.extend_from_slice(&[b'\\', b'x', hex_digit(byte / 16), hex_digit(byte % 16)])
}

/// Pushes the bytes of a word.
fn push_bytes(text: &mut Vec<u8>, word: &[u8]) -> Result<(), OutOfMemory>
    ensures { OnOk result (text.new.items ≡ text.old.items ++ shown word.now) }
{
    for byte in word {
        push_byte(text, *byte)?;
    }
    Ok(())
}

/// Pushes a byte after a string, as `\xHH` where it is no printable ASCII.
fn add_byte(text: &mut String, byte: u8) -> Result<(), OutOfMemory>
    ensures { OnOk result (string_bytes text.new ≡ string_bytes text.old ++ shown_byte byte) }
{
    if (32..127).contains(&byte) {
        return text.push(char::from(byte));
    }
    text.push_str("\\x")?;
    text.push(char::from(hex_digit(byte / 16)))?;
    text.push(char::from(hex_digit(byte % 16)))
}

/// Pushes the bytes of a word after a string.
pub(crate) fn add_bytes(text: &mut String, word: &[u8]) -> Result<(), OutOfMemory>
    ensures { OnOk result (string_bytes text.new ≡ string_bytes text.old ++ shown word.now) }
{
    for byte in word {
        add_byte(text, *byte)?;
    }
    Ok(())
}

/// The bytes of a word as a string.
pub(crate) fn shown_word(alloc: Global, word: &[u8]) -> Result<String, OutOfMemory>
    ensures { IfOk result (λ text. string_bytes text ≡ shown word.now) }
{
    let mut text = String::new(alloc);
    add_bytes(&mut text, word)?;
    Ok(text)
}

/// Pushes a word with a colon, or nothing where it has no bytes.
pub(crate) fn push_word(text: &mut Vec<u8>, word: &[u8]) -> Result<(), OutOfMemory>
    ensures { OnOk result (text.new.items ≡ text.old.items ++ word_told word.now) }
{
    if word.is_empty() {
        return Ok(());
    }
    push_bytes(text, word)?;
    text.push_piece(": ")
}
