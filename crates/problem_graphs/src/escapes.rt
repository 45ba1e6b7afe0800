//! Names between the quotes of the language of Graphviz.

ghost use Rattle.std.specs.Prelude.{◌≡◌, ◌++◌, OnOk};
ghost use Rattle.problem_graphs.specs.Escapes.{escaped, escaped_byte, escaped_in};

use machine_data::OutOfMemory;
use problems::Label;
use writing::push_number;

/// Appends a byte, after a backslash where it is a quote or a backslash.
fn push_escaped_byte(text: &mut Vec<u8>, byte: u8) -> Result<(), OutOfMemory>
    ensures ok { OnOk result (text.new.items ≡ text.old.items ++ escaped_byte byte) }
{
    if byte == b'"' || byte == b'\\' {
        text.push(b'\\')?;
    }
    text.push(byte)?;
    Ok(())
}

/// Appends a name as it stands between quotes.
pub(crate) fn push_escaped(text: &mut Vec<u8>, name: &str) -> Result<(), OutOfMemory>
    ensures ok { OnOk result (text.new.items ≡ text.old.items ++ escaped name.now) }
{
    for byte in name.as_bytes() {
        push_escaped_byte(text, *byte)?;
    }
    Ok(())
}

/// Appends the name with a number as it stands between quotes, or where there is none the number.
pub(crate) fn push_escaped_name(
    text: &mut Vec<u8>,
    names: &[Label],
    number: usize,
) -> Result<(), OutOfMemory>
    ensures ok { OnOk result (text.new.items ≡ text.old.items ++ escaped_in names.now number) }
{
    match names.get(number) {
        Some(name) => push_escaped(text, name.as_str()),
        None => push_number(text, number as u64),
    }
}
