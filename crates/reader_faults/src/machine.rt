//! Why a machine text is refused.

ghost use Rattle.std.specs.Prelude.{◌≡◌, string_bytes, encode_utf8, flat_map, option_map, IfOk};
ghost use Rattle.std.specs.Fmt.{WritesOnOk};
ghost use Rattle.reader_faults.specs.MachineFaults.{IsFault, byte_text, machine_fault_text};
ghost use Rattle.reader_faults.specs.inner.Parts.{parts_text};
ghost use Rattle.reader_faults.specs.declared.machine.MachineFault.TheVariants.{Limit, Memory};

use machine_data::OutOfMemory;
use std::alloc::{AllocFailed, Global};
use std::fmt;
use std::marker::Model;
use thiserror::Error;

/// A key of a machine text, a name in one, or the name of a limit. Contracts see its bytes.
#[derive(Drop)]
pub struct Key {
    text: String,
}

impl Model for Key {
    ghost use Rattle.std.specs.Prelude.{ℕ, List, string_bytes};

    ghost Value = { List ℕ };

    ghost view = { λ k. string_bytes k.text };
}

impl Key {
    /// The key with this text.
    pub fn new(text: String) -> Key
        ensures { result ≡ string_bytes text }
    {
        Key { text }
    }

    /// A key with a copy of this text.
    ///
    /// # Errors
    /// Memory was refused.
    pub fn of(alloc: Global, text: &str) -> Result<Key, OutOfMemory>
        ensures { IfOk result (λ key. key ≡ text.now) }
    {
        Ok(Key::new(String::from_str(alloc, text)?))
    }

    /// The key's text.
    pub fn as_str(&self) -> &str
        ensures { result.now ≡ self.now }
    {
        self.text.as_str()
    }
}

/// Prints the key on one line: control characters are escaped as in Rust's literals.
impl fmt::Display for Key {
    ghost use Rattle.std.specs.Prelude.{Some};
    ghost use Rattle.reader_faults.specs.MachineFaults.{key_text};

    ghost output = { λ key. Some (key_text key) };

    fn fmt<W: fmt::Write>(&self, f: &mut fmt::Formatter<W>) -> fmt::Result {
        for c in self.as_str().chars() {
            write_on_the_line(f, c)?;
        }
        Ok(())
    }
}

/// Writes a character, escaped where it is a control character.
fn write_on_the_line<W: fmt::Write>(f: &mut fmt::Formatter<W>, c: char) -> fmt::Result
    ensures { WritesOnOk W.write_str_gives f.old result (flat_map byte_text (encode_utf8 c)) f.new }
{
    if !c.is_ascii_control() {
        return f.write_char(c);
    }
    for part in c.escape_default() {
        f.write_char(part)?;
    }
    Ok(())
}

impl fmt::Debug for Key {
    ghost use Rattle.std.specs.Fmt.{debug_str};

    ghost debug_output = { debug_str };

    fn fmt<W: fmt::Write>(&self, f: &mut fmt::Formatter<W>) -> fmt::Result {
        fmt::Debug::fmt(self.as_str(), f)
    }
}

/// What is wrong with a machine text: the first check that it fails.
#[derive(Debug, Drop, Error)]
pub enum MachineFault {
    /// The text is not UTF-8.
    NotUtf8,
    /// The text is not TOML.
    NotToml,
    /// A key that has to be there is missing.
    MissingKey(Key),
    /// The value of a key has another type than it has to have.
    WrongType(Key),
    /// A key means nothing.
    UnknownKey(Key),
    /// A row names a unit that the machine has not.
    UnknownUnit(Key),
    /// A table is named after no opcode.
    UnknownOpcode(Key),
    /// A unit is named twice.
    RepeatedUnit(Key),
    /// An alternative has a row twice.
    RepeatedRow(Key),
    /// A number, a count, a name or the text is outside its limits.
    Limit(Key),
    /// Memory ran out. This says nothing of the text.
    Memory,
}

impl MachineFault {
    /// The fault that something is outside its limits, by its name; without memory for the name, that
    /// memory ran out.
    pub fn limit(alloc: Global, name: &str) -> MachineFault
        ensures { IsFault result (Limit name.now) }
    {
        match Key::of(alloc, name) {
            Ok(key) => MachineFault::Limit(key),
            Err(_) => MachineFault::Memory,
        }
    }

    /// What is wrong, as it is printed before the key or the name, and that, if there is one.
    fn parts(&self) -> (&str, Option<&Key>)
        ensures { parts_text result.0.now (option_map (λ k. k.now) result.1) ≡ machine_fault_text self.now }
    {
        match self {
            MachineFault::NotUtf8 => ("not UTF-8", None),
            MachineFault::NotToml => ("not TOML", None),
            MachineFault::MissingKey(key) => ("missing key ", Some(key)),
            MachineFault::WrongType(key) => ("wrong type at ", Some(key)),
            MachineFault::UnknownKey(key) => ("unknown key ", Some(key)),
            MachineFault::UnknownUnit(unit) => ("unknown unit ", Some(unit)),
            MachineFault::UnknownOpcode(word) => ("unknown opcode ", Some(word)),
            MachineFault::RepeatedUnit(unit) => ("repeated unit ", Some(unit)),
            MachineFault::RepeatedRow(key) => ("repeated row at ", Some(key)),
            MachineFault::Limit(name) => ("limit ", Some(name)),
            MachineFault::Memory => ("out of memory", None),
        }
    }
}

/// Prints what is wrong and with which key or name, on one line.
impl fmt::Display for MachineFault {
    ghost use Rattle.std.specs.Prelude.{Some};
    ghost use Rattle.reader_faults.specs.MachineFaults.{machine_fault_text};

    ghost output = { λ fault. Some (machine_fault_text fault) };

    fn fmt<W: fmt::Write>(&self, f: &mut fmt::Formatter<W>) -> fmt::Result {
        match self.parts() {
            (what, Some(key)) => write!(f, "{what}{key}"),
            (what, None) => f.write_str(what),
        }
    }
}

impl From<OutOfMemory> for MachineFault {
    ghost from_gives = { λ _ e. e ≡ Memory };

    fn from(_e: OutOfMemory) -> MachineFault {
        MachineFault::Memory
    }
}

impl<T: Drop> From<AllocFailed<T>> for MachineFault {
    ghost from_gives = { λ _ e. e ≡ Memory };

    fn from(_e: AllocFailed<T>) -> MachineFault {
        MachineFault::Memory
    }
}
