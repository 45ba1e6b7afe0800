//! Where a key stands in the tree of a machine text.

ghost use Rattle.std.specs.Prelude.{◌≡◌, ◌++◌, IfOk, OnOk, string_bytes};
ghost use Rattle.machine.specs.MachineText.{path_of, path_in};
ghost use Rattle.reader_faults.specs.MachineFaults.{IsFault};
ghost use Rattle.reader_faults.specs.declared.machine.MachineFault.TheVariants.{MissingKey, WrongType};

use machine_data::OutOfMemory;
use reader_faults::{Key, MachineFault};
use std::alloc::Global;
use std::marker::Model;

/// The path of a table or a key, in pieces: it is put together for a fault alone. Contracts see the
/// whole path.
#[derive(Drop)]
pub(crate) struct Path<'a> {
    ops: &'a str,
    opcode: &'a str,
    dot: &'a str,
    key: &'a str,
}

impl<'a> Model for Path<'a> {
    ghost use Rattle.std.specs.Prelude.{ℕ, List, ◌++◌};

    ghost Value = { List ℕ };

    ghost view = { λ p. ((p.ops.now ++ p.opcode.now) ++ p.dot.now) ++ p.key.now };
}

impl<'a> Path<'a> {
    /// A key at the top.
    pub(crate) fn top(key: &'a str) -> Path<'a>
        ensures { result ≡ key.now }
    {
        Path {
            ops: "",
            opcode: "",
            dot: "",
            key,
        }
    }

    /// The table of an opcode.
    pub(crate) fn table(opcode: &'a str) -> Path<'a>
        ensures { result ≡ path_of opcode.now }
    {
        Path {
            ops: "ops.",
            opcode,
            dot: "",
            key: "",
        }
    }

    /// A key in the table of an opcode.
    pub(crate) fn inside(opcode: &'a str, key: &'a str) -> Path<'a>
        ensures { result ≡ path_in opcode.now key.now }
    {
        Path {
            ops: "ops.",
            opcode,
            dot: ".",
            key,
        }
    }

    /// The path with a last piece after it, as the key of a fault.
    pub(crate) fn to_key(&self, alloc: Global, last: &str) -> Result<Key, OutOfMemory>
        ensures { IfOk result (λ key. key ≡ self.now ++ last.now) }
    {
        let mut text = String::new(alloc);
        self.write_to(&mut text, last)?;
        Ok(Key::new(text))
    }

    /// Appends the path and a last piece to a text.
    fn write_to(&self, text: &mut String, last: &str) -> Result<(), OutOfMemory>
        ensures { OnOk result (string_bytes text.new ≡ string_bytes text.old ++ (self.now ++ last.now)) }
    {
        text.push_str(self.ops)?;
        text.push_str(self.opcode)?;
        text.push_str(self.dot)?;
        text.push_str(self.key)?;
        text.push_str(last)
    }

    /// The fault that the key is missing here; without memory for the path, that memory ran out.
    pub(crate) fn missing(&self, alloc: Global) -> MachineFault
        ensures { IsFault result (MissingKey self.now) }
    {
        match self.to_key(alloc, "") {
            Ok(key) => MachineFault::MissingKey(key),
            Err(_) => MachineFault::Memory,
        }
    }

    /// The fault that the value here has a wrong type; without memory for the path, that memory ran out.
    pub(crate) fn wrong_type(&self, alloc: Global) -> MachineFault
        ensures { IsFault result (WrongType self.now) }
    {
        match self.to_key(alloc, "") {
            Ok(key) => MachineFault::WrongType(key),
            Err(_) => MachineFault::Memory,
        }
    }
}
