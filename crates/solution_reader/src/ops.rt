//! The lines of a solution's operations.

ghost use Rattle.std.specs.Prelude.{◌≡◌, ℕ, List, [], ◌∷◌, ◌++◌, length, map, false, IfErr, OnOk, IfSome, option_copied, option_map};
ghost use Rattle.solution_reader.specs.Data.{op_names, has_name};
ghost use Rattle.solution_reader.specs.Resolved.{op_named};
ghost use Rattle.solution_reader.specs.declared.fault.Refusal.TheVariants.{Memory};
ghost use Rattle.solution_reader.specs.inner.Seen.{op_seen};

use crate::fault::Refusal;
use crate::numbers::add_number;
use crate::rows::OpTime;
use std::alloc::Global;
use std::collections::BTreeMap;
use std::marker::Model;
use std::mem;

/// Lines of operations, in the order of the text. Contracts see the list of them.
#[derive(Drop)]
pub(crate) struct Ops<'a> {
    rows: Vec<OpTime<'a>>,
    numbers: BTreeMap<&'a [u8], usize>,
}

impl<'a> Model for Ops<'a> {
    ghost use Rattle.std.specs.Prelude.{List, map};
    ghost use Rattle.solution_reader.specs.Data.{OpData, op_names};
    ghost use Rattle.solution_reader.specs.inner.Numbered.{AreNumbers};
    ghost use Rattle.solution_reader.specs.inner.Seen.{op_seen};

    ghost Value = { List OpData };

    ghost view = { λ t. map op_seen t.rows.items };

    ghost invariant = { λ t. AreNumbers (op_names (map op_seen t.rows.items)) t.numbers };
}

impl<'a> Ops<'a> {
    /// None. Nothing is allocated.
    pub(crate) fn new(alloc: Global) -> Ops<'a>
        ensures { result ≡ [] }
    {
        Ops {
            rows: Vec::new(alloc),
            numbers: BTreeMap::new(alloc),
        }
    }

    /// How many there are.
    pub(crate) fn len(&self) -> usize
        ensures { result ≡ length self.now }
    {
        self.rows.len()
    }

    /// The lines.
    pub(crate) fn rows(&self) -> &[OpTime<'a>]
        ensures { map op_seen result.now ≡ self.now }
    {
        self.rows.as_slice()
    }

    /// Whether a name has a line.
    pub(crate) fn has(&self, name: &[u8]) -> bool
        ensures { result ≡ has_name (op_names self.now) name.now }
    {
        self.numbers.contains_key(name)
    }

    /// The line of a name.
    pub(crate) fn find(&self, name: &[u8]) -> Option<OpTime<'a>>
        ensures { option_map op_seen result ≡ op_named self.now name.now }
    {
        match self.numbers.get(name) {
            None => None,
            Some(number) => Some(self.rows[*number]),
        }
    }

    /// Adds a line whose name has none. Where memory runs out, all is as before.
    pub(crate) fn add(&mut self, row: OpTime<'a>) -> Result<(), Refusal>
        requires { has_name (op_names self.old) row.name.bytes.now ≡ false }
        ensures fault { IfErr result (λ refusal. refusal ≡ Memory) }
        ensures added { OnOk result (self.new ≡ self.old ++ op_seen row.entry ∷ []) }
    {
        let number = self.rows.len();
        self.rows.push(row)?;
        if let Err(error) = add_number(&mut self.numbers, row.name.bytes, number) {
            self.rows.pop();
            return Err(error);
        }
        Ok(())
    }

    /// Takes all lines out.
    pub(crate) fn take(&mut self, alloc: Global) -> Ops<'a>
        ensures taken { result ≡ self.old }
        ensures empty { self.new ≡ [] }
    {
        mem::replace(self, Ops::new(alloc))
    }
}
