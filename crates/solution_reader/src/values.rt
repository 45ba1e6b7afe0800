//! The lines of a solution's values.

ghost use Rattle.std.specs.Prelude.{◌≡◌, ℕ, List, [], ◌∷◌, ◌++◌, length, map, false, IfErr, OnOk, IfSome, option_copied, option_map};
ghost use Rattle.solution_reader.specs.Data.{value_names, has_name};
ghost use Rattle.solution_reader.specs.Resolved.{value_named};
ghost use Rattle.solution_reader.specs.declared.fault.Refusal.TheVariants.{Memory};
ghost use Rattle.solution_reader.specs.inner.Seen.{value_seen};

use crate::fault::Refusal;
use crate::numbers::add_number;
use crate::rows::ValueNumber;
use std::alloc::Global;
use std::collections::BTreeMap;
use std::marker::Model;
use std::mem;

/// Lines of values, in the order of the text. Contracts see the list of them.
#[derive(Drop)]
pub(crate) struct Values<'a> {
    rows: Vec<ValueNumber<'a>>,
    numbers: BTreeMap<&'a [u8], usize>,
}

impl<'a> Model for Values<'a> {
    ghost use Rattle.std.specs.Prelude.{List, map};
    ghost use Rattle.solution_reader.specs.Data.{ValueData, value_names};
    ghost use Rattle.solution_reader.specs.inner.Numbered.{AreNumbers};
    ghost use Rattle.solution_reader.specs.inner.Seen.{value_seen};

    ghost Value = { List ValueData };

    ghost view = { λ t. map value_seen t.rows.items };

    ghost invariant = { λ t. AreNumbers (value_names (map value_seen t.rows.items)) t.numbers };
}

impl<'a> Values<'a> {
    /// None. Nothing is allocated.
    pub(crate) fn new(alloc: Global) -> Values<'a>
        ensures { result ≡ [] }
    {
        Values {
            rows: Vec::new(alloc),
            numbers: BTreeMap::new(alloc),
        }
    }

    /// How many there are.
    pub(crate) fn len(&self) -> usize
        ensures { result ≡ length self.now }
    {
        self.rows.len()
    }

    /// The lines.
    pub(crate) fn rows(&self) -> &[ValueNumber<'a>]
        ensures { map value_seen result.now ≡ self.now }
    {
        self.rows.as_slice()
    }

    /// Whether a name has a line.
    pub(crate) fn has(&self, name: &[u8]) -> bool
        ensures { result ≡ has_name (value_names self.now) name.now }
    {
        self.numbers.contains_key(name)
    }

    /// The line of a name.
    pub(crate) fn find(&self, name: &[u8]) -> Option<ValueNumber<'a>>
        ensures { option_map value_seen result ≡ value_named self.now name.now }
    {
        match self.numbers.get(name) {
            None => None,
            Some(number) => Some(self.rows[*number]),
        }
    }

    /// Adds a line whose name has none. Where memory runs out, all is as before.
    pub(crate) fn add(&mut self, row: ValueNumber<'a>) -> Result<(), Refusal>
        requires { has_name (value_names self.old) row.name.bytes.now ≡ false }
        ensures fault { IfErr result (λ refusal. refusal ≡ Memory) }
        ensures added { OnOk result (self.new ≡ self.old ++ value_seen row.entry ∷ []) }
    {
        let number = self.rows.len();
        self.rows.push(row)?;
        if let Err(error) = add_number(&mut self.numbers, row.name.bytes, number) {
            self.rows.pop();
            return Err(error);
        }
        Ok(())
    }

    /// Takes all lines out.
    pub(crate) fn take(&mut self, alloc: Global) -> Values<'a>
        ensures taken { result ≡ self.old }
        ensures empty { self.new ≡ [] }
    {
        mem::replace(self, Values::new(alloc))
    }
}
