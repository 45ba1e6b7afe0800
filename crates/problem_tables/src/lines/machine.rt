//! The units, files and kinds of the machine under way.

ghost use Rattle.std.specs.Prelude.{◌≡◌, ◌∷◌, [], ◌++◌, length, IfNone, OnOk, false};
ghost use Rattle.problem_lines.specs.Seen.{word_seen};
ghost use Rattle.problem_tables.specs.Data.{file_of};
ghost use Rattle.problem_tables.specs.Faults.{alternatives_fault, first_of, new, on_word, room_at, units_fault};
ghost use Rattle.problem_tables.specs.Names.{bytes_of, has_name};
ghost use Rattle.problem_tables.specs.Seen.{machine_parts, machine_seen, Refuses};
ghost use Rattle.problem_tables.specs.Tables.{file_faults, kind_faults, named_machine, no_machine, with_file, with_kind};
ghost use Rattle.problem_faults.specs.declared.refused_problems.Part.TheVariants as part;
ghost use Rattle.problem_tables.specs.inner.Spots.{on_spot};

use crate::ended::TextMachine;
use crate::fault::{Refusal, Told};
use crate::judging::{Spot, new_fault, range_fault, storage_fault, word_room};
use crate::lines::kinds::add_kind;
use crate::names::Names;
use machine_data::limits::{MAX_FILES, MAX_KINDS, MAX_LATENCY, MAX_UNITS};
use problem_faults::refused_problems::Part;
use problem_lines::{Alternatives, Number, Storage, UnitNames, Word};
use problems::{File, Kind, Label};
use std::alloc::Global;
use std::mem;

/// What the lines of the machine under way have said.
#[derive(Drop)]
pub(crate) struct MachineTables<'a> {
    pub(crate) units: Names<'a>,
    pub(crate) files: Vec<File>,
    pub(crate) file_names: Names<'a>,
    pub(crate) kinds: Vec<Kind>,
    pub(crate) kind_names: Names<'a>,
}

/// The fault of one more unit.
fn unit_fault(units: &Names<'_>, name: Word<'_>) -> Option<Told>
    ensures value { result ≡ first_of (room_at (on_word (word_seen name.entry)) (length units.now) MAX_UNITS part.Units ∷ new units.now (word_seen name.entry) ∷ []) }
    ensures absent { IfNone result (has_name units.now name.entry.bytes.now ≡ false) }
{
    if let Some(told) = word_room(name, units.len(), MAX_UNITS, Part::Units) {
        return Some(told);
    }
    new_fault(units, name)
}

/// Takes one more unit in.
fn take_unit<'a>(units: &mut Names<'a>, name: Word<'a>) -> Result<(), Refusal>
    ensures fault { Refuses result (first_of (room_at (on_word (word_seen name.entry)) (length units.old) MAX_UNITS part.Units ∷ new units.old (word_seen name.entry) ∷ [])) }
    ensures taken { OnOk result (units.new ≡ units.old ++ name.entry.bytes.now ∷ []) }
{
    if let Some(told) = unit_fault(units, name) {
        return Err(Refusal::Fault(told));
    }
    units.add(name)
}

/// Takes the names of a `units` line in.
pub(crate) fn take_units<'a>(units: &mut Names<'a>, mut names: UnitNames<'a>) -> Result<(), Refusal>
    ensures fault { Refuses result (units_fault units.old names.entry) }
    ensures taken { OnOk result (units.new ≡ units.old ++ bytes_of names.entry) }
{
    while let Some(name) = names.next_name() {
        if let Err(refusal) = take_unit(units, name) {
            return Err(refusal);
        }
    }
    Ok(())
}

/// A register file.
fn file_of(storage: Storage) -> File
    ensures { result ≡ file_of storage }
{
    match storage {
        Storage::Rotating(registers) => File::Rotating(registers.value as usize),
        Storage::Unallotted => File::Unallotted,
    }
}

impl<'a> MachineTables<'a> {
    /// A machine of which nothing has been said. Nothing is allocated.
    pub(crate) fn new(alloc: Global) -> MachineTables<'a>
        ensures { machine_parts result ≡ no_machine }
    {
        MachineTables {
            units: Names::new(alloc),
            files: Vec::new(alloc),
            file_names: Names::new(alloc),
            kinds: Vec::new(alloc),
            kind_names: Names::new(alloc),
        }
    }

    /// Takes all out as a machine of this name.
    pub(crate) fn take(&mut self, alloc: Global, name: Label) -> TextMachine
        ensures machine { machine_seen result ≡ named_machine name (machine_parts self.old) }
        ensures empty { machine_parts self.new ≡ no_machine }
    {
        TextMachine {
            name,
            units: self.units.take(alloc),
            files: mem::replace(&mut self.files, Vec::new(alloc)),
            file_names: self.file_names.take(alloc),
            kinds: mem::replace(&mut self.kinds, Vec::new(alloc)),
            kind_names: self.kind_names.take(alloc),
        }
    }

    /// The fault of a `file` line.
    fn file_fault(&self, at: Spot, name: Word<'a>, storage: Storage) -> Option<Told>
        ensures value { result ≡ first_of (file_faults (machine_parts self.now) (on_spot at) (word_seen name.entry) storage) }
        ensures absent { IfNone result (has_name self.now.file_names name.entry.bytes.now ≡ false) }
    {
        if let Some(told) = at.room(self.file_names.len(), MAX_FILES, Part::Files) {
            return Some(told);
        }
        if let Some(told) = new_fault(&self.file_names, name) {
            return Some(told);
        }
        storage_fault(storage)
    }

    /// Takes a `file` line in.
    pub(crate) fn take_file(
        &mut self,
        at: Spot,
        name: Word<'a>,
        storage: Storage,
    ) -> Result<(), Refusal>
        ensures fault { Refuses result (first_of (file_faults (machine_parts self.old) (on_spot at) (word_seen name.entry) storage)) }
        ensures taken { OnOk result (machine_parts self.new ≡ with_file (machine_parts self.old) (word_seen name.entry) storage) }
    {
        if let Some(told) = self.file_fault(at, name, storage) {
            return Err(Refusal::Fault(told));
        }
        self.file_names.add(name)?;
        self.files.push(file_of(storage))?;
        Ok(())
    }

    /// The fault of a `kind` line without its alternatives.
    fn kind_fault(&self, at: Spot, name: Word<'a>, latency: Number) -> Option<Told>
        ensures value { result ≡ first_of (kind_faults (machine_parts self.now) (on_spot at) (word_seen name.entry) latency) }
        ensures absent { IfNone result (has_name self.now.kind_names name.entry.bytes.now ≡ false) }
    {
        if let Some(told) = at.room(self.kind_names.len(), MAX_KINDS, Part::Kinds) {
            return Some(told);
        }
        if let Some(told) = new_fault(&self.kind_names, name) {
            return Some(told);
        }
        range_fault(1, u64::from(MAX_LATENCY), latency)
    }

    /// Takes a `kind` line in.
    pub(crate) fn take_kind(
        &mut self,
        alloc: Global,
        at: Spot,
        name: Word<'a>,
        latency: Number,
        alternatives: Alternatives<'a>,
    ) -> Result<(), Refusal>
        ensures fault { Refuses result (first_of (first_of (kind_faults (machine_parts self.old) (on_spot at) (word_seen name.entry) latency) ∷ alternatives_fault (machine_parts self.old).units 0 alternatives.entry ∷ [])) }
        ensures taken { OnOk result (machine_parts self.new ≡ with_kind (machine_parts self.old) (word_seen name.entry) latency alternatives.entry) }
    {
        if let Some(told) = self.kind_fault(at, name, latency) {
            return Err(Refusal::Fault(told));
        }
        self.kind_names.add(name)?;
        add_kind(alloc, &mut self.kinds, &self.units, latency, alternatives)
    }
}
