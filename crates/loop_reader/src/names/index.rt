//! What the names of a block stand for.

ghost use Rattle.std.specs.Prelude.{◌≡◌, ◌+◌, ◌^◌, ◌<◌, ℕ, List, IfOk, OnOk, None, Some, true, option_map};
ghost use Rattle.std.specs.Option.{option_or};
ghost use Rattle.loop_reader.specs.inner.Known.{known_as, IsIndexed};
ghost use Rattle.loop_reader.specs.Meaning as meaning;
ghost use Rattle.loop_reader.specs.Meaning.{declared, declared_by, is_array, is_param, is_statement};
ghost use Rattle.loop_lines.specs.Parsed.{form_seen};
ghost use Rattle.loop_reader.specs.Declarations.{declared_seen};
ghost use Rattle.loop_reader.specs.inner.Blocks.{declared_if, forms_in, one_if, IsCounts};
ghost use Rattle.loop_reader.specs.inner.Checks.{is_that};

use crate::lines::entry::LineEntry;
use crate::names::known::Names;
use loop_lines::Form;
use machine_data::OutOfMemory;
use std::marker::Model;

/// What a name of a loop stands for, by its number from 0 among those of its kind.
#[derive(Clone, Copy, Drop)]
pub enum Declared {
    /// An array.
    Array(usize),
    /// A parameter.
    Param(usize),
    /// The value of a statement.
    Value(usize),
}

/// How many lines of each form stand in a part of a block.
#[derive(Clone, Copy)]
pub(crate) struct Counts {
    pub(crate) arrays: usize,
    pub(crate) params: usize,
    pub(crate) statements: usize,
}

impl Counts {
    pub(crate) const NONE: Counts = Counts {
        arrays: 0,
        params: 0,
        statements: 0,
    };

    /// The counts with one more line.
    pub(crate) fn with(self, form: &Form<'_>) -> Counts
        requires arrays { self.arrays + 1 < 2 ^ 64 }
        requires params { self.params + 1 < 2 ^ 64 }
        requires statements { self.statements + 1 < 2 ^ 64 }
        ensures arrays { result.arrays ≡ self.arrays + one_if (is_array (form_seen form.now)) }
        ensures params { result.params ≡ self.params + one_if (is_param (form_seen form.now)) }
        ensures statements { result.statements ≡ self.statements + one_if (is_statement (form_seen form.now)) }
    {
        let Counts {
            mut arrays,
            mut params,
            mut statements,
        } = self;
        match form {
            Form::Array(_, _) => arrays += 1,
            Form::Param(_, _) => params += 1,
            Form::Statement(_) => statements += 1,
            _ => {}
        }
        Counts {
            arrays,
            params,
            statements,
        }
    }
}

/// The name that a line declares after those that `before` counts, and what it stands for.
fn declaration<'a>(form: &Form<'a>, before: Counts) -> Option<(&'a [u8], Declared)>
    ensures { (q : List ℕ) → declared_by q before.arrays before.params before.statements (form_seen form.now)
        ≡ declared_if q result }
{
    match form {
        Form::Array(name, _) => Some((*name, Declared::Array(before.arrays))),
        Form::Param(name, _) => Some((*name, Declared::Param(before.params))),
        Form::Statement(source) => Some((source.name?, Declared::Value(before.statements))),
        _ => None,
    }
}

/// Adds the name that a line declares after those that `before` counts, unless it is there already. The
/// result is whether it was new, or there is none.
fn add_declared<'a>(
    names: &mut Names<'a>,
    form: &Form<'a>,
    before: Counts,
) -> Result<bool, OutOfMemory>
    ensures names { OnOk result ((q : List ℕ) → option_map declared_seen (known_as names.new q)
        ≡ option_or (option_map declared_seen (known_as names.old q)) (declared_by q before.arrays before.params before.statements (form_seen form.now))) }
    ensures fresh { IfOk result (λ fresh. fresh ≡ true → (q : List ℕ) (what : meaning.Declared)
        → declared_by q before.arrays before.params before.statements (form_seen form.now) ≡ Some what → known_as names.old q ≡ None) }
{
    match declaration(form, before) {
        None => Ok(true),
        Some((name, what)) => names.add(name, what),
    }
}

/// Fills a table with the names that the lines of a block declare, each with its first declaration.
/// The result is how many lines of each form there are, and whether no name is declared twice. The
/// table's room is used again.
pub(crate) fn index_names<'a>(
    names: &mut Names<'a>,
    lines: &[LineEntry<'a>],
) -> Result<(Counts, bool), OutOfMemory>
    ensures counts { IfOk result (λ r. IsCounts (forms_in lines.now) r.0) }
    ensures indexed { IfOk result (λ r. IsIndexed lines.now names.new r.1) }
{
    names.clear();
    let mut counts = Counts::NONE;
    let mut once = true;
    for entry in lines {
        once &= add_declared(names, &entry.form, counts)?;
        counts = counts.with(&entry.form);
    }
    Ok((counts, once))
}

fn is_that(what: Declared, found: Option<Declared>) -> bool
    ensures { result ≡ is_that (declared_seen what) (option_map declared_seen found) }
{
    match (what, found) {
        (Declared::Array(m), Some(Declared::Array(n))) => m == n,
        (Declared::Param(m), Some(Declared::Param(n))) => m == n,
        (Declared::Value(m), Some(Declared::Value(n))) => m == n,
        _ => false,
    }
}

/// The lines of a block with an index of their names. Contracts see the lines.
#[derive(Drop)]
pub(crate) struct Index<'t, 'a> {
    lines: &'t [LineEntry<'a>],
    names: &'t Names<'a>,
    /// Set only where no name is declared twice. No declared name then has to be looked up to see whether
    /// it is a repetition.
    once: bool,
}

impl<'t, 'a> Model for Index<'t, 'a> {
    ghost use Rattle.std.specs.Prelude.{ℕ, List};
    ghost use Rattle.loop_reader.specs.declared.lines.entry.LineEntry.{LineEntry};
    ghost use Rattle.loop_reader.specs.inner.Known.{IsIndexed};

    ghost Value = { List LineEntry };

    ghost view = { λ a. a.lines.now };

    ghost invariant = { λ a. IsIndexed a.lines.now a.names.now a.once };
}

impl<'t, 'a> Index<'t, 'a> {
    ghost use Rattle.std.specs.Prelude.{◌≡◌, not, option_map};
    ghost use Rattle.loop_reader.specs.inner.Known.{IsIndexed};
    ghost use Rattle.loop_reader.specs.Meaning.{declared};
    ghost use Rattle.loop_reader.specs.Declarations.{declared_seen};
    ghost use Rattle.loop_reader.specs.inner.Blocks.{forms_in, IsDeclaredIn};
    ghost use Rattle.loop_reader.specs.inner.Checks.{is_that, IsCounted};

    /// An index of these lines by the table of their names, of which none is declared twice where `once`
    /// is set.
    pub(crate) fn new(names: &'t Names<'a>, lines: &'t [LineEntry<'a>], once: bool) -> Index<'t, 'a>
        requires { IsIndexed lines.now names.now once }
        ensures { result ≡ lines.now }
    {
        Index { lines, names, once }
    }

    /// The lines.
    pub(crate) fn lines(&self) -> &'t [LineEntry<'a>]
        ensures { result.now ≡ self.now }
    {
        self.lines
    }

    /// The first declaration of a name.
    #[inline(always)]
    pub(crate) fn declared(&self, name: &[u8]) -> Option<Declared>
        ensures value { option_map declared_seen result ≡ declared (forms_in self.now) name.now }
        ensures counted { IsCounted (forms_in self.now) (option_map declared_seen result) }
    {
        self.names.get(name)
    }

    /// A name that one of the lines declares as this stands for another thing: an earlier line declares
    /// it too.
    #[inline(always)]
    pub(crate) fn is_repeated(&self, what: Declared, name: &[u8]) -> bool
        requires { IsDeclaredIn (forms_in self.now) name.now (declared_seen what) }
        ensures { result ≡ not (is_that (declared_seen what) (declared (forms_in self.now) name.now)) }
    {
        !self.once && !is_that(what, self.declared(name))
    }
}
