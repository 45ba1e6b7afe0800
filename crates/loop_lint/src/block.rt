//! What lines of a block declare and give, by the names.

ghost use Rattle.std.specs.Prelude.{◌≡◌, ◌+◌, ◌<◌, ◌≤◌, ◌^◌, ◌||◌, [], ℕ, List, OnOk, if◌then◌else◌, map};
ghost use Rattle.machine_data.specs.Opcodes.{same_word};
ghost use Rattle.loop_lines.specs.Forms as spec;
ghost use Rattle.loop_lines.specs.Parsed.{form_seen};
ghost use Rattle.loop_reader.specs.Meaning.{is_array, is_out, is_param, is_statement, stands};
ghost use Rattle.loop_lint.specs.Hints.{declares};
ghost use Rattle.loop_lines.specs.Near.{IsNear, IsNearForm};
ghost use Rattle.loop_lint.specs.inner.Tables.{covers, known_at, known_with, one_if, place_of, with_declared, with_init, with_name, with_names, with_out, IsTable};
ghost use Rattle.machine_data.specs.declared.limits.TheConstants.{MAX_DISTANCE};

use loop_lines::Form;
use loop_reader::{Declared, may_stand};
use machine_data::OutOfMemory;
use machine_data::limits::{MAX_ARRAYS, MAX_PARAMETERS, MAX_STATEMENTS};
use std::alloc::Global;
use std::collections::BTreeMap;

/// How many numbers an initial value may be told: 0 to 16, and one too great.
const NUMBERS: usize = 18;

/// How many names of a block are kept in their order: as many as a block may declare.
const MOST_NAMES: usize = MAX_ARRAYS + MAX_PARAMETERS + MAX_STATEMENTS;

/// What some lines of a block say of a name.
#[derive(Clone, Copy)]
pub(crate) struct Known {
    /// By the first of them that declares it.
    pub(crate) declared: Option<Declared>,
    /// The numbers of its initial values, 0 to 16; the last flag is for those above.
    pub(crate) inits: [bool; NUMBERS],
    /// It has an `out`.
    pub(crate) out: bool,
}

/// The flag of a number.
pub(crate) fn place_of(number: Option<u8>) -> usize
    requires { IsNear number }
    ensures value { result ≡ place_of number }
    ensures below { result < 18 }
{
    match number {
        None => NUMBERS - 1,
        Some(number) => number as usize,
    }
}

impl Known {
    /// Nothing.
    pub(crate) const NOTHING: Known = Known {
        declared: None,
        inits: [false; NUMBERS],
        out: false,
    };

    /// All initial values from 1 to a distance are there.
    pub(crate) fn covers(&self, distance: u8) -> bool
        requires { distance ≤ MAX_DISTANCE }
        ensures { result ≡ covers self.now.inits distance }
    {
        for before in 0..distance as usize {
            if !self.inits[before + 1] {
                return false;
            }
        }
        true
    }
}

/// What some lines of a block say, by names. They stand in a map by their order, so that no choice of names makes a
/// look-up long.
#[derive(Drop)]
pub(crate) struct Table<'a> {
    pub(crate) names: BTreeMap<&'a [u8], Known>,
    /// The names that lines declare, in their order: the first [`MOST_NAMES`].
    pub(crate) order: Vec<&'a [u8]>,
    pub(crate) arrays: usize,
    pub(crate) params: usize,
    pub(crate) statements: usize,
    /// Some line is a statement.
    pub(crate) statement: bool,
    /// Some line is an `out`.
    pub(crate) out: bool,
}

impl<'a> Table<'a> {
    /// No lines. Nothing is allocated.
    pub(crate) fn new(alloc: Global) -> Table<'a>
        ensures { IsTable [] result }
    {
        Table {
            names: BTreeMap::new(alloc),
            order: Vec::new(alloc),
            arrays: 0,
            params: 0,
            statements: 0,
            statement: false,
            out: false,
        }
    }

    /// What the lines say of a name.
    pub(crate) fn get(&self, name: &[u8]) -> Known
        ensures { result ≡ known_at self.now.names name.now }
    {
        look_up(&self.names, name)
    }

    /// The line may stand after these.
    pub(crate) fn allows(&self, form: &Form<'_>) -> bool
        ensures { (before : List spec.Form) → IsTable before self.now → result ≡ stands before (form_seen form.now) }
    {
        may_stand(form, self.statement, self.out)
    }

    /// The lines and one more.
    pub(crate) fn add(&mut self, form: &Form<'a>) -> Result<(), OutOfMemory>
        requires near { IsNearForm (form_seen form.now) }
        requires room { self.old.arrays + self.old.params + self.old.statements + 1 < 2 ^ 64 }
        ensures names { OnOk result ((q : List ℕ) → known_at self.new.names q ≡ known_with q self.old.arrays self.old.params self.old.statements (form_seen form.now) (known_at self.old.names q)) }
        ensures order { OnOk result (map (λ n. n.now) self.new.order.items ≡ with_names (map (λ n. n.now) self.old.order.items) (declares (form_seen form.now))) }
        ensures arrays { OnOk result (self.new.arrays ≡ self.old.arrays + one_if (is_array (form_seen form.now))) }
        ensures params { OnOk result (self.new.params ≡ self.old.params + one_if (is_param (form_seen form.now))) }
        ensures statements { OnOk result (self.new.statements ≡ self.old.statements + one_if (is_statement (form_seen form.now))) }
        ensures statement { OnOk result (self.new.statement ≡ (self.old.statement || is_statement (form_seen form.now))) }
        ensures out { OnOk result (self.new.out ≡ (self.old.out || is_out (form_seen form.now))) }
        ensures count { OnOk result (self.new.arrays + self.new.params + self.new.statements ≤ self.old.arrays + self.old.params + self.old.statements + 1) }
    {
        match form {
            Form::Array(name, _) => {
                let what = Declared::Array(self.arrays);
                declare_next(&mut self.names, &mut self.order, *name, what)?;
                self.arrays += 1;
            }
            Form::Param(name, _) => {
                let what = Declared::Param(self.params);
                declare_next(&mut self.names, &mut self.order, *name, what)?;
                self.params += 1;
            }
            Form::Init(name, number, _) => give(&mut self.names, *name, *number)?,
            Form::Statement(source) => {
                if let Some(name) = source.name {
                    let what = Declared::Value(self.statements);
                    declare_next(&mut self.names, &mut self.order, name, what)?;
                }
                self.statements += 1;
                self.statement = true;
            }
            Form::Out(name) => {
                mark(&mut self.names, *name)?;
                self.out = true;
            }
            Form::Loop(_) | Form::End | Form::Malformed => {}
        }
        Ok(())
    }
}

/// What is known of a name.
fn look_up<'a>(names: &BTreeMap<&'a [u8], Known>, name: &[u8]) -> Known
    ensures { result ≡ known_at names.now name.now }
{
    match names.get(name) {
        None => Known::NOTHING,
        Some(known) => *known,
    }
}

/// Puts down what is known of a name.
fn put<'a>(
    names: &mut BTreeMap<&'a [u8], Known>,
    name: &'a [u8],
    known: Known,
) -> Result<(), OutOfMemory>
    ensures { OnOk result ((q : List ℕ) → known_at names.new q ≡ (if same_word q name.now then known else known_at names.old q)) }
{
    names.insert(name, known)?;
    Ok(())
}

/// A line declares a name as this.
fn declare<'a>(
    names: &mut BTreeMap<&'a [u8], Known>,
    name: &'a [u8],
    what: Declared,
) -> Result<(), OutOfMemory>
    ensures { OnOk result ((q : List ℕ) → known_at names.new q ≡ (if same_word q name.now then with_declared what (known_at names.old q) else known_at names.old q)) }
{
    let mut known = look_up(names, name);
    known.declared = known.declared.or(Some(what));
    put(names, name, known)
}

/// A line gives an initial value to a name.
fn give<'a>(
    names: &mut BTreeMap<&'a [u8], Known>,
    name: &'a [u8],
    number: Option<u8>,
) -> Result<(), OutOfMemory>
    requires { IsNear number }
    ensures { OnOk result ((q : List ℕ) → known_at names.new q ≡ (if same_word q name.now then with_init number (known_at names.old q) else known_at names.old q)) }
{
    let mut known = look_up(names, name);
    known.inits[place_of(number)] = true;
    put(names, name, known)
}

/// A line is an `out` of a name.
fn mark<'a>(names: &mut BTreeMap<&'a [u8], Known>, name: &'a [u8]) -> Result<(), OutOfMemory>
    ensures { OnOk result ((q : List ℕ) → known_at names.new q ≡ (if same_word q name.now then with_out (known_at names.old q) else known_at names.old q)) }
{
    let mut known = look_up(names, name);
    known.out = true;
    put(names, name, known)
}

/// Keeps a name after the others, unless there are enough.
fn keep<'a>(order: &mut Vec<&'a [u8]>, name: &'a [u8]) -> Result<(), OutOfMemory>
    ensures { OnOk result (map (λ n. n.now) order.new.items ≡ with_name (map (λ n. n.now) order.old.items) name.now) }
{
    if order.len() < MOST_NAMES {
        order.push(name)?;
    }
    Ok(())
}

/// A line declares a name as this, and it is kept in its order.
fn declare_next<'a>(
    names: &mut BTreeMap<&'a [u8], Known>,
    order: &mut Vec<&'a [u8]>,
    name: &'a [u8],
    what: Declared,
) -> Result<(), OutOfMemory>
    ensures names { OnOk result ((q : List ℕ) → known_at names.new q ≡ (if same_word q name.now then with_declared what (known_at names.old q) else known_at names.old q)) }
    ensures order { OnOk result (map (λ n. n.now) order.new.items ≡ with_name (map (λ n. n.now) order.old.items) name.now) }
{
    declare(names, name, what)?;
    keep(order, name)
}
