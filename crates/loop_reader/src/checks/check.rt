//! The faults of a block's lines.

ghost use Rattle.std.specs.Prelude.{◌≡◌, ◌*◌, ◌≤◌, ◌||◌, nat_le, ℕ, ℤ, Bool, false, Option, None, Some, Ok, IfOk, List, [], not, option_map, length, replicate, take};
ghost use Rattle.std.specs.Borrow.{Bor};
ghost use Rattle.std.specs.List.{AllByRecursion, list_any};
ghost use Rattle.loop_reader.specs.declared.names.index.Counts.{Counts};
ghost use Rattle.loop_lines.specs.Forms.{ArrayLine, ParamLine, InitLine, StatementLine, OutLine};
ghost use Rattle.loop_reader.specs.Meaning as meaning;
ghost use Rattle.loop_reader.specs.Meaning.{any_name, declared, how_many, number_at, is_statement, AValue};
ghost use Rattle.loop_lines.specs.Cells.{cells_seen};
ghost use Rattle.loop_lines.specs.Parsed.{form_seen, statement_seen, subscript_seen, uses_seen};
ghost use Rattle.loop_reader.specs.Declarations.{declared_seen};
ghost use Rattle.loop_reader.specs.inner.Blocks.{entry_faults, forms_in, IsLineIn};
ghost use Rattle.loop_reader.specs.inner.Building.{IsFew};
ghost use Rattle.loop_reader.specs.inner.Found.{array_in, fault_in, target_in, AreFound, IsFoundFor, IsFoundIn};
ghost use Rattle.loop_lines.specs.Near.{IsNear, IsNearForm, IsNearRead, IsNearUse};
ghost use Rattle.loop_reader.specs.inner.Checks.{any_use, covers_name, first_in, inits_with, is_that, kinds_at, lacks_init, outs_with, IsBlock, IsGiven, IsRoomFor};
ghost use Rattle.machine_data.specs.declared.limits.TheConstants.{MAX_DISTANCE};

use crate::checks::given::Given;
use crate::names::found::{Target, Targets, declared_number, target_of};
use crate::names::index::{Counts, Declared, Index};
use loop_lines::{CellWords, Form, StatementWords, Subscript, Use, are_wide};
use machine_data::OutOfMemory;
use machine_data::limits::{MAX_ARRAYS, MAX_NAME, MAX_PARAMETERS, MAX_STATEMENTS};
use reader_faults::{LoopFault, LoopFaultKind};

/// Whether a name has more than 16 bytes.
pub fn is_long(name: &[u8]) -> bool
    ensures { result ≡ meaning.is_long name.now }
{
    name.len() > MAX_NAME
}

/// Whether a name stands for the value of a statement. `None` is a name that is not declared.
pub fn is_value(found: Option<Declared>) -> bool
    ensures { result ≡ meaning.is_value (option_map declared_seen found) }
{
    matches!(found, Some(Declared::Value(_)))
}

/// Whether a name stands for a value or a parameter, which a use without a distance may read. `None` is a name that is not declared.
pub fn is_readable(found: Option<Declared>) -> bool
    ensures { result ≡ meaning.is_readable (option_map declared_seen found) }
{
    matches!(found, Some(Declared::Value(_) | Declared::Param(_)))
}

/// Whether a name stands for the value of this statement or of a later one, by their numbers from 0. `None` is a name that is not declared.
pub fn is_value_from(statement: usize, found: Option<Declared>) -> bool
    ensures { result ≡ meaning.is_value_from statement (option_map declared_seen found) }
{
    match found {
        Some(Declared::Value(number)) => statement <= number,
        _ => false,
    }
}

fn is_wide(read: &Option<Use<'_>>) -> bool
    ensures { result ≡ any_use meaning.is_wide read.now }
{
    match read {
        None => false,
        Some(Use::Number(value)) => value.is_none(),
        Some(Use::Plain(name)) => is_long(*name),
        Some(Use::At(name, distance)) => is_long(*name) || distance.is_none(),
    }
}

/// All initial values of a name from 1 to a distance were given.
fn covers_name(given: &Given, found: Option<Declared>, distance: u8) -> bool
    requires below { IsRoomFor (length given.now.inits) (option_map declared_seen found) }
    requires near { distance ≤ MAX_DISTANCE }
    ensures { result ≡ covers_name given.now.inits (option_map declared_seen found) distance }
{
    match found {
        _ if distance == 0 => true,
        Some(Declared::Value(value)) => given.covers(value, distance),
        _ => false,
    }
}

/// A use that was looked up: what is wrong with it, and what its name stands for.
#[derive(Clone, Copy)]
struct Looked {
    unknown: bool,
    early: bool,
    lacking: bool,
    target: Target,
}

/// Looks a use of this statement up. Its name is looked up once for all.
#[inline(always)]
fn look_up<'a>(
    index: &Index<'_, 'a>,
    given: &Given,
    statement: usize,
    read: &Option<Use<'a>>,
) -> Looked
    requires room { length given.now.inits ≡ 16 * how_many is_statement (forms_in index.now) }
    requires near { IsNearRead read.now }
    ensures unknown { result.unknown ≡ any_use (meaning.is_unknown (forms_in index.now)) read.now }
    ensures early { result.early ≡ any_use (meaning.is_early (forms_in index.now) statement) read.now }
    ensures lacking { result.lacking ≡ any_use (lacks_init (forms_in index.now) given.now.inits) read.now }
    ensures target { IsFew (forms_in index.now) → result.target ≡ target_in (forms_in index.now) read.now }
{
    match read {
        None | Some(Use::Number(_)) => Looked {
            unknown: false,
            early: false,
            lacking: false,
            target: Target::Value(0),
        },
        Some(Use::Plain(name)) => {
            let found = index.declared(*name);
            Looked {
                unknown: !is_readable(found),
                early: is_value_from(statement, found),
                lacking: false,
                target: target_of(found),
            }
        }
        Some(Use::At(name, distance)) => {
            let found = index.declared(*name);
            Looked {
                unknown: !is_value(found),
                early: matches!(distance, Some(0)) && is_value_from(statement, found),
                lacking: match distance {
                    None => false,
                    Some(distance) => !covers_name(given, found, *distance),
                },
                target: target_of(found),
            }
        }
    }
}

/// A place that was looked up: whether it is of no array, and its array's number.
#[derive(Clone, Copy)]
struct LookedPlace {
    unknown: bool,
    number: u8,
}

#[inline(always)]
fn look_up_place<'a>(index: &Index<'_, 'a>, place: &Option<Subscript<'a>>) -> LookedPlace
    ensures unknown { result.unknown ≡ meaning.is_unknown_place (forms_in index.now) (option_map subscript_seen place.now) }
    ensures number { IsFew (forms_in index.now) → result.number ≡ array_in (forms_in index.now) place.now }
{
    match place {
        None => LookedPlace {
            unknown: false,
            number: 0,
        },
        Some(place) => {
            let found = index.declared(place.array);
            LookedPlace {
                unknown: !matches!(found, Some(Declared::Array(_))),
                number: declared_number(found),
            }
        }
    }
}

fn is_long_name(name: Option<&[u8]>) -> bool
    ensures { result ≡ any_name meaning.is_long (option_map (λ (n : Bor (List ℕ)). n.now) name.entry) }
{
    match name {
        None => false,
        Some(name) => is_long(name),
    }
}

/// The name of the statement after the lines that `before` counts stands for another thing.
fn is_repeated_value(index: &Index<'_, '_>, before: Counts, source: &StatementWords<'_>) -> bool
    requires { IsLineIn (forms_in index.now) before (StatementLine (statement_seen source.now)) }
    ensures { result ≡ any_name (λ name. not (is_that (AValue before.statements) (declared (forms_in index.now) name))) (statement_seen source.now).name }
{
    match source.name {
        None => false,
        Some(name) => index.is_repeated(Declared::Value(before.statements), name),
    }
}

fn is_wide_place(place: &Option<Subscript<'_>>) -> bool
    ensures { result ≡ meaning.is_wide_place (option_map subscript_seen place.now) }
{
    match place {
        None => false,
        Some(place) => is_long(place.array) || place.offset.is_none(),
    }
}

/// The first fault of an array after the lines that `counts` counts.
fn array_fault<'a>(
    index: &Index<'_, 'a>,
    counts: Counts,
    name: &'a [u8],
    cells: CellWords<'_>,
) -> Option<LoopFaultKind>
    requires { IsLineIn (forms_in index.now) counts (ArrayLine name.now (cells_seen cells)) }
    ensures { (inits : List (Option ℤ)) (outs : List Bool) → result
        ≡ first_in (kinds_at (forms_in index.now) counts inits outs (ArrayLine name.now (cells_seen cells.entry))) }
{
    if is_long(name) || are_wide(cells) || counts.arrays >= MAX_ARRAYS {
        return Some(LoopFaultKind::Limit);
    }
    if index.is_repeated(Declared::Array(counts.arrays), name) {
        return Some(LoopFaultKind::RepeatedName);
    }
    None
}

fn param_fault<'a>(
    index: &Index<'_, 'a>,
    counts: Counts,
    name: &'a [u8],
    value: Option<i64>,
) -> Option<LoopFaultKind>
    requires { IsLineIn (forms_in index.now) counts (ParamLine name.now value) }
    ensures { (inits : List (Option ℤ)) (outs : List Bool) → result
        ≡ first_in (kinds_at (forms_in index.now) counts inits outs (ParamLine name.now value)) }
{
    if is_long(name) || value.is_none() || counts.params >= MAX_PARAMETERS {
        return Some(LoopFaultKind::Limit);
    }
    if index.is_repeated(Declared::Param(counts.params), name) {
        return Some(LoopFaultKind::RepeatedName);
    }
    None
}

/// The first fault of an initial value; else it is taken down.
fn take_init<'a>(
    index: &Index<'_, 'a>,
    given: &mut Given,
    name: &'a [u8],
    number: Option<u8>,
    value: Option<i64>,
) -> Result<Targets, LoopFaultKind>
    requires room { length given.old.inits ≡ 16 * how_many is_statement (forms_in index.now) }
    requires near { IsNear number }
    ensures fault { (counts : Counts) (outs : List Bool) → fault_in result
        ≡ first_in (kinds_at (forms_in index.now) counts given.old.inits outs (InitLine name.now number value)) }
    ensures inits { IfOk result (λ _. given.new.inits ≡ inits_with (forms_in index.now) given.old.inits (InitLine name.now number value)) }
    ensures outs { given.new.outs.items ≡ given.old.outs.items }
{
    let (place, value) = match (number, value) {
        (Some(number), Some(value)) if number > 0 && !is_long(name) => (number as usize - 1, value),
        _ => return Err(LoopFaultKind::Limit),
    };
    match index.declared(name) {
        Some(Declared::Value(of)) if given.inits.has(of, place) => {
            Err(LoopFaultKind::RepeatedName)
        }
        Some(Declared::Value(of)) => {
            given.inits.put(of, place, value);
            Ok(Targets::NOTHING)
        }
        _ => Err(LoopFaultKind::UnknownName),
    }
}

/// A name or a number of a statement after `number` others is outside its limits, or there are too many.
#[inline(always)]
fn is_outside(source: &StatementWords<'_>, number: usize) -> bool
    ensures { result ≡ (any_name meaning.is_long (statement_seen source.now).name || meaning.is_wide_place (statement_seen source.now).place
        || list_any meaning.is_wide (uses_seen source.now.uses) || nat_le 128 number) }
{
    let uses = &source.uses;
    is_long_name(source.name)
        || is_wide_place(&source.place)
        || is_wide(&uses.first)
        || is_wide(&uses.second)
        || is_wide(&uses.third)
        || number >= MAX_STATEMENTS
}

/// The first fault of a statement after the lines that `counts` counts; else what its names stand for.
#[inline(always)]
fn check_statement<'a>(
    index: &Index<'_, 'a>,
    counts: Counts,
    given: &Given,
    source: &StatementWords<'a>,
) -> Result<Targets, LoopFaultKind>
    requires room { length given.now.inits ≡ 16 * how_many is_statement (forms_in index.now) }
    requires here { IsLineIn (forms_in index.now) counts (StatementLine (statement_seen source.now)) }
    requires near { AllByRecursion IsNearUse (uses_seen source.now.uses) }
    ensures fault { (outs : List Bool) → fault_in result
        ≡ first_in (kinds_at (forms_in index.now) counts given.now.inits outs (StatementLine (statement_seen source.now))) }
    ensures found { IfOk result (λ found. IsFew (forms_in index.now) → IsFoundIn (forms_in index.now) source.now found) }
{
    let uses = &source.uses;
    let number = counts.statements;
    if is_outside(source, number) {
        return Err(LoopFaultKind::Limit);
    }
    if is_repeated_value(index, counts, source) {
        return Err(LoopFaultKind::RepeatedName);
    }
    let first = look_up(index, given, number, &uses.first);
    let second = look_up(index, given, number, &uses.second);
    let third = look_up(index, given, number, &uses.third);
    let place = look_up_place(index, &source.place);
    // All of these are known by now, so that `|` needs no branches.
    if place.unknown | first.unknown | second.unknown | third.unknown {
        return Err(LoopFaultKind::UnknownName);
    }
    if first.early | second.early | third.early {
        return Err(LoopFaultKind::UseBeforeDefinition);
    }
    if first.lacking | second.lacking | third.lacking {
        return Err(LoopFaultKind::MissingInit);
    }
    Ok(Targets {
        number: place.number,
        first: first.target,
        second: second.target,
        third: third.target,
    })
}

/// The first fault of an `out`; else its value is marked.
fn take_out<'a>(
    index: &Index<'_, 'a>,
    given: &mut Given,
    name: &'a [u8],
) -> Result<Targets, LoopFaultKind>
    requires room { length given.old.inits ≡ 16 * how_many is_statement (forms_in index.now) }
    requires flags { length given.old.outs.items ≡ how_many is_statement (forms_in index.now) }
    ensures fault { (counts : Counts) → fault_in result
        ≡ first_in (kinds_at (forms_in index.now) counts given.old.inits given.old.outs.items (OutLine name.now)) }
    ensures inits { given.new.inits ≡ given.old.inits }
    ensures outs { IfOk result (λ _. given.new.outs.items ≡ outs_with (forms_in index.now) given.old.outs.items (OutLine name.now)) }
    ensures found { IfOk result (λ found. IsFew (forms_in index.now) → found.number ≡ number_at (declared (forms_in index.now) name.now)) }
{
    if is_long(name) {
        return Err(LoopFaultKind::Limit);
    }
    let found = index.declared(name);
    match found {
        Some(Declared::Value(value)) if given.outs[value] => Err(LoopFaultKind::RepeatedName),
        Some(Declared::Value(value)) if given.covers(value, 1) => {
            given.outs[value] = true;
            Ok(Targets {
                number: declared_number(found),
                ..Targets::NOTHING
            })
        }
        Some(Declared::Value(_)) => Err(LoopFaultKind::MissingInit),
        _ => Err(LoopFaultKind::UnknownName),
    }
}

/// A line that uses no name.
fn nothing_unless(fault: Option<LoopFaultKind>) -> Result<Targets, LoopFaultKind>
    ensures { fault_in result ≡ fault }
{
    match fault {
        None => Ok(Targets::NOTHING),
        Some(kind) => Err(kind),
    }
}

/// The first fault of a line after those that `counts` counts, which gave `given` to the block's values;
/// else what the names that it uses stand for. What the line gives is added to `given`.
#[inline(always)]
fn take_line<'a>(
    index: &Index<'_, 'a>,
    counts: Counts,
    given: &mut Given,
    form: &Form<'a>,
) -> Result<Targets, LoopFaultKind>
    requires room { length given.old.inits ≡ 16 * how_many is_statement (forms_in index.now) }
    requires flags { length given.old.outs.items ≡ how_many is_statement (forms_in index.now) }
    requires here { IsLineIn (forms_in index.now) counts (form_seen form.now) }
    requires near { IsNearForm (form_seen form.now) }
    ensures fault { fault_in result ≡ first_in (kinds_at (forms_in index.now) counts given.old.inits given.old.outs.items (form_seen form.now)) }
    ensures inits { IfOk result (λ _. given.new.inits ≡ inits_with (forms_in index.now) given.old.inits (form_seen form.now)) }
    ensures outs { IfOk result (λ _. given.new.outs.items ≡ outs_with (forms_in index.now) given.old.outs.items (form_seen form.now)) }
    ensures found { IfOk result (λ found. IsFew (forms_in index.now) → IsFoundFor (forms_in index.now) form.now found) }
{
    match form {
        Form::Loop(_) | Form::Malformed => Ok(Targets::NOTHING),
        Form::Array(name, cells) => nothing_unless(array_fault(index, counts, *name, *cells)),
        Form::Param(name, value) => nothing_unless(param_fault(index, counts, *name, *value)),
        Form::Init(name, number, value) => take_init(index, given, *name, *number, *value),
        Form::Statement(source) => check_statement(index, counts, given, source),
        Form::Out(name) => take_out(index, given, *name),
        Form::End if counts.statements == 0 => Err(LoopFaultKind::Limit),
        Form::End => Ok(Targets::NOTHING),
    }
}

/// The first fault of the first `sound` lines of a block. Where they have none, `given` is left with
/// what they give to the block's values, and `found` with what the names that they use stand for.
pub(crate) fn first_fault<'a>(
    index: &Index<'_, 'a>,
    sound: usize,
    given: &mut Given,
    found: &mut Vec<Targets>,
) -> Result<Option<LoopFault>, OutOfMemory>
    requires sound { sound ≤ length index.now }
    requires inits { given.old.inits ≡ replicate (16 * how_many is_statement (forms_in index.now)) None }
    requires outs { given.old.outs.items ≡ replicate (how_many is_statement (forms_in index.now)) false }
    requires block { IsBlock (forms_in index.now) }
    ensures value { IfOk result (λ fault. fault ≡ first_in (entry_faults (forms_in index.now) [] (take sound index.now))) }
    ensures given { result ≡ Ok None → IsGiven (forms_in index.now) (forms_in (take sound index.now)) given.new.inits given.new.outs.items }
    ensures found { result ≡ Ok None → IsFew (forms_in index.now) → AreFound (forms_in index.now) (take sound index.now) found.new.items }
{
    found.clear();
    let mut counts = Counts::NONE;
    for entry in &index.lines()[..sound] {
        match take_line(index, counts, given, &entry.form) {
            Ok(line) => found.push(line)?,
            Err(kind) => {
                return Ok(Some(LoopFault {
                    line: entry.line,
                    kind,
                }));
            }
        }
        counts = counts.with(&entry.form);
    }
    Ok(None)
}
