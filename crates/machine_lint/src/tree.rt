//! All faults of the tree of a machine text.

ghost use Rattle.std.specs.Prelude.{◌≡◌, ◌++◌, ◌<◌, ◌^◌, [], length, map, option_map, take, IfOk, OnOk};
ghost use Rattle.std.specs.List.{flat_map, list_any};
ghost use Rattle.machine_data.specs.Opcodes.{same_word};
ghost use Rattle.machine.specs.MachineText.{entries_of, keys_in};
ghost use Rattle.machine_lint.specs.Tree.{alternative_told, alternatives_told, entry_told, in_turn, inside_told, key_spot, key_told, keys_told, known_keys, repeated_row, repeated_unit, row_told, table_told, tables_told, tree_told, unit_told, units_told, unknown_opcode, unknown_unit};
ghost use Rattle.machine_lint.specs.Values.{items_of, row_words_in, same_text, same_words};
ghost use Rattle.machine_lint.specs.inner.Ats.{spot_at};
ghost use Rattle.machine_lint.specs.inner.Tables.{table_or};
ghost use Rattle.toml.specs.Data.{get_member};
ghost use Rattle.toml.specs.View.{table_view, view};

use crate::index::Indexed;
use crate::judge::{Wrong, is_unit_of, judge_value, same_row, same_text, tell_unless, text_of};
use crate::place::MachineLint;
use crate::sought::seek::seek_keys;
use crate::spots::At;
use machine::limits::{MAX_ALTERNATIVES, MAX_ROWS, MAX_UNITS};
use machine::{Opcode, OutOfMemory, row_words};
use std::alloc::Global;
use toml::{Table, Value};

/// The text whose tree is judged, the units that it gives, and the table that is judged.
#[derive(Clone, Copy)]
struct Within<'a, 'b> {
    text: &'a Indexed<'b>,
    units: Option<&'a Value>,
    word: &'a str,
}

/// Whether a key may stand at the top, or in the table of a word.
fn is_known(word: Option<&str>, name: &str) -> bool
    ensures { result ≡ list_any (same_word name.now) (known_keys (option_map (λ w. w.now) word.entry)) }
{
    match word {
        None => matches!(name, "ops" | "registers" | "units"),
        Some(_) => matches!(name, "alts" | "latency"),
    }
}

/// A key at the top, or in the table of a word.
fn key_at<'a>(word: Option<&'a str>, name: &'a str) -> At<'a>
    ensures { spot_at result ≡ key_spot (option_map (λ w. w.now) word.entry) name.entry.now }
{
    match word {
        None => At::TopKey(name),
        Some(word) => At::TableKey(word, name),
    }
}

/// Tells a key that means nothing, if it does.
#[tactic(auto, unfolding(crate::specs::Tree::key_told))]
fn judge_key(
    lints: &mut Vec<MachineLint>,
    text: &Indexed<'_>,
    word: Option<&str>,
    name: &str,
    value: &Value,
) -> Result<(), OutOfMemory>
    requires short { length text.now < 2 ^ 32 }
    ensures { OnOk result (lints.new.items ≡ lints.old.items ++ key_told text.now (option_map (λ w. w.now) word.entry) (name.now, view value.now)) }
{
    let at = key_at(word, name);
    let known = is_known(word, name);
    tell_unless(known, lints, text, at, value, Wrong::Key)
}

/// Tells the keys of a table that mean nothing.
#[tactic(auto, unfolding(crate::specs::Tree::keys_told))]
fn judge_keys(
    lints: &mut Vec<MachineLint>,
    text: &Indexed<'_>,
    word: Option<&str>,
    table: &Table,
) -> Result<(), OutOfMemory>
    requires short { length text.now < 2 ^ 32 }
    ensures { OnOk result (lints.new.items ≡ lints.old.items ++ keys_told text.now (option_map (λ w. w.now) word.entry) (table_view table.now)) }
{
    for (name, value) in table {
        judge_key(lints, text, word, name.as_str(), value)?;
    }
    Ok(())
}

/// The first elements of an array, and none of what is no array.
pub(crate) fn elements(value: Option<&Value>, most: usize) -> &[Value]
    ensures { map view result.now ≡ take most (items_of (option_map (λ v. view v.now) value.entry)) }
{
    let Some(value) = value else {
        return &[];
    };
    match value.as_array() {
        Some(elements) if elements.len() > most => &elements[..most],
        Some(elements) => elements,
        None => &[],
    }
}

/// Tells a unit that is named by an earlier element too.
#[tactic(auto, unfolding(crate::specs::Tree::repeated_unit))]
fn judge_repeated_unit(
    lints: &mut Vec<MachineLint>,
    text: &Indexed<'_>,
    before: &[Value],
    unit: &Value,
) -> Result<(), OutOfMemory>
    requires short { length text.now < 2 ^ 32 }
    ensures { OnOk result (lints.new.items ≡ lints.old.items ++ repeated_unit text.now (map view before.now) (view unit.now)) }
{
    let at = At::Unit(before.len());
    let once = !is_text_among(before, unit);
    let wrong = Wrong::Repeated(text_of(unit));
    tell_unless(once, lints, text, at, unit, wrong)
}

/// Whether one of these values is the same text.
fn has_text(values: &[Value], value: &Value) -> bool
    ensures { result ≡ list_any (λ other. same_text (view other) (view value.now)) values.now }
{
    for other in values {
        if same_text(other, value) {
            return true;
        }
    }
    false
}

/// Whether a value is the same text as one of these.
fn is_text_among(values: &[Value], value: &Value) -> bool
    ensures { result ≡ list_any (λ other. same_text other (view value.now)) (map view values.now) }
{
    has_text(values, value)
}

/// Whether one of these rows has the same unit and the same offset.
fn has_row(rows: &[Value], row: &Value) -> bool
    ensures { result ≡ list_any (λ other. same_words (row_words_in (view other)) (row_words_in (view row.now))) rows.now }
{
    for other in rows {
        if same_row(other, row) {
            return true;
        }
    }
    false
}

/// Whether a row has the same unit and the same offset as one of these.
fn is_row_among(rows: &[Value], row: &Value) -> bool
    ensures { result ≡ list_any (λ other. same_words (row_words_in other) (row_words_in (view row.now))) (map view rows.now) }
{
    has_row(rows, row)
}

/// Tells what is wrong with an element of `units`, after those before it.
#[tactic(auto, unfolding(crate::specs::Tree::unit_told))]
fn judge_unit(
    lints: &mut Vec<MachineLint>,
    text: &Indexed<'_>,
    before: &[Value],
    unit: &Value,
) -> Result<(), OutOfMemory>
    requires short { length text.now < 2 ^ 32 }
    ensures { OnOk result (lints.new.items ≡ lints.old.items ++ unit_told text.now (map view before.now) (view unit.now)) }
{
    judge_value(lints, text, At::Unit(before.len()), Some(unit))?;
    judge_repeated_unit(lints, text, before, unit)
}

/// Tells what is wrong with `units`.
#[tactic(auto, unfolding(crate::specs::Tree::units_told))]
fn judge_units(
    lints: &mut Vec<MachineLint>,
    text: &Indexed<'_>,
    units: Option<&Value>,
) -> Result<(), OutOfMemory>
    requires short { length text.now < 2 ^ 32 }
    ensures { OnOk result (lints.new.items ≡ lints.old.items ++ units_told text.now (option_map (λ v. view v.now) units.entry)) }
{
    judge_value(lints, text, At::Units, units)?;
    judge_unit_list(lints, text, elements(units, MAX_UNITS))
}

/// Tells what is wrong with elements of `units`.
fn judge_unit_list(
    lints: &mut Vec<MachineLint>,
    text: &Indexed<'_>,
    units: &[Value],
) -> Result<(), OutOfMemory>
    requires short { length text.now < 2 ^ 32 }
    ensures { OnOk result (lints.new.items ≡ lints.old.items ++ in_turn (unit_told text.now) [] (map view units.now)) }
{
    let mut passed = 0;
    for unit in units {
        judge_unit(lints, text, &units[..passed], unit)?;
        passed += 1;
    }
    Ok(())
}

/// Tells that the units have none of the name of a row's unit.
#[tactic(auto, unfolding(crate::specs::Tree::unknown_unit))]
fn judge_unknown_unit(
    lints: &mut Vec<MachineLint>,
    within: Within<'_, '_>,
    at: At<'_>,
    row: &Value,
) -> Result<(), OutOfMemory>
    requires short { length within.text.now < 2 ^ 32 }
    ensures { OnOk result (lints.new.items ≡ lints.old.items ++ unknown_unit within.entry.text.now (option_map (λ v. view v.now) within.entry.units) (spot_at at.entry) (view row.now)) }
{
    let Some((unit, _)) = row_words(row) else {
        return Ok(());
    };
    let known = is_unit_of(within.units, unit);
    let wrong = Wrong::Unit(unit);
    tell_unless(known, lints, within.text, at, row, wrong)
}

/// Tells a row that an earlier one repeats.
#[tactic(auto, unfolding(crate::specs::Tree::repeated_row))]
fn judge_repeated_row(
    lints: &mut Vec<MachineLint>,
    text: &Indexed<'_>,
    at: At<'_>,
    before: &[Value],
    row: &Value,
) -> Result<(), OutOfMemory>
    requires short { length text.now < 2 ^ 32 }
    ensures { OnOk result (lints.new.items ≡ lints.old.items ++ repeated_row text.now (spot_at at.entry) (map view before.now) (view row.now)) }
{
    let once = !is_row_among(before, row);
    tell_unless(once, lints, text, at, row, Wrong::Row)
}

/// Tells what is wrong with a row, after those before it.
#[tactic(auto, unfolding(crate::specs::Tree::row_told))]
fn judge_row(
    lints: &mut Vec<MachineLint>,
    within: Within<'_, '_>,
    number: usize,
    before: &[Value],
    row: &Value,
) -> Result<(), OutOfMemory>
    requires short { length within.text.now < 2 ^ 32 }
    ensures { OnOk result (lints.new.items ≡ lints.old.items ++ row_told within.entry.text.now (option_map (λ v. view v.now) within.entry.units) within.entry.word.now number (map view before.now) (view row.now)) }
{
    let at = At::Row(within.word, number, before.len());
    judge_value(lints, within.text, at, Some(row))?;
    judge_unknown_unit(lints, within, at, row)?;
    judge_repeated_row(lints, within.text, at, before, row)
}

/// Tells what is wrong with rows of an alternative.
fn judge_rows(
    lints: &mut Vec<MachineLint>,
    within: Within<'_, '_>,
    number: usize,
    rows: &[Value],
) -> Result<(), OutOfMemory>
    requires short { length within.text.now < 2 ^ 32 }
    ensures { OnOk result (lints.new.items ≡ lints.old.items ++ in_turn (row_told within.entry.text.now (option_map (λ v. view v.now) within.entry.units) within.entry.word.now number) [] (map view rows.now)) }
{
    let mut passed = 0;
    for row in rows {
        judge_row(lints, within, number, &rows[..passed], row)?;
        passed += 1;
    }
    Ok(())
}

/// Tells what is wrong with an alternative that has this number.
#[tactic(auto, unfolding(crate::specs::Tree::alternative_told))]
fn judge_alternative(
    lints: &mut Vec<MachineLint>,
    within: Within<'_, '_>,
    before: &[Value],
    alternative: &Value,
) -> Result<(), OutOfMemory>
    requires short { length within.text.now < 2 ^ 32 }
    ensures { OnOk result (lints.new.items ≡ lints.old.items ++ alternative_told within.entry.text.now (option_map (λ v. view v.now) within.entry.units) within.entry.word.now (map view before.now) (view alternative.now)) }
{
    let at = At::Alternative(within.word, before.len());
    judge_value(lints, within.text, at, Some(alternative))?;
    let rows = elements(Some(alternative), MAX_ROWS);
    judge_rows(lints, within, before.len(), rows)
}

/// Tells what is wrong with alternatives of a table.
fn judge_alternative_list(
    lints: &mut Vec<MachineLint>,
    within: Within<'_, '_>,
    alternatives: &[Value],
) -> Result<(), OutOfMemory>
    requires short { length within.text.now < 2 ^ 32 }
    ensures { OnOk result (lints.new.items ≡ lints.old.items ++ in_turn (alternative_told within.entry.text.now (option_map (λ v. view v.now) within.entry.units) within.entry.word.now) [] (map view alternatives.now)) }
{
    let mut passed = 0;
    for alternative in alternatives {
        judge_alternative(lints, within, &alternatives[..passed], alternative)?;
        passed += 1;
    }
    Ok(())
}

/// Tells what is wrong with `alts` of a table.
#[tactic(auto, unfolding(crate::specs::Tree::alternatives_told))]
fn judge_alternatives(
    lints: &mut Vec<MachineLint>,
    within: Within<'_, '_>,
    value: Option<&Value>,
) -> Result<(), OutOfMemory>
    requires short { length within.text.now < 2 ^ 32 }
    ensures { OnOk result (lints.new.items ≡ lints.old.items ++ alternatives_told within.entry.text.now (option_map (λ v. view v.now) within.entry.units) within.entry.word.now (option_map (λ v. view v.now) value.entry)) }
{
    let at = At::Alternatives(within.word);
    judge_value(lints, within.text, at, value)?;
    judge_alternative_list(lints, within, elements(value, MAX_ALTERNATIVES))
}

/// The value at a key.
pub(crate) fn look_up<'a>(table: &'a Table, name: &str) -> Option<&'a Value>
    ensures { option_map (λ v. view v.now) result ≡ get_member name.now (table_view table.entry.now) }
{
    table.get(name)
}

/// Tells what is wrong with the keys in a table.
#[tactic(auto, unfolding(crate::specs::Tree::table_told))]
fn judge_table(
    lints: &mut Vec<MachineLint>,
    within: Within<'_, '_>,
    keys: &Table,
) -> Result<(), OutOfMemory>
    requires short { length within.text.now < 2 ^ 32 }
    ensures { OnOk result (lints.new.items ≡ lints.old.items ++ table_told within.entry.text.now (option_map (λ v. view v.now) within.entry.units) within.entry.word.now (table_view keys.now)) }
{
    let word = within.word;
    judge_keys(lints, within.text, Some(word), keys)?;
    let latency = look_up(keys, "latency");
    judge_value(lints, within.text, At::Latency(word), latency)?;
    judge_alternatives(lints, within, look_up(keys, "alts"))
}

/// Tells what is wrong inside a table, if it is one.
#[tactic(auto, unfolding(crate::specs::Tree::inside_told))]
fn judge_inside(
    lints: &mut Vec<MachineLint>,
    within: Within<'_, '_>,
    value: &Value,
) -> Result<(), OutOfMemory>
    requires short { length within.text.now < 2 ^ 32 }
    ensures { OnOk result (lints.new.items ≡ lints.old.items ++ inside_told within.entry.text.now (option_map (λ v. view v.now) within.entry.units) within.entry.word.now (view value.now)) }
{
    match value.as_table() {
        Some(keys) => judge_table(lints, within, keys),
        None => Ok(()),
    }
}

/// Tells that a word is no opcode.
#[tactic(auto, unfolding(crate::specs::Tree::unknown_opcode))]
fn judge_word(
    lints: &mut Vec<MachineLint>,
    text: &Indexed<'_>,
    word: &str,
    value: &Value,
) -> Result<(), OutOfMemory>
    requires short { length text.now < 2 ^ 32 }
    ensures { OnOk result (lints.new.items ≡ lints.old.items ++ unknown_opcode text.now word.now (view value.now)) }
{
    let known = Opcode::named(word.as_bytes()).is_some();
    let wrong = Wrong::Opcode(word);
    tell_unless(known, lints, text, At::Table(word), value, wrong)
}

/// Tells what is wrong with a key of `ops` and its table.
#[tactic(auto, unfolding(crate::specs::Tree::entry_told))]
fn judge_entry(
    lints: &mut Vec<MachineLint>,
    within: Within<'_, '_>,
    value: &Value,
) -> Result<(), OutOfMemory>
    requires short { length within.text.now < 2 ^ 32 }
    ensures { OnOk result (lints.new.items ≡ lints.old.items ++ entry_told within.entry.text.now (option_map (λ v. view v.now) within.entry.units) (within.entry.word.now, view value.now)) }
{
    let word = within.word;
    judge_word(lints, within.text, word, value)?;
    judge_value(lints, within.text, At::Table(word), Some(value))?;
    judge_inside(lints, within, value)
}

/// Tells what is wrong with the tables of a machine.
fn judge_entries(
    lints: &mut Vec<MachineLint>,
    text: &Indexed<'_>,
    units: Option<&Value>,
    tables: &Table,
) -> Result<(), OutOfMemory>
    requires short { length text.now < 2 ^ 32 }
    ensures { OnOk result (lints.new.items ≡ lints.old.items ++ flat_map (entry_told text.now (option_map (λ v. view v.now) units.entry)) (entries_of (table_view tables.now))) }
{
    for (word, value) in tables {
        let within = Within {
            text,
            units,
            word: word.as_str(),
        };
        judge_entry(lints, within, value)?;
    }
    Ok(())
}

/// Tells what is wrong with `ops`.
#[tactic(auto, unfolding(crate::specs::Tree::tables_told))]
fn judge_tables(
    lints: &mut Vec<MachineLint>,
    text: &Indexed<'_>,
    units: Option<&Value>,
    ops: Option<&Value>,
) -> Result<(), OutOfMemory>
    requires short { length text.now < 2 ^ 32 }
    ensures { OnOk result (lints.new.items ≡ lints.old.items ++ tables_told text.now (option_map (λ v. view v.now) units.entry) (option_map (λ v. view v.now) ops.entry)) }
{
    judge_value(lints, text, At::Ops, ops)?;
    match table_in(ops) {
        Some(tables) => judge_entries(lints, text, units, tables),
        None => Ok(()),
    }
}

/// The table that a value is, if it is one.
pub(crate) fn table_in(value: Option<&Value>) -> Option<&Table>
    ensures { table_or (option_map (λ t. table_view t.now) result) ≡ keys_in (option_map (λ v. view v.now) value.entry) }
{
    match value {
        Some(value) => value.as_table(),
        None => None,
    }
}

/// Tells what is wrong with a tree, where each key is found at once.
#[tactic(auto, unfolding(crate::specs::Tree::tree_told))]
fn judge_top(
    lints: &mut Vec<MachineLint>,
    text: &Indexed<'_>,
    tree: &Table,
) -> Result<(), OutOfMemory>
    requires short { length text.now < 2 ^ 32 }
    ensures { OnOk result (lints.new.items ≡ lints.old.items ++ tree_told text.now (table_view tree.now)) }
{
    let units = look_up(tree, "units");
    judge_keys(lints, text, None, tree)?;
    judge_units(lints, text, units)?;
    judge_value(lints, text, At::Registers, look_up(tree, "registers"))?;
    judge_tables(lints, text, units, look_up(tree, "ops"))
}

/// The same, in a list of its own.
fn faults_of(
    alloc: Global,
    text: &Indexed<'_>,
    tree: &Table,
) -> Result<Vec<MachineLint>, OutOfMemory>
    requires short { length text.now < 2 ^ 32 }
    ensures { IfOk result (λ lints. lints.items ≡ tree_told text.now (table_view tree.now)) }
{
    let mut lints = Vec::new(alloc);
    judge_top(&mut lints, text, tree)?;
    Ok(lints)
}

/// All faults of the tree of a text.
pub(crate) fn judge_tree(
    alloc: Global,
    text: &[u8],
    tree: &Table,
) -> Result<Vec<MachineLint>, OutOfMemory>
    requires short { length text.now < 2 ^ 32 }
    ensures { IfOk result (λ lints. lints.items ≡ tree_told text.now (table_view tree.now)) }
{
    let mut text = Indexed::new(alloc, text);
    seek_keys(alloc, &mut text, tree)?;
    faults_of(alloc, &text, tree)
}
