//! The parts of statements, each by itself.

ghost use Rattle.std.specs.Prelude.{◌≡◌, ◌<◌, ◌≤◌, ℕ, List, Some, None, if◌then◌else◌, is_some, option_map};
ghost use Rattle.std.specs.List.{AllByRecursion};
ghost use Rattle.std.specs.Borrow.{Bor};
ghost use Rattle.loop_lines.specs.Forms as spec;
ghost use Rattle.loop_lines.specs.Parsed.{subscript_seen, uses_seen};
ghost use Rattle.loop_reader.specs.Meaning.{same_number};
ghost use Rattle.loop_lines.specs.Near.{IsNear, IsNearRead, IsNearUse};
ghost use Rattle.loop_lint.specs.Parts.{first_part, is_early_part, is_over, is_repeated, is_uncovered_part, is_unknown_part, name_part, place_part, use_parts, use_word};
ghost use Rattle.loop_lint.specs.inner.Founds.{use_part};
ghost use Rattle.loop_lint.specs.inner.Tables.{is_bare, one_if, IsTable};

use crate::block::{Known, Table};
use loop_lines::{Subscript, Use, Uses};
use loop_reader::{Declared, is_long, is_readable, is_value, is_value_from};
use machine_data::Opcode;

/// The word, where this holds.
pub(crate) fn word_if(holds: bool, word: usize) -> Option<usize>
    ensures { result ≡ (if holds then Some word else None) }
{
    if holds { Some(word) } else { None }
}

/// The word of a part of a statement, for each kind of faults that it has by itself.
#[derive(Clone, Copy)]
pub(crate) struct Judged {
    pub(crate) over: Option<usize>,
    pub(crate) repeated: Option<usize>,
    pub(crate) unknown: Option<usize>,
    pub(crate) early: Option<usize>,
    pub(crate) uncovered: Option<usize>,
}

impl Judged {
    /// No fault.
    const NOTHING: Judged = Judged {
        over: None,
        repeated: None,
        unknown: None,
        early: None,
        uncovered: None,
    };
}

/// The name of a statement's value.
pub(crate) fn judge_name(before: &Table<'_>, name: Option<&[u8]>) -> Judged
    ensures over { result.over ≡ first_part is_over (name_part (option_map (λ (n : Bor (List ℕ)). n.now) name.entry)) }
    ensures repeated { (lines : List spec.Form) → IsTable lines before.now → result.repeated ≡ first_part (is_repeated lines) (name_part (option_map (λ (n : Bor (List ℕ)). n.now) name.entry)) }
{
    match name {
        None => Judged::NOTHING,
        Some(name) => Judged {
            over: word_if(is_long(name), 0),
            repeated: word_if(before.get(name).declared.is_some(), 0),
            ..Judged::NOTHING
        },
    }
}

/// A place, which is this word.
pub(crate) fn judge_place(block: &Table<'_>, place: &Option<Subscript<'_>>, word: usize) -> Judged
    ensures over { result.over ≡ first_part is_over (place_part word (option_map subscript_seen place.now)) }
    ensures unknown { (lines : List spec.Form) → IsTable lines block.now → result.unknown ≡ first_part (is_unknown_part lines) (place_part word (option_map subscript_seen place.now)) }
{
    match place {
        None => Judged::NOTHING,
        Some(place) => {
            let found = block.get(place.array).declared;
            Judged {
                over: word_if(is_long(place.array) || place.offset.is_none(), word),
                unknown: word_if(!matches!(found, Some(Declared::Array(_))), word),
                ..Judged::NOTHING
            }
        }
    }
}

/// A distance of 0.
fn is_now(distance: Option<u8>) -> bool
    ensures { result ≡ same_number distance (Some 0) }
{
    matches!(distance, Some(0))
}

/// Some initial value from 1 to a distance is missing.
fn is_bare(known: &Known, distance: Option<u8>) -> bool
    requires { IsNear distance }
    ensures { result ≡ is_bare known.now.inits distance }
{
    match distance {
        None => false,
        Some(distance) => !known.covers(distance),
    }
}

/// A use by the statement of this number, which is this word.
#[tactic(auto, using(crate::proofs::Tables::bare_there))]
pub(crate) fn judge_use(
    block: &Table<'_>,
    statement: usize,
    read: &Option<Use<'_>>,
    word: usize,
) -> Judged
    requires near { IsNearRead read.now }
    ensures over { result.over ≡ first_part is_over (use_part word read.now) }
    ensures unknown { (lines : List spec.Form) → IsTable lines block.now → result.unknown ≡ first_part (is_unknown_part lines) (use_part word read.now) }
    ensures early { (lines : List spec.Form) → IsTable lines block.now → result.early ≡ first_part (is_early_part lines statement) (use_part word read.now) }
    ensures uncovered { (lines : List spec.Form) → IsTable lines block.now → result.uncovered ≡ first_part (is_uncovered_part lines) (use_part word read.now) }
{
    match read {
        None => Judged::NOTHING,
        Some(Use::Number(value)) => Judged {
            over: word_if(value.is_none(), word),
            ..Judged::NOTHING
        },
        Some(Use::Plain(name)) => {
            let found = block.get(*name).declared;
            Judged {
                over: word_if(is_long(*name), word),
                unknown: word_if(!is_readable(found), word),
                early: word_if(is_value_from(statement, found), word),
                ..Judged::NOTHING
            }
        }
        Some(Use::At(name, distance)) => {
            let known = block.get(*name);
            let is_from = is_value_from(statement, known.declared);
            Judged {
                over: word_if(is_long(*name) || distance.is_none(), word),
                unknown: word_if(!is_value(known.declared), word),
                early: word_if(is_now(*distance) && is_from, word),
                uncovered: word_if(is_bare(&known, *distance), word),
                ..Judged::NOTHING
            }
        }
    }
}

/// How many uses these are: one or none.
fn count(read: &Option<Use<'_>>) -> usize
    ensures value { result ≡ one_if (is_some read.now) }
    ensures few { result ≤ 1 }
{
    if read.is_some() { 1 } else { 0 }
}

/// The number of the word that is use `number` of a statement. Both count from 0.
fn use_word(opcode: Opcode, number: usize) -> usize
    requires { number < 4 }
    ensures { result ≡ use_word opcode number }
{
    match opcode {
        Opcode::Store => 2 * number + 2,
        _ => number + 3,
    }
}

/// The uses of the statement of this number.
#[tactic(auto, using(crate::proofs::Founds::first_uses))]
pub(crate) fn judge_uses(
    block: &Table<'_>,
    statement: usize,
    opcode: Opcode,
    uses: &Uses<'_>,
) -> Judged
    requires { AllByRecursion IsNearUse (uses_seen uses.now) }
    ensures over { result.over ≡ first_part is_over (use_parts opcode 0 (uses_seen uses.now)) }
    ensures unknown { (lines : List spec.Form) → IsTable lines block.now → result.unknown ≡ first_part (is_unknown_part lines) (use_parts opcode 0 (uses_seen uses.now)) }
    ensures early { (lines : List spec.Form) → IsTable lines block.now → result.early ≡ first_part (is_early_part lines statement) (use_parts opcode 0 (uses_seen uses.now)) }
    ensures uncovered { (lines : List spec.Form) → IsTable lines block.now → result.uncovered ≡ first_part (is_uncovered_part lines) (use_parts opcode 0 (uses_seen uses.now)) }
{
    let one = count(&uses.first);
    let two = one + count(&uses.second);
    let first = judge_use(block, statement, &uses.first, use_word(opcode, 0));
    let second = judge_use(block, statement, &uses.second, use_word(opcode, one));
    let third = judge_use(block, statement, &uses.third, use_word(opcode, two));
    Judged {
        over: first.over.or(second.over.or(third.over)),
        repeated: None,
        unknown: first.unknown.or(second.unknown.or(third.unknown)),
        early: first.early.or(second.early.or(third.early)),
        uncovered: first.uncovered.or(second.uncovered.or(third.uncovered)),
    }
}
