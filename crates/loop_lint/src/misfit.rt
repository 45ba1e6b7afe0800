//! From which word on a line has no form.

ghost use Rattle.std.specs.Prelude.{◌≡◌, ◌+◌, ◌<◌, ◌^◌, ◌∷◌, [], ℕ, List, drop, length, map};
ghost use Rattle.loop_lines.specs.Words.{words_of};
ghost use Rattle.loop_lint.specs.Misfits.{misfit, places_misfit, value_misfit, value_places};
ghost use Rattle.loop_lint.specs.declared.fits.Expected.TheVariants as expected;

use crate::fits::{Expected, fits, is_name, is_text};
use crate::scan::next_word;
use machine_data::Opcode;

/// What has to stand after the opcode of a value.
fn value_places(opcode: Option<Opcode>) -> &'static [Expected]
    ensures { result.now ≡ value_places opcode }
{
    match opcode {
        None | Some(Opcode::Store) => &[],
        Some(Opcode::Load) => &[Expected::Place],
        Some(Opcode::Mov) => &[Expected::Use],
        Some(Opcode::Sel) => &[Expected::Use, Expected::Use, Expected::Use],
        Some(_) => &[Expected::Use, Expected::Use],
    }
}

/// The number of the first word of `rest` that does not stand in its place. Words are counted from `number`.
#[tactic(auto, using(crate::proofs::Passed::place_next, crate::proofs::Passed::place_other, crate::proofs::Passed::place_none))]
fn places_misfit(number: usize, places: &[Expected], rest: &[u8]) -> usize
    requires { number + length places.now < 2 ^ 64 }
    ensures { result ≡ places_misfit number places.now (words_of rest.now) }
{
    let mut at = number;
    let mut left = rest;
    for what in places {
        let Some((word, after)) = next_word(left) else {
            return at;
        };
        if !fits(*what, word) {
            return at;
        }
        left = after;
        at += 1;
    }
    at
}

/// The same where after the name and the `=` of an array integers have to stand.
#[tactic(auto, using(crate::proofs::Passed::integer_next, crate::proofs::Passed::integer_other, crate::proofs::Passed::integer_none))]
fn integers_misfit(rest: &[u8]) -> usize
    ensures { result ≡ places_misfit 3 (map (λ (w : List ℕ). expected.Integer) (words_of rest.now)) (words_of rest.now) }
{
    let mut at = 3;
    let mut left = rest;
    while let Some((word, after)) = next_word(left) {
        if !fits(Expected::Integer, word) {
            return at;
        }
        at += 1;
        left = after;
    }
    at
}

/// `array NAME = INT INT ..`
fn array_misfit(rest: &[u8]) -> usize
    ensures { result ≡ places_misfit 1 (expected.Name ∷ expected.Equals ∷ map (λ (w : List ℕ). expected.Integer) (drop 2 (words_of rest.now))) (words_of rest.now) }
{
    let Some((name, after)) = next_word(rest) else {
        return 1;
    };
    if !fits(Expected::Name, name) {
        return 1;
    }
    let Some((equals, cells)) = next_word(after) else {
        return 2;
    };
    if !fits(Expected::Equals, equals) {
        return 2;
    }
    integers_misfit(cells)
}

/// A statement that gives a value.
fn value_misfit(name: &[u8], rest: &[u8]) -> usize
    ensures { result ≡ value_misfit name.now (words_of rest.now) }
{
    if !is_name(name) {
        return 0;
    }
    let Some((equals, after)) = next_word(rest) else {
        return 1;
    };
    if !fits(Expected::Equals, equals) {
        return 1;
    }
    let Some((opcode, uses)) = next_word(after) else {
        return 2;
    };
    if !fits(Expected::Opcode, opcode) {
        return 2;
    }
    places_misfit(3, value_places(Opcode::named(opcode)), uses)
}

/// The number, from 0, of the first word of a line from which on the line has no form.
#[tactic(auto, unfolding(crate::specs::Misfits::misfit))]
pub(crate) fn misfit(line: &[u8]) -> usize
    ensures { result ≡ misfit (words_of line.now) }
{
    let Some((word, rest)) = next_word(line) else {
        return 0;
    };
    if is_text(word, "loop") {
        return places_misfit(1, &[Expected::Name], rest);
    }
    if is_text(word, "array") {
        return array_misfit(rest);
    }
    if is_text(word, "param") {
        return places_misfit(
            1,
            &[Expected::Name, Expected::Equals, Expected::Integer],
            rest,
        );
    }
    if is_text(word, "init") {
        return places_misfit(
            1,
            &[Expected::Init, Expected::Equals, Expected::Integer],
            rest,
        );
    }
    if is_text(word, "store") {
        return places_misfit(
            1,
            &[Expected::Place, Expected::Use, Expected::If, Expected::Use],
            rest,
        );
    }
    if is_text(word, "out") {
        return places_misfit(1, &[Expected::Name], rest);
    }
    if is_text(word, "end") {
        return 1;
    }
    value_misfit(word, rest)
}
