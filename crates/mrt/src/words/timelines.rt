//! One word or timeline for each unit.

ghost use Rattle.mrt.specs.inner.Times.{is_set, AreTimes};

use crate::rosters::slot::Slot;
use crate::words::layout::{Layout, Search};
use crate::words::rounds::{first_off, write_round};
use crate::words::times::{LEAST, first_unheld, is_set, words_at, write};
use machine_data::limits::MAX_UNITS;

/// For each unit a word whose bit `r` tells that the unit is held at residue `r`. From an interval of 64 on the unit
/// has a timeline instead, which has a bit for each time. The width is how many words each unit has.
#[derive(Drop)]
pub struct Timelines;

impl Layout for Timelines {
    ghost is_laid = { AreTimes };

    ghost tells = { is_set };

    fn sizes(ii: usize) -> (usize, usize) {
        let words = words_at(ii);
        (words, MAX_UNITS * words)
    }

    fn is_held(words: &[u64], width: usize, _ii: usize, slot: &Slot, residue: usize) -> bool {
        is_set(words, width, slot.row.unit, residue)
    }

    fn write(words: &mut [u64], width: usize, ii: usize, slot: &Slot, residue: usize, held: bool) {
        if ii < LEAST {
            write_round(words, slot.row.unit, residue, held);
        } else {
            write(words, width, slot.row.unit, ii, residue, held);
        }
    }
}

impl Search for Timelines {
    fn first_unmet(
        words: &[u64],
        width: usize,
        slots: &[Slot],
        ii: usize,
        base: usize,
        limit: u64,
    ) -> u64 {
        if ii < LEAST {
            first_off(words, slots, ii, base, limit)
        } else {
            first_unheld(words, width, slots, ii, base, limit)
        }
    }
}
