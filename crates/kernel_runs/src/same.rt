//! Tests whether two states of a run are the same.

ghost use Rattle.std.specs.Prelude.{◌≡◌, IsTrue};

use crate::file::RegisterFile;
use crate::flight::{Pending, Place};
use crate::ring::{Ring, SLOTS};
use loop_data::Memory;

/// Whether two files hold the same.
pub(crate) fn same_registers(one: &RegisterFile, other: &RegisterFile) -> bool
    ensures { IsTrue result → one.now ≡ other.now }
{
    if one.count() != other.count() {
        return false;
    }
    for register in 0..one.count() {
        if one.value(register) != other.value(register) {
            return false;
        }
    }
    true
}

/// Whether two memories hold the same.
pub(crate) fn same_memories(one: &Memory, other: &Memory) -> bool
    ensures { IsTrue result → one.now ≡ other.now }
{
    one.trip() == other.trip() && same_arrays(one, other) && same_outs(one, other)
}

/// Whether all cells of two memories are the same.
fn same_arrays(one: &Memory, other: &Memory) -> bool
    ensures { IsTrue result → one.now.arrays ≡ other.now.arrays }
{
    if one.array_count() != other.array_count() {
        return false;
    }
    for array in 0..one.array_count() {
        if !same_values(one.cells(array), other.cells(array)) {
            return false;
        }
    }
    true
}

/// Whether the live values of two memories are the same.
fn same_outs(one: &Memory, other: &Memory) -> bool
    ensures { IsTrue result → one.now.outs ≡ other.now.outs }
{
    if one.out_count() != other.out_count() {
        return false;
    }
    for out in 0..one.out_count() {
        if one.out(out) != other.out(out) {
            return false;
        }
    }
    true
}

/// Whether two lists of values are the same.
fn same_values(one: &[i64], other: &[i64]) -> bool
    ensures { IsTrue result → one.now ≡ other.now }
{
    if one.len() != other.len() {
        return false;
    }
    for place in 0..one.len() {
        if one[place] != other[place] {
            return false;
        }
    }
    true
}

/// Whether the same writes are in flight in two rings.
pub(crate) fn same_slots(one: &Ring, other: &Ring) -> bool
    ensures { IsTrue result → one.now.slots ≡ other.now.slots }
{
    for slot in 0..SLOTS {
        if !same_writes(one.slot(slot), other.slot(slot)) {
            return false;
        }
    }
    true
}

/// Whether two lists of writes are the same.
fn same_writes(one: &[Pending], other: &[Pending]) -> bool
    ensures { IsTrue result → one.now ≡ other.now }
{
    if one.len() != other.len() {
        return false;
    }
    for place in 0..one.len() {
        if !is_same_write(one[place], other[place]) {
            return false;
        }
    }
    true
}

/// Whether two writes are the same.
fn is_same_write(one: Pending, other: Pending) -> bool
    ensures { IsTrue result → one ≡ other }
{
    is_same_place(one.place, other.place) && one.value == other.value
}

/// Whether two places are the same.
fn is_same_place(one: Place, other: Place) -> bool
    ensures { IsTrue result → one ≡ other }
{
    match (one, other) {
        (Place::Register(one), Place::Register(other)) => one == other,
        (Place::Cell(array, cell), Place::Cell(other_array, other_cell)) => {
            array == other_array && cell == other_cell
        }
        _ => false,
    }
}
