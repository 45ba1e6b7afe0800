//! The worked table of calls on each table.

ghost use Rattle.std.specs.Prelude.{◌≡◌, ◌+◌, ◌^◌, ◌<◌, ◌≤◌, ◌∷◌, ◌++◌, [], ℕ, length, slice_index_or, replicate, None, IfOk, OnOk, vec_len};
ghost use Rattle.machine_data.specs.Alternative.{IsAlternative};
ghost use Rattle.mrt.specs.Placements.{placement_of};
ghost use Rattle.acceptance_schedules.specs.inner.Turns.{Tells};

use machine_data::{Alternative, Alternatives, OutOfMemory, Row};
use mrt::{MaskTable, ModuloTable, OwnerTable, TimelineTable};
use smallvec::SmallVec;
use std::alloc::Global;
use std::process::Abort;

/// An alternative of one row.
fn one_row(alloc: Global, unit: u8, offset: u8) -> Result<Alternative, OutOfMemory>
    requires unit { unit < 64 }
    requires offset { offset < 64 }
    ensures rows { IfOk result (λ a. a ≡ record { unit = unit; offset = offset } ∷ []) }
    ensures well_formed { IfOk result (λ a. IsAlternative a) }
{
    let mut rows = SmallVec::new(alloc);
    rows.push(Row { unit, offset })?;
    Ok(Alternative::new(rows))
}

/// An operation of one alternative.
fn one(alloc: Global, alternative: Alternative) -> Result<Alternatives, OutOfMemory>
    requires { IsAlternative alternative }
{
    let mut list = Vec::new(alloc);
    list.push(alternative)?;
    Ok(Alternatives::new(list))
}

/// An operation of two alternatives.
fn two(alloc: Global, first: Alternative, second: Alternative) -> Result<Alternatives, OutOfMemory>
    requires first { IsAlternative first }
    requires second { IsAlternative second }
    ensures { IfOk result (λ a. a ≡ first ∷ second ∷ []) }
{
    let mut list = Vec::new(alloc);
    list.push(first)?;
    list.push(second)?;
    Ok(Alternatives::new(list))
}

/// Adds an operation that takes a unit, some cycles after its issue.
fn push_one(
    alloc: Global,
    operations: &mut Vec<Alternatives>,
    unit: u8,
    offset: u8,
) -> Result<(), OutOfMemory>
    requires unit { unit < 64 }
    requires offset { offset < 64 }
    ensures { OnOk result (vec_len operations.new ≡ vec_len operations.old + 1) }
{
    operations.push(one(alloc, one_row(alloc, unit, offset)?)?)?;
    Ok(())
}

/// Adds an operation that takes one unit or another.
fn push_two(
    alloc: Global,
    operations: &mut Vec<Alternatives>,
    first: Row,
    second: Row,
) -> Result<(), OutOfMemory>
    requires first { (first.unit < 64) × (first.offset < 64) }
    requires second { (second.unit < 64) × (second.offset < 64) }
    ensures { OnOk result (operations.new.items ≡ operations.old.items ++ (((first ∷ []) ∷ (second ∷ []) ∷ []) ∷ [])) }
{
    let first = one_row(alloc, first.unit, first.offset)?;
    let second = one_row(alloc, second.unit, second.offset)?;
    operations.push(two(alloc, first, second)?)?;
    Ok(())
}

/// Operations that each take unit 0 in the cycle of their issue.
fn same(alloc: Global, count: usize) -> Result<Vec<Alternatives>, OutOfMemory>
    ensures { IfOk result (λ v. vec_len v ≡ count) }
{
    let mut operations = Vec::new(alloc);
    for _i in 0..count {
        push_one(alloc, &mut operations, 0, 0)?;
    }
    Ok(operations)
}

/// An operation for each of 64 units, and one that takes the first or the last of them.
fn wide(alloc: Global) -> Result<Vec<Alternatives>, OutOfMemory>
    ensures long { IfOk result (λ v. vec_len v ≡ 65) }
    ensures last { IfOk result (λ v. slice_index_or v.items 64 [] ≡ (record { unit = 0; offset = 63 } ∷ []) ∷ (record { unit = 63; offset = 62 } ∷ []) ∷ []) }
{
    let mut operations = Vec::new(alloc);
    for unit in 0..64 {
        push_one(alloc, &mut operations, unit, 63)?;
    }
    let first = Row {
        unit: 0,
        offset: 63,
    };
    let last = Row {
        unit: 63,
        offset: 62,
    };
    push_two(alloc, &mut operations, first, last)?;
    Ok(operations)
}

/// Places the first operations, each in the cycle of its number or all in cycle 0.
fn place_all<T: ModuloTable>(rt: &impl Abort, table: &mut T, count: usize, apart: bool)
    requires there { count ≤ length (T.operations table.old) }
    requires few { count ≤ 128 }
    requires unplaced { (op : ℕ) → placement_of (T.placed table.old) op ≡ None }
    ensures operations { T.operations table.new ≡ T.operations table.old }
    ensures interval { T.interval table.new ≡ T.interval table.old }
{
    for op in 0..count {
        let time = if apart { op as u64 } else { 0 };
        let alternative = table.free(op, time).expect(rt, "the slot is free");
        table.claim(op, time, alternative);
    }
}

/// A table of operations of one unit, all but the last of them placed, each in the cycle of its number.
fn filled<T: ModuloTable>(rt: &impl Abort, alloc: Global, placed: usize, ii: u64) -> T
    requires some { 0 < ii }
    requires few { ii ≤ 128 }
    requires placed { placed ≤ 128 }
    ensures operations { length (T.operations result) ≡ placed + 1 }
    ensures interval { T.interval result ≡ ii }
{
    let operations = same(alloc, placed + 1).expect(rt, "memory");
    let mut table = T::make(alloc, &operations, ii).expect(rt, "memory");
    place_all(rt, &mut table, placed, true);
    table
}

/// A table of 65 operations, of which 64 hold each unit in one cycle.
fn crowded<T: ModuloTable>(rt: &impl Abort, alloc: Global) -> T
    ensures operations { slice_index_or (T.operations result) 64 [] ≡ (record { unit = 0; offset = 63 } ∷ []) ∷ (record { unit = 63; offset = 62 } ∷ []) ∷ [] }
{
    let operations = wide(alloc).expect(rt, "memory");
    let mut table = T::make(alloc, &operations, 8).expect(rt, "memory");
    place_all(rt, &mut table, 64, false);
    table
}

/// Where the last cycle alone is free, the search finds it, also across the end of an interval.
fn is_last_free<T: ModuloTable>(table: &T, op: usize, ii: u64) -> bool
    requires there { op < length (T.operations table.now) }
    requires interval { T.interval table.now ≡ ii }
    requires some { 5 < ii }
    requires few { ii ≤ 128 }
{
    let last = Some((ii - 1, 0));
    table.first_free(op, 0) == last
        && table.first_free(op, 5) == last
        && table.first_free(op, ii) == Some((2 * ii - 1, 0))
}

/// The slots wrap round at the interval, and the search finds the one that is left.
fn finds_the_hole<T: ModuloTable>(rt: &impl Abort, alloc: Global, ii: u64) -> bool
    requires some { 5 < ii }
    requires few { ii ≤ 128 }
{
    let last = ii as usize - 1;
    let table = filled::<T>(rt, alloc, last, ii);
    is_last_free(&table, last, ii)
}

/// A full table has no slot.
fn finds_none<T: ModuloTable>(rt: &impl Abort, alloc: Global, ii: u64) -> bool
    requires some { 0 < ii }
    requires few { ii ≤ 128 }
{
    let table = filled::<T>(rt, alloc, ii as usize, ii);
    table.ii() == ii && table.first_free(ii as usize, 3).is_none()
}

/// Of two alternatives the free one is taken, and the slot of the other has a holder.
fn tells_the_holder<T: ModuloTable>(rt: &impl Abort, alloc: Global) -> bool {
    let table = crowded::<T>(rt, alloc);
    table.free(64, 0) == Some(1) && table.holder(64, 0, 0, 0) == Some(0)
}

/// Takes an operation out where it is placed, and else places it at its first slot from a time on.
fn turn<T: ModuloTable>(
    table: &mut T,
    held: &mut [bool],
    op: usize,
    start: u64,
) -> Option<(u64, usize)>
    requires there { op < length held.old }
    requires time { start + T.interval table.old ≤ 2 ^ 32 }
    requires tells { Tells held.old (length (T.operations table.old)) (T.placed table.old) }
    ensures tells { Tells held.new (length (T.operations table.new)) (T.placed table.new) }
    ensures operations { T.operations table.new ≡ T.operations table.old }
    ensures interval { T.interval table.new ≡ T.interval table.old }
{
    if held[op] {
        table.release(op);
        held[op] = false;
        return None;
    }
    let slot = table.first_free(op, start);
    if let Some((time, alternative)) = slot {
        table.claim(op, time, alternative);
        held[op] = true;
    }
    slot
}

/// Of two kinds one has another unit to spare, and the third kind has no operation.
fn push_kinds(alloc: Global, kinds: &mut Vec<Alternatives>) -> Result<(), OutOfMemory>
    ensures { OnOk result (vec_len kinds.new ≡ vec_len kinds.old + 3) }
{
    push_one(alloc, kinds, 0, 0)?;
    push_two(
        alloc,
        kinds,
        Row { unit: 0, offset: 0 },
        Row { unit: 1, offset: 0 },
    )?;
    push_one(alloc, kinds, 2, 0)
}

/// Operations of the kinds 1, 0, 1 and 1 get these slots, one after another, and the first one gets its own again.
fn gives_slots<T: ModuloTable>(table: &mut T) -> bool
    requires count { length (T.operations table.old) ≡ 4 }
    requires interval { T.interval table.old ≡ 2 }
    requires empty { T.placed table.old ≡ replicate 4 None }
{
    let mut held = [false; 4];
    turn(table, &mut held, 0, 0) == Some((0, 0))
        && turn(table, &mut held, 1, 0) == Some((1, 0))
        && turn(table, &mut held, 2, 0) == Some((0, 1))
        && turn(table, &mut held, 3, 0) == Some((1, 1))
        && turn(table, &mut held, 0, 0).is_none()
        && turn(table, &mut held, 0, 0) == Some((0, 0))
}

/// Operations that are told by their kinds get the slots of their kinds, at another interval than that for which the table is made.
fn takes_kinds<T: ModuloTable>(rt: &impl Abort, alloc: Global) -> bool {
    let mut kinds = Vec::new(alloc);
    push_kinds(alloc, &mut kinds).expect(rt, "memory");
    let table = T::of_kinds(alloc, &kinds, &[1, 0, 1, 1], 67).expect(rt, "memory");
    let mut table = table.at(2).expect(rt, "memory");
    gives_slots(&mut table)
}

/// The worked calls, at intervals for each form that a table of bits has.
fn worked_calls<T: ModuloTable>(rt: &impl Abort, alloc: Global) {
    for ii in [7, 8, 9, 63, 64, 80, 128] {
        assert!(rt; finds_the_hole::<T>(rt, alloc, ii), "{ii}");
        assert!(rt; finds_none::<T>(rt, alloc, ii), "{ii}");
    }
    assert!(rt; tells_the_holder::<T>(rt, alloc));
    assert!(rt; takes_kinds::<T>(rt, alloc));
}

#[test]
fn owners(rt: HostRuntime) {
    worked_calls::<OwnerTable>(&rt, rt.alloc());
}

#[test]
fn masks(rt: HostRuntime) {
    worked_calls::<MaskTable>(&rt, rt.alloc());
}

#[test]
fn timelines(rt: HostRuntime) {
    worked_calls::<TimelineTable>(&rt, rt.alloc());
}

/// Alternatives are the same as others, row by row: not where a unit or an offset is another, or one alternative more stands there.
#[test]
fn alternatives_are_the_same_row_by_row(rt: HostRuntime) {
    let alloc = rt.alloc();
    let mut list = Vec::new(alloc);
    push_one(alloc, &mut list, 1, 2).expect(&rt, "memory");
    push_one(alloc, &mut list, 1, 2).expect(&rt, "memory");
    push_one(alloc, &mut list, 2, 2).expect(&rt, "memory");
    push_one(alloc, &mut list, 1, 3).expect(&rt, "memory");
    let row = Row { unit: 1, offset: 2 };
    push_two(alloc, &mut list, row, row).expect(&rt, "memory");
    let first = list.first().expect(&rt, "alternatives");
    for (number, other) in list.iter().enumerate() {
        assert!(rt; first.are_same(other) == (number < 2));
    }
}
