//! Calls on one loop that take no memory. All that they are lent is made before the first of them.

ghost use Rattle.std.specs.Prelude.{◌≡◌, None, length, replicate};

use crate::answers::{Answer, tell, tell_not_begun};
use candidates::{Pieces, Settings};
use kernel::Kernel;
use loop_schedules::{Prepared, Schedule};
use loops::apply;
use machine::{Alternatives, Opcode};
use mrt::{MaskTable, ModuloTable, OwnerTable};
use rotating::Allotment;
use std::io;
use walks::mii;

/// Tells what calls on a table of owners and on one of words come to.
pub fn try_tables(rt: &(impl AllocGlobal + Print), prepared: &Prepared) -> io::Result<()> {
    let alternatives = prepared.alternatives();
    match (
        OwnerTable::make(rt.alloc(), alternatives, 4),
        MaskTable::make(rt.alloc(), alternatives, 4),
    ) {
        (Ok(owners), Ok(masks)) => {
            let first = used(owners, alternatives);
            tell(rt, "bare tables", first, used(masks, alternatives))
        }
        _ => tell_not_begun(rt),
    }
}

/// The load and the store take one unit.
fn used<T: ModuloTable>(mut table: T, alternatives: &[Alternatives]) -> Answer
    requires operations { T.operations table ≡ alternatives.now }
    requires empty { T.placed table ≡ replicate (length alternatives.now) None }
    requires interval { T.interval table ≡ 4 }
{
    if alternatives.len() != 3 || table.free(0, 1) != Some(0) {
        return Answer::Wrong;
    }
    table.claim(0, 1, 0);
    if !is_held(&table, alternatives) {
        return Answer::Wrong;
    }
    let crowded = (
        table.free(2, 5),
        table.first_free(2, 5),
        table.first_free(0, 2),
    );
    table.release(0);
    let empty = (table.free(2, 5), table.first_free(2, 5));
    Answer::right_if(
        crowded == (None, Some((6, 0)), Some((2, 0))) && empty == (Some(0), Some((5, 0))),
    )
}

/// Whether the load holds the slot that the store would take in cycle 1.
fn is_held<T: ModuloTable>(table: &T, alternatives: &[Alternatives]) -> bool
    requires { T.operations table.now ≡ alternatives.now }
{
    let [_, _, store] = alternatives else {
        return false;
    };
    let [first, ..] = store.as_slice() else {
        return false;
    };
    !first.rows().is_empty() && table.holder(2, 0, 0, 1) == Some(0)
}

/// Tells whether a kernel's parts and numbers of registers are taken.
pub fn try_checks(
    rt: &(impl AllocGlobal + Print),
    schedule: &Schedule,
    kernel: Kernel,
) -> io::Result<()> {
    match vec![in rt.alloc(); 0, 0] {
        Ok(numbers) => {
            let numbers = Answer::right_if(Allotment::check(schedule, 2, numbers).is_ok());
            let parts = Answer::right_if(Kernel::check(kernel.into_parts()).is_ok());
            tell(rt, "bare checks", numbers, parts)
        }
        Err(_) => tell_not_begun(rt),
    }
}

/// Tells what settings and pieces, and bounds and arithmetic come to.
pub fn try_numbers(rt: &impl Print) -> io::Result<()> {
    let pieces = Answer::right_if(
        Settings::new(6, 3, 3, 1).is_ok() && Pieces::of(3, 3, 1).number() == 12,
    );
    let numbers = Answer::right_if(
        mii(2, 1) == 2 && apply(Opcode::Add, &[i64::MAX, 1]) == i64::MIN,
    );
    tell(rt, "bare numbers", pieces, numbers)
}
