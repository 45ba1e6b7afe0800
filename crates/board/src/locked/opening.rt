//! A locked board and its passes are made.
ghost use Rattle.std.specs.Prelude.{◌≡◌, ◌≤◌, All, IfOk, false, vec_len};

use super::{LockedBoard, LockedPass, Numbers};
use crate::OutOfMemory;
use std::alloc::Global;
use std::sync::{Mutex, Wait};

impl<R: Wait + Drop> LockedBoard<R> {
    /// A board for `loops` loops and `pieces` pieces, with just `passes` passes. Its calls wait by `rt`.
    pub fn new(
        rt: R,
        alloc: Global,
        loops: usize,
        pieces: u64,
        passes: usize,
    ) -> Result<(LockedBoard<R>, Vec<LockedPass>), OutOfMemory>
        requires loops { loops ≤ 1024 }
        requires pieces { pieces ≤ 262144 }
        requires some_pass { 1 ≤ passes }
        requires passes { passes ≤ 64 }
        ensures loops { IfOk result (λ r. r.0.loops ≡ loops) }
        ensures pieces { IfOk result (λ r. r.0.pieces ≡ pieces) }
        ensures count { IfOk result (λ r. vec_len r.1 ≡ passes) }
        ensures passes { IfOk result (λ r. All (λ p. p.dry ≡ false) r.1.items) }
    {
        let numbers = Mutex::new(Numbers::opening(alloc, loops)?);
        let issued = fresh(alloc, passes)?;
        let board = LockedBoard {
            rt,
            loops,
            pieces,
            numbers,
        };
        Ok((board, issued))
    }
}

fn fresh(alloc: Global, passes: usize) -> Result<Vec<LockedPass>, OutOfMemory>
    ensures count { IfOk result (λ v. vec_len v ≡ passes) }
    ensures passes { IfOk result (λ v. All (λ p. p.dry ≡ false) v.items) }
{
    let mut issued = Vec::with_capacity(alloc, passes)?;
    for _made in 0..passes {
        issued.push(LockedPass { dry: false })?;
    }
    Ok(issued)
}
