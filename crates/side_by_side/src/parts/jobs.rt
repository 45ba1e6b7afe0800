//! The jobs of workers that make a part of a text for each loop.

ghost use Rattle.std.specs.Prelude.{◌≡◌, ◌<◌, IfSome, length, vec_len};
ghost use Rattle.std.specs.List.{All};

use loop_data::Loop;
use shared_jobs::{Jobs, shared};
use std::alloc::Global;

/// The jobs of loops, of which each statement is so much work.
pub(crate) fn loop_jobs(
    alloc: Global,
    loops: &[Loop],
    workers: usize,
    statement: u64,
) -> Option<Jobs>
    ensures each { IfSome result (λ s. vec_len s.list ≡ length loops.now) }
    ensures within { IfSome result (λ s. All (λ (j : _). j.number < length loops.now) s.list.items) }
{
    shared(
        alloc,
        loops.len(),
        workers,
        &|number| { statement.saturating_mul(loops[number].statements().len() as u64) },
    )
}
