//! Makes calls that take memory, each twice with the same arguments, and prints what they come to.
//!
//! `tests/refused_memory` runs it with each growth of memory refused in turn. Then a call has to come to what it comes
//! to with ample memory, or to a refusal, and what it was lent has to be as it was. Its stored run is the one with
//! ample memory.
#![tactic(auto)]

mod answers;
mod bare;
mod files;
mod given;
mod preparing;
mod sharing;
mod single;
mod three;

use answers::{NotBegun, tell_not_begun};
use std::io;
use std::thread::Threads;
use three::{Three, given_three};

fn main(rt: HostRuntime) -> io::Result<()> {
    match given_three(&rt, rt.alloc()) {
        Ok(three) => try_all(&rt, &three),
        Err(NotBegun) => tell_not_begun(&rt),
    }
}

/// Tells what all calls come to.
fn try_all(rt: &(impl AllocGlobal + Print + Threads + Sync), three: &Three) -> io::Result<()> {
    let prepared = &three.loops[0];
    single::try_all(rt, prepared)?;
    single::try_schedule(rt, prepared)?;
    sharing::try_workers(rt, three)?;
    files::try_file(rt)?;
    preparing::try_prepared(rt)?;
    sharing::try_bare_board(rt)?;
    bare::try_tables(rt, prepared)?;
    bare::try_numbers(rt)
}
