//! Loops that are prepared by workers.

use crate::answers::{Answer, tell};
use candidates::Settings;
use loop_schedules::Prepared;
use loops::read_loops;
use machine::{OutOfMemory, read_machine};
use std::alloc::Global;
use std::fmt::Write;
use std::io;
use std::thread::Threads;
use worked_texts::TWO_REGISTERS;
use workers::{FileFault, prepare_by_workers};

/// How many loops there are, of 128 statements each: enough work for two workers, and little more.
const LOOPS: usize = 20;

/// Tells what preparing loops by two workers comes to.
pub fn try_prepared(rt: &(impl AllocGlobal + Print + Threads + Sync)) -> io::Result<()> {
    let Ok(settings) = Settings::new(6, 3, 2, 1) else {
        return tell(rt, "prepare_by_workers", Answer::Wrong, Answer::Wrong);
    };
    let first = prepared(rt, rt.alloc(), &settings);
    tell(
        rt,
        "prepare_by_workers",
        first,
        prepared(rt, rt.alloc(), &settings),
    )
}

/// What preparing the loops comes to. The 128 loads of each take the one memory unit in as many cycles.
fn prepared<R: Threads + Sync>(rt: &R, alloc: Global, settings: &Settings) -> Answer {
    match prepared_loops(rt, alloc, settings) {
        Ok(prepared) => Answer::right_if(
            prepared.len() == LOOPS && prepared.iter().all(|one| one.mii() == 128),
        ),
        Err(FileFault::Memory) => Answer::Refused,
        Err(_) => Answer::Wrong,
    }
}

/// The loops, prepared.
fn prepared_loops<R: Threads + Sync>(
    rt: &R,
    alloc: Global,
    settings: &Settings,
) -> Result<Vec<Prepared>, FileFault> {
    let text = loads(alloc)?;
    let machine = read_machine(alloc, TWO_REGISTERS.as_bytes())?;
    let loops = read_loops(alloc, text.as_bytes())?;
    prepare_by_workers(rt, alloc, &machine, loops, settings)
}

/// The text of the loops, in which each statement is a load.
fn loads(alloc: Global) -> Result<String, OutOfMemory> {
    let mut text = String::new(alloc);
    for number in 0..LOOPS {
        writeln!(text, "loop loads{number}\narray a = 1 2 3")?;
        push_loads(&mut text)?;
        text.push_str("end\n")?;
    }
    Ok(text)
}

/// Appends 128 loads.
fn push_loads(text: &mut String) -> Result<(), OutOfMemory> {
    for number in 0..128 {
        writeln!(text, "t{number} = load a[i]")?;
    }
    Ok(())
}
