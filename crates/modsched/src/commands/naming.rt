//! The loops of a text that have the names that were given.

ghost use Rattle.std.specs.Prelude.{◌≡◌, ◌≤◌, length, option_map, None, Ok, IfErr, IfOk};
ghost use Rattle.std.specs.List.{list_any};
ghost use Rattle.machine_data.specs.declared.limits.TheConstants.{MAX_LOOPS};
ghost use Rattle.loop_reader.specs.Meaning.{loops_in};
ghost use Rattle.modsched.specs.Engine.{IsNoLoop};
ghost use Rattle.modsched.specs.Naming.{chosen, chosen_of, first_unknown, has_one_of, is_named, unknown_in};
ghost use Rattle.modsched.specs.inner.Refusals.{IsRefusal, IsUnnamed};

use exit_status::Status;
use loop_data::Loop;
use std::alloc::Global;
use std::thread::Threads;
use workers::read_by_workers;

/// The loops of a text that have one of the names, in the order of the text; all of them where there is no name. Or the status of the text's fault,
/// or else of the first name that no loop has. At most `workers` workers read the text.
pub(super) fn loops_named<R: Threads + Sync>(
    rt: &R,
    alloc: Global,
    names: &[String],
    text: &[u8],
    workers: usize,
) -> Result<Vec<Loop>, Status>
    ensures loops { IfOk result (λ loops. (chosen_of names.now (loops_in text.now) ≡ Ok loops.items) × (unknown_in names.now (loops_in text.now) ≡ None) × (length loops.items ≤ MAX_LOOPS)) }
    ensures status { IfErr result (IsUnnamed names.now (loops_in text.now)) }
    ensures kind { IfErr result IsRefusal }
{
    let mut loops = match read_by_workers(rt, alloc, text, workers) {
        Ok(loops) => loops,
        Err(fault) => return Err(Status::from(fault)),
    };
    match first_unknown(names, loops.as_slice()) {
        Some(name) => Err(no_loop(alloc, name.as_str())),
        None => {
            keep_named(&mut loops, names);
            Ok(loops)
        }
    }
}

/// Leaves those of some loops that have one of the names, and all of them where there is no name.
fn keep_named(loops: &mut Vec<Loop>, names: &[String])
    ensures kept { loops.new.items ≡ chosen names.now loops.old.items }
    ensures fewer { length loops.new.items ≤ length loops.old.items }
{
    if !names.is_empty() {
        loops.retain(|innermost| has_one_of(names, innermost));
    }
}

/// The status where no loop has a name.
fn no_loop(alloc: Global, name: &str) -> Status
    ensures is { IsNoLoop name.now result }
    ensures kind { IsRefusal result }
{
    match String::from_str(alloc, name) {
        Ok(name) => Status::NoLoop(name),
        Err(_) => Status::OutOfMemory,
    }
}

/// The first of some names that no loop has.
fn first_unknown<'a>(names: &'a [String], loops: &[Loop]) -> Option<&'a String>
    ensures { option_map (λ name. name.now) result ≡ first_unknown names.entry.now loops.now }
{
    names.iter().find(|name| !has_name(loops, name))
}

/// Whether some loop has a name.
fn has_name(loops: &[Loop], name: &String) -> bool
    ensures { result ≡ list_any (is_named name.now) loops.now }
{
    loops
        .iter()
        .any(|innermost| innermost.name().as_str() == name.as_str())
}

/// Whether a loop has one of some names.
fn has_one_of(names: &[String], innermost: &Loop) -> bool
    ensures { result ≡ has_one_of names.now innermost.now }
{
    names
        .iter()
        .any(|name| innermost.name().as_str() == name.as_str())
}
