//! What calls with texts tell.

ghost use Rattle.std.specs.Prelude.{◌≡◌, ◌⊎◌, true, Err, IfOk, string_bytes};
ghost use Rattle.file_faults.specs.declared.fault.FileFault.TheVariants.{Memory};
ghost use Rattle.exit_status.specs.Statuses.{has_line, line_of, refusal_of_file};
ghost use Rattle.capi.specs.Texts.{Hands, HandsNothing, HandsRefusal, filled, line_at, told_misfit, told_text};

use exit_status::Status;
use file_faults::FileFault;
use machine_data::OutOfMemory;
use std::alloc::Global;
use written::Printout;

/// What a call tells beside its text. What does not belong to its status is 0.
#[repr(C)]
#[derive(Clone, Copy)]
pub struct Told {
    /// How many bytes the whole text has, or the line that tells of a refusal; of these as many as fit are written.
    pub bytes: u64,
    /// The line at fault of the loops' text, from 1.
    pub line: u64,
    /// Which number is out of its range: 1 the ratio, 2 the ceiling, 3 the trip count.
    pub misfit: u64,
}

/// Tells that a number is out of its range, and gives the status.
pub(crate) fn tell_misfit(misfit: u64, told: &mut Told) -> u32
    ensures status { result ≡ 2 }
    ensures told { told.new ≡ told_misfit misfit }
{
    *told = Told {
        bytes: 0,
        line: 0,
        misfit,
    };
    2
}

/// Hands over what was printed or the line of a refusal, and gives the status.
pub(crate) fn tell(
    alloc: Global,
    printed: Result<Printout, FileFault>,
    room: &mut [u8],
    told: &mut Told,
) -> u32
    ensures { Hands printed room.old room.new told.new result ⊎ HandsNothing room.old room.new told.new result }
{
    match printed {
        Ok(printout) => {
            hand(printout.text(), 0, room, told);
            if printout.all_met() { 0 } else { 1 }
        }
        Err(FileFault::Memory) => tell_nothing(told),
        Err(fault) => refuse(alloc, fault, room, told),
    }
}

/// Tells nothing, as memory ran out, and gives the status.
fn tell_nothing(told: &mut Told) -> u32
    ensures status { result ≡ 7 }
    ensures told { told.new ≡ told_misfit 0 }
{
    *told = Told {
        bytes: 0,
        line: 0,
        misfit: 0,
    };
    7
}

/// Hands over the line that tells of a refusal, and gives its status.
fn refuse(alloc: Global, fault: FileFault, room: &mut [u8], told: &mut Told) -> u32
    ensures { HandsRefusal fault room.old room.new told.new result ⊎ HandsNothing room.old room.new told.new result }
{
    let line = line_at(&fault);
    let status = Status::from(fault);
    match line_text(alloc, &status) {
        Ok(text) => {
            hand(text.as_bytes(), line, room, told);
            u32::from(status.number())
        }
        Err(_) => tell_nothing(told),
    }
}

/// The line at fault of the loops' text.
fn line_at(fault: &FileFault) -> u64
    ensures { result ≡ line_at fault.now }
{
    match fault {
        FileFault::Loops(fault) => fault.line as u64,
        _ => 0,
    }
}

/// The line that tells of the status of a fault.
fn line_text(alloc: Global, status: &Status) -> Result<String, OutOfMemory>
    requires { has_line status.now ≡ true }
    ensures { IfOk result (λ text. string_bytes text ≡ line_of status.now) }
{
    match status.line() {
        Some(line) => line.to_string(alloc),
        None => unreachable!(),
    }
}

/// Hands over a text, as far as there is room, and how many bytes it has.
fn hand(text: &[u8], line: u64, room: &mut [u8], told: &mut Told)
    ensures told { told.new ≡ told_text text.now line }
    ensures room { room.new ≡ filled text.now room.old }
{
    *told = Told {
        bytes: text.len() as u64,
        line,
        misfit: 0,
    };
    let count = text.len().min(room.len());
    room[..count].copy_from_slice(&text[..count]);
}
