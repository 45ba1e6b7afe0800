//! What the commands write.

ghost use Rattle.machine_data.specs.declared.limits.TheConstants.{MAX_LOOPS};
ghost use Rattle.std.specs.Prelude.{◌≡◌, ◌≤◌, ◌⊎◌, vec_len, Ok, Err, IfErr, IfOk};
ghost use Rattle.graph.specs.Units.{first_lacking};
ghost use Rattle.file_faults.specs.Answers.{AnswersIn, AnswersOn};
ghost use Rattle.modsched.specs.Engine.{Brings, IsSearchText, IsTaskText, LoopsBring, loops_ending};
ghost use Rattle.modsched.specs.Naming.{unknown_in};
ghost use Rattle.loop_reader.specs.Meaning.{loops_in};
ghost use Rattle.machine.specs.MachineText.{machine_of};
ghost use Rattle.reader_faults.specs.declared.machine.MachineFault.{MachineFault};
ghost use Rattle.exit_status.specs.Statuses.{refusal_of_machine};
ghost use Rattle.exit_status.specs.declared.status.Status.TheVariants.{OutOfMemory};
ghost use Rattle.modsched.specs.inner.Answers.{ending_of};
ghost use Rattle.modsched.specs.inner.Refusals.{IsRefusal};

mod answer;
mod answering;
mod linting;
mod naming;
mod searches;

pub(crate) use answer::Answer;
use answering::{check_text, report_text, solve_text};
use command_line::{Command, Format, Search, Task, Work};
use exit_status::Status;
use file_faults::FileFault;
use graph_printouts::{dot_text, edges_text};
use linting::lint_text;
use listing_printouts::bounds_text;
use loop_data::Loop;
use machine::{Machine, read_machine};
use naming::loops_named;
use searches::{json_text, run_text, schedule_text};
use settings::Settings;
use shared_runs::plain_text_on;
use side_by_side::{
    document_text_of, explain_document_on, explain_page_on, explain_text_on, run_text_of,
    schedule_text_of, scheduled_text_on, vary_document_on, vary_text_on, vary_total_on,
};
use std::alloc::Global;
use std::thread::Threads;
use text_parts::Parted;
use workers::{OpenGate, pipeline_on, read_by_workers};
use written::Printout;

/// What a command writes for the bytes of its texts, each of which is read once, or the status of a refusal. A command that reads
/// one text ignores the first bytes.
pub(crate) fn answer_of<R: Threads + Sync>(
    rt: &R,
    alloc: Global,
    command: &Command,
    first: &[u8],
    last: &[u8],
) -> Result<Answer, Status>
    ensures brings { Brings command.now first.now last.now (ending_of result) }
    ensures kind { IfErr result IsRefusal }
{
    match command {
        Command::Loops { names, work, .. } => {
            work_text(rt, alloc, work, names.as_slice(), first, last)
        }
        Command::Solve {
            settings,
            format,
            ..
        } => solve_text(rt, alloc, settings, *format, last),
        Command::Problems { told, .. } => report_text(alloc, told, last),
        Command::Check { .. } => check_text(alloc, first, last),
        Command::Lint { texts, format } => lint_text(alloc, texts, *format, first, last),
    }
}

/// What loops come to, with the status of a refusal.
fn loops_ending(outcome: Result<Parted, FileFault>) -> Result<Answer, Status>
    ensures ending { ending_of result ≡ loops_ending outcome }
    ensures kind { IfErr result IsRefusal }
{
    match outcome {
        Ok(parted) => Ok(Answer::Parted(parted)),
        Err(fault) => Err(Status::from(fault)),
    }
}

/// A printout alone, where there is one.
fn whole(outcome: Result<Printout, FileFault>) -> Result<Parted, FileFault>
    ensures { result ≡ outcome }
{
    match outcome {
        Ok(printout) => Ok(Parted::whole(printout)),
        Err(fault) => Err(fault),
    }
}

/// What is written of the loops of a text that have one of the names, and for all but a plain run of the machine of a text.
fn work_text<R: Threads + Sync>(
    rt: &R,
    alloc: Global,
    work: &Work,
    names: &[String],
    machine: &[u8],
    loops: &[u8],
) -> Result<Answer, Status>
    ensures brings { LoopsBring work.now names.now machine.now (loops_in loops.now) (unknown_in names.now (loops_in loops.now)) (ending_of result) }
    ensures kind { IfErr result IsRefusal }
{
    match work {
        Work::Plain { trip, workers } => {
            let loops = match loops_named(rt, alloc, names, loops, *workers) {
                Ok(loops) => loops,
                Err(status) => return Err(status),
            };
            loops_ending(plain_text_on(rt, alloc, loops.as_slice(), *trip, *workers))
        }
        Work::OnMachine { task, .. } => {
            let machine = match machine_of(alloc, machine) {
                Ok(machine) => machine,
                Err(status) => return Err(status),
            };
            if names.is_empty() {
                return loops_ending(text_of(rt, alloc, task, &machine, loops));
            }
            let loops = match loops_named(rt, alloc, names, loops, workers_of(task)) {
                Ok(loops) => loops,
                Err(status) => return Err(status),
            };
            loops_ending(task_text(rt, alloc, task, &machine, loops))
        }
    }
}

/// How many workers there may be.
fn workers_of(task: &Task) -> usize {
    match task {
        Task::Search(settings, _) => settings.workers(),
        Task::Bounds | Task::Edges | Task::Dot => 1,
    }
}

/// The machine of a text.
fn machine_of(alloc: Global, text: &[u8]) -> Result<Machine, Status>
    ensures machine { IfOk result (λ machine. machine_of text.now ≡ Ok machine) }
    ensures status { IfErr result (λ status. (status ≡ OutOfMemory) ⊎ ((fault : MachineFault) × (machine_of text.now ≡ Err fault) × (status ≡ refusal_of_machine fault))) }
    ensures kind { IfErr result IsRefusal }
{
    match read_machine(alloc, text) {
        Ok(machine) => Ok(machine),
        Err(fault) => Err(Status::from(fault)),
    }
}

/// What is written of all loops of a text on a machine.
fn text_of<R: Threads + Sync>(
    rt: &R,
    alloc: Global,
    task: &Task,
    machine: &Machine,
    text: &[u8],
) -> Result<Parted, FileFault>
    ensures { AnswersIn (IsTaskText task.now machine.now) machine.now (loops_in text.now) result }
{
    match task {
        Task::Search(settings, search) => search_of(rt, alloc, settings, search, machine, text),
        _ => {
            let loops = read_by_workers(rt, alloc, text, workers_of(task))?;
            task_text(rt, alloc, task, machine, loops)
        }
    }
}

/// What is written of a search for kernels of all loops of a text. Where the listing or its runs are wanted, workers take a large text in pieces.
fn search_of<R: Threads + Sync>(
    rt: &R,
    alloc: Global,
    settings: &Settings,
    search: &Search,
    machine: &Machine,
    text: &[u8],
) -> Result<Parted, FileFault>
    ensures { AnswersIn (IsSearchText settings.now.ratio settings.now.ceiling search.now machine.now) machine.now (loops_in text.now) result }
{
    match search {
        Search::Schedule => whole(schedule_text_of(rt, alloc, machine, text, settings)),
        Search::Json => whole(document_text_of(rt, alloc, machine, text, settings)),
        Search::Run(trip) => run_text_of(rt, alloc, machine, text, settings, *trip),
        _ => {
            let loops = read_by_workers(rt, alloc, text, settings.workers())?;
            search_text(rt, alloc, settings, search, machine, loops)
        }
    }
}

/// What is written of loops on a machine.
fn task_text<R: Threads + Sync>(
    rt: &R,
    alloc: Global,
    task: &Task,
    machine: &Machine,
    loops: Vec<Loop>,
) -> Result<Parted, FileFault>
    requires few { vec_len loops ≤ MAX_LOOPS }
    ensures { AnswersOn (IsTaskText task.now machine.now loops.items) (first_lacking machine.now loops.items) result }
{
    match task {
        Task::Bounds => whole(bounds_text(alloc, machine, loops.as_slice())),
        Task::Edges => whole(edges_text(alloc, machine, loops.as_slice())),
        Task::Dot => whole(dot_text(alloc, machine, loops.as_slice())),
        Task::Search(settings, search) => search_text(rt, alloc, settings, search, machine, loops),
    }
}

/// What is written of a search for kernels.
fn search_text<R: Threads + Sync>(
    rt: &R,
    alloc: Global,
    settings: &Settings,
    search: &Search,
    machine: &Machine,
    loops: Vec<Loop>,
) -> Result<Parted, FileFault>
    requires few { vec_len loops ≤ MAX_LOOPS }
    ensures { AnswersOn (IsSearchText settings.now.ratio settings.now.ceiling search.now machine.now loops.items) (first_lacking machine.now loops.items) result }
{
    match search {
        Search::Schedule => {
            let searched = pipeline_on(rt, alloc, machine, loops, settings, &OpenGate);
            whole(schedule_text(rt, alloc, searched, settings.workers()))
        }
        Search::Json => {
            let searched = pipeline_on(rt, alloc, machine, loops, settings, &OpenGate);
            whole(json_text(alloc, searched))
        }
        Search::Explain(Format::Text) => whole(explain_text_on(
            rt, alloc, machine, loops, settings,
        )),
        Search::Explain(Format::Json) => whole(explain_document_on(
            rt, alloc, machine, loops, settings,
        )),
        Search::Page => whole(explain_page_on(rt, alloc, machine, loops, settings)),
        Search::Scheduled => whole(scheduled_text_on(rt, alloc, machine, loops, settings)),
        Search::Vary(Format::Text) => whole(vary_text_on(rt, alloc, machine, loops, settings)),
        Search::Vary(Format::Json) => whole(vary_document_on(rt, alloc, machine, loops, settings)),
        Search::Total => whole(vary_total_on(rt, alloc, machine, loops, settings)),
        Search::Run(trip) => {
            let searched = pipeline_on(rt, alloc, machine, loops, settings, &OpenGate);
            run_text(rt, alloc, searched, *trip, settings.workers())
        }
    }
}
