//! What the subcommand of a line was given, as a command.

ghost use Rattle.std.specs.Prelude.{◌≡◌, ◌≢◌, ◌<◌, ◌^◌, ℕ, Bool, List, map, codes, string_bytes, option_map, None, IfOk, IfSome, IfNone};
ghost use Rattle.clap.specs.Words.{Text, all_of, first_of, found_of, rows_of, subcommand_rows_of};
ghost use Rattle.settings.specs.declared.format.Format.{Format};
ghost use Rattle.command_line.specs.declared.command.LintTexts.{LintTexts};
ghost use Rattle.command_line.specs.declared.command.Search.{Search};
ghost use Rattle.command_line.specs.declared.command.Task.TheVariants as task;
ghost use Rattle.command_line.specs.Lines.{Says, SaysFormat, SaysSwitch, AreTexts, AreTextsGiven, SaysTrip, SaysWorkers, SaysNumber, SaySettings, switch_word, Means, MeansNamed, names_in, AreLoopsGiven, AreProblemsGiven, IsReportGiven, IsWorkGiven, IsTaskGiven, IsSearchGiven};
ghost use Rattle.settings.specs.Settings.{SettingsData};

use crate::command::{Command, LintTexts, Report, Search, Task, Work};
use clap::ArgMatches;
use machine_data::OutOfMemory;
use machine_data::limits::MAX_WORKERS;
use settings::{Format, Settings, Trip};
use std::alloc::Global;

/// The command that a subcommand and its values mean.
pub(super) fn command_of(
    alloc: Global,
    matches: &ArgMatches<'_>,
) -> Result<Option<Command>, OutOfMemory>
    ensures meant { IfOk result (λ found. IfSome found (λ c. Means c (subcommand_rows_of matches.now))) }
    ensures none { IfOk result (λ found. IfNone found ((c : Command) → ¬ Means c (subcommand_rows_of matches.now))) }
{
    match matches.subcommand() {
        Some((name, values)) => named(alloc, name, values),
        None => Ok(None),
    }
}

// The command of the subcommand of this name.
fn named(alloc: Global, name: &str, values: &ArgMatches<'_>) -> Result<Option<Command>, OutOfMemory>
    ensures meant { IfOk result (λ found. IfSome found (λ c. MeansNamed c name.now (rows_of (found_of values.now)))) }
    ensures none { IfOk result (λ found. IfNone found ((c : Command) → ¬ MeansNamed c name.now (rows_of (found_of values.now)))) }
{
    match name {
        "solve" => solve_given(alloc, values),
        "check" => check_given(alloc, values),
        "lint" => lint_given(alloc, values),
        _ => other_given(alloc, name, values),
    }
}

// The command of a subcommand of another name.
fn other_given(
    alloc: Global,
    name: &str,
    values: &ArgMatches<'_>,
) -> Result<Option<Command>, OutOfMemory>
    ensures meant { IfOk result (λ found. IfSome found (λ c. MeansNamed c name.now (rows_of (found_of values.now)))) }
    ensures none { name.now ≢ codes "solve" → name.now ≢ codes "check" → name.now ≢ codes "lint" → IfOk result (λ found. IfNone found ((c : Command) → ¬ MeansNamed c name.now (rows_of (found_of values.now)))) }
{
    match values.get_str("loops") {
        Some(_) => loops_given(alloc, name, values),
        None => problems_given(alloc, name, values),
    }
}

// The command of a subcommand of this name that takes problems alone, where no loops are given.
fn problems_given(
    alloc: Global,
    name: &str,
    values: &ArgMatches<'_>,
) -> Result<Option<Command>, OutOfMemory>
    ensures meant { first_of (codes "loops") (rows_of (found_of values.now)) ≡ None → IfOk result (λ found. IfSome found (λ c. MeansNamed c name.now (rows_of (found_of values.now)))) }
    ensures none { IfOk result (λ found. IfNone found ((path : Text) (told : Report) → ¬ AreProblemsGiven path told name.now (rows_of (found_of values.now)))) }
{
    match values.get_strs("loop") {
        Some(_) => Ok(None),
        None => unnamed_given(alloc, name, values),
    }
}

// The same where no name of a loop is given.
fn unnamed_given(
    alloc: Global,
    name: &str,
    values: &ArgMatches<'_>,
) -> Result<Option<Command>, OutOfMemory>
    ensures meant { first_of (codes "loops") (rows_of (found_of values.now)) ≡ None → all_of (codes "loop") (rows_of (found_of values.now)) ≡ None → IfOk result (λ found. IfSome found (λ c. MeansNamed c name.now (rows_of (found_of values.now)))) }
    ensures none { IfOk result (λ found. IfNone found ((path : Text) (told : Report) → ¬ AreProblemsGiven path told name.now (rows_of (found_of values.now)))) }
{
    match (values.get_str("machine"), report_given(name, values)) {
        (Some(problems), Some(told)) => Ok(Some(Command::Problems {
            problems: String::from_str(alloc, problems)?,
            told,
        })),
        _ => Ok(None),
    }
}

// What is told of problems by the subcommand of this name.
fn report_given(name: &str, values: &ArgMatches<'_>) -> Option<Report>
    ensures meant { IfSome result (λ told. IsReportGiven told name.now (rows_of (found_of values.now))) }
    ensures none { IfNone result ((told : Report) → ¬ IsReportGiven told name.now (rows_of (found_of values.now))) }
{
    match name {
        "edges" => Some(Report::Edges),
        "dot" => graphs_given(values),
        "explain" => reasons_given(values),
        _ => None,
    }
}

// The graphs of problems, with their schedules or without.
fn graphs_given(values: &ArgMatches<'_>) -> Option<Report>
    ensures meant { IfSome result (λ told. IsReportGiven told (codes "dot") (rows_of (found_of values.now))) }
    ensures none { IfNone result ((told : Report) → ¬ IsReportGiven told (codes "dot") (rows_of (found_of values.now))) }
{
    let scheduled = switch_given(values, "scheduled")?;
    if !scheduled {
        return Some(Report::Dot);
    }
    match settings_given(values) {
        Some(settings) => Some(Report::Scheduled(settings)),
        None => None,
    }
}

// Why problems have their intervals, which is told as text alone.
fn reasons_given(values: &ArgMatches<'_>) -> Option<Report>
    ensures meant { IfSome result (λ told. IsReportGiven told (codes "explain") (rows_of (found_of values.now))) }
    ensures none { IfNone result ((told : Report) → ¬ IsReportGiven told (codes "explain") (rows_of (found_of values.now))) }
{
    let settings = settings_given(values)?;
    match format_given(values)? {
        Format::Text => Some(Report::Explain(settings)),
        Format::Json => None,
    }
}

// The command `solve`, where it was given what it needs.
fn solve_given(alloc: Global, values: &ArgMatches<'_>) -> Result<Option<Command>, OutOfMemory>
    ensures meant { IfOk result (λ found. IfSome found (λ c. MeansNamed c (codes "solve") (rows_of (found_of values.now)))) }
    ensures none { IfOk result (λ found. IfNone found ((c : Command) → ¬ MeansNamed c (codes "solve") (rows_of (found_of values.now)))) }
{
    let Some(format) = format_given(values) else {
        return Ok(None);
    };
    match (values.get_str("problems"), settings_given(values)) {
        (Some(problems), Some(settings)) => Ok(Some(Command::Solve {
            problems: String::from_str(alloc, problems)?,
            settings,
            format,
        })),
        _ => Ok(None),
    }
}

// The format that its option says.
fn format_given(values: &ArgMatches<'_>) -> Option<Format>
    ensures says { IfSome result (λ format. SaysFormat (first_of (codes "format") (rows_of (found_of values.now))) format) }
    ensures none { IfNone result ((format : Format) → ¬ SaysFormat (first_of (codes "format") (rows_of (found_of values.now))) format) }
{
    Format::named(values.get_str("format")?)
}

// The command `check`, where it was given both paths.
fn check_given(alloc: Global, values: &ArgMatches<'_>) -> Result<Option<Command>, OutOfMemory>
    ensures meant { IfOk result (λ found. IfSome found (λ c. MeansNamed c (codes "check") (rows_of (found_of values.now)))) }
    ensures none { IfOk result (λ found. IfNone found ((c : Command) → ¬ MeansNamed c (codes "check") (rows_of (found_of values.now)))) }
{
    match (values.get_str("problems"), values.get_str("solutions")) {
        (Some(problems), Some(solutions)) => Ok(Some(Command::Check {
            problems: String::from_str(alloc, problems)?,
            solutions: String::from_str(alloc, solutions)?,
        })),
        _ => Ok(None),
    }
}

// The command `lint`, where it was given one path, or two without the option for one.
fn lint_given(alloc: Global, values: &ArgMatches<'_>) -> Result<Option<Command>, OutOfMemory>
    ensures meant { IfOk result (λ found. IfSome found (λ c. MeansNamed c (codes "lint") (rows_of (found_of values.now)))) }
    ensures none { IfOk result (λ found. IfNone found ((c : Command) → ¬ MeansNamed c (codes "lint") (rows_of (found_of values.now)))) }
{
    let Some(format) = format_given(values) else {
        return Ok(None);
    };
    match texts_given(alloc, values)? {
        Some(texts) => Ok(Some(Command::Lint { texts, format })),
        None => Ok(None),
    }
}

// The texts whose faults are to be told, where one path was given, or two without the option for one.
fn texts_given(alloc: Global, values: &ArgMatches<'_>) -> Result<Option<LintTexts>, OutOfMemory>
    ensures are { IfOk result (λ found. IfSome found (λ texts. AreTextsGiven texts (rows_of (found_of values.now)))) }
    ensures none { IfOk result (λ found. IfNone found ((texts : LintTexts) → ¬ AreTextsGiven texts (rows_of (found_of values.now)))) }
{
    match (
        values.get_str("machine"),
        switch_given(values, "machine-only"),
    ) {
        (Some(first), Some(machine_only)) => {
            texts_of(alloc, first, values.get_str("loops"), machine_only)
        }
        _ => Ok(None),
    }
}

// The texts at these paths, where they are one, or two without the option for one.
fn texts_of(
    alloc: Global,
    first: &str,
    second: Option<&str>,
    machine_only: bool,
) -> Result<Option<LintTexts>, OutOfMemory>
    ensures are { IfOk result (λ found. IfSome found (λ texts. AreTexts texts first.now (option_map (λ path. path.now) second.entry) machine_only)) }
    ensures none { IfOk result (λ found. IfNone found ((texts : LintTexts) → ¬ AreTexts texts first.now (option_map (λ path. path.now) second.entry) machine_only)) }
{
    let first = String::from_str(alloc, first)?;
    match (second, machine_only) {
        (None, true) => Ok(Some(LintTexts::Machine { machine: first })),
        (None, false) => Ok(Some(LintTexts::Loops { loops: first })),
        (Some(loops), false) => Ok(Some(LintTexts::Both {
            machine: first,
            loops: String::from_str(alloc, loops)?,
        })),
        (Some(_), true) => Ok(None),
    }
}

// Whether an option without a value was given.
fn switch_given(values: &ArgMatches<'_>, id: &str) -> Option<bool>
    ensures says { IfSome result (λ given. SaysSwitch (first_of id.now (rows_of (found_of values.now))) given) }
    ensures none { IfNone result ((given : Bool) → ¬ SaysSwitch (first_of id.now (rows_of (found_of values.now))) given) }
{
    switch_of(values.get_str(id)?)
}

// What the word of an option without a value says.
fn switch_of(word: &str) -> Option<bool>
    ensures says { IfSome result (λ given. word.now ≡ switch_word given) }
    ensures none { IfNone result ((given : _) → word.now ≢ switch_word given) }
{
    match word {
        "true" => Some(true),
        "false" => Some(false),
        _ => None,
    }
}

// The command of a subcommand of this name that takes loops.
fn loops_given(
    alloc: Global,
    name: &str,
    values: &ArgMatches<'_>,
) -> Result<Option<Command>, OutOfMemory>
    ensures meant { IfOk result (λ found. IfSome found (λ c. MeansNamed c name.now (rows_of (found_of values.now)))) }
    ensures none { IfOk result (λ found. IfNone found ((path : Text) (names : List Text) (work : Work) → ¬ AreLoopsGiven path names work name.now (rows_of (found_of values.now)))) }
{
    let Some(work) = work_given(alloc, name, values)? else {
        return Ok(None);
    };
    match values.get_str("loops") {
        Some(loops) => Ok(Some(Command::Loops {
            loops: String::from_str(alloc, loops)?,
            names: names_given(alloc, values)?,
            work,
        })),
        None => Ok(None),
    }
}

// The names of loops that are given; none where the option for them is left out.
fn names_given(alloc: Global, values: &ArgMatches<'_>) -> Result<Vec<String>, OutOfMemory>
    ensures { IfOk result (λ names. map string_bytes names.items ≡ names_in (rows_of (found_of values.now))) }
{
    match values.get_strs("loop") {
        Some(words) => owned(alloc, words),
        None => Ok(Vec::new(alloc)),
    }
}

// Words as texts of their own.
fn owned(alloc: Global, words: &[&str]) -> Result<Vec<String>, OutOfMemory>
    ensures { IfOk result (λ texts. map string_bytes texts.items ≡ map (λ w. w.now) words.now) }
{
    let mut texts: Vec<String> = Vec::new(alloc);
    for word in words {
        texts.push(String::from_str(alloc, word)?)?;
    }
    Ok(texts)
}

// What is done with the loops by the subcommand of this name.
fn work_given(
    alloc: Global,
    name: &str,
    values: &ArgMatches<'_>,
) -> Result<Option<Work>, OutOfMemory>
    ensures meant { IfOk result (λ found. IfSome found (λ w. IsWorkGiven w name.now (rows_of (found_of values.now)))) }
    ensures none { IfOk result (λ found. IfNone found ((w : Work) → ¬ IsWorkGiven w name.now (rows_of (found_of values.now)))) }
{
    if name == "plain" {
        return Ok(plain_given(values));
    }
    match (values.get_str("machine"), task_given(name, values)) {
        (Some(machine), Some(task)) => Ok(Some(Work::OnMachine {
            machine: String::from_str(alloc, machine)?,
            task,
        })),
        _ => Ok(None),
    }
}

// A plain run, where it was given what it needs.
fn plain_given(values: &ArgMatches<'_>) -> Option<Work>
    ensures meant { IfSome result (λ w. IsWorkGiven w (codes "plain") (rows_of (found_of values.now))) }
    ensures none { IfNone result ((w : Work) → ¬ IsWorkGiven w (codes "plain") (rows_of (found_of values.now))) }
{
    match (trip_given(values), workers_given(values)) {
        (Some(trip), Some(workers)) => Some(Work::Plain { trip, workers }),
        _ => None,
    }
}

// What is told of the loops on a machine by the subcommand of this name.
fn task_given(name: &str, values: &ArgMatches<'_>) -> Option<Task>
    ensures meant { IfSome result (λ t. IsTaskGiven t name.now (rows_of (found_of values.now))) }
    ensures none { IfNone result ((t : Task) → ¬ IsTaskGiven t name.now (rows_of (found_of values.now))) }
{
    match name {
        "bounds" => Some(Task::Bounds),
        "edges" => Some(Task::Edges),
        "dot" => dot_given(values),
        _ => searched(name, values),
    }
}

// The graphs of loops, with their schedules or without.
fn dot_given(values: &ArgMatches<'_>) -> Option<Task>
    ensures meant { IfSome result (λ t. IsTaskGiven t (codes "dot") (rows_of (found_of values.now))) }
    ensures none { IfNone result ((t : Task) → ¬ IsTaskGiven t (codes "dot") (rows_of (found_of values.now))) }
{
    let scheduled = switch_given(values, "scheduled")?;
    if !scheduled {
        return Some(Task::Dot);
    }
    searched("dot", values)
}

// What is told of the kernels, where they are searched for.
fn searched(name: &str, values: &ArgMatches<'_>) -> Option<Task>
    ensures meant { IfSome result (λ t. IsTaskGiven t name.now (rows_of (found_of values.now))) }
    ensures none { IfNone result ((settings : SettingsData) (search : Search) → ¬ IsTaskGiven (task.Search settings search) name.now (rows_of (found_of values.now))) }
{
    match (settings_given(values), search_given(name, values)) {
        (Some(settings), Some(search)) => Some(Task::Search(settings, search)),
        _ => None,
    }
}

// What is told of the kernels by the subcommand of this name.
fn search_given(name: &str, values: &ArgMatches<'_>) -> Option<Search>
    ensures meant { IfSome result (λ s. IsSearchGiven s name.now (rows_of (found_of values.now))) }
    ensures none { IfNone result ((s : Search) → ¬ IsSearchGiven s name.now (rows_of (found_of values.now))) }
{
    match name {
        "schedule" => match format_given(values) {
            Some(Format::Text) => Some(Search::Schedule),
            Some(Format::Json) => Some(Search::Json),
            None => None,
        },
        "json" => Some(Search::Json),
        "explain" => explain_given(values),
        "dot" => scheduled_given(values),
        "vary" => vary_given(values),
        "run" => match trip_given(values) {
            Some(trip) => Some(Search::Run(trip)),
            None => None,
        },
        _ => None,
    }
}

// Why loops have their intervals, in one of the formats or as a page.
fn explain_given(values: &ArgMatches<'_>) -> Option<Search>
    ensures meant { IfSome result (λ s. IsSearchGiven s (codes "explain") (rows_of (found_of values.now))) }
    ensures none { IfNone result ((s : Search) → ¬ IsSearchGiven s (codes "explain") (rows_of (found_of values.now))) }
{
    let word = values.get_str("format")?;
    if word == "html" {
        return Some(Search::Page);
    }
    match Format::named(word) {
        Some(format) => Some(Search::Explain(format)),
        None => None,
    }
}

// The graphs of loops with their schedules.
fn scheduled_given(values: &ArgMatches<'_>) -> Option<Search>
    ensures meant { IfSome result (λ s. IsSearchGiven s (codes "dot") (rows_of (found_of values.now))) }
    ensures none { IfNone result ((s : Search) → ¬ IsSearchGiven s (codes "dot") (rows_of (found_of values.now))) }
{
    let scheduled = switch_given(values, "scheduled")?;
    if scheduled {
        Some(Search::Scheduled)
    } else {
        None
    }
}

// What is told of variants of the machine.
fn vary_given(values: &ArgMatches<'_>) -> Option<Search>
    ensures meant { IfSome result (λ s. IsSearchGiven s (codes "vary") (rows_of (found_of values.now))) }
    ensures none { IfNone result ((s : Search) → ¬ IsSearchGiven s (codes "vary") (rows_of (found_of values.now))) }
{
    let total = switch_given(values, "total")?;
    let format = format_given(values)?;
    match (total, format) {
        (false, _) => Some(Search::Vary(format)),
        (true, Format::Text) => Some(Search::Total),
        (true, Format::Json) => None,
    }
}

// The settings that the four options say, those left out by their defaults.
fn settings_given(values: &ArgMatches<'_>) -> Option<Settings>
    ensures say { IfSome result (λ s. SaySettings s (rows_of (found_of values.now))) }
    ensures none { IfNone result ((s : SettingsData) → ¬ SaySettings s (rows_of (found_of values.now))) }
{
    let ratio = number_given(values, "ratio")?;
    let ceiling = number_given(values, "ceiling")?;
    let workers = number_given(values, "workers")?;
    let cut = number_given(values, "cut")?;
    Settings::new(ratio, ceiling, workers as usize, cut).ok()
}

// The number of workers that its option says.
fn workers_given(values: &ArgMatches<'_>) -> Option<usize>
    ensures says { IfSome result (λ workers. SaysWorkers (first_of (codes "workers") (rows_of (found_of values.now))) workers) }
    ensures none { IfNone result ((workers : ℕ) → ¬ SaysWorkers (first_of (codes "workers") (rows_of (found_of values.now))) workers) }
{
    let workers = number_given(values, "workers")? as usize;
    if 1 <= workers && workers <= MAX_WORKERS {
        Some(workers)
    } else {
        None
    }
}

// The number that an option says.
fn number_given(values: &ArgMatches<'_>, id: &str) -> Option<u64>
    ensures says { IfSome result (λ n. SaysNumber (first_of id.now (rows_of (found_of values.now))) n) }
    ensures none { IfNone result ((n : ℕ) → SaysNumber (first_of id.now (rows_of (found_of values.now))) n → ¬ (n < 2 ^ 64)) }
{
    number_of(values.get_str(id)?)
}

// The number that a word says.
fn number_of(word: &str) -> Option<u64>
    ensures says { IfSome result (λ n. Says word.now n) }
    ensures none { IfNone result ((n : ℕ) → Says word.now n → ¬ (n < 2 ^ 64)) }
{
    word.parse().ok()
}

// The trip count that its option says.
fn trip_given(values: &ArgMatches<'_>) -> Option<Trip>
    ensures says { IfSome result (λ trip. SaysTrip (first_of (codes "trip") (rows_of (found_of values.now))) trip) }
    ensures none { IfNone result ((trip : ℕ) → ¬ SaysTrip (first_of (codes "trip") (rows_of (found_of values.now))) trip) }
{
    Trip::new(number_given(values, "trip")?)
}
