//! The form of the command line: its subcommands, their arguments and options.

ghost use Rattle.std.specs.Prelude.{◌≡◌, Some, false, map, IfSome, slice_get};
ghost use Rattle.clap.specs.Words.{App, app_of, new_app, new_rule, rule_of, with_rule, with_subcommand};
ghost use Rattle.clap.specs.declared.builder.action.ArgAction.TheVariants.{SetTrue};
ghost use Rattle.command_line.specs.Lines.{bare_line, path_rule, spare_rule, loop_rule, trip_rule, number_rule, option_rule};
ghost use Rattle.command_line.specs.inner.Made.{HasLine, MakesLine, MakesProgram};
ghost use Rattle.command_line.specs.inner.Parts.{line_for, line_of, needed_line, rule_by, with_arguments, word_of};

use crate::help;
use clap::builder::ValueParser;
use clap::{Arg, ArgAction, Command};
use machine_data::OutOfMemory;
use machine_data::limits::{MAX_CEILING, MAX_CUT, MAX_RATIO, MAX_TRIP, MAX_WORKERS};
use std::alloc::Global;

const VERSION: &str = "0.1.0";

// The subcommands, in the order of the help.
const SUBCOMMANDS: [Subcommand; 12] = [
    Subcommand::Schedule,
    Subcommand::Run,
    Subcommand::Json,
    Subcommand::Explain,
    Subcommand::Vary,
    Subcommand::Bounds,
    Subcommand::Edges,
    Subcommand::Dot,
    Subcommand::Plain,
    Subcommand::Lint,
    Subcommand::Solve,
    Subcommand::Check,
];

#[derive(Clone, Copy)]
pub(super) enum Subcommand {
    Schedule,
    Run,
    Json,
    Explain,
    Vary,
    Bounds,
    Edges,
    Dot,
    Plain,
    Lint,
    Solve,
    Check,
}

// An argument of a subcommand. Each has its own text in the help, though some have the same name.
#[derive(Clone, Copy)]
enum Argument {
    Machine,
    // The machine's path, or that of the problems where no other is given.
    MachineOrProblems,
    // The machine's path, or that of the loops where no other is given.
    MachineOrLoops,
    Loops,
    // The loops' path, which is left out where problems are given.
    SpareLoops,
    // The loops' path, which is left out where one text is judged by itself.
    SecondLoops,
    Problems,
    Solutions,
    // The names of the loops that are wanted.
    Names,
    Trip,
    // How many times as many placements as there are operations an attempt may make.
    Ratio,
    // How many intervals above the least one are tried.
    Ceiling,
    // How many threads share the work.
    Workers,
    // How many intervals of a loop a worker draws at once.
    Cut,
    Format,
    // The format, which may be a page too.
    FormatOrPage,
    // That the one path is the machine's.
    MachineOnly,
    // That all loops are told of together.
    Total,
    // That the graphs show the schedules.
    Scheduled,
}

use Argument::{
    Ceiling, Cut, Format, FormatOrPage, Loops, Machine, MachineOnly, MachineOrLoops,
    MachineOrProblems, Names, Problems, Ratio, Scheduled, SecondLoops, Solutions, SpareLoops,
    Total, Trip, Workers,
};

// A command that is being made, where memory lasts. The functions below hand on what was made as it is, and only `with` and `add` look
// whether there is a command: the checker goes through the drops after each `?`, and those of a command are many.
type Made<'a> = Result<Command<'a>, OutOfMemory>;

/// The subcommand that the first word names.
pub(super) fn wanted(words: &[&str]) -> Option<Subcommand>
    ensures { IfSome result (λ name. slice_get (map (λ w. w.now) words.now) 0 ≡ Some (word_of name)) }
{
    let first = words.first()?;
    for name in SUBCOMMANDS {
        if word_of(name) == *first {
            return Some(name);
        }
    }
    None
}

/// The line of the program, without its own name, as far as words need it: where one subcommand is wanted, the others
/// have no arguments, so that a short line does not wait for them.
pub(super) fn program<'a>(
    alloc: Global,
    wanted: Option<Subcommand>,
) -> Result<Command<'a>, OutOfMemory>
    ensures { MakesProgram (line_for wanted) result }
{
    let mut made = bare_program(alloc);
    for name in SUBCOMMANDS {
        made = add(alloc, made, wanted, name);
    }
    made
}

// The line of the program without a subcommand.
fn bare_program<'a>(alloc: Global) -> Made<'a>
    ensures { MakesProgram bare_line result }
{
    Command::new(alloc, "modsched")
        .no_binary_name(true)
        .version(VERSION)
        .about(help::ABOUT)
        .long_about(help::LONG_ABOUT)
        .after_long_help(help::LIMITS)
        .subcommand_required(true)
        .arg_required_else_help(true)
        .bin_name("modsched")
}

// The line with one more subcommand.
fn add<'a>(alloc: Global, made: Made<'a>, wanted: Option<Subcommand>, name: Subcommand) -> Made<'a>
    ensures { (line : App) → MakesProgram line made.entry → MakesProgram (with_subcommand line (needed_line wanted name).top) result }
{
    let command = made?;
    command.subcommand(needed(alloc, wanted, name)?)
}

// A subcommand with its arguments, or without them where another is wanted.
fn needed<'a>(alloc: Global, wanted: Option<Subcommand>, name: Subcommand) -> Made<'a>
    ensures { MakesLine (needed_line wanted name) result }
{
    match wanted {
        Some(wanted) if word_of(name) == word_of(wanted) => subcommand_of(alloc, name),
        Some(_) => without_arguments(alloc, name),
        None => subcommand_of(alloc, name),
    }
}

// A subcommand with its arguments.
fn subcommand_of<'a>(alloc: Global, name: Subcommand) -> Made<'a>
    ensures { MakesLine (line_of name) result }
{
    let mut made = without_arguments(alloc, name);
    for argument in arguments_of(name) {
        made = with(alloc, made, *argument);
    }
    made
}

// A subcommand without its arguments.
fn without_arguments<'a>(alloc: Global, name: Subcommand) -> Made<'a>
    ensures { MakesLine (new_app (word_of name)) result }
{
    bare(alloc, word_of(name), about_of(name), long_about_of(name))
}

// A subcommand that has no argument yet.
fn bare<'a>(alloc: Global, name: &'a str, about: &'a str, long_about: &'a str) -> Made<'a>
    ensures { MakesLine (new_app name.entry.now) result }
{
    Ok(
        Command::new(alloc, name)
            .about(about)
            .long_about(long_about)
            .after_long_help(help::LIMITS),
    )
}

// The word of a subcommand.
fn word_of<'a>(name: Subcommand) -> &'a str
    ensures { result.now ≡ word_of name }
{
    match name {
        Subcommand::Schedule => "schedule",
        Subcommand::Run => "run",
        Subcommand::Json => "json",
        Subcommand::Explain => "explain",
        Subcommand::Vary => "vary",
        Subcommand::Bounds => "bounds",
        Subcommand::Edges => "edges",
        Subcommand::Dot => "dot",
        Subcommand::Plain => "plain",
        Subcommand::Lint => "lint",
        Subcommand::Solve => "solve",
        Subcommand::Check => "check",
    }
}

// What the help says of a subcommand in a line.
fn about_of<'a>(name: Subcommand) -> &'a str {
    match name {
        Subcommand::Schedule => help::SCHEDULE_ABOUT,
        Subcommand::Run => help::RUN_ABOUT,
        Subcommand::Json => help::JSON_ABOUT,
        Subcommand::Explain => help::EXPLAIN_ABOUT,
        Subcommand::Vary => help::VARY_ABOUT,
        Subcommand::Bounds => help::BOUNDS_ABOUT,
        Subcommand::Edges => help::EDGES_ABOUT,
        Subcommand::Dot => help::DOT_ABOUT,
        Subcommand::Plain => help::PLAIN_ABOUT,
        Subcommand::Lint => help::LINT_ABOUT,
        Subcommand::Solve => help::SOLVE_ABOUT,
        Subcommand::Check => help::CHECK_ABOUT,
    }
}

// What the help of a subcommand says.
fn long_about_of<'a>(name: Subcommand) -> &'a str {
    match name {
        Subcommand::Schedule => help::SCHEDULE_LONG_ABOUT,
        Subcommand::Run => help::RUN_LONG_ABOUT,
        Subcommand::Json => help::JSON_LONG_ABOUT,
        Subcommand::Explain => help::EXPLAIN_LONG_ABOUT,
        Subcommand::Vary => help::VARY_LONG_ABOUT,
        Subcommand::Bounds => help::BOUNDS_LONG_ABOUT,
        Subcommand::Edges => help::EDGES_LONG_ABOUT,
        Subcommand::Dot => help::DOT_LONG_ABOUT,
        Subcommand::Plain => help::PLAIN_LONG_ABOUT,
        Subcommand::Lint => help::LINT_LONG_ABOUT,
        Subcommand::Solve => help::SOLVE_LONG_ABOUT,
        Subcommand::Check => help::CHECK_LONG_ABOUT,
    }
}

// The subcommand with one more argument.
fn with<'a>(alloc: Global, made: Made<'a>, argument: Argument) -> Made<'a>
    ensures { (line : App) → MakesLine line made.entry → MakesLine (with_rule line (rule_by argument)) result }
{
    made?.arg(arg_of(alloc, argument))
}

// The arguments of a subcommand.
fn arguments_of(name: Subcommand) -> &'static [Argument]
    ensures { with_arguments (new_app (word_of name)) result.now ≡ line_of name }
{
    use Subcommand::{
        Bounds, Check, Dot, Edges, Explain, Json, Lint, Plain, Run, Schedule, Solve, Vary,
    };
    match name {
        Schedule => &[Machine, Loops, Names, Ratio, Ceiling, Workers, Cut, Format],
        Run => &[Machine, Loops, Names, Trip, Ratio, Ceiling, Workers, Cut],
        Json => &[Machine, Loops, Names, Ratio, Ceiling, Workers, Cut],
        Explain => &[
            MachineOrProblems,
            SpareLoops,
            Names,
            Ratio,
            Ceiling,
            Workers,
            Cut,
            FormatOrPage,
        ],
        Vary => &[
            Machine, Loops, Names, Ratio, Ceiling, Workers, Cut, Total, Format,
        ],
        Bounds => &[Machine, Loops, Names],
        Edges => &[MachineOrProblems, SpareLoops, Names],
        Dot => &[
            MachineOrProblems,
            SpareLoops,
            Names,
            Ratio,
            Ceiling,
            Workers,
            Cut,
            Scheduled,
        ],
        Plain => &[Loops, Names, Trip, Workers],
        Lint => &[MachineOrLoops, SecondLoops, MachineOnly, Format],
        Solve => &[Problems, Ratio, Ceiling, Workers, Cut, Format],
        Check => &[Problems, Solutions],
    }
}

// An argument as `clap` takes it.
fn arg_of<'a>(alloc: Global, argument: Argument) -> Arg<'a>
    ensures rule { rule_of result ≡ rule_by argument }
    ensures local { result.global ≡ false }
{
    match argument {
        Machine => path(alloc, "machine", "MACHINE", help::MACHINE),
        MachineOrProblems => path(
            alloc,
            "machine",
            "MACHINE_OR_PROBLEMS",
            help::MACHINE_OR_PROBLEMS,
        ),
        MachineOrLoops => path(alloc, "machine", "MACHINE_OR_LOOPS", help::MACHINE_OR_LOOPS),
        Loops => path(alloc, "loops", "LOOPS", help::LOOPS),
        SpareLoops => spare_path(alloc, "loops", "LOOPS", help::SPARE_LOOPS),
        SecondLoops => spare_path(alloc, "loops", "LOOPS", help::LOOPS_OF_TWO),
        Problems => path(alloc, "problems", "PROBLEMS", help::PROBLEMS),
        Solutions => path(alloc, "solutions", "SOLUTIONS", help::SOLUTIONS),
        Names => names(alloc),
        Trip => trip(alloc),
        Ratio => number(alloc, "ratio", "R", "6", help::RATIO, 1, MAX_RATIO),
        Ceiling => number(alloc, "ceiling", "C", "32", help::CEILING, 0, MAX_CEILING),
        Workers => number(
            alloc,
            "workers",
            "W",
            "4",
            help::WORKERS,
            1,
            MAX_WORKERS as u64,
        ),
        Cut => number(alloc, "cut", "N", "4", help::CUT, 1, MAX_CUT),
        Format => option(alloc, "format", "FORMAT", "text", help::FORMAT),
        FormatOrPage => option(alloc, "format", "FORMAT", "text", help::FORMAT_OR_PAGE),
        MachineOnly => switch(alloc, "machine-only", help::MACHINE_ONLY),
        Total => switch(alloc, "total", help::TOTAL),
        Scheduled => switch(alloc, "scheduled", help::SCHEDULED),
    }
}

// A path that has to be given.
fn path<'a>(alloc: Global, id: &'a str, value: &'a str, help: &'a str) -> Arg<'a>
    ensures rule { rule_of result ≡ path_rule id.entry.now }
    ensures local { result.global ≡ false }
{
    Arg::new(alloc, id)
        .value_name(value)
        .required(true)
        .help(help)
}

// A path that may be left out.
fn spare_path<'a>(alloc: Global, id: &'a str, value: &'a str, help: &'a str) -> Arg<'a>
    ensures rule { rule_of result ≡ spare_rule id.entry.now }
    ensures local { result.global ≡ false }
{
    Arg::new(alloc, id).value_name(value).help(help)
}

// The names of loops, which may be left out.
fn names<'a>(alloc: Global) -> Arg<'a>
    ensures rule { rule_of result ≡ loop_rule }
    ensures local { result.global ≡ false }
{
    Arg::new(alloc, "loop")
        .long("loop")
        .value_name("NAME")
        .action(ArgAction::Append)
        .help(help::LOOP)
}

// The trip count, which has to be given.
fn trip<'a>(alloc: Global) -> Arg<'a>
    ensures rule { rule_of result ≡ trip_rule }
    ensures local { result.global ≡ false }
{
    Arg::new(alloc, "trip")
        .long("trip")
        .value_name("N")
        .required(true)
        .value_parser(ValueParser::unsigned(0, MAX_TRIP))
        .help(help::TRIP)
}

// An option that may be left out.
fn option<'a>(
    alloc: Global,
    name: &'a str,
    value: &'a str,
    default: &'a str,
    help: &'a str,
) -> Arg<'a>
    ensures rule { rule_of result ≡ option_rule name.entry.now default.entry.now }
    ensures local { result.global ≡ false }
{
    Arg::new(alloc, name)
        .long(name)
        .value_name(value)
        .default_value(default)
        .help(help)
}

// Such an option for a number, from a least to a greatest one.
fn number<'a>(
    alloc: Global,
    name: &'a str,
    value: &'a str,
    default: &'a str,
    help: &'a str,
    least: u64,
    greatest: u64,
) -> Arg<'a>
    ensures rule { rule_of result ≡ number_rule name.entry.now default.entry.now least greatest }
    ensures local { result.global ≡ false }
{
    Arg::new(alloc, name)
        .long(name)
        .value_name(value)
        .default_value(default)
        .value_parser(ValueParser::unsigned(least, greatest))
        .help(help)
}

// An option without a value.
fn switch<'a>(alloc: Global, name: &'a str, help: &'a str) -> Arg<'a>
    ensures rule { rule_of result ≡ record (new_rule name.entry.now) { long = Some name.entry.now; action = Some SetTrue } }
    ensures local { result.global ≡ false }
{
    Arg::new(alloc, name)
        .long(name)
        .action(ArgAction::SetTrue)
        .help(help)
}
