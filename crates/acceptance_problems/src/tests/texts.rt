//! How many bytes the word at fault of a text has, which no command tells. `tests/sessions` has the same texts, with the line, the column and what is wrong, in
//! `problem_line_places`, `problem_repeated_names`, `problem_unknown_names`, `problem_number_limits`, `problem_counts`, `problem_backward` and those whose names begin with `solution_`.

use problem_faults::ProblemsFault;
use problem_printouts::check_printout;
use problem_reader::read_problems;
use solution_reader::read_solutions;
use std::alloc::Global;
use std::process::Abort;

/// What stands before the last line of a text.
const HEAD: &str = "machine m
units u
file f rotating 4
kind k latency 1 | u
problem p
op a k
op b k
value v of b lands 0 in f
";

/// Texts of problems, as a head and the rest.
const OF_PROBLEMS: &[(&str, &str, usize)] = &[
    ("", "op a k", 2),
    ("", "machine m\nmachine m\n", 1),
    ("", "machine m\nunits a b a", 1),
    ("machine m\nunits a\n", "kind k latency 65 | a", 2),
    ("machine m\nunits a\n", "kind k latency 1 | a | b", 1),
    ("machine m\nunits a\n", "kind k latency 1 | a@64", 2),
    ("machine m\nunits a\n", "kind k latency 1 | a a@00", 1),
    ("machine m\n", "file f rotating 257", 3),
    ("machine m\nproblem p\n", "end", 3),
    ("machine m\nproblem p\n", "\n", 0),
    ("machine m\nproblem p\n", "units u", 5),
    ("machine m\nproblem p\n", "op a k", 1),
    (HEAD, "read a v", 1),
    (HEAD, "read b v offset 0", 6),
    (HEAD, "read a v distance 17", 2),
    (HEAD, "read a v distance 1 offset 64", 2),
    (HEAD, "read a w", 1),
    (HEAD, "edge b a delay 1 distance 0", 1),
    (HEAD, "edge a a delay 64 distance 0", 1),
    (HEAD, "edge a b delay -65 distance 0", 3),
    (HEAD, "edge a b delay 9223372036854775808 distance 0", 19),
    (HEAD, "value v of a lands 0 in f", 1),
    (HEAD, "value w of c lands 0 in f", 1),
    (HEAD, "value w of a lands 65 in f", 2),
    (HEAD, "value w of a lands 0 in g", 1),
    (HEAD, " machine n", 7),
    (HEAD, "op c ", 0),
];

/// Texts of solutions.
const OF_SOLUTIONS: &[(&str, usize)] = &[
    ("\n end", 3),
    ("op a time 0 by 0", 2),
    ("solution p ii 1\n solution q ii 1", 8),
    (
        "solution p ii 1\nend\nsolution q ii 1\nend\nsolution p ii 2",
        1,
    ),
    (
        "solution p ii 1\nop a time 0 by 0\nvalue a number 1\nop b time 0 by 0\nop a time 0 by 0",
        1,
    ),
    ("solution p ii 1\nvalue a number 1\n value a number 1", 1),
    ("solution p ii 1\nop a time 0\nend\nend", 0),
    ("solution p ii 1\n", 0),
    ("solution p ii 1\nend\nsolution q ii 1\nop a time 1 by 0", 0),
];

/// Texts of solutions with names that the problem of the head has not, of which the first is at fault.
const UNKNOWN: &[(&str, usize)] = &[
    (
        "solution p ii 3\nend\n solution sun ii 3\nop c time 0 by 0\nend",
        3,
    ),
    (
        "solution p ii 3\nop a time 0 by 0\nvalue tt number 0\nop c time 0 by 0\nend",
        2,
    ),
    (
        "solution p ii 3\nop  abcd time 0 by 0\nend\nsolution s ii 1\nend",
        4,
    ),
];

/// A text of the head, or of what stands in its place, and the rest.
fn joined(rt: &impl Abort, alloc: Global, head: &str, rest: &str) -> String {
    format!(in alloc; "{head}{rest}").expect(rt, "memory")
}

/// How many bytes the word at fault of a text of problems has.
fn problem_width(rt: &impl Abort, alloc: Global, head: &str, rest: &str) -> Option<usize> {
    let text = joined(rt, alloc, head, rest);
    match read_problems(alloc, text.as_str().as_bytes()) {
        Ok(_file) => None,
        Err(fault) => Some(fault.width),
    }
}

/// How many bytes the word at fault of a text of solutions has.
fn solution_width(alloc: Global, text: &str) -> Option<usize> {
    match read_solutions(alloc, text.as_bytes()) {
        Ok(_solutions) => None,
        Err(fault) => Some(fault.width),
    }
}

#[test]
fn words_of_texts(rt: HostRuntime) {
    for (head, rest, width) in OF_PROBLEMS {
        let found = problem_width(&rt, rt.alloc(), head, rest);
        assert!(rt; found == Some(*width), "{rest}");
    }
    for (text, width) in OF_SOLUTIONS {
        assert!(rt; solution_width(rt.alloc(), text) == Some(*width), "{text}");
    }
}

/// How many bytes the name has for which solutions of the problem of the head are not judged.
fn unknown_name(rt: &impl Abort, alloc: Global, solutions: &str) -> Option<usize> {
    let problems = joined(rt, alloc, HEAD, "end");
    match check_printout(alloc, problems.as_str().as_bytes(), solutions.as_bytes()) {
        Err(ProblemsFault::Solutions(fault)) => Some(fault.width),
        _ => None,
    }
}

#[test]
fn unknown_names(rt: HostRuntime) {
    for (text, width) in UNKNOWN {
        assert!(rt;
            unknown_name(&rt, rt.alloc(), text) == Some(*width),
            "{text}"
        );
    }
}
