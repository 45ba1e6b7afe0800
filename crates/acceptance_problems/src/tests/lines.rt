//! The word at fault of a line: its column, and how many bytes it has, which no command tells. `tests/sessions` has the same lines, with what is told of them, in
//! `problem_name_words`, `problem_number_words`, `problem_fixed_words` and `solution_words`.

use problem_lines::{Expected, LineFault, line_of, solution_line_of};
use std::test::Fail;

/// Lines of texts of problems.
const OF_PROBLEMS: &[(&str, usize, usize)] = &[
    (" ops a k", 2, 3),
    ("op", 3, 0),
    ("op a \x7f x", 6, 1),
    (
        "problem nnnnnnnnnnnnnnnnnnnnnnnnnnnnnnnnnnnnnnnnnnnnnnnnnnnnnnnnnnnnnnnnn",
        9,
        65,
    ),
    ("units # a", 6, 0),
    ("units a b@ c", 9, 2),
    ("file f rotating x", 17, 1),
    ("edge a b delay +3", 16, 2),
    ("kind k latency 2 | a | | b", 24, 1),
    ("kind k latency 2 | a@1@2", 20, 5),
    ("kind k latency 2 | a |\t", 23, 0),
    ("kind k 2", 8, 1),
    ("file f", 7, 0),
    ("kind k latency 2", 17, 0),
    ("value v by a", 9, 2),
    ("value v of a in", 14, 2),
    ("value v of a lands 1 r", 22, 1),
    ("read b v 1", 10, 1),
    ("read b v distance 1 1", 21, 1),
    ("edge a b 3", 10, 1),
    ("value v of a lands 1 in r out x", 31, 1),
    ("end end", 5, 3),
];

/// Lines of texts of solutions.
const OF_SOLUTIONS: &[(&str, usize, usize)] = &[
    (" problem p", 2, 7),
    ("solution", 9, 0),
    ("solution p at 3", 12, 2),
    ("solution p ii -3", 15, 2),
    ("solution p ii 3 4", 17, 1),
    ("op a", 5, 0),
    ("op a time 3", 12, 0),
    ("op a time 3 by x", 16, 1),
    ("value v 3", 9, 1),
    ("end 3", 5, 1),
];

/// A fault is at this column, at a word of so many bytes.
fn is_at(fault: Option<LineFault>, column: usize, width: usize) -> bool {
    match fault {
        Some(fault) => fault.column == column && fault.width == width,
        None => false,
    }
}

#[test]
fn words_at_fault(rt: HostRuntime) {
    for (line, column, width) in OF_PROBLEMS {
        let fault = line_of(line.as_bytes()).err();
        assert!(rt; is_at(fault, *column, *width), "{line}");
    }
    for (line, column, width) in OF_SOLUTIONS {
        let fault = solution_line_of(line.as_bytes()).err();
        assert!(rt; is_at(fault, *column, *width), "{line}");
    }
}

#[test]
fn a_fault_is_told(rt: HostRuntime) -> Result<(), Fail> {
    let fault = LineFault {
        column: 7,
        width: 2,
        what: Expected::UnitName,
    };
    let told = fault.to_string(rt.alloc())?;
    let wanted = "column 7: expected a name of 1 to 64 printable characters without @ and |";
    assert_eq!(rt; told.as_str(), wanted);
    Ok(())
}
