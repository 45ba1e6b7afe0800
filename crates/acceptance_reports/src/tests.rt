//! What is told of one loop, by each call that no command makes. What commands tell of more loops is in `tests/sessions`, in those of explanations and of variants.

use explain::push_explanation;
use explain_printouts::{explain_document, explain_page};
use loop_schedules::Prepared;
use loops::{Loop, read_loops};
use machine::{Machine, read_machine};
use settings::Settings;
use std::alloc::Global;
use std::process::Abort;
use variants::{vary_document, vary_text, vary_total};
use worked_texts::{M1, SHIFT, TWO_REGISTERS};
use written::Printout;

const PUT: &str = "loop put\narray b =\nparam p = 7\nstore b[i] p\nend\n";

/// A machine of a text.
fn machine_of(rt: &impl Abort, alloc: Global, text: &str) -> Machine {
    read_machine(alloc, text.as_bytes()).expect(rt, "a machine")
}

/// The loops of a text.
fn loops_of(rt: &impl Abort, alloc: Global, text: &str) -> Vec<Loop> {
    read_loops(alloc, text.as_bytes()).expect(rt, "loops")
}

/// The settings of a command line without options, but for one worker.
fn settings(rt: &impl Abort) -> Settings {
    Settings::new(6, 32, 1, 4).expect(rt, "settings")
}

/// This is printed, and every loop has a kernel.
fn is_printed(printout: &Printout, wanted: &str) -> bool {
    printout.text() == wanted.as_bytes() && printout.all_met()
}

/// What is told of the store after what stands before it, where a line is given for the units.
const REASONS: &str = "\
before
loop put ops 1 res 1 rec 1 mii 1
unit mem
circuit none
try 1 kernel stages 1
held by one cycle
least possible
";

#[test]
fn reasons_as_text(rt: HostRuntime) {
    let alloc = rt.alloc();
    let machine = machine_of(&rt, alloc, M1);
    let innermost = loops_of(&rt, alloc, PUT).pop().expect(&rt, "a loop");
    let prepared = Prepared::new(alloc, &machine, innermost, 6, 32).expect(&rt, "tables");
    let mut text = Vec::from_slice(alloc, b"before\n").expect(&rt, "memory");
    let choice = push_explanation(alloc, &mut text, b"unit mem\n", 1, &prepared);
    assert!(rt; choice.expect(&rt, "memory").is_met());
    assert!(rt; text.as_slice() == REASONS.as_bytes());
}

/// The same as JSON, with its dependences and its schedule.
const DOCUMENT: &str = concat!(
    r#"{"failed":0,"loops":[{"circuit":null,"edges":[],"kernel":{"figures":{"cycles":1,"extra_turns":0,"need":1,"percent":[100]},"held_by":"one cycle","#,
    r#""idle_units":1,"ii":1,"least_possible":true,"live":[0],"max_live":0,"registers":8,"slots":[{"operation":0,"row":0,"unit":0}],"stages":1,"#,
    r#""units":["mem"],"values":[]},"mii":1,"name":"put","operations":[{"alternative":0,"height":1,"latency":1,"name":"b[i]","opcode":"store","row":0,"#,
    r#""slack":0,"stage":0,"time":0}],"recurrences":1,"resources":1,"set":{"need":1,"rows":1,"units":["mem"]},"tried":[{"interval":1,"outcome":"kernel","#,
    r#""stages":1}],"units":[{"full":true,"name":"mem","users":[{"operation":0,"uses":1}],"uses":1}]}],"met":1,"version":1}"#,
    "\n"
);

#[test]
fn reasons_as_a_document_and_a_page(rt: HostRuntime) {
    let alloc = rt.alloc();
    let machine = machine_of(&rt, alloc, M1);
    let loops = loops_of(&rt, alloc, PUT);
    let told = explain_document(alloc, &machine, loops, &settings(&rt));
    assert!(rt; is_printed(&told.expect(&rt, "what is told"), DOCUMENT));
    let loops = loops_of(&rt, alloc, PUT);
    let told = explain_page(alloc, &machine, loops, &settings(&rt)).expect(&rt, "what is told");
    let page = str::from_utf8(told.text()).expect(&rt, "UTF-8");
    assert!(rt; page.starts_with("<!doctype html>\n") && page.contains(DOCUMENT.trim_end()));
    assert!(rt; told.all_met());
}

/// The memory unit holds the loop, which has no addition.
const VARIANTS: &str = "\
loop shift ops 2 mii 2 ii 2 registers 1
unit mem doubled ii 1 shorter
latency load 2 ii 2 same
registers 1 ii 2 same
registers 3 ii 2 same
registers 4 ii 2 same
registers 256 ii 2 same
loops 1 met 1 failed 0
";

const TOTAL: &str = "\
total loops 1 ii 2 failed 0
unit mem doubled ii 1 failed 0 shorter 1 longer 0
latency load 2 ii 2 failed 0 shorter 0 longer 0
registers 1 ii 2 failed 0 shorter 0 longer 0
registers 3 ii 2 failed 0 shorter 0 longer 0
registers 4 ii 2 failed 0 shorter 0 longer 0
registers 256 ii 2 failed 0 shorter 0 longer 0
loops 1 met 1 failed 0
";

#[test]
fn variants_as_text(rt: HostRuntime) {
    let alloc = rt.alloc();
    let machine = machine_of(&rt, alloc, TWO_REGISTERS);
    let told = vary_text(alloc, &machine, loops_of(&rt, alloc, SHIFT), &settings(&rt));
    assert!(rt; is_printed(&told.expect(&rt, "what is told"), VARIANTS));
    let loops = loops_of(&rt, alloc, SHIFT);
    assert!(rt; loops.len() == 1);
    let told = vary_total(alloc, &machine, loops, &settings(&rt));
    assert!(rt; is_printed(&told.expect(&rt, "what is told"), TOTAL));
}

const VARIANTS_DOCUMENT: &str = concat!(
    r#"{"failed":0,"loops":[{"ii":2,"mii":2,"name":"shift","operations":2,"registers":1,"variants":["#,
    r#"{"change":"shorter","ii":1,"latency":null,"limit":false,"name":"mem","registers":null,"variant":"unit"},"#,
    r#"{"change":"same","ii":2,"latency":2,"limit":false,"name":"load","registers":null,"variant":"latency"},"#,
    r#"{"change":"same","ii":2,"latency":null,"limit":false,"name":null,"registers":1,"variant":"registers"},"#,
    r#"{"change":"same","ii":2,"latency":null,"limit":false,"name":null,"registers":3,"variant":"registers"},"#,
    r#"{"change":"same","ii":2,"latency":null,"limit":false,"name":null,"registers":4,"variant":"registers"},"#,
    r#"{"change":"same","ii":2,"latency":null,"limit":false,"name":null,"registers":256,"variant":"registers"}]}],"#,
    r#""met":1,"version":1}"#,
    "\n"
);

#[test]
fn variants_as_a_document(rt: HostRuntime) {
    let alloc = rt.alloc();
    let machine = machine_of(&rt, alloc, TWO_REGISTERS);
    let told = vary_document(alloc, &machine, loops_of(&rt, alloc, SHIFT), &settings(&rt));
    assert!(rt; is_printed(&told.expect(&rt, "what is told"), VARIANTS_DOCUMENT));
}
