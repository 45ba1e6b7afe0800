//! Command lines, and what they say. What lines are refused for, help and the version are told by the program's sessions and by `tests/command_line`.

use command_line::parse_line;
use std::alloc::Global;
use std::process::Abort;

/// Lines of words with bars between them, each with its command as it prints itself for programmers. Settings that a line does not give are a ratio of 6, a ceiling of 32, four workers
/// and a cut of 4. (The proof of a function repeats the tables that it names: a text costs it far less than a list for each line.)
const LINES: &str =
    r#"bounds|m.toml|l.txt: Loops { loops: "l.txt", names: [], work: OnMachine { machine: "m.toml", task: Bounds } }
bounds|--|-m|--help: Loops { loops: "--help", names: [], work: OnMachine { machine: "-m", task: Bounds } }
bounds|-|a b/é #: Loops { loops: "a b/é #", names: [], work: OnMachine { machine: "-", task: Bounds } }
edges|m|l: Loops { loops: "l", names: [], work: OnMachine { machine: "m", task: Edges } }
dot|m|l: Loops { loops: "l", names: [], work: OnMachine { machine: "m", task: Dot } }
plain|l|--trip|100000: Loops { loops: "l", names: [], work: Plain { trip: 100000, workers: 4 } }
plain|--workers|+64|--trip=00099999|plain: Loops { loops: "plain", names: [], work: Plain { trip: 99999, workers: 64 } }
schedule|m|l: Loops { loops: "l", names: [], work: OnMachine { machine: "m", task: Search(Settings { ratio: 6, ceiling: 32, workers: 4, cut: 4 }, Schedule) } }
schedule|m|l|--format|json|--loop|b|--loop=a|--loop|b: Loops { loops: "l", names: ["b", "a", "b"], work: OnMachine { machine: "m", task: Search(Settings { ratio: 6, ceiling: 32, workers: 4, cut: 4 }, Json) } }
vary|m|l|--total: Loops { loops: "l", names: [], work: OnMachine { machine: "m", task: Search(Settings { ratio: 6, ceiling: 32, workers: 4, cut: 4 }, Total) } }
schedule|m|l|--cut=1|--workers=64|--ratio=1: Loops { loops: "l", names: [], work: OnMachine { machine: "m", task: Search(Settings { ratio: 1, ceiling: 32, workers: 64, cut: 1 }, Schedule) } }
json|--ratio|64|m|l|--ceiling|255: Loops { loops: "l", names: [], work: OnMachine { machine: "m", task: Search(Settings { ratio: 64, ceiling: 255, workers: 4, cut: 4 }, Json) } }
dot|m|--scheduled|l|--ceiling|0: Loops { loops: "l", names: [], work: OnMachine { machine: "m", task: Search(Settings { ratio: 6, ceiling: 0, workers: 4, cut: 4 }, Scheduled) } }
explain|m|--workers|+1|l|--cut|256: Loops { loops: "l", names: [], work: OnMachine { machine: "m", task: Search(Settings { ratio: 6, ceiling: 32, workers: 1, cut: 256 }, Explain(Text)) } }
explain|m|l|--format|json: Loops { loops: "l", names: [], work: OnMachine { machine: "m", task: Search(Settings { ratio: 6, ceiling: 32, workers: 4, cut: 4 }, Explain(Json)) } }
explain|--format=html|m|l: Loops { loops: "l", names: [], work: OnMachine { machine: "m", task: Search(Settings { ratio: 6, ceiling: 32, workers: 4, cut: 4 }, Page) } }
vary|m|--ratio|3|l: Loops { loops: "l", names: [], work: OnMachine { machine: "m", task: Search(Settings { ratio: 3, ceiling: 32, workers: 4, cut: 4 }, Vary(Text)) } }
run|--ceiling|0|m|--trip|+7|--|l: Loops { loops: "l", names: [], work: OnMachine { machine: "m", task: Search(Settings { ratio: 6, ceiling: 0, workers: 4, cut: 4 }, Run(7)) } }
solve|p: Solve { problems: "p", settings: Settings { ratio: 6, ceiling: 32, workers: 4, cut: 4 }, format: Text }
solve|--ceiling=0|p|--ratio|2|--cut|256|--workers|1|--format|json: Solve { problems: "p", settings: Settings { ratio: 2, ceiling: 0, workers: 1, cut: 256 }, format: Json }
lint|l: Lint { texts: Loops { loops: "l" }, format: Text }
lint|m|l: Lint { texts: Both { machine: "m", loops: "l" }, format: Text }
lint|--machine-only|m|--format=json: Lint { texts: Machine { machine: "m" }, format: Json }
check|--|check|--cut: Check { problems: "check", solutions: "--cut" }
edges|p: Problems { problems: "p", told: Edges }
dot|p: Problems { problems: "p", told: Dot }
dot|p|--scheduled: Problems { problems: "p", told: Scheduled(Settings { ratio: 6, ceiling: 32, workers: 4, cut: 4 }) }
explain|--ceiling|9|p: Problems { problems: "p", told: Explain(Settings { ratio: 6, ceiling: 9, workers: 4, cut: 4 }) }"#;

/// The words of a line.
fn words_of<'a>(rt: &impl Abort, alloc: Global, line: &'a str) -> Vec<&'a str> {
    let mut words = Vec::new(alloc);
    for word in line.split('|') {
        words.push(word).expect(rt, "memory");
    }
    words
}

/// What words say.
fn said(rt: &impl Abort, alloc: Global, words: &[&str]) -> String {
    let command = parse_line(alloc, words).expect(rt, "a command");
    format!(in alloc; "{command:?}").expect(rt, "memory")
}

/// What a line says.
fn told(rt: &impl Abort, alloc: Global, line: &str) -> String {
    let words = words_of(rt, alloc, line);
    said(rt, alloc, words.as_slice())
}

/// A line says what stands after it.
fn is_told(rt: &impl Abort, alloc: Global, row: &str) -> bool {
    let (line, wanted) = row.split_once(": ").expect(rt, "a line and its command");
    told(rt, alloc, line).as_str() == wanted
}

#[test]
fn reads_lines(rt: HostRuntime) {
    for row in LINES.split('\n') {
        assert!(rt; is_told(&rt, rt.alloc(), row), "{row}");
    }
}
