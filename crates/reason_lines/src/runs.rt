//! The lines of intervals that fail: one for each run of neighbours of which the same is told.

ghost use Rattle.std.specs.Prelude.{◌≡◌, ◌+◌, ◌^◌, ◌<◌, ◌++◌, ℕ, Vec, length, map, OnOk};
ghost use Rattle.std.specs.Global.{Global};
ghost use Rattle.reason_lines.specs.Runs.{ends_run, last_text, run_line, runs_text};

use machine_data::OutOfMemory;
use writing::{Text, push_told};

/// Appends ` to J` where the run is of more than one interval.
fn push_last(text: &mut Vec<u8>, first: u64, last: u64) -> Result<(), OutOfMemory>
    ensures ok { OnOk result (text.new.items ≡ text.old.items ++ last_text first last) }
{
    if first == last {
        return Ok(());
    }
    push_told(text, " to ", last)
}

/// Appends the line of a run, from its first interval to its last, in cycles, with what is told of each.
fn push_run(text: &mut Vec<u8>, first: u64, last: u64, why: &[u8]) -> Result<(), OutOfMemory>
    ensures ok { OnOk result (text.new.items ≡ text.old.items ++ run_line first last why.now) }
{
    push_told(text, "try ", first)?;
    push_last(text, first, last)?;
    text.extend_from_slice(why)?;
    text.push_piece("\n")
}

/// Whether the interval of a number is the last one of its run.
fn ends(whys: &[Vec<u8>], number: usize) -> bool
    requires { number < length whys.now }
    ensures { result ≡ ends_run (map (λ (why : Vec ℕ Global). why.items) whys.now) number }
{
    number + 1 == whys.len() || whys[number].as_slice() != whys[number + 1].as_slice()
}

/// Appends a line for each run of neighbouring intervals of which the same is told: `try I WHY`, and `try I to J WHY` of a run of more than one.
/// The first interval is `least`, in cycles, each is one cycle longer than the one before it, and of each is told why it fails.
///
/// # Errors
/// Memory ran out. The text is left with a part of that.
pub fn push_runs(text: &mut Vec<u8>, least: u64, whys: &[Vec<u8>]) -> Result<(), OutOfMemory>
    requires { least + length whys.now < 2 ^ 64 }
    ensures ok { OnOk result (text.new.items ≡ text.old.items ++ runs_text least (map (λ (why : Vec ℕ Global). why.items) whys.now)) }
{
    let mut start = 0;
    for number in 0..whys.len() {
        if ends(whys, number) {
            push_run(
                text,
                least + start as u64,
                least + number as u64,
                whys[number].as_slice(),
            )?;
            start = number + 1;
        }
    }
    Ok(())
}
