//! Why an interval failed, as text.

ghost use Rattle.std.specs.Prelude.{◌≡◌, ◌<◌, ◌++◌, ℕ, length, Some, OnOk};
ghost use Rattle.std.specs.List.{All, flat_map};
ghost use Rattle.ims.specs.Culprits.{AnswersCulprit};
ghost use Rattle.loop_schedules.specs.Problems.{budget_of};
ghost use Rattle.told_choices.specs.Whys.{IsWhy};
ghost use Rattle.explain.specs.Reasons.{culprit_text, life_text, named, need_text, reason_text};

use graph_text::push_name;
use ims::Culprit;
use loop_data::Loop;
use loop_schedules::Prepared;
use machine_data::OutOfMemory;
use machine_data::limits::MAX_STATEMENTS;
use rotating::Lifetime;
use schedule_lines::push_need;
use told_choices::Why;
use writing::{Text, push_told};

/// Appends the name of an operation after a blank.
fn push_named(text: &mut Vec<u8>, innermost: &Loop, op: usize) -> Result<(), OutOfMemory>
    requires { op < length innermost.now.statements }
    ensures ok { OnOk result (text.new.items ≡ text.old.items ++ named innermost.now op) }
{
    prove!(innermost.statements().len() <= MAX_STATEMENTS);
    text.push_piece(" ")?;
    push_name(text, innermost, op as u8)
}

/// Appends the names of operations, each after a blank.
fn push_all_named(text: &mut Vec<u8>, innermost: &Loop, ops: &[usize]) -> Result<(), OutOfMemory>
    requires { All (λ op. op < length innermost.now.statements) ops.now }
    ensures ok { OnOk result (text.new.items ≡ text.old.items ++ flat_map (named innermost.now) ops.now) }
{
    for op in ops {
        push_named(text, innermost, *op)?;
    }
    Ok(())
}

/// Appends the name of an operation and when it is issued.
fn push_late(text: &mut Vec<u8>, innermost: &Loop, op: usize, time: u64) -> Result<(), OutOfMemory>
    requires { op < length innermost.now.statements }
    ensures ok { OnOk result (text.new.items ≡ text.old.items ++ culprit_text innermost.now (Culprit.Late op time)) }
{
    push_named(text, innermost, op)?;
    push_told(text, " at ", time)
}

/// Appends the name of a value, and when it lives.
fn push_life(text: &mut Vec<u8>, innermost: &Loop, life: Lifetime) -> Result<(), OutOfMemory>
    requires { life.operation < length innermost.now.statements }
    ensures ok { OnOk result (text.new.items ≡ text.old.items ++ life_text innermost.now life) }
{
    push_named(text, innermost, usize::from(life.operation))?;
    push_told(text, " lives ", life.first)?;
    push_told(text, " to ", life.last)
}

/// Appends how many registers all values need.
fn push_all_need(text: &mut Vec<u8>, need: Option<u64>) -> Result<(), OutOfMemory>
    ensures ok { OnOk result (text.new.items ≡ text.old.items ++ need_text need) }
{
    text.push_piece(", all need ")?;
    push_need(text, need)
}

/// Appends what keeps an attempt from a schedule.
fn push_culprit(
    text: &mut Vec<u8>,
    prepared: &Prepared,
    culprit: &Culprit,
) -> Result<(), OutOfMemory>
    requires is { (ii : ℕ) × AnswersCulprit prepared.now ii (budget_of prepared.now) (Some culprit.now) }
    ensures ok { OnOk result (text.new.items ≡ text.old.items ++ culprit_text prepared.now.loop culprit.now) }
{
    let innermost = prepared.innermost();
    match culprit {
        Culprit::Blocked(op) => push_named(text, innermost, *op),
        Culprit::Unplaced(ops) => push_all_named(text, innermost, ops.as_slice()),
        Culprit::Late(op, time) => push_late(text, innermost, *op, *time),
    }
}

/// Appends why an interval failed.
pub(crate) fn push_reason(
    text: &mut Vec<u8>,
    prepared: &Prepared,
    why: &Why,
) -> Result<(), OutOfMemory>
    requires is { (ii : ℕ) × IsWhy prepared.now ii why.now }
    ensures ok { OnOk result (text.new.items ≡ text.old.items ++ reason_text prepared.now.loop why.now) }
{
    match why {
        Why::Attempt(culprit) => push_culprit(text, prepared, culprit),
        Why::Register(life) => push_life(text, prepared.innermost(), *life),
        Why::Need(life, need) => {
            push_life(text, prepared.innermost(), *life)?;
            push_all_need(text, *need)
        }
    }
}
