//! What commands write.

ghost use Rattle.std.specs.Prelude.{◌≡◌, ◌-◌, ◌^◌, ◌<◌, ◌↔◌};
ghost use Rattle.exit_status.specs.Statuses.{IsComplete};
ghost use Rattle.exit_status.specs.Writing.{CountsFault, EndsWritten};
ghost use Rattle.modsched.specs.inner.Answers.{text_of, verdict_of};
ghost use Rattle.modsched.specs.Engine.{lint_verdict};

use devices::Output;
use exit_status::{Status, Verdict, finish, finish_texts};
use lint_text::LintText;
use text_parts::{Bytes, Parted};
use written::Printout;

/// A text that a command writes, with what it tells.
#[derive(Drop)]
pub(crate) enum Answer {
    /// Of loops.
    Parted(Parted),
    /// Of problems.
    Printout(Printout),
    /// The faults of texts.
    Lint(LintText),
}

impl Answer {
    /// Writes its text whole and flushes it, as [`finish`] does, with the status of what it tells.
    pub(crate) fn write<O: Output>(&self, output: &mut O) -> Status
        requires { O.failed output.old < 2 ^ 64 - 1 }
        ensures ends { EndsWritten (text_of self.now) (verdict_of self.now) (O.taken output.old) (O.taken output.new) result }
        ensures handed { IsComplete result → O.handed output.new ≡ O.taken output.new }
        ensures unwritten { (result ≡ Status.Unwritten) ↔ (O.failed output.old < O.failed output.new) }
        ensures faults { CountsFault (result ≡ Status.Unwritten) (O.failed output.old) (O.failed output.new) }
    {
        let verdict = self.verdict();
        match self {
            Answer::Parted(parted) => match parted.bytes() {
                Bytes::Whole(text) => finish(output, text, verdict),
                Bytes::Texts(texts) => finish_texts(output, texts, verdict),
            },
            Answer::Printout(printout) => finish(output, printout.text(), verdict),
            Answer::Lint(lint) => finish(output, lint.text.as_slice(), verdict),
        }
    }

    /// What it tells.
    fn verdict(&self) -> Verdict
        ensures { result ≡ verdict_of self.now }
    {
        match self {
            Answer::Parted(parted) => Verdict::of_met(parted.all_met()),
            Answer::Printout(printout) => Verdict::of_met(printout.all_met()),
            Answer::Lint(lint) => lint_verdict(lint),
        }
    }
}

/// Of which text faults are told: of the machine's, if there are any of it, and else of the loops'.
fn lint_verdict(lint: &LintText) -> Verdict
    ensures { result ≡ lint_verdict lint.now }
{
    if lint.machine_faults {
        Verdict::MachineFaulty
    } else if lint.loop_faults {
        Verdict::LoopsFaulty
    } else {
        Verdict::Fine
    }
}
