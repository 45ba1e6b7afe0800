//! The writing of an output.

ghost use Rattle.std.specs.Prelude.{◌≡◌, ◌-◌, ◌^◌, ◌<◌, ◌↔◌};
ghost use Rattle.devices.specs.Devices.{joined_text};
ghost use Rattle.exit_status.specs.Statuses.{IsComplete};
ghost use Rattle.exit_status.specs.Writing.{CountsFault, EndsWritten};
ghost use Rattle.exit_status.specs.declared.verdict.Verdict.TheVariants.{Fine};
ghost use Rattle.exit_status.specs.inner.Written.{status_of};

use crate::status::Status;
use crate::verdict::Verdict;
use devices::{Fault, Output, write_text, write_texts};

/// Writes a whole text and flushes it. Where that succeeds, the status is that of what the text tells. Where the output fails, it is
/// `Unwritten`, and what the output took is a beginning of the text.
pub fn finish<O: Output>(output: &mut O, text: &[u8], verdict: Verdict) -> Status
    requires { O.failed output.old < 2 ^ 64 - 1 }
    ensures ends { EndsWritten text.now verdict (O.taken output.old) (O.taken output.new) result }
    ensures handed { IsComplete result → O.handed output.new ≡ O.taken output.new }
    ensures unwritten { (result ≡ Status.Unwritten) ↔ (O.failed output.old < O.failed output.new) }
    ensures faults { CountsFault (result ≡ Status.Unwritten) (O.failed output.old) (O.failed output.new) }
{
    status_of(write_text(output, text), verdict)
}

/// Writes whole texts, one after another, and flushes them, as [`finish`] writes one.
pub fn finish_texts<O: Output>(output: &mut O, texts: &[Vec<u8>], verdict: Verdict) -> Status
    requires { O.failed output.old < 2 ^ 64 - 1 }
    ensures ends { EndsWritten (joined_text texts.now) verdict (O.taken output.old) (O.taken output.new) result }
    ensures handed { IsComplete result → O.handed output.new ≡ O.taken output.new }
    ensures unwritten { (result ≡ Status.Unwritten) ↔ (O.failed output.old < O.failed output.new) }
    ensures faults { CountsFault (result ≡ Status.Unwritten) (O.failed output.old) (O.failed output.new) }
{
    status_of(write_texts(output, texts), verdict)
}

/// The status where the writing of a text that tells this came to such an end.
fn status_of(written: Result<(), Fault>, verdict: Verdict) -> Status
    ensures { result ≡ status_of written verdict }
{
    match written {
        Ok(()) => match verdict {
            Verdict::Fine => Status::Done,
            Verdict::Unmet => Status::Unmet,
            Verdict::MachineFaulty => Status::MachineFaulty,
            Verdict::LoopsFaulty => Status::LoopsFaulty,
        },
        Err(_) => Status::Unwritten,
    }
}

/// Writes the help or the version that was requested, as [`finish`] writes a text that tells of nothing amiss.
pub fn show<O: Output>(output: &mut O, text: &str) -> Status
    requires { O.failed output.old < 2 ^ 64 - 1 }
    ensures ends { EndsWritten text.now Fine (O.taken output.old) (O.taken output.new) result }
    ensures handed { IsComplete result → O.handed output.new ≡ O.taken output.new }
{
    finish(output, text.as_bytes(), Verdict::Fine)
}
