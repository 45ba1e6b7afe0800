//! The walk over the problems of a file, whatever is asked of them.

ghost use Rattle.std.specs.Prelude.{◌≡◌, ◌<◌, length, slice_index_or, IfOk};
ghost use Rattle.problem_reader.specs.Files.{nothing};
ghost use Rattle.problem_printouts.specs.inner.Asked.{Answering, Asked};
ghost use Rattle.problem_printouts.specs.inner.Sofar.{AreAnswered, IsOneMore};

use crate::answers::counted;
use machine_data::OutOfMemory;

/// What answers a question about each problem of a file.
pub(crate) trait Teller {
    // The question.
    ghost asked: { Self → Asked };

    // It may go on.
    ghost ready: { Self → Type 0 };

    /// How many problems there are.
    fn problems(&self) -> usize
        ensures { result ≡ length (asked self.now).file.problems };

    /// Appends the answer to the problem with a number, from 0. The result is whether it is met.
    fn push(&mut self, text: &mut Vec<u8>, number: usize) -> Result<bool, OutOfMemory>
        requires there { number < length (asked self.old).file.problems }
        requires ready { ready self.old }
        ensures ready { ready self.new }
        ensures same { asked self.new ≡ asked self.old }
        ensures told { IfOk result (IsOneMore (Answering (asked self.old) (slice_index_or (asked self.old).file.problems number nothing)) text.old.items text.new.items) };
}

/// Appends the answer to each problem. The result is how many are met.
pub(crate) fn push_all<T: Teller>(teller: &mut T, text: &mut Vec<u8>) -> Result<u64, OutOfMemory>
    requires { T.ready teller.old }
    ensures { IfOk result (AreAnswered (Answering (T.asked teller.old)) (T.asked teller.old).file.problems text.old.items text.new.items) }
{
    let mut met = 0;
    for number in 0..teller.problems() {
        met = counted(met, teller.push(text, number)?);
    }
    Ok(met)
}
