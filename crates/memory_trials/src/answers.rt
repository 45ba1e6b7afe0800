//! What calls come to.

use std::fmt::Debug;
use std::io;

/// What a call came to.
#[derive(Clone, Copy, PartialEq, Eq)]
pub enum Answer {
    /// What it comes to with ample memory.
    Right,
    /// Something else.
    Wrong,
    /// Memory ran out.
    Refused,
    /// What it comes to with ample memory, by the calling thread alone, since no worker was started.
    Alone,
    /// A worker went on to the end, and its report tells what it lacks since memory ran out.
    InPart,
    /// A worker went on to the end, and its report tells that every piece was lost.
    AllLost,
}

impl Answer {
    /// Right exactly where the value is the one that is wanted.
    pub fn right_if(is_wanted: bool) -> Answer {
        if is_wanted {
            Answer::Right
        } else {
            Answer::Wrong
        }
    }

    /// How it is told.
    pub fn word(self) -> &'static str {
        match self {
            Answer::Right => "right",
            Answer::Wrong => "wrong",
            Answer::Refused => "refused",
            Answer::Alone => "alone",
            Answer::InPart => "in part",
            Answer::AllLost => "all lost",
        }
    }
}

/// Memory ran out before the calls, or what they are to be lent is not what it has to be. It has no
/// `Debug`, so that each error that has it can become one.
#[derive(Clone, Copy)]
pub struct NotBegun;

impl<E: Debug + Drop> From<E> for NotBegun {
    fn from(_error: E) -> NotBegun {
        NotBegun
    }
}

/// Prints what two calls with the same arguments came to.
pub fn tell(rt: &impl Print, name: &str, first: Answer, second: Answer) -> io::Result<()> {
    let (first, second) = (first.word(), second.word());
    println!(rt; "{name}: {first}, {second}")
}

/// Prints that calls were not made.
pub fn tell_not_begun(rt: &impl Print) -> io::Result<()> {
    rt.println("not begun")
}
