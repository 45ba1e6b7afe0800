//! How a small program carries out a command over its files.

ghost use Rattle.std.specs.Prelude.{◌≡◌, is_ok, is_some, IfErr};
ghost use Rattle.invocation.specs.Endings.{IsNoRequest};

use crate::answers::answer;
use crate::makes::Makes;
use command_line::{Command, Usage};
use devices::StandardOutput;
use exit_status::Status;
use invocation::files;
use std::rt::Files;

/// Does what is wanted over the files that a command names and the standard output.
///
/// # Errors
/// The small program lacks the command; or memory ran out before that could be told ([`Usage::Memory`]).
pub fn work<W: Makes, R: AllocGlobal + Files + Input + Print>(
    rt: &R,
    command: &Command,
    wanted: Option<W>,
) -> Result<Status, Usage>
    ensures done { is_ok result ≡ is_some wanted }
    ensures shown { IfErr result IsNoRequest }
{
    let wanted = match wanted {
        Some(wanted) => wanted,
        None => {
            let why = "error: the small program lacks this: ./x build makes the whole one\n";
            return Err(Usage::Refused(String::from_str(rt.alloc(), why)?));
        }
    };
    let (mut machine, mut loops) = files(rt, command);
    let mut output = StandardOutput::new(rt);
    Ok(answer(rt.alloc(), &wanted, &mut machine, &mut loops, &mut output))
}
