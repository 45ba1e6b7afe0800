//! The words of causes.

ghost use Rattle.std.specs.Prelude.{◌≡◌};
ghost use Rattle.solution_text.specs.Causes.{cause_word};

use solutions::Cause;

/// The word of a cause, as `table`.
pub fn cause_word(cause: Cause) -> &'static str
    ensures { result.now ≡ cause_word cause }
{
    match cause {
        Cause::Table => "table",
        Cause::Budget => "budget",
        Cause::Stages => "stages",
        Cause::Registers(_, _) => "registers",
    }
}
