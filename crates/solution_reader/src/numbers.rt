//! Names with their numbers. They stand in a map by their order, so that no choice of names makes a look-up long.

ghost use Rattle.std.specs.Prelude.{◌≡◌, ℕ, List, if◌then◌else◌, IfErr, OnErr, OnOk, None, Some};
ghost use Rattle.std.specs.Option.{option_or};
ghost use Rattle.machine_data.specs.Opcodes.{same_word};
ghost use Rattle.solution_reader.specs.declared.fault.Refusal.TheVariants.{Memory};
ghost use Rattle.solution_reader.specs.inner.Numbered.{known_at};

use crate::fault::Refusal;
use std::collections::BTreeMap;

/// Adds a name that is not there. Where memory runs out, all is as before.
pub(crate) fn add_number<'a>(
    numbers: &mut BTreeMap<&'a [u8], usize>,
    name: &'a [u8],
    number: usize,
) -> Result<(), Refusal>
    requires { known_at numbers.old name.now ≡ None }
    ensures fault { IfErr result (λ refusal. refusal ≡ Memory) }
    ensures added { OnOk result ((q : List ℕ) → known_at numbers.new q ≡ option_or (known_at numbers.old q) (if same_word q name.now then Some number else None)) }
    ensures kept { OnErr result ((q : List ℕ) → known_at numbers.new q ≡ known_at numbers.old q) }
{
    match numbers.insert(name, number) {
        Ok(_) => Ok(()),
        Err(failed) => Err(Refusal::from(failed)),
    }
}
