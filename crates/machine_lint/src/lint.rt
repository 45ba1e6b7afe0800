//! The faults of a machine text.

ghost use Rattle.std.specs.Prelude.{◌≡◌, [], ◌∷◌, IfOk, map};
ghost use Rattle.machine.specs.MachineText.{machine_of};
ghost use Rattle.machine_lint.specs.Lints.{AreItsFaults, BeginsAs, Tells, told_of};

use crate::place::MachineLint;
use crate::tree::judge_tree;
use machine::limits::MAX_TEXT;
use machine::{Key, MachineFault, OutOfMemory};
use std::alloc::Global;

/// One fault.
fn only(alloc: Global, lint: MachineLint) -> Result<Vec<MachineLint>, OutOfMemory>
    ensures { IfOk result (λ lints. lints.items ≡ lint ∷ []) }
{
    let mut lints = Vec::new(alloc);
    lints.push(lint)?;
    Ok(lints)
}

/// All faults of a machine text, each with its place.
///
/// There is none where [`machine::read_machine`] reads the text, and else the first is the fault that it tells. They are in
/// the order in which it makes its checks.
///
/// # Errors
/// Memory ran out, which says nothing of the text.
pub fn lint_machine(alloc: Global, text: &[u8]) -> Result<Vec<MachineLint>, OutOfMemory>
    ensures exact { IfOk result (λ lints. Tells text.now (told_of text.now) lints.items) }
    ensures first { IfOk result (λ lints. BeginsAs (machine_of text.now) (map (λ lint. lint.fault) lints.items)) }
    ensures faults { IfOk result (λ lints. AreItsFaults text.now lints.items) }
{
    if text.len() > MAX_TEXT {
        let limit = Key::new(String::from_str(alloc, "text")?);
        return only(alloc, MachineLint::nowhere(MachineFault::Limit(limit)));
    }
    let words = match str::from_utf8(text) {
        Ok(words) => words,
        Err(error) => {
            let lint = MachineLint::at(text, error.valid_up_to(), MachineFault::NotUtf8);
            return only(alloc, lint);
        }
    };
    let error = match toml::table_from_str(alloc, words) {
        Ok(tree) => return judge_tree(alloc, text, &tree),
        Err(error) => error,
    };
    let Some(span) = error.span() else {
        return Err(std::alloc::AllocError);
    };
    only(
        alloc,
        MachineLint::at(text, span.start, MachineFault::NotToml),
    )
}
