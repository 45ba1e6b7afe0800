//! The names of problems, and whether one is under way.

ghost use Rattle.std.specs.Prelude.{◌≡◌, ◌<◌, [], ◌∷◌, ◌++◌, length, true, false, IfErr, OnOk};
ghost use Rattle.problem_tables.specs.declared.fault.Refusal.TheVariants.{Memory};
ghost use Rattle.problem_tables.specs.Names.{has_name, last_name};

use crate::fault::Refusal;
use crate::names::Names;
use problem_lines::Word;
use problems::Label;
use std::alloc::Global;

/// The names of the problems so far.
#[derive(Drop)]
pub(crate) struct Opened<'a> {
    pub(crate) names: Names<'a>,
    /// The last of them is under way.
    pub(crate) inside: bool,
    /// There is a name of the one under way.
    pub(crate) ghost named: { inside ≡ true → 0 < length names },
}

impl<'a> Opened<'a> {
    /// No problem. Nothing is allocated.
    pub(crate) fn new(alloc: Global) -> Opened<'a>
        ensures names { result.names ≡ [] }
        ensures inside { result.inside ≡ false }
    {
        Opened {
            names: Names::new(alloc),
            inside: false,
        }
    }

    /// Begins a problem.
    pub(crate) fn open(&mut self, name: Word<'a>) -> Result<(), Refusal>
        requires absent { has_name self.old.names name.bytes.now ≡ false }
        requires outside { self.old.inside ≡ false }
        ensures fault { IfErr result (λ refusal. refusal ≡ Memory) }
        ensures names { OnOk result (self.new.names ≡ self.old.names ++ name.entry.bytes.now ∷ []) }
        ensures inside { OnOk result (self.new.inside ≡ true) }
    {
        self.names.add(name)?;
        self.inside = true;
        Ok(())
    }

    /// Ends the problem under way, and gives its name.
    pub(crate) fn close(&mut self) -> Label
        requires { self.old.inside ≡ true }
        ensures name { result ≡ last_name self.old.names }
        ensures names { self.new.names ≡ self.old.names }
        ensures inside { self.new.inside ≡ false }
    {
        self.inside = false;
        self.names.last()
    }
}
