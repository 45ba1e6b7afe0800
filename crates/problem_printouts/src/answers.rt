//! What is printed of problems, with how many of them are met.

ghost use Rattle.std.specs.Prelude.{◌≡◌, ◌<◌, ◌≤◌, ◌+◌, ◌-◌, ◌^◌, ◌++◌, codes, if◌then◌else◌, IfOk};
ghost use Rattle.writing.specs.Words.{last_line, told};

use machine_data::OutOfMemory;
use std::alloc::Global;
use writing::{Text, push_last, push_told};

/// What is printed of the problems of a file.
#[derive(Drop)]
pub struct Answers {
    /// All that is printed.
    pub text: Vec<u8>,
    /// How many problems are met.
    pub met: u64,
    /// How many are not.
    pub failed: u64,
}

impl Answers {
    /// These answers to `all` problems, of which `met` are met, with the last line after them: `words`, then
    /// `P met A failed B`.
    pub(crate) fn of(text: Vec<u8>, words: &str, all: u64, met: u64) -> Result<Answers, OutOfMemory>
        requires { met ≤ all }
        ensures text { IfOk result (λ a. a.text.items ≡ text.items ++ last_line words.now all met (all - met)) }
        ensures met { IfOk result (λ a. a.met ≡ met) }
        ensures failed { IfOk result (λ a. a.failed ≡ all - met) }
    {
        let mut text = text;
        let failed = all - met;
        push_last(&mut text, words, all, met, failed)?;
        Ok(Answers { text, met, failed })
    }

    /// These answers to `all` problems, of which `met` are met, with the line `problems P` after them.
    pub(crate) fn of_count(text: Vec<u8>, all: u64, met: u64) -> Result<Answers, OutOfMemory>
        requires { met ≤ all }
        ensures text { IfOk result (λ a. a.text.items ≡ text.items ++ (told (codes "problems ") all ++ codes "\n")) }
        ensures met { IfOk result (λ a. a.met ≡ met) }
        ensures failed { IfOk result (λ a. a.failed ≡ all - met) }
    {
        let mut text = text;
        push_told(&mut text, "problems ", all)?;
        text.push_piece("\n")?;
        Ok(Answers::of_all(text, all, met))
    }

    /// These answers to `all` problems, of which `met` are met.
    pub(crate) fn of_all(text: Vec<u8>, all: u64, met: u64) -> Answers
        requires { met ≤ all }
        ensures text { result.text.items ≡ text.items }
        ensures met { result.met ≡ met }
        ensures failed { result.failed ≡ all - met }
    {
        let failed = all - met;
        Answers { text, met, failed }
    }
}

/// The count, with one more where this is met.
pub(crate) fn counted(met: u64, is_met: bool) -> u64
    requires { met + 1 < 2 ^ 64 }
    ensures { result ≡ met + (if is_met then 1 else 0) }
{
    if is_met { met + 1 } else { met }
}
