//! The first words of lines.

ghost use Rattle.std.specs.Prelude.{◌≡◌};
ghost use Rattle.machine_data.specs.Opcodes.{same_word};
ghost use Rattle.problem_lines.specs.Keywords.{keyword_named, solution_keyword_named};

/// What a line is about, by its first word.
#[derive(Clone, Copy)]
pub enum Keyword {
    Machine,
    Units,
    File,
    Kind,
    Problem,
    Op,
    Value,
    Read,
    Edge,
    End,
}

/// What a line of a text of solutions is about, by its first word.
#[derive(Clone, Copy)]
pub enum SolutionKeyword {
    Solution,
    Op,
    Value,
    End,
}

/// The bytes are those of this text.
#[inline(always)]
#[tactic(auto, using(crate::proofs::EightBytes::differ_long, crate::proofs::EightBytes::text_taken))]
pub(crate) fn is_text(bytes: &[u8], text: &str) -> bool
    ensures { result ≡ same_word bytes.now text.now }
{
    if bytes.len() != text.len() {
        return false;
    }
    // (most texts are literals, whose length is known: then a few comparisons of several bytes do)
    bytes.starts_with(text.as_bytes())
}

/// The keyword that a word is.
pub(crate) fn keyword_of(word: &[u8]) -> Option<Keyword>
    ensures { result ≡ keyword_named word.now }
{
    if is_text(word, "machine") {
        Some(Keyword::Machine)
    } else if is_text(word, "units") {
        Some(Keyword::Units)
    } else if is_text(word, "file") {
        Some(Keyword::File)
    } else if is_text(word, "kind") {
        Some(Keyword::Kind)
    } else if is_text(word, "problem") {
        Some(Keyword::Problem)
    } else if is_text(word, "op") {
        Some(Keyword::Op)
    } else if is_text(word, "value") {
        Some(Keyword::Value)
    } else if is_text(word, "read") {
        Some(Keyword::Read)
    } else if is_text(word, "edge") {
        Some(Keyword::Edge)
    } else if is_text(word, "end") {
        Some(Keyword::End)
    } else {
        None
    }
}

/// The keyword of a text of solutions that a word is.
pub(crate) fn solution_keyword_of(word: &[u8]) -> Option<SolutionKeyword>
    ensures { result ≡ solution_keyword_named word.now }
{
    if is_text(word, "solution") {
        Some(SolutionKeyword::Solution)
    } else if is_text(word, "op") {
        Some(SolutionKeyword::Op)
    } else if is_text(word, "value") {
        Some(SolutionKeyword::Value)
    } else if is_text(word, "end") {
        Some(SolutionKeyword::End)
    } else {
        None
    }
}
