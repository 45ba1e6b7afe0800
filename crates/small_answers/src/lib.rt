//! What the two small programs share: the files of a command are read, and what is wanted of them is written.
//!
//! What is wanted is a type that `Makes` something of two texts. The clauses of `answer` are those of `engine`,
//! whatever is wanted.
#![tactic(auto)]

mod answers;
mod makes;
mod working;

pub use answers::answer;
pub use makes::Makes;
pub use working::work;
