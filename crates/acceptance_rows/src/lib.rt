//! Tests of command lines over memory whose inputs and outputs fail, and over texts that are cut.
//!
//! The words of a line go through `parse_line`, and the texts of its files through `engine`. For six commands an output
//! fails after each byte, inputs fail at each read, and texts are cut after each byte.
#![tactic(auto)]

#[cfg(test)]
mod tests;
