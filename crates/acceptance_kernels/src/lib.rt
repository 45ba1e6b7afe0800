//! Tests of kernels that are built by hand, and of register numbers that are given.
//!
//! Kernels are refused, written and run, among them some that would be let through if a lifetime were cut short.
#![tactic(auto)]

#[cfg(test)]
mod tests;
