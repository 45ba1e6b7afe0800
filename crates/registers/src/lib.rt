//! When values live, which numbers of rotating registers are lawful for them, and the least such numbers.
//!
//! It knows lists of values with the operations that make and read them, and no loop or schedule. An operation may make
//! several values, and read a value some cycles after its own issue. The registers of a file are seen as a circle, as
//! long as their number times the interval; a value with a number is an arc of it. Numbers are lawful just where arcs
//! are disjoint and none is longer than the circle. `find_least` and `fill_least` keep the gaps between arcs in order:
//! from its own place on, a value takes the first gap that its arc fits into. `first_meeting` names the first two
//! values that meet, and `crowd_in` tells how many live in a row.
#![tactic(auto)]

mod laws;
mod lifetime;
mod meeting;
mod numbers;
mod value;
mod values;

pub use laws::{
    ages_are_between, forbids_between, lawful_more, least_is_lawful, least_is_one, least_or_none,
    lives_are_spans, meetings_are_unlawful, shifts_are_between,
};
pub use lifetime::Lifetime;
pub use meeting::Meeting;
pub use numbers::lawful::are_lawful;
pub use numbers::least::{fill_least, find_least};
pub use numbers::meetings::first_meeting;
pub use value::{Read, Value};
pub use values::crowd::crowd_in;
pub use values::lives::fill_lives;
