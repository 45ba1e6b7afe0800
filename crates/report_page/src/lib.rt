//! The HTML page of `explain`, around a JSON document of loops.
//!
//! The parts of the page are constants, which `clients/report/page_parts` makes of `head.html` and `tail.html`. `./x
//! check` tests that they are the same bytes.
#![tactic(auto)]

mod head;
mod page;
mod tail;
mod tail_rest;

pub use page::push_page;
