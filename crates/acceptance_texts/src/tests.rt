//! Texts and lines, each with what they have to give.

mod command_lines;
mod standard_output;
mod statuses;
mod whole_texts;
