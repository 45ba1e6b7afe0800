//! What no text and no line of the program says.

mod drafts;
mod lines;
mod texts;
mod unnamed;
mod writers;
