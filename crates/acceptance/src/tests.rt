//! What no command prints of texts of machines and loops, and the example of docs/LIBRARY.md.

mod dependences;
mod given;
mod library;
mod runs;
