//! A line, the texts of its files, and what has to come of them where inputs or outputs fail, or texts are cut.

mod cuts;
mod given;
mod reads;
mod writes;
