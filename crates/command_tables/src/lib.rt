//! The words of the command line: its commands, the arguments and options of each, and what help says of them.
//!
//! `machine_commands` and `tape_commands` are the two tables, as help lists them. Their contracts say that they are those of
//! `specs/Words.antt`: each command's word, and by name what may stand behind it, with the limits of numbers and which
//! options need or exclude one another. No contract says what help says. What is called how stands in `names` alone.
//!
//! Nothing is known here of a parser: `command_line` tells one of these words, and makes requests of what it finds.
#![tactic(auto)]

mod arguments;
mod commands;
mod machine_table;
pub mod names;
mod tape_table;

pub use arguments::{Argument, Form};
pub use commands::{KnownCommand, PROGRAM_HELP};
pub use machine_table::machine_commands;
pub use tape_table::tape_commands;
