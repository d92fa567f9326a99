//! The command line: which words ask for what.
//!
//! `known_words` tells the parser of all commands, arguments and options that `command_tables` has. `parse` makes of the
//! words after the program's name what is `Wanted`, a `Request`, as its contract says, or says why they ask for nothing:
//! help was asked for, or they are refused, by the text that is to be shown. `explain` shows that; `words_of` has the words
//! that the process was started with. No other crate stands over `clap`. Used by `ldaodt`.
#![tactic(auto)]

mod addresses;
mod arguments;
mod commands;
mod explaining;
mod help;
mod machine_words;
mod no_request;
mod parsing;
mod process_words;
mod refusals;
mod shown_words;
mod tape_words;
mod values;
mod wanted;

pub use explaining::explain;
pub use no_request::NoRequest;
pub use parsing::parse;
pub use process_words::words_of;
pub use wanted::Wanted;
