//! A line without a host: what was sent and heard on it, and whether a machine can have answered so.
//!
//! The specs say what a line may do by itself, as the simulated world's events say it, and when a
//! list of sent and heard things is honest. The laws say that such lists join, and what may be
//! believed of a host that heard an honest line. `MemoryLine` is a line in memory whose lists are
//! honest; the tests of the crates above load over it. `LentLine` is such a line lent to an engine that
//! knows of lines in general: what is known of it is known when it comes back.
#![tactic(auto)]

mod law;
mod lent_line;
mod loss;
mod memory_line;

pub use law::{
    dialogues_are_trustworthy, foreign_is_never_lost, moved_is_honest, moves_join,
    unsaid_are_trustworthy,
};
pub use lent_line::{LentLine, Opening};
pub use loss::Loss;
pub use memory_line::MemoryLine;
