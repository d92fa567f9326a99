//! What a host needs of the world: a line to the console, a keeper of the progress, and who looks on.
//!
//! `Line` and `Keep` are devices as traits. Each tells how often it failed and whether its last call
//! did, and where its type tells it, what was sent and heard or what is kept. `MemoryKeep` keeps in
//! memory. An `Onlooker` is told of each turn, and decides nothing. Used by every crate that brings a line
//! or a keeper (`console_lines`, `honest_line`, `load_record`), and by the engines, to which these are lent.
#![tactic(auto)]

mod fault;
mod item;
mod keep;
mod line;
mod memory_keep;
mod onlooker;
mod turns;

pub use fault::{KeepFault, LineFault};
pub use item::{Item, Kept};
pub use keep::Keep;
pub use line::Line;
pub use memory_keep::MemoryKeep;
pub use onlooker::{Onlooker, Sight, Unwatched};
pub use turns::MOST_TURNS;
