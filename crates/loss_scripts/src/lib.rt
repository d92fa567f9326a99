//! Scripts of losses: what a rehearsal sets up, and what it lets happen, line by line.
//!
//!     words N   style N   patience N   wait HH ..   put AAAAAA VVVVVV
//!     take [N]  hear [N]  down K  up K  quiet  restart K  to N  clean
//!
//! `read_script` answers the script that a text is, or the first line that is wrong. Each line has
//! one meaning, by its form alone; setup lines stand before all others, and all but `put` at most
//! once. `docs/SCRIPTS.md` is the page for those who write scripts.
//!
//! `tape_commands` plays them.
#![tactic(auto)]

mod line;
mod script;

pub use line::{ScriptStep, Waiting};
pub use script::{PutLine, SCRIPT_LIMIT, Script, ScriptFault, StepLine, read_script};
