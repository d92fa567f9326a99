//! The commands about no machine: tapes are checked, their load is shown or rehearsed, keys are typed into a
//! simulated console.
//!
//! `check_to`, `dialogue_to`, `rehearse_to` and `type_to` are these commands over readers and a writer: what each
//! writes is exactly the text that its contract names, and every refusal comes before the first byte of it. Worlds are
//! moved by the calls of `line_world::World` alone. `print_answer` does a request: it opens the files that are named, in
//! their order, reads standard input only where a tape or the keys are it, and answers the exit status or the `Failure`
//! that names what was at fault; it says nothing on standard error. `names_of` has the names that it opens.
//! `tape_of_words` makes the bytes of a tape of octal words, for `make`. Used by `requests` and `ldaodt`.
#![tactic(auto)]

mod block_list;
mod check;
mod check_text;
mod dialogue;
mod key_line;
mod make;
mod output;
mod play;
mod printing;
mod rehearse;
mod report;
mod type_keys;
mod worlds;

pub use check::check_to;
pub use dialogue::dialogue_to;
pub use make::tape_of_words;
pub use printing::{InputNames, names_of, print_answer};
pub use rehearse::rehearse_to;
pub use type_keys::type_to;
