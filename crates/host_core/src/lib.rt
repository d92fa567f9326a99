//! What the host decides: which character to type next, by values alone.
//!
//! `HostCore` loads a plan of words through a console: it types each word's address, reads the word, mends it
//! where it differs, and reads it back before it counts as verified; then it types the start. It is told what was
//! heard and answers the character to send. There is no line, no clock and no memory here.
//!
//! A careful host can also stand on a line that changes characters (`with_care`): the same table, by a flag.
//!
//! What a console answers is said once, for every host (`answers`). The contract of `step` is the phase table: what
//! this host makes of it. Above it stand the laws of every life: a bound on characters
//! (`sent_count`), nothing sent behind the mark (`progress`), `G` only with every word verified, and a word
//! verified only where it was just read and stands. `line_world` puts it at a line, `load_engine` lends it to one.
#![tactic(auto)]

pub mod answers;
pub mod console;
mod heard;
mod host;
mod life;
mod phase;
mod progress;
mod table;
mod turn;

pub use heard::Heard;
pub use host::{HostCore, PLAIN_PATIENCE};
pub use phase::{End, Phase, Reason, Try, Visit};
pub use progress::{BadProgress, Progress};
pub use tape_image::{Plan, Word};
