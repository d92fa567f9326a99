//! What a host decides that only looks: which character to type next to read words of memory.
//!
//! `ReadingCore` reads the words at a list of addresses: it types each address and `/`, takes the six
//! digits that the console answers as the number that memory holds there, and closes the word as it
//! was. It is told what was heard, a character or that nothing came, and answers the character to
//! send. No phase of it can type a digit into an open word, and none types `G`. With more `Care` a
//! word is looked at twice in a row, and its number counts where both looks read alike.
//!
//! The contract of `step` is the table of the phases. A life sends at most the reading bound,
//! whatever it hears, and `restart` keeps what was read. `looking_law` shows what this means for a
//! machine, `looking_engine` lends the core to a line.
#![tactic(auto)]

mod care;
mod life;
mod phase;
mod reading;
mod table;
mod turn;

pub use care::Care;
pub use phase::{End, Phase};
pub use reading::ReadingCore;
