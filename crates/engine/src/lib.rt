//! The one engine: it lends any host to a line and a keeper, turn by turn.
//!
//! `lead` hears one thing from the line, lets the host take its step, has what that gives kept, and
//! only then sends its keys. Its law (`specs/Led.antt`) says that nothing else is heard, said or kept,
//! whatever the line, the keeper and the peer. A `Host` says what becomes of it by its `Ways`. Used by
//! `load_engine`, `looking_engine` and `stub_engine`.
#![tactic(auto)]

mod host;
mod keep;
mod leading;
mod stop;

pub use host::{Host, Keys};
pub use keep::Keep;
pub use leading::lead;
pub use stop::{Cut, Stop};
