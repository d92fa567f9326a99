//! A host and a simulated console on one line: what can happen to them, and why nothing of it does harm.
//!
//! `World` holds a machine, a host core and a queue of characters in each direction. Its events are
//! deliveries, losses in either direction, timeouts, and restarts of the host; where the host is
//! careful, changed characters too, at most one in each attempt at a word. The contracts of
//! `apply`, `run` and `run_clean` carry the promise of the whole project: whatever happens, a word
//! counted as verified is in memory, bytes that the tape does not name are as they were, and `G` goes
//! out once at most, over the whole image. Behind it stands the invariant of `specs/Invariant.antt`.
//! The commands `dialogue` and `rehearse` (crate `tape_commands`) use it, and the engine's contract
//! rests on it.
#![tactic(auto)]

mod event;
mod law;
mod setup;
mod world;

pub use event::Event;
pub use law::one_bit_is_harmless;
pub use setup::Setup;
pub use world::{MOST_WAITING, World};
