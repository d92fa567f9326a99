//! The hosts that look or try, as the one engine leads them: they store nothing.
//!
//! `inquire` lends a reading core to a line, `conduct` a trial, and keep nothing; `Reading` is the reading core for
//! a caller that keeps the numbers as they are read. The contracts say that nothing is said but the host's keys,
//! each right behind what was heard, whatever the line and the peer, and that over an honest line what was read is
//! true, memory is what it was and nothing was started. A line in memory is honest:
//! `inquire_in_memory` says the same with no premise on the line. Used by `machine_look`,
//! `machine_load` and `machine_probe`.
#![tactic(auto)]

mod conducting;
mod inquiring;
mod lending;
mod nothing;
mod reading;
mod stop;
mod trying;

pub use conducting::conduct;
pub use inquiring::inquire;
pub use lending::inquire_in_memory;
pub use reading::Reading;
pub use stop::stop_from;
