//! The engine of a load's stubs: it brings in stub after stub, and exchanges with each.
//!
//! `bring_in` plans a stub for the words that are not verified yet, has a loading host, the `Typist`, type it
//! at its window and start it, and then exchanges with it; and again, while that is worth it. Its contract
//! says that what it does are the stubs' parts of a load, as the law over loads in a row has them:
//! what is said, what is kept, and how far it came.
//!
//! `exchange` has the one engine lead an exchange as its host: the words that became verified are kept,
//! and only then the characters of the step are sent. Its contract says that nothing else is said and
//! nothing else is kept, whatever the line, the keeper and the peer; and that over the line of a station
//! on which the stub runs the verified words stand. Used by `machine_load`.
#![tactic(auto)]

mod bringing;
mod exchanging;
mod hosting;
mod planning;
mod stop;
mod stubs;
mod tally;
mod typist;
mod unkept;

pub use exchanging::{ExchangeStop, exchange};
pub use stop::{Stop, StubsEnd};
pub use stubs::bring_in;
pub use tally::Tally;
pub use typist::Typist;
