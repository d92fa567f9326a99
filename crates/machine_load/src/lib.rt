//! The command `load`: a plan into a real machine, over a line, with a record that outlives the host.
//!
//! `load` asks its `Surroundings` for the record of earlier lives, for a line and for the record of
//! the life that begins, in this order. Over that line words that the record has are looked at (by the crate
//! `sample_looks`), before it is begun anew; then stubs take words, where they are asked for (of the crate
//! `stub_engine`), and behind them the host goes on, where the last of them verified nothing once words were
//! looked at again; its report is of this host, and counts what all of them sent. That is its contract, and by
//! its laws a load is a life, or two in a row, with stubs or without, wherever it stops. `Around` joins the two
//! parts of the surroundings of a real machine: a way to its console (of the crate `console_lines`), and where
//! its record is, in a file (of the crate `record_file`) or in memory. An `Onlooker` sees how far the load is and
//! decides nothing.
//!
//! The crate `requests` calls it, and its tests stand in `load_tests`, `record_tests` and `command_tests`.
#![tactic(auto)]

mod around;
mod beginning;
mod fault;
mod first_life;
mod going_on;
mod law;
mod lived;
mod load_end;
mod loading;
mod looks;
mod outcome;
mod records;
mod report;
mod stubs;
mod surroundings;

pub use around::Around;
pub use fault::LoadFault;
pub use law::{loads_are_fast_lives, loads_are_lives, stub_fronts_are_stopped};
pub use load_end::LoadEnd;
pub use loading::load;
pub use looks::Looks;
pub use outcome::Outcome;
pub use records::{InMemory, Records};
pub use stub_engine::{Stop as StubStop, StubsEnd};
pub use stubs::Stubs;
pub use surroundings::Surroundings;
