//! Any number of loads in a row, on one machine and with one record.
//!
//! A life is what one load does to the machine and to the record, wherever it stops: with a stub, in an
//! exchange, behind them, at an end, at a fault, or killed. The law `lives_are_trusted` says of every list of
//! lives without stubs what the engine's contract says of one: memory is safe, the record is one and true, and
//! `G` goes out once at most, over all of them together. `fast_lives_are_trusted` says it of lives at a
//! station, of which some bring in stubs, and `fast_lives_may_look_first` also where each looks first at words
//! that its record has. Nothing here is called by the program; the crates above cite the laws.
#![tactic(auto)]

mod fast_law;
mod law;

pub use fast_law::{
    fast_lives_are_trusted, fast_lives_may_look_first, fast_loads_are_trusted,
    planned_stubs_are_stubs,
};
pub use law::{
    fronts_are_stopped, keepers_leave, lives_are_trusted, records_are_fronts, sessions_are_lives,
};
