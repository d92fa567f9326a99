//! Why an exchange with a stub may be trusted, and every host that follows it.
//!
//! A station is a machine on which a stub may run; `specs/` says what it does, as a host sees it, and what
//! happens on the line before it. There is no code here: the functions do nothing, their contracts are the
//! laws. An exchange leaves the words that it verified, and a line at which the next host may begin,
//! whatever the line loses (`exchanges_are_true`); over one that loses nothing it is complete
//! (`clean_lines_bring_all_in`). An ordinary host may follow a stub, wherever that stopped: it waits for
//! silence and types `Z`, which halts a stub (`hosts_recover`). And the stub's words, on a processor that
//! does what the handbook says, are the stub that these laws speak of, from ODT's `G` on
//! (`stubs_are_stations`, `started_stubs_are_stations`). The laws of loads in a row cite all of them.
#![tactic(auto)]

mod clean;
mod exchanges;
mod recovery;
mod stations;

pub use clean::{clean_exchanges_complete, clean_lines_bring_all_in};
pub use exchanges::exchanges_are_true;
pub use recovery::{hosts_recover, stations_without_stub_are_machines};
pub use stations::{started_stubs_are_stations, stubs_are_stations, stubs_begin_fresh};
