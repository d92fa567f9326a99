//! What a person at a terminal is told beside reports and faults: what helps.
//!
//! `advise_load`, `advise_verify`, `advise_save` and `advise_test` say behind a report what can be done where a load, a look,
//! a save or a test did not come to its end; `advise_unreported` says in place of a load's report that the program may run;
//! `say_probing` for how long a probe is silent. `say_instead` tells what a file is that was refused as a tape, by its first
//! bytes and its last, or what makes a tape of it; `say_what_follows` what stands behind a tape in its file. Nothing is asked
//! of a machine or a disk for that, and neither report nor status can change by it: what is handed in is shared, and only
//! the terminal is written to. Which front of a file is taken for what, the contracts say; the texts are tried from
//! outside. Used by `requests` and `ldaodt`.
#![tactic(auto)]

mod following;
mod instead;
mod loads;
mod looks;
mod probing;

pub use following::say_what_follows;
pub use instead::{Instead, say_instead};
pub use loads::{PlanSize, advise_load, advise_unreported};
pub use looks::{advise_save, advise_test, advise_verify};
pub use probing::say_probing;
