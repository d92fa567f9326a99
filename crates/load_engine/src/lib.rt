//! The host of a load, lent to a line and a keeper by the engine.
//!
//! `drive` is the engine's `lead` of it: what became verified and the start mark are kept, before the
//! key that goes with them is sent. Its contract says what that comes to, also where the line is honest.
//! `drive_in_memory` is `drive` over a line in memory, of which nobody has to say that it is honest.
//! Used by `machine_load`, and by `machine_probe` where it puts a number back.
#![tactic(auto)]

mod driving;
mod hosting;
mod lending;

pub use driving::{Stop, drive};
pub use lending::drive_in_memory;
