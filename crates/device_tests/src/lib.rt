//! What no clause says of the devices of a load: how many looks at a terminal make a silence, at what pace a load is
//! shown, and what each phase of a host lists; and devices that tell, so that what is promised of one that does is met.
//!
//! They stand in a crate of their own, since a crate with tests is proved twice.
#![tactic(auto)]

#[cfg(test)]
mod devices;
#[cfg(test)]
mod phases;
#[cfg(test)]
mod progress;
mod synced_text;
mod telling;
#[cfg(test)]
mod terminals;
#[cfg(test)]
mod told_devices;
#[cfg(test)]
mod told_outlets;
mod told_terminal;
