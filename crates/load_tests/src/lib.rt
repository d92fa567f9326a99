//! Loads, saves and exchanges over surroundings that tell what they are and what they were asked: the witnesses that what
//! is promised of such surroundings can be met, and that the laws of loads in a row speak of something.
//!
//! `load_once` and `load_in_order` are over a `ToldBench`, `load_on_disk` and `save_on_disk` over a disk, `save_on_shelf`
//! over the shelf of a save, `resumed` over what an earlier one left, and exchanges with a stub over a `StationLine`. What a
//! disk was asked is compared with docs/RECORD.md and docs/DECISIONS.md. Of a probe the pace is tried, of which no clause
//! speaks.
#![tactic(auto)]

#[cfg(test)]
mod disk_loads;
#[cfg(test)]
mod disk_saves;
#[cfg(test)]
mod disk_steps;
#[cfg(test)]
mod disk_text;
#[cfg(test)]
mod exchanges;
mod load_step;
#[cfg(test)]
mod loads;
#[cfg(test)]
mod memory_consoles;
#[cfg(test)]
mod probes;
#[cfg(test)]
mod resuming;
#[cfg(test)]
mod saves;
mod shelf_note;
#[cfg(test)]
mod station;
#[cfg(test)]
mod told_bench;
#[cfg(test)]
mod told_shelf;
