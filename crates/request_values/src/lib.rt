//! What a person can ask of `ldaodt`, as values.
//!
//! A `Request` names a command, its files and its options. It is of one of two kinds: a `TapeRequest` is about no
//! machine, and is a `PrintRequest`, which does nothing but print, or a `Make`, which makes a tape of words; a
//! `MachineRequest` is a `Load`, a `Look`, a `Save`, a `Probe` or a `MemoryTest`. A `Console` is a simulated one. A value
//! that can't be meant can't be had where a type can say so: an `AddressRange` is two addresses of words in their order, and
//! a probe's address is one of memory.
//!
//! `command_line` makes them of words; `tape_commands` and `requests` do what they ask. The crates of a
//! load and of a look take the parts that they have to know, so it stands below these, too.
#![tactic(auto)]

mod machine;
mod options;
mod range;
mod request;

pub use machine::{Load, Look, MemoryTest, Probe, Save};
pub use options::{CheckOptions, LoadOptions};
pub use range::AddressRange;
pub use request::{
    Console, MachineRequest, Make, PrintRequest, Rehearsal, Request, Stage, TapeRequest,
};
