//! What may be asked of a real machine.
ghost use Rattle.std.specs.Prelude.{◌≤◌};
ghost use Rattle.reading_core.specs.Addresses.{IsAddress};

use crate::options::LoadOptions;
use crate::range::AddressRange;
use reading_core::Care;
use tape_image::Start;

/// A load into a real machine.
#[derive(Clone, Copy)]
pub struct Load<'a> {
    /// The line to the console: the path of a device, which has a slash, or HOST:PORT.
    pub line: &'a str,

    /// The record's file, where there is to be one.
    pub record: Option<&'a str>,

    /// How the load is to go about it.
    pub options: LoadOptions,

    /// The start in place of the tape's.
    pub start: Start,

    /// How many seconds of silence end the listening behind the load, where there is to be any.
    pub listen: Option<u16>,

    /// The quiet time in milliseconds.
    pub quiet_ms: u32,
}

/// A look at a real machine.
#[derive(Clone, Copy)]
pub struct Look<'a> {
    /// The line to the console: the path of a device, which has a slash, or HOST:PORT.
    pub line: &'a str,

    /// How often a word is looked at where it is verified or saved.
    pub care: Care,

    /// How many mishaps the host survives.
    pub patience: u32,

    /// The quiet time in milliseconds.
    pub quiet_ms: u32,
}

/// A save of what a real machine holds.
#[derive(Clone, Copy)]
pub struct Save<'a> {
    /// The new tape's file, which is not there yet.
    pub file: &'a str,

    /// The words that are read.
    pub range: AddressRange,

    /// The start address of the tape; an odd one starts nothing.
    pub start: u16,

    /// How the machine is looked at.
    pub look: Look<'a>,
}

/// A probe of a real machine's console.
#[derive(Clone, Copy)]
pub struct Probe<'a> {
    /// The address of the word that is tried: even, and below 160000 (octal).
    pub address: u16,

    /// How the machine is looked at.
    pub look: Look<'a>,
    ghost in_memory: { IsAddress address },
}

/// A test of a real machine's memory.
#[derive(Clone, Copy)]
pub struct MemoryTest<'a> {
    /// The words of which some are tested.
    pub range: AddressRange,

    /// Of how many words one is tested: 1 is every word.
    pub every: u16,

    /// How the machine is looked at.
    pub look: Look<'a>,
    ghost some: { 1 ≤ every },
}
