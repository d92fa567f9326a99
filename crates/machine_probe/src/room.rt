ghost use Rattle.std.specs.Prelude.{◌≡◌, ◌+◌, ◌*◌, [], IfOk};
ghost use Rattle.machine_probe.specs.Passes.{IsRoom, ArePieces, last_words};
ghost use Rattle.reading_core.specs.Reader.{begun};
ghost use Rattle.reading_core.specs.Invariant.{IsReader};

use crate::pieces::Pieces;
use reading_core::ReadingCore;
use std::alloc::{AllocError, Global};

/// Room for the addresses of a pass and for the numbers that are read there.
#[derive(Drop)]
pub(crate) struct Room {
    pub(crate) addresses: Vec<u16>,
    pub(crate) numbers: Vec<u16>,
}

impl Room {
    /// Room for a pass over these pieces. The one error is want of memory.
    pub(crate) fn new(alloc: Global, pieces: Pieces) -> Result<Room, AllocError>
        ensures { IfOk result (IsRoom pieces) }
    {
        Ok(Room {
            addresses: Vec::with_capacity(alloc, usize::from(pieces.count))?,
            numbers: Vec::with_capacity(alloc, usize::from(pieces.count))?,
        })
    }

    /// A host that reads the last word of each of the pieces, which stand from an address on. It takes
    /// no memory.
    pub(crate) fn core(self, from: u16, pieces: Pieces, patience: u32) -> ReadingCore
        requires room { IsRoom pieces self }
        requires pieces { ArePieces from pieces }
        ensures begun { result ≡ begun (last_words from pieces.bytes pieces.count) [] patience }
        ensures kept { IsReader result }
    {
        let Room {
            mut addresses,
            numbers,
        } = self;
        for number in 0..pieces.count {
            let _ = addresses.push(from + pieces.bytes * number + (pieces.bytes - 2));
        }
        ReadingCore::in_room(addresses, numbers, patience)
    }
}
