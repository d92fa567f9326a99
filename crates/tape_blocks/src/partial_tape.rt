//! Reading a tape piece by piece: the blocks so far, and the block under way.
ghost use Rattle.std.specs.Prelude.{◌≡◌, ℕ, ◌<◌, ◌≤◌, ◌+◌, ◌-◌, ◌^◌, ◌++◌, List, [], ◌∷◌, length, take, slice_index, All, OnOk};
ghost use Rattle.tape_values.specs.Block.{BlockValue, block_at};
ghost use Rattle.tape_values.specs.Tape.{IsTape, tape_limit};
ghost use Rattle.tape_blocks.specs.Refusal.{count_of, missing_fault};
ghost use Rattle.tape_blocks.specs.Head.{IsSplit};
ghost use Rattle.tape_blocks.specs.Layout.{ArePlaced};
ghost use Rattle.tape_blocks.specs.PartialTape.{IsPart, IsReadBy, IsStep, Advances, TakesAll, TakesNoMemory, PlacesOn, part_of};

use crate::fault::{Fault, ReadError, Why};
use crate::head::{BLANK, HEADER, Head, head_of};
use arrayvec::ArrayVec;
use byteorder::{ByteOrder, LittleEndian};
use std::alloc::{AllocError, Global};
use std::mem;
use tape_values::{Block, FRAME, TAPE_LIMIT};

/// The blocks that were read, the place of each, the place behind them, and the bytes of the next block that
/// are there: its header as far as it came, and then its data and checksum.
#[derive(Drop)]
pub(crate) struct PartialTape {
    alloc: Global,
    pub(crate) blocks: Vec<Block>,
    pub(crate) places: Vec<u32>,
    pub(crate) place: usize,
    header: ArrayVec<u8, HEADER>,
    body: Vec<u8>,
}

/// How far reading on came.
pub(crate) enum Step {
    /// So many bytes were taken, and the tape goes on.
    Took(usize),

    /// So many bytes were taken, and the last of them ends the transfer block of this start.
    Ended(usize, u16),
}

impl PartialTape {
    /// Nothing is read. Takes no memory.
    pub(crate) fn new(alloc: Global) -> PartialTape
        ensures part { IsPart result }
        ensures nothing { IsReadBy result [] }
        ensures places { ArePlaced [] result.blocks.items result.places.items }
    {
        PartialTape {
            alloc,
            blocks: Vec::new(alloc),
            places: Vec::new(alloc),
            place: 0,
            header: ArrayVec::new(),
            body: Vec::new(alloc),
        }
    }

    /// Reads on over a piece, to its end or to the tape's.
    pub(crate) fn read_on(&mut self, piece: &[u8]) -> Result<Step, ReadError>
        requires { IsPart self.old }
        ensures step { IsStep self.old piece.now self.new result }
        ensures places { PlacesOn self.old piece.now self.new result }
        ensures whole { TakesAll piece.now result }
        ensures blank { self.old.header.items ≡ [] → All (λ byte. byte ≡ 0) piece.now → TakesNoMemory self.new result }
    {
        let mut used = 0;
        while used < piece.len() {
            match self.step(&piece[used..])? {
                Step::Took(count) => used += count,
                Step::Ended(count, start) => return Ok(Step::Ended(used + count, start)),
            }
        }
        Ok(Step::Took(used))
    }

    // Takes some of the bytes that are left.
    fn step(&mut self, left: &[u8]) -> Result<Step, ReadError>
        requires part { IsPart self.old }
        requires some { 0 < length left.now }
        ensures step { IsStep self.old left.now self.new result }
        ensures places { PlacesOn self.old left.now self.new result }
        ensures advances { Advances result }
        ensures blank { self.old.header.items ≡ [] → slice_index left.now 0 ≡ 0 → TakesNoMemory self.new result }
    {
        let room = TAPE_LIMIT - self.place - self.header.len() - self.body.len();
        if room == 0 {
            let fault = Fault::new(TAPE_LIMIT, Why::TooLong);
            return Err(ReadError::Tape(fault));
        }
        let near = &left[..left.len().min(room)];
        if self.header.is_empty() {
            self.begin(near)
        } else {
            self.go_on(near)
        }
    }

    // Takes a byte 00, a block, or the beginning of one, where none is under way.
    fn begin(&mut self, text: &[u8]) -> Result<Step, ReadError>
        requires part { IsPart self.old }
        requires between { self.old.header.items ≡ [] }
        requires some { 0 < length text.now }
        requires within { self.old.place + length text.now ≤ tape_limit }
        ensures step { IsStep self.old text.now self.new result }
        ensures places { PlacesOn self.old text.now self.new result }
        ensures advances { Advances result }
        ensures blank { slice_index text.now 0 ≡ 0 → TakesNoMemory self.new result }
    {
        if text[0] == BLANK {
            self.place += 1;
            return Ok(Step::Took(1));
        }
        let (header, body) = text.split_at(text.len().min(HEADER));
        match head_of(header, body, self.place)? {
            Head::Part => {
                self.put(text)?;
                Ok(Step::Took(text.len()))
            }
            Head::Data(address, data) => {
                let bytes = Vec::from_slice(self.alloc, data)?;
                self.add(Block { address, bytes })?;
                Ok(Step::Took(FRAME + data.len()))
            }
            Head::Transfer(start) => {
                self.place += FRAME;
                Ok(Step::Ended(FRAME, start))
            }
        }
    }

    // Takes more of the block under way, and of nothing behind it.
    fn go_on(&mut self, text: &[u8]) -> Result<Step, ReadError>
        requires part { IsPart self.old }
        requires under_way { 0 < length self.old.header.items }
        requires some { 0 < length text.now }
        requires within { self.old.place + length (part_of self.old) + length text.now ≤ tape_limit }
        ensures step { IsStep self.old text.now self.new result }
        ensures places { PlacesOn self.old text.now self.new result }
        ensures advances { Advances result }
    {
        let count = text.len().min(self.lacking());
        self.put(&text[..count])?;
        match head_of(self.header.as_slice(), &self.body, self.place)? {
            Head::Part => Ok(Step::Took(count)),
            Head::Data(address, _) => {
                self.end_block(address)?;
                Ok(Step::Took(count))
            }
            Head::Transfer(start) => {
                self.place += FRAME;
                Ok(Step::Ended(count, start))
            }
        }
    }

    // How many bytes the header lacks or, where it is whole, its block.
    fn lacking(&self) -> usize
        requires { IsPart self.now }
        ensures some { 0 < result }
        ensures header { length (part_of self.now) < 6 → length (part_of self.now) + result ≤ 6 }
        ensures block { 6 ≤ length (part_of self.now) → length (part_of self.now) + result ≤ count_of (part_of self.now) + 1 }
    {
        if self.header.len() < HEADER {
            return HEADER - self.header.len();
        }
        self.count() + 1 - HEADER - self.body.len()
    }

    // The count in the header.
    fn count(&self) -> usize
        requires { 4 ≤ length self.now.header.items }
        ensures value { result ≡ count_of (part_of self.now) }
        ensures word { result < 2 ^ 16 }
    {
        usize::from(LittleEndian::read_u16(&self.header.as_slice()[2..]))
    }

    // Adds bytes to the block under way: to its header until that is whole, and then behind it.
    fn put(&mut self, bytes: &[u8]) -> Result<(), AllocError>
        requires { IsSplit self.old.header.items self.old.body.items }
        ensures added { OnOk result (part_of self.new ≡ part_of self.old ++ bytes.now) }
        ensures split { OnOk result (IsSplit self.new.header.items self.new.body.items) }
        ensures kept { self.new.blocks ≡ self.old.blocks }
        ensures places { self.new.places ≡ self.old.places }
        ensures place { self.new.place ≡ self.old.place }
    {
        let room = self.header.remaining_capacity();
        let (header, body) = bytes.split_at(bytes.len().min(room));
        let _ = self.header.try_extend_from_slice(header);
        self.body.extend_from_slice(body)
    }

    // Ends the block under way, whose last byte is its checksum.
    fn end_block(&mut self, address: u16) -> Result<(), AllocError>
        requires some { 0 < length self.old.body.items }
        requires within { self.old.place + length (part_of self.old) ≤ tape_limit }
        ensures added { OnOk result (self.new.blocks.items
            ≡ self.old.blocks.items ++ block_at address (take (length self.old.body.items - 1) self.old.body.items) ∷ []) }
        ensures places { OnOk result (self.new.places.items ≡ self.old.places.items ++ self.old.place ∷ []) }
        ensures place { OnOk result (self.new.place ≡ self.old.place + (6 + length self.old.body.items)) }
        ensures header { OnOk result (self.new.header.items ≡ []) }
        ensures body { OnOk result (self.new.body.items ≡ []) }
    {
        self.body.pop();
        let bytes = mem::replace(&mut self.body, Vec::new(self.alloc));
        self.header.clear();
        self.add(Block { address, bytes })
    }

    // Adds a block, which begins at the place so far.
    fn add(&mut self, block: Block) -> Result<(), AllocError>
        requires within { self.old.place ≤ tape_limit }
        ensures blocks { OnOk result (self.new.blocks.items ≡ self.old.blocks.items ++ block ∷ []) }
        ensures places { OnOk result (self.new.places.items ≡ self.old.places.items ++ self.old.place ∷ []) }
        ensures place { OnOk result (self.new.place ≡ self.old.place + (7 + length block.bytes)) }
        ensures header { self.new.header ≡ self.old.header }
        ensures body { self.new.body ≡ self.old.body }
    {
        self.places.push(self.place as u32)?;
        self.place += FRAME + block.bytes.len();
        self.blocks.push(block)?;
        Ok(())
    }

    /// How many bytes more every tape has that begins so, at least.
    pub(crate) fn needs(&self) -> usize
        requires { IsPart self.now }
        ensures some { 0 < result }
        ensures known { (fed more : List ℕ) (blocks : List BlockValue) (start : ℕ) → IsReadBy self.now fed → IsTape (fed ++ more) blocks start
            → result ≤ length more }
    {
        let there = self.header.len() + self.body.len();
        if self.header.len() < 4 {
            return FRAME - there;
        }
        let count = self.count();
        if count == HEADER {
            FRAME - there
        } else {
            count + 1 + FRAME - there
        }
    }

    /// The fault where nothing follows.
    pub(crate) fn missing(&self) -> Fault
        requires { IsPart self.now }
        ensures { (fed : List ℕ) → IsReadBy self.now fed → result ≡ missing_fault fed self.now.place }
    {
        let why = if self.header.is_empty() {
            Why::NoTransfer
        } else {
            Why::Cut
        };
        Fault::new(self.place, why)
    }
}
