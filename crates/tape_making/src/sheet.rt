//! A sheet of memory.
ghost use Rattle.std.specs.Prelude.{◌≡◌, ℕ, [], ◌∷◌, ◌++◌, List, None, length, slice_index_or, IfOk};
ghost use Rattle.tape_values.specs.Block.{BlockValue, IsBlock, top};
ghost use Rattle.tape_making.specs.Sheet.{HoldsRows, bytes_on};

use std::alloc::{AllocError, Global};
use tape_values::{Block, TOP};

/// A byte for each address below 160000 (octal) that words were said for.
#[derive(Drop)]
pub struct Sheet {
    bytes: Vec<Option<u8>>,
}

impl Sheet {
    /// A sheet with no byte.
    pub(crate) fn new(alloc: Global) -> Result<Sheet, AllocError>
        ensures { IfOk result (HoldsRows []) }
    {
        Ok(Sheet {
            bytes: nothing(alloc, TOP)?,
        })
    }

    /// Lays a row over what the sheet has.
    pub(crate) fn lay(&mut self, row: &Block)
        requires size { length (bytes_on self.old) ≡ top }
        requires within { IsBlock row.now }
        ensures { (rows : List BlockValue) → HoldsRows rows self.old → HoldsRows (rows ++ row.now ∷ []) self.new }
    {
        let first = usize::from(row.address);
        for (offset, byte) in row.bytes.iter().enumerate() {
            self.bytes[first + offset] = Some(*byte);
        }
    }

    /// What the sheet has for each address, from 0 to 157777 (octal).
    pub fn bytes(&self) -> &[Option<u8>]
        ensures { result.now ≡ bytes_on self.now }
    {
        &self.bytes
    }
}

// So many addresses without a byte.
fn nothing(alloc: Global, size: usize) -> Result<Vec<Option<u8>>, AllocError>
    ensures size { IfOk result (λ bytes. length bytes.items ≡ size) }
    ensures none { IfOk result (λ bytes. (a : ℕ) → slice_index_or bytes.items a None ≡ None) }
{
    let mut bytes = Vec::new(alloc);
    bytes.resize(size, None)?;
    Ok(bytes)
}
