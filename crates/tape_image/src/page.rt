ghost use Rattle.std.specs.Prelude.{◌≡◌, ◌+◌, ◌<◌, ◌≤◌, length, IfOk};
ghost use Rattle.std.specs.FinMap.{empty, get};
ghost use Rattle.tape_values.specs.Block.{block_at};
ghost use Rattle.tape_image.specs.Image.{byte_in};
ghost use Rattle.tape_image.specs.Pages.{AddsPageWords, IsLaid};

use crate::word::Word;
use std::alloc::AllocError;
use std::marker::Model;

/// How many addresses a page has.
pub(crate) const PAGE: usize = 512;

/// The bytes that an image has for 512 addresses in a row, each with a mark that says whether it is
/// one of the image's.
///
/// Contracts see an image: the marked bytes by their offsets in the page, 0 to 511.
#[derive(Drop)]
pub(crate) struct Page {
    marks: [bool; PAGE],
    bytes: [u8; PAGE],
}

impl Model for Page {
    ghost use Rattle.std.specs.Coded.{coded_ℕ};
    ghost use Rattle.std.specs.FinMap.{code};
    ghost use Rattle.tape_image.specs.Image.{Image, image_below};
    ghost use Rattle.tape_image.specs.Pages.{marked_byte};

    ghost Value = { Image };

    ghost coded = { code coded_ℕ coded_ℕ };

    ghost view = { λ p. image_below (marked_byte p.marks p.bytes) 512 };
}

impl Page {
    /// A page with no byte of an image.
    pub(crate) fn empty() -> Page
        ensures { result ≡ empty }
    {
        Page {
            marks: [false; PAGE],
            bytes: [0; PAGE],
        }
    }

    /// Lays the run over the page, its first byte at the offset.
    pub(crate) fn lay(&mut self, offset: usize, run: &[u8])
        requires { offset + length run.now ≤ 512 }
        ensures { IsLaid (byte_in (block_at offset run.now)) self.old self.new }
    {
        let end = offset + run.len();
        self.bytes[offset..end].copy_from_slice(run);
        self.marks[offset..end].fill(true);
    }

    /// Appends the words of the page, which is the one of this number. The one error is want of memory
    /// for them.
    pub(crate) fn put_words(&self, number: usize, words: &mut Vec<Word>) -> Result<(), AllocError>
        requires { number < 112 }
        ensures { IfOk result (λ _. AddsPageWords number self.now words.old.items words.new.items) }
    {
        for place in 0..PAGE / 2 {
            let offset = 2 * place;
            let address = (PAGE * number + offset) as u16;
            let low = self.byte_at(offset);
            let high = self.byte_at(offset + 1);
            if let Some(word) = Word::of_bytes(address, low, high) {
                words.push(word)?;
            }
        }
        Ok(())
    }

    /// The image's byte at the offset, if it has one there.
    pub(crate) fn byte_at(&self, offset: usize) -> Option<u8>
        requires { offset < 512 }
        ensures { result ≡ get self.now offset }
    {
        self.marks[offset].then_some(self.bytes[offset])
    }
}
