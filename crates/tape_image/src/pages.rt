ghost use Rattle.std.specs.Prelude.{◌≡◌, ◌+◌, ◌*◌, ◌<◌, ◌≤◌, length, IfOk, All};
ghost use Rattle.std.specs.FinMap.{empty, get};
ghost use Rattle.tape_values.specs.Block.{IsBlock, block_at};
ghost use Rattle.tape_image.specs.Image.{byte_at, byte_in};
ghost use Rattle.tape_image.specs.Pages.{IsLaid};
ghost use Rattle.tape_image.specs.Plan.{words_of};

use crate::page::{PAGE, Page};
use crate::word::Word;
use std::alloc::{AllocError, Global};
use std::marker::Model;
use tape_values::Block;

// How many pages memory has below 160000 (octal).
const PAGES: usize = 112;

/// The image of blocks, as a table of pages that are made where a block touches them.
///
/// Contracts see the image.
#[derive(Drop)]
pub(crate) struct Pages {
    table: Vec<Option<Box<Page>>>,
}

impl Model for Pages {
    ghost use Rattle.std.specs.Prelude.{◌≡◌, length};
    ghost use Rattle.std.specs.Coded.{coded_ℕ};
    ghost use Rattle.std.specs.FinMap.{code};
    ghost use Rattle.tape_values.specs.Block.{top};
    ghost use Rattle.tape_image.specs.Image.{Image, image_below};
    ghost use Rattle.tape_image.specs.Pages.{byte_in_table};

    ghost Value = { Image };

    ghost coded = { code coded_ℕ coded_ℕ };

    ghost view = { λ p. image_below (byte_in_table p.table.items) top };

    ghost invariant = { λ p. length p.table.items ≡ 112 };
}

impl Pages {
    /// The pages of no block. The one error is want of memory, for the table.
    pub(crate) fn new(alloc: Global) -> Result<Pages, AllocError>
        ensures { IfOk result (λ pages. pages ≡ empty) }
    {
        let mut table = Vec::with_capacity(alloc, PAGES)?;
        for _ in 0..PAGES {
            table.push(None)?;
        }
        Ok(Pages { table })
    }

    /// Lays the blocks over the image in their order. The one error is want of memory, for a page.
    pub(crate) fn lay_blocks(&mut self, alloc: Global, blocks: &[Block]) -> Result<(), AllocError>
        requires { All IsBlock blocks.now }
        ensures { IfOk result (λ _. IsLaid (byte_at blocks.now) self.old self.new) }
    {
        for block in blocks {
            self.lay(alloc, block.address, &block.bytes)?;
        }
        Ok(())
    }

    // Lays the bytes over the image, the first at the address: a run of them for each page.
    fn lay(&mut self, alloc: Global, address: u16, bytes: &[u8]) -> Result<(), AllocError>
        requires { IsBlock (block_at address bytes.now) }
        ensures { IfOk result (λ _. IsLaid (byte_in (block_at address bytes.now)) self.old self.new) }
    {
        let address = address as usize;
        let end = address + bytes.len();
        for number in address / PAGE..end.div_ceil(PAGE) {
            let base = number * PAGE;
            let first = base.max(address);
            let last = (base + PAGE).min(end);
            self.lay_run(
                alloc,
                number,
                first - base,
                &bytes[first - address..last - address],
            )?;
        }
        Ok(())
    }

    // Lays the run over the page of this number, its first byte at the offset. The page is made if it
    // is not there.
    fn lay_run(
        &mut self,
        alloc: Global,
        number: usize,
        offset: usize,
        run: &[u8],
    ) -> Result<(), AllocError>
        requires page { number < 112 }
        requires within { offset + length run.now ≤ 512 }
        ensures { IfOk result (λ _. IsLaid (byte_in (block_at (512 * number + offset) run.now)) self.old self.new) }
    {
        let mut page = match self.table[number].take() {
            Some(page) => page,
            None => Box::new(alloc, Page::empty())?,
        };
        page.lay(offset, run);
        self.table[number] = Some(page);
        Ok(())
    }

    /// The words of the image, in the order of their addresses. The one error is want of memory for
    /// them.
    pub(crate) fn words(&self, alloc: Global) -> Result<Vec<Word>, AllocError>
        ensures { IfOk result (λ words. words.items ≡ words_of self.now) }
    {
        let mut words = Vec::new(alloc);
        for (number, page) in self.table.iter().enumerate() {
            if let Some(page) = page {
                page.put_words(number, &mut words)?;
            }
        }
        Ok(words)
    }

    /// The image's byte at the address, if it has one there.
    pub(crate) fn byte_at(&self, address: u16) -> Option<u8>
        ensures { result ≡ get self.now address }
    {
        let address = address as usize;
        let page = self.table.get(address / PAGE)?.as_ref()?;
        page.byte_at(address % PAGE)
    }
}
