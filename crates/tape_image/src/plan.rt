ghost use Rattle.std.specs.Prelude.{◌≡◌, [], ◌∷◌, IfOk};
ghost use Rattle.std.specs.FinMap.{empty, get};
ghost use Rattle.tape_values.specs.Tape.{TapeValue};
ghost use Rattle.tape_image.specs.Image.{IsImageOf};
ghost use Rattle.tape_image.specs.Plan.{AreTheWordsOf, IsPlan, blocks_of_all, plan_of, plan_of_all, plan_with, program_start, starting};
ghost use Rattle.tape_image.specs.Overlay.{MakesOverlay};

use crate::pages::Pages;
use crate::start::{Start, program_start};
use crate::word::Word;
use std::alloc::{AllocError, Global};
use std::marker::Model;
use std::slice;
use tape_values::{Memory, Tape};

/// What a host types to load a tape: the words of the tape's image, and the program's start.
///
/// Contracts see the image as a finite map from addresses to bytes, the list of the words and the
/// start, and no block. Inside, a plan keeps the image in pages.
#[derive(Drop)]
pub struct Plan {
    pages: Pages,
    words: Vec<Word>,
    start: Option<u16>,
}

impl Model for Plan {
    ghost use Rattle.tape_image.specs.Plan.{PlanValue, plan_code, IsPlan};

    ghost Value = { PlanValue };

    ghost coded = { plan_code };

    ghost view = { λ p. record { image = p.pages; words = p.words.items; start = p.start } };

    ghost invariant = { λ p. IsPlan (record { image = p.pages; words = p.words.items; start = p.start }) };
}

impl Plan {
    /// The plan of the tape. The one error is want of memory, for the pages or for the words.
    pub fn of(alloc: Global, tape: &Tape) -> Result<Plan, Memory>
        ensures plan { IfOk result (λ plan. plan ≡ plan_of tape.now) }
        ensures bytes { IfOk result (λ plan. IsImageOf tape.now.blocks plan.image) }
        ensures words { IfOk result (λ plan. AreTheWordsOf plan.image plan.words) }
        ensures sound { IfOk result IsPlan }
    {
        Plan::of_all(alloc, slice::from_ref(tape))
    }

    /// The plan of several tapes as one: the image that the blocks of all tapes make, joined in order,
    /// and the start of the last tape alone. Of no tape the plan has no words and no start. The one
    /// error is want of memory, for the pages or for the words.
    pub fn of_all(alloc: Global, tapes: &[Tape]) -> Result<Plan, Memory>
        ensures plan { IfOk result (λ plan. plan ≡ plan_of_all tapes.now) }
        ensures bytes { IfOk result (λ plan. IsImageOf (blocks_of_all tapes.now) plan.image) }
        ensures words { IfOk result (λ plan. AreTheWordsOf plan.image plan.words) }
        ensures sound { IfOk result IsPlan }
        ensures none { tapes.now ≡ [] → IfOk result (λ plan. plan ≡ record { image = empty; words = []; start = None }) }
        ensures one { (tape : TapeValue) → tapes.now ≡ tape ∷ [] → IfOk result (λ plan. plan ≡ plan_of tape) }
    {
        let mut pages = Pages::new(alloc)?;
        let mut start = None;
        for tape in tapes {
            pages.lay_blocks(alloc, tape.blocks())?;
            start = program_start(tape.start());
        }
        Ok(Plan::of_pages(alloc, pages, start)?)
    }

    // The plan of the image in the pages, with this start. The error comes where there is no memory for
    // the words.
    fn of_pages(alloc: Global, pages: Pages, start: Option<u16>) -> Result<Plan, AllocError>
        requires { IsPlan (plan_with pages start) }
        ensures plan { IfOk result (λ plan. plan ≡ plan_with pages start) }
        ensures words { IfOk result (λ plan. AreTheWordsOf plan.image plan.words) }
        ensures sound { IfOk result IsPlan }
    {
        let words = pages.words(alloc)?;
        Ok(Plan {
            pages,
            words,
            start,
        })
    }

    /// The same words with the start that is asked for in place of the tape's.
    pub fn starting(self, start: Start) -> Plan
        ensures value { result ≡ starting self start }
        ensures sound { IsPlan result }
    {
        let mut plan = self;
        match start {
            Start::OfTape => {}
            Start::At(address) => plan.start = program_start(address),
            Start::Nowhere => plan.start = None,
        }
        plan
    }

    /// The words that have a byte of the image or two, in the order of their addresses; at most
    /// 28,672. Merged into a memory in any order they lay the image over it.
    pub fn words(&self) -> &[Word]
        ensures value { result.now ≡ self.now.words }
        ensures overlay { MakesOverlay self.now.image self.now.words }
        ensures sound { IsPlan self.now }
    {
        self.words.as_slice()
    }

    /// The even address where the program begins. None where the tape's start address is odd, which
    /// means: do not start.
    pub fn start(&self) -> Option<u16>
        ensures value { result ≡ self.now.start }
        ensures sound { IsPlan self.now }
    {
        self.start
    }

    /// The image's byte at the address, if it has one there.
    pub fn byte_at(&self, address: u16) -> Option<u8>
        ensures value { result ≡ get self.now.image address }
        ensures sound { IsPlan self.now }
    {
        self.pages.byte_at(address)
    }
}
