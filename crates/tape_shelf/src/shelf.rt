ghost use Rattle.std.specs.Prelude.{◌≡◌, ℕ, List, IfErr, IfOk, IfSome, OnOk, ⊤};
ghost use Rattle.std.specs.Io.KnownBytes.{Keeps};
ghost use Rattle.tape_shelf.specs.declared.shelf.ShelfFault.TheVariants.{PartIsThere, Write};
ghost use Rattle.tape_shelf.specs.FoundPart.{AreFoundInPart, FillBlocks, IsRefusedPart};
ghost use Rattle.tape_shelf.specs.Shelf.{IsPutFault, Reserve, NotReserved, Resume, NotResumed, add_step, put_step};
ghost use Rattle.tape_shelf.specs.ShelfTold.{ShelfTold, IsDone, untold_shelf};

use request_values::AddressRange;
use std::alloc::Global;

/// Why a tape can't be put somewhere.
#[derive(Clone, Copy)]
pub enum ShelfFault {
    /// Something is there already.
    IsThere,

    /// What a save read that did not come to its end is there. It is as it was.
    PartIsThere,

    /// What is there is nothing that a save of these words left. It is as it was.
    NotOfSave,

    /// Nothing can be made or written there.
    Write,

    /// A growth of memory was refused.
    Memory,
}

/// Where the tape of a save goes.
pub trait Shelf {
    /// What was asked so far, in its order, with what came of it, the disk on which the tape goes, and the text
    /// that an earlier save left there; as far as the type tells.
    ghost told: { Self → ShelfTold } = { λ _. untold_shelf };

    /// Whether the folder of the room was opened under a name, and nothing was done with it since.
    ghost is_opened_as: { Self → List ℕ → Type 0 } = { λ _ _. ⊤ };

    /// Takes the room of so many bytes for a tape, where there is none yet. `NotOfSave` does not come; where
    /// `PartIsThere` comes, what was left is as it was.
    fn reserve(&mut self, alloc: Global, length: usize) -> Result<(), ShelfFault>
        ensures left { IfErr result (λ fault. fault ≡ PartIsThere → Keeps (told self.old).left (told self.new).left) }
        ensures done { OnOk result ((folder : List ℕ) × is_opened_as self.new folder × IsDone folder (Reserve length) (told self.old) (told self.new)) }
        ensures failed { IfErr result (λ fault. (folder : List ℕ) → IsDone folder (NotReserved length fault) (told self.old) (told self.new)) };

    /// Goes on with what an earlier save of these words left, and answers the numbers of its complete blocks of 512
    /// bytes. Nothing is added yet: these blocks are the first that are to be added again.
    ///
    /// `PartIsThere` where it can't be read, or somebody else holds it; `NotOfSave` where it is none of these words; `Write`
    /// where its folder can't be opened or brought to the disk. `IsThere` does not come.
    fn resume(&mut self, alloc: Global, range: AddressRange) -> Result<Vec<u16>, ShelfFault>
        ensures found { IfOk result (λ found. FillBlocks range found.items) }
        ensures left { IfOk result (λ found. IfSome (told self.old).left (λ text. AreFoundInPart range text found.items)) }
        ensures done { IfOk result (λ found. (folder : List ℕ) × is_opened_as self.new folder
            × IsDone folder (Resume found.items) (told self.old) (told self.new)) }
        ensures refused { IfErr result (IsRefusedPart range (told self.old).left) }
        ensures failed { IfErr result (λ fault. (folder : List ℕ) → IsDone folder (NotResumed fault) (told self.old) (told self.new)) };

    /// Adds the text of a block, behind what was added before, and brings it to where a loss of power leaves
    /// it. The one fault is `Write`.
    fn add(&mut self, text: &[u8]) -> Result<(), ShelfFault>
        ensures fault { IfErr result (λ fault. fault ≡ Write) }
        ensures opened { (folder : List ℕ) → is_opened_as self.old folder → is_opened_as self.new folder }
        ensures done { (folder : List ℕ) → IsDone folder (add_step text.now result) (told self.old) (told self.new) };

    /// Adds the last text of a tape, and gives the tape its place, whole or not at all, and in place of
    /// nothing. `Memory` does not come.
    fn put(&mut self, text: &[u8]) -> Result<(), ShelfFault>
        ensures fault { IfErr result IsPutFault }
        ensures done { (folder : List ℕ) → is_opened_as self.old folder → IsDone folder (put_step text.now result) (told self.old) (told self.new) };
}
