use engine::Keep;
use host_devices::{KeepFault, Unwatched};
use memory_core::Borrowed;

/// Somebody who is told which word is under way.
pub trait WordWatch {
    /// The word at this address held this number, and may hold another one from now on, until it counts as tested.
    fn borrows(&self, word: Borrowed);
}

impl WordWatch for Unwatched {
    fn borrows(&self, _word: Borrowed) {}
}

impl<W: WordWatch> WordWatch for Option<W> {
    fn borrows(&self, word: Borrowed) {
        if let Some(watch) = self {
            watch.borrows(word);
        }
    }
}

/// A keeper that tells a watch of the words under way. What a step gives is kept before its keys are sent, so that the
/// number is told before it may be lost.
#[derive(Drop)]
pub struct Telling<'a, W: WordWatch> {
    /// Who is told.
    pub watch: &'a W,
}

impl<W: WordWatch> Keep<Borrowed> for Telling<'_, W> {
    ghost use Rattle.std.specs.Prelude.{None};

    ghost fails = { λ _ _ _. ⊥ };

    ghost fault_count = { λ _. 0 };

    ghost last_fault = { λ _. None };

    fn keep(&mut self, word: Borrowed) -> Result<(), KeepFault> {
        self.watch.borrows(word);
        Ok(())
    }
}
