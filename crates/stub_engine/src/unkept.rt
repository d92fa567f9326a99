ghost use Rattle.std.specs.Prelude.{None};

use host_devices::{Keep, KeepFault};
use tape_image::Word;

/// A keeper that keeps nothing: a stub's words are no progress of the load.
#[derive(Drop)]
pub(crate) struct Unkept;

impl Keep for Unkept {
    ghost fault_count = { λ _. 0 };

    ghost last_fault = { λ _. None };

    fn add(&mut self, _word: Word) -> Result<(), KeepFault> {
        Ok(())
    }

    fn mark(&mut self) -> Result<(), KeepFault> {
        Ok(())
    }

    fn failures(&self) -> u64 {
        0
    }

    fn failed(&self) -> bool {
        false
    }
}
