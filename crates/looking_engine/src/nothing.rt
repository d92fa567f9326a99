use engine::Keep;
use host_devices::KeepFault;

/// A keeper of a host of which nothing is to be kept.
#[derive(Drop)]
pub(crate) struct Nothing;

impl<N: Drop> Keep<N> for Nothing {
    ghost use Rattle.std.specs.Prelude.{None};

    ghost fails = { λ _ _ _. ⊥ };

    ghost fault_count = { λ _. 0 };

    ghost last_fault = { λ _. None };

    fn keep(&mut self, _item: N) -> Result<(), KeepFault> {
        Ok(())
    }
}
