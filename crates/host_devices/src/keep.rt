ghost use Rattle.std.specs.Prelude.{◌≡◌, ℕ, List, [], ◌∷◌, ◌↔◌, Option, None, IsTrue, IsSome, OnOk, OnErr, ⊤};
ghost use Rattle.host_devices.specs.Told.{Gains, SaysNothing};
ghost use Rattle.host_devices.specs.declared.item.Kept.{Kept};
ghost use Rattle.host_devices.specs.declared.fault.KeepFault.{KeepFault};
ghost use Rattle.host_devices.specs.Failures.{count_after, fault_of};

use crate::fault::KeepFault;
use crate::item::Kept;
use host_core::Word;

/// A keeper of a load's progress, which a later life can go on from.
///
/// A call that fails is counted, and what is kept stays as it was where the type tells it.
pub trait Keep {
    /// What is kept so far, the oldest first; None where the type doesn't tell.
    ghost told: { Self → Option (List Kept) } = { λ _. None };

    /// What keeping a thing makes of the keeper, where the type says it.
    ghost keeps: { Self → Kept → Self → Type 0 } = { λ _ _ _. ⊤ };

    /// What a call that failed to keep a thing makes of the keeper, where the type says it.
    ghost fails: { Self → Kept → Self → Type 0 } = { λ _ _ _. ⊤ };

    /// How many calls have failed so far; at its largest value it stays.
    ghost fault_count: { Self → ℕ };

    /// The fault of the last call that takes `&mut self`, if it failed.
    ghost last_fault: { Self → Option KeepFault };

    /// Keeps one more verified word.
    fn add(&mut self, word: Word) -> Result<(), KeepFault>
        ensures kept { OnOk result (Gains (told self.old) (told self.new) (Kept.Word word ∷ [])) }
        ensures not_kept { OnErr result (SaysNothing (told self.old) (told self.new)) }
        ensures keeps { OnOk result (keeps self.old (Kept.Word word) self.new) }
        ensures fails { OnErr result (fails self.old (Kept.Word word) self.new) }
        ensures counted { fault_count self.new ≡ count_after (fault_count self.old) result }
        ensures fault { last_fault self.new ≡ fault_of result };

    /// Keeps the start mark.
    fn mark(&mut self) -> Result<(), KeepFault>
        ensures kept { OnOk result (Gains (told self.old) (told self.new) (Kept.Go ∷ [])) }
        ensures not_kept { OnErr result (SaysNothing (told self.old) (told self.new)) }
        ensures keeps { OnOk result (keeps self.old Kept.Go self.new) }
        ensures fails { OnErr result (fails self.old Kept.Go self.new) }
        ensures counted { fault_count self.new ≡ count_after (fault_count self.old) result }
        ensures fault { last_fault self.new ≡ fault_of result };

    /// How many calls have failed so far; at its largest value it stays.
    fn failures(&self) -> u64
        ensures { result ≡ fault_count self.now };

    /// Whether the last call that takes `&mut self` failed.
    fn failed(&self) -> bool
        ensures { IsTrue result ↔ IsSome (last_fault self.now) };
}
