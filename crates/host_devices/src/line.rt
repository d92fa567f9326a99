ghost use Rattle.std.specs.Prelude.{◌≡◌, ℕ, List, [], ◌∷◌, ◌↔◌, Option, None, IsTrue, IsSome, IfOk, OnOk, OnErr};
ghost use Rattle.host_devices.specs.Told.{Gains, SaysNothing};
ghost use Rattle.host_devices.specs.declared.item.Item.{Item};
ghost use Rattle.host_devices.specs.declared.fault.LineFault.{LineFault};
ghost use Rattle.host_devices.specs.Failures.{count_after, fault_of};

use crate::fault::LineFault;
use crate::item::Item;
use host_core::Heard;

/// A line to the console, which takes and gives one character at a time.
///
/// A call that fails says and hears nothing, and is counted.
pub trait Line {
    /// What was sent and what was heard so far, the oldest first; None where the type doesn't tell.
    ghost told: { Self → Option (List Item) } = { λ _. None };

    /// How many calls have failed so far; at its largest value it stays.
    ghost fault_count: { Self → ℕ };

    /// The fault of the last call that takes `&mut self`, if it failed.
    ghost last_fault: { Self → Option LineFault };

    /// Sends a character to the console.
    fn send(&mut self, key: u8) -> Result<(), LineFault>
        ensures sent { OnOk result (Gains (told self.old) (told self.new) (Item.Sent key ∷ [])) }
        ensures not_sent { OnErr result (SaysNothing (told self.old) (told self.new)) }
        ensures counted { fault_count self.new ≡ count_after (fault_count self.old) result }
        ensures fault { last_fault self.new ≡ fault_of result };

    /// Waits for one character from the console, at most for the line's quiet time.
    fn hear(&mut self) -> Result<Heard, LineFault>
        ensures heard { IfOk result (λ heard. Gains (told self.old) (told self.new) (Item.Heard heard ∷ [])) }
        ensures not_heard { OnErr result (SaysNothing (told self.old) (told self.new)) }
        ensures counted { fault_count self.new ≡ count_after (fault_count self.old) result }
        ensures fault { last_fault self.new ≡ fault_of result };

    /// How many calls have failed so far; at its largest value it stays.
    fn failures(&self) -> u64
        ensures { result ≡ fault_count self.now };

    /// Whether the last call that takes `&mut self` failed.
    fn failed(&self) -> bool
        ensures { IsTrue result ↔ IsSome (last_fault self.now) };
}
