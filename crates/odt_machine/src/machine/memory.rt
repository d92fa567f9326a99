ghost use Rattle.std.specs.Prelude.{◌≡◌, ◌*◌, if◌then◌else◌, length};
ghost use Rattle.std.specs.Bool.{OnTrue, OnFalse};
ghost use Rattle.odt_machine.specs.Laws.{IsStored};
ghost use Rattle.odt_machine.specs.Machine.{is_word, word_at, stored, IsMachine};

use super::Odt;

impl Odt {
    /// The first address past the memory, in bytes: twice the number of words.
    pub fn top(&self) -> u32
        ensures { result ≡ 2 * length self.now.memory }
    {
        2 * self.memory.len() as u32
    }

    /// The word at an even address below `top()`; `None` at every other address.
    pub fn peek(&self, address: u16) -> Option<u16>
        ensures { result ≡ (if is_word self.now.memory address then Some (word_at self.now.memory address) else None) }
    {
        if !self.has_word(address) {
            return None;
        }
        Some(self.memory[usize::from(address / 2)])
    }

    /// Stores a word at an even address below `top()` and answers true; at any other address it
    /// answers false and changes nothing.
    pub fn put(&mut self, address: u16, value: u16) -> bool
        ensures judged { result ≡ is_word self.old.memory address }
        ensures done { OnTrue result (self.new ≡ record self.old { memory = stored self.old.memory address value }) }
        ensures refused { OnFalse result (self.new ≡ self.old) }
        ensures only { OnTrue result (IsStored self.old.memory self.new.memory address value) }
        ensures machine { IsMachine self.new }
    {
        if !self.has_word(address) {
            return false;
        }
        self.memory[usize::from(address / 2)] = value;
        true
    }

    /// Whether a word lies at the address: it is even and below the top.
    pub(super) fn has_word(&self, address: u16) -> bool
        ensures { result ≡ is_word self.now.memory address }
    {
        address % 2 == 0 && u32::from(address) < self.top()
    }
}
