ghost use Rattle.std.specs.Prelude.{◌≡◌, ◌≤◌};
ghost use Rattle.machine_memory.specs.Options.{words_asked};

/// Which words are tested, and how patient the test is.
#[derive(Clone, Copy)]
pub struct MemoryOptions {
    /// The address of the first word: even, and below 160000 (octal).
    pub from: u16,

    /// The last address that may be tested: so, too, and not below the first.
    pub to: u16,

    /// Every so manieth word is tested, from the first one on: 1 or more.
    pub every: u16,

    /// How many mishaps each of the hosts survives.
    pub patience: u32,
}

impl MemoryOptions {
    /// How many words are tested, where all of them answer.
    pub(crate) fn count(self) -> u32
        requires some { 1 ≤ self.every }
        requires order { self.from ≤ self.to }
        ensures { result ≡ words_asked self }
    {
        u32::from(self.to - self.from) / (2 * u32::from(self.every)) + 1
    }
}
