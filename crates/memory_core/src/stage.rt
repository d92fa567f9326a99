ghost use Rattle.std.specs.Prelude.{◌≡◌};
ghost use Rattle.memory_core.specs.Stage.{number_of, old_of};

/// What is known of the word under way.
#[derive(Clone, Copy)]
pub enum Stage {
    /// Nothing: no digit was typed into it.
    Unseen,

    /// One look read this number. It is believed once a second look reads the same; no digit was typed into the word.
    Once(u16),

    /// It held this number, and the complement is typed into it.
    Turned(u16),

    /// It held the first number, read as the second once the complement was typed into it, and what it held is typed
    /// into it again.
    Returned(u16, u16),
}

/// A word that may hold another number than it did before.
#[derive(Clone, Copy)]
pub struct Borrowed {
    /// Its address.
    pub address: u16,

    /// What it held.
    pub old: u16,
}

impl Stage {
    /// The number that is typed into the word.
    pub(crate) fn number(self) -> u16
        ensures { result ≡ number_of self }
    {
        match self {
            Stage::Unseen | Stage::Once(_) => 0,
            Stage::Turned(old) => u16::MAX.saturating_sub(old),
            Stage::Returned(old, _) => old,
        }
    }

    /// What the word held, where it may hold another number by now.
    pub(crate) fn old(self) -> Option<u16>
        ensures { result ≡ old_of self }
    {
        match self {
            Stage::Unseen | Stage::Once(_) => None,
            Stage::Turned(old) | Stage::Returned(old, _) => Some(old),
        }
    }
}
