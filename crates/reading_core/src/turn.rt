use crate::phase::{End, Phase};

/// What the table answers to what is heard. No turn stores, and none starts anything.
#[derive(Clone, Copy)]
pub enum Turn {
    /// Nothing is sent, the host listens on in this phase.
    Listen(Phase),

    /// This character is sent, then its answer is awaited in this phase.
    Key(u8, Phase),

    /// This number is what the word under way holds: it counts as read, and the word is closed.
    Read(u16),

    /// This number is not believed yet: the word is closed and looked at once more.
    Again(u16),

    /// At the prompt, between words: the next word, or the end.
    Next,

    /// The life ends.
    Stop(End),

    /// A character that the phase does not list.
    Stray,

    /// Nothing came where an answer was due.
    Timeout,
}
