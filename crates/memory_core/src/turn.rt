use crate::phase::{End, Phase};
use crate::seen::Seen;
use crate::stage::Stage;

/// What the table answers to what is heard. No turn starts anything.
#[derive(Clone, Copy)]
pub enum Turn {
    /// Nothing is sent, the host listens on in this phase.
    Listen(Phase),

    /// This character is sent, then its answer is awaited in this phase.
    Key(u8, Phase),

    /// One look at the word read this number: it is closed as it is, and looked at again.
    LooksAgain(u16),

    /// The word is open and this is known of it now: the stage's number is typed into it.
    Deposits(Stage),

    /// The word is open and this was read of it: it counts, and is closed.
    Counts(Seen),

    /// At the prompt after a deposit: the word under way is read back.
    ReadBack,

    /// At the prompt, between words: the word under way, or the end.
    Next,

    /// The life ends.
    Stop(End),

    /// A character that the phase does not list.
    Stray,

    /// Nothing came where an answer was due.
    Timeout,
}
