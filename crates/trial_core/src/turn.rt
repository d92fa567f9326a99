use crate::phase::{End, Phase};

/// What the table answers to what is heard. No turn ends a line, and none starts anything.
#[derive(Clone, Copy)]
pub enum Turn {
    /// Nothing is sent, the host listens on in this phase.
    Listen(Phase),

    /// This character is sent, then its answer is awaited in this phase.
    Key(u8, Phase),

    /// The life ends.
    Stop(End),

    /// A character that the phase does not list.
    Stray,

    /// Nothing came where an answer was due.
    Timeout,
}
