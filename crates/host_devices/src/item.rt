use host_core::{Heard, Word};

/// One thing that was said on a line.
#[derive(Clone, Copy)]
pub enum Item {
    /// This character was sent to the console.
    Sent(u8),

    /// This was heard: a character, or that none came.
    Heard(Heard),
}

/// One thing that a keeper keeps.
#[derive(Clone, Copy)]
pub enum Kept {
    /// This word is verified.
    Word(Word),

    /// The start mark: `G` is about to be sent.
    Go,
}
