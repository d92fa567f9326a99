use crate::letter::SmallLetters;

/// How a trial ended.
#[derive(Clone, Copy)]
pub enum End {
    /// The three digits and `Z` were typed into the open word, and the console came back to its prompt.
    Tried,

    /// More mishaps than the patience. Digits may have been typed.
    GaveUp,

    /// Memory has no word at the address.
    NoWord,
}

/// What the host waits for. Places count digits that are typed from 1; in `Value` and in the answers to
/// `Z` they count from 0.
#[derive(Clone, Copy)]
pub enum Phase {
    /// The line becomes quiet.
    Settle,

    /// The answer to the `Z` that comes first, from place 0 to 5.
    Sync(u8),

    /// The echo of a digit of the word's address, place 1 to 6.
    Address(u8),

    /// The echo of `/`.
    Slash,

    /// The beginning of the reading.
    Before,

    /// The rest of the reading: how many of its digits came, 0 to 6.
    Value(u8),

    /// The echo of a digit that is typed into the open word, place 1 to 3.
    Typed(u8),

    /// The answer to the `Z` behind the digits, from place 0 to 5.
    Done(u8),

    /// The echo of the small letter that comes last.
    Letter,

    /// The rest of the answer to the letter, of which this was seen, from place 1 to 5.
    Refused(SmallLetters, u8),

    /// Nothing more: the life is over.
    Ended(End),
}
