/// How a life ended.
#[derive(Clone, Copy)]
pub enum End {
    /// Every word is read.
    Complete,

    /// More mishaps than the patience.
    GaveUp,

    /// No memory answers at this address.
    NoWord(u16),
}

/// What the host waits for. Places count the digits of an address from 1; in `Value` and in the
/// answers to `Z` and CR they count from 0.
#[derive(Clone, Copy)]
pub enum Phase {
    /// The line becomes quiet.
    Settle,

    /// The answer to `Z`, from place 0 to 5.
    Sync(u8),

    /// The echo of a digit of the word's address, place 1 to 6.
    Address(u8),

    /// The echo of `/`.
    Slash,

    /// The beginning of the reading.
    Before,

    /// The rest of the reading: the number so far, and how many of its digits came, 0 to 6.
    Value(u16, u8),

    /// The answer to the CR that closes the word, from place 0 to 3.
    Close(u8),

    /// The rest of a refusal of `/`, behind its `?`, from place 0 to 3.
    Refused(u8),

    /// Nothing more: the life is over.
    Ended(End),
}
