/// How an exchange ended.
#[derive(Clone, Copy)]
pub enum End {
    /// Every chunk was answered as it should be: the stub has halted.
    Complete,

    /// Something else was heard, or nothing for the quiet time. `Z` was typed last: it halts a stub.
    Broken,
}

/// What the host waits for.
#[derive(Clone, Copy)]
pub enum Phase {
    /// The line stays quiet: nothing was sent yet.
    Settle,

    /// The answer for the chunk under way: how many of its characters came, 0 to 127.
    Answer(u8),

    /// The line becomes quiet, behind a character that was not the one.
    Leave,

    /// Nothing more: the exchange is over.
    Ended(End),
}
