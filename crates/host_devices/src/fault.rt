use thiserror::Error;

/// How a line failed.
#[derive(Clone, Copy, Debug, PartialEq, Error)]
pub enum LineFault {
    /// No connection could be made.
    #[error("cannot connect")]
    Connect,

    /// A character could not be sent.
    #[error("cannot send")]
    Send,

    /// The other end closed the line.
    #[error("the line was closed")]
    Closed,

    /// Nothing more could be received.
    #[error("cannot receive")]
    Receive,

    /// The line has no room for what would be said.
    #[error("no room on the line")]
    Full,

    /// So many characters in a row were none of the console's.
    #[error("nothing but noise on the line")]
    Noise,
}

/// How a keeper failed.
#[derive(Clone, Copy, Debug, Error)]
pub enum KeepFault {
    /// The progress could not be written.
    #[error("cannot keep the progress")]
    Write,

    /// There is no room for more progress.
    #[error("no room to keep the progress")]
    Full,
}
