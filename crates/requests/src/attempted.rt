use endings::Status;

/// What a request came to that was attempted.
#[derive(Clone, Copy)]
pub struct Attempted {
    /// How the program ends.
    pub status: Status,

    /// How many characters of its machine's line came changed, as standard error was told.
    pub changed: u32,
}
