/// What is printed of checked tapes beside their usual text.
#[derive(Clone, Copy)]
pub struct CheckOptions {
    /// Whether each block is listed.
    pub blocks: bool,
}

/// How a load is to go about it.
#[derive(Clone, Copy)]
pub struct LoadOptions {
    /// How many mishaps the host survives.
    pub patience: u32,

    /// Whether each word is looked at again, also those that the record says were verified.
    pub recheck: bool,

    /// Whether a stub in the machine takes the words, where one serves.
    pub fast: bool,

    /// Whether the host is careful, as one at a line that changes characters.
    pub careful: bool,
}
