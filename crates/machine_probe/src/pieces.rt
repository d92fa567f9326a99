/// Equal pieces of memory, one after another.
#[derive(Clone, Copy)]
pub struct Pieces {
    /// The bytes of each.
    pub bytes: u16,

    /// How many they are.
    pub count: u16,
}

/// All that can be memory, in pieces of 4000 (octal) bytes.
pub const LARGE: Pieces = Pieces {
    bytes: 0o4000,
    count: 28,
};

/// A large piece, in pieces of 100 (octal) bytes.
pub const SMALL: Pieces = Pieces {
    bytes: 0o100,
    count: 32,
};

/// A small piece, word by word.
pub const WORDS: Pieces = Pieces {
    bytes: 2,
    count: 32,
};
