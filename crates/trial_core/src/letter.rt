/// The small letter that a trial types last. It is no command of the console, and as a capital none either.
pub(crate) const SMALL_LETTER: u8 = b'a';

/// What a console makes of it that folds small letters to capitals.
pub(crate) const CAPITAL_LETTER: u8 = b'A';

/// What was seen of small letters.
#[derive(Clone, Copy)]
pub enum SmallLetters {
    /// None was typed, or no whole answer that begins with the letter came.
    NotKnown,

    /// The letter came back as it was typed.
    Kept,

    /// The letter came back as a capital.
    Folded,
}
