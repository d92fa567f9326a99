use crate::letter::SmallLetters;

/// What was seen of a thing that a console may do or not.
#[derive(Clone, Copy)]
pub enum Habit {
    /// It was not looked at.
    Unseen,

    /// The console does it.
    Yes,

    /// The console does not do it.
    No,

    /// It was seen both ways.
    Mixed,
}

/// What was seen of a console's style, and of small letters.
#[derive(Clone, Copy)]
pub struct Seen {
    /// One space stands before the digits of an opened word.
    pub space_before: Habit,

    /// Two carriage returns, in place of one, stand before the line feed.
    pub two_returns: Habit,

    /// An illegal key is echoed before the question mark.
    pub echo_illegal: Habit,

    /// A small letter comes through as it is typed.
    pub small_letters: SmallLetters,
}
