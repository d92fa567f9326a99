//! The characters of the console, in ASCII.

/// Ends the answer to a return, and closes an open word when typed.
pub const CARRIAGE_RETURN: u8 = b'\r';

/// Follows a carriage return in an answer.
pub const LINE_FEED: u8 = b'\n';

/// What the console prints when it waits for an address.
pub(crate) const PROMPT: u8 = b'@';

/// What the console prints for an illegal key, and where no memory answers.
pub(crate) const QUESTION_MARK: u8 = b'?';

/// Stands after the digits of an opened word.
pub const SPACE: u8 = b' ';

/// Opens the word at the address typed before it.
pub(crate) const SLASH: u8 = b'/';

/// Starts the program at the address typed before it.
pub(crate) const GO: u8 = b'G';
