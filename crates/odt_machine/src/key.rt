ghost use Rattle.std.specs.Prelude.{◌≡◌};
ghost use Rattle.odt_machine.specs.Key.{key_of};

use crate::character::{CARRIAGE_RETURN, GO, SLASH};

/// What a typed character is to the console.
#[derive(Clone, Copy)]
pub enum Key {
    /// An octal digit, `0` to `7`.
    Digit,

    /// Carriage return, which closes an open word.
    Return,

    /// `/`, which opens a word.
    Slash,

    /// `G`, which starts the program.
    Go,

    /// Any other character, which no command of this console uses.
    Other,
}

impl Key {
    /// The key that `character` is.
    pub(crate) fn of(character: u8) -> Key
        ensures { result ≡ key_of character }
    {
        match character {
            b'0'..=b'7' => Key::Digit,
            CARRIAGE_RETURN => Key::Return,
            SLASH => Key::Slash,
            GO => Key::Go,
            _ => Key::Other,
        }
    }
}
