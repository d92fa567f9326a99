//! How a character of a name is shown, so that it can't be an order to a terminal.
ghost use Rattle.std.specs.Prelude.{◌≡◌, ◌<◌, ◌+◌, ◌++◌, ◌∷◌, [], IsTrue};
ghost use Rattle.std.specs.Char.{is_control, digit_char};
ghost use Rattle.std.specs.Char.Escape.{escape_default};
ghost use Rattle.arrayvec.specs.ArrayString.{array_string_len};
ghost use Rattle.endings.specs.Failure.{shown_char};

use arrayvec::ArrayString;

/// A character as it is shown: four bytes at most, or an escape of six.
pub type ShownCharacter = ArrayString<6>;

/// A character as it is shown: a control character by its escape, any other as it is.
pub fn shown_character(character: char) -> ShownCharacter
    ensures { result.bytes ≡ shown_char character }
{
    if character.is_control() {
        return escape(character);
    }
    let mut bytes = [0u8; 4];
    let mut shown = ShownCharacter::new();
    shown.push_str(character.encode_utf8(&mut bytes));
    shown
}

// The escape of a control character: `\n`, `\r`, `\t`, or its code in hexadecimal.
fn escape(character: char) -> ShownCharacter
    requires { IsTrue (is_control character) }
    ensures { result.bytes ≡ escape_default character }
{
    let code = character as u32;
    let mut escape = ShownCharacter::new();
    push_ascii(&mut escape, b'\\');
    match code {
        9 => push_ascii(&mut escape, b't'),
        10 => push_ascii(&mut escape, b'n'),
        13 => push_ascii(&mut escape, b'r'),
        _ => {
            push_ascii(&mut escape, b'u');
            push_ascii(&mut escape, b'{');
            if code >= 16 {
                push_ascii(&mut escape, hex_digit(code / 16));
            }
            push_ascii(&mut escape, hex_digit(code % 16));
            push_ascii(&mut escape, b'}');
        }
    }
    escape
}

// Puts a character of ASCII behind an escape.
fn push_ascii(escape: &mut ShownCharacter, character: u8)
    requires is_ascii { character < 128 }
    requires room { array_string_len escape.old < 6 }
    ensures bytes { escape.new.bytes ≡ escape.old.bytes ++ character ∷ [] }
    ensures length { array_string_len escape.new ≡ array_string_len escape.old + 1 }
{
    escape.push(char::from(character));
}

// The hexadecimal digit of a number below 16.
fn hex_digit(number: u32) -> u8
    requires { number < 16 }
    ensures value { result ≡ digit_char number }
    ensures is_ascii { result < 128 }
{
    if number < 10 {
        b'0' + number as u8
    } else {
        b'a' + (number - 10) as u8
    }
}
