ghost use Rattle.std.specs.Prelude.{◌≡◌, ℕ, ◌+◌, ◌/◌, ◌%◌, ◌^◌, ◌<◌, ◌≤◌, ◌↔◌, List, All, slice_index, IsTrue, IsSome, IfSome};
ghost use Rattle.octal.specs.Octal.{is_digit, octal_text, IsOct6};

use crate::digit::with_digit;
use std::fmt;

/// A word that is shown as its six octal digits.
#[derive(Clone, Copy)]
pub struct Octal(pub u16);

impl fmt::Display for Octal {
    ghost use Rattle.std.specs.Prelude.{Some};
    ghost use Rattle.octal.specs.Octal.{octal_text};

    ghost output = { λ word. Some (octal_text word.0) };

    fn fmt<W: fmt::Write>(&self, f: &mut fmt::Formatter<W>) -> fmt::Result {
        for digit in oct6(self.0) {
            f.write_char(char::from(digit))?;
        }
        Ok(())
    }
}

/// The octal text of `word`: six ASCII digits, the first `0` or `1`.
pub fn oct6(word: u16) -> [u8; 6]
    ensures text { result ≡ octal_text word }
    ensures is_octal { IsOct6 word result }
    ensures only_one { (other : List ℕ) → IsOct6 word other → other ≡ result }
{
    [
        digit_at(word, 15),
        digit_at(word, 12),
        digit_at(word, 9),
        digit_at(word, 6),
        digit_at(word, 3),
        digit_at(word, 0),
    ]
}

// The octal digit of `word` that begins `shift` bits from the right, as a character.
fn digit_at(word: u16, shift: u32) -> u8
    requires { shift < 16 }
    ensures { result ≡ 48 + word / 2 ^ shift % 8 }
{
    b'0' + ((word >> shift) % 8) as u8
}

/// The word that `text` is the octal text of.
///
/// `None` exactly where a character is none of `0` to `7`, or the first is above `1`.
pub fn read_oct6(text: &[u8; 6]) -> Option<u16>
    ensures some { IsSome result ↔ (All (λ c. IsTrue (is_digit c)) text.now × (slice_index text.now 0 ≤ 49)) }
    ensures exact { (word : ℕ) → (result ≡ Some word) ↔ IsOct6 word text.now }
    ensures gives_back { (word : ℕ) → word < 65536 → text.now ≡ octal_text word → result ≡ Some word }
    ensures only_text { IfSome result (λ word. text.now ≡ octal_text word) }
{
    if text[0] > b'1' {
        return None;
    }
    let mut word = 0;
    for character in text {
        word = with_digit(word, *character)?;
    }
    Some(word)
}
