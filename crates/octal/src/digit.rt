ghost use Rattle.std.specs.Prelude.{◌≡◌, if◌then◌else◌};
ghost use Rattle.octal.specs.Octal.{is_digit, pushed};

/// The number `value` with the digit `character` typed after it: `(8 * value + digit) % 65536`,
/// so that what passes sixteen bits falls off at the left.
///
/// `None` exactly where `character` is none of `0` to `7`.
pub fn with_digit(value: u16, character: u8) -> Option<u16>
    ensures { result ≡ (if is_digit character then Some (pushed value character) else None) }
{
    match character {
        b'0'..=b'7' => {
            let digit = character - b'0';
            Some(((8 * u32::from(value) + u32::from(digit)) % 65536) as u16)
        }
        _ => None,
    }
}
