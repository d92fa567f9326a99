//! Which digits are typed.
ghost use Rattle.std.specs.Prelude.{◌≡◌};
ghost use Rattle.trial_core.specs.Digits.{TellsApart, digits_for};

/// The number whose last three octal digits a trial types into a word that holds `old`: 123, or 321
/// where the word holds what one, two or three of these digits would make of it.
pub fn digits_for(old: u16) -> u16
    ensures value { result ≡ digits_for old }
    ensures apart { TellsApart old result }
{
    match old {
        0o1 | 0o12 | 0o123 => 0o321,
        _ => 0o123,
    }
}
