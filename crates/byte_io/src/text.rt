//! Numbers put at the end of a text that is being gathered.
ghost use Rattle.std.specs.Prelude.{◌≡◌, ◌++◌, OnOk, decimal};
ghost use Rattle.octal.specs.Octal.{octal_text};

use octal::oct6;
use std::alloc::AllocError;
use std::io::Write;

/// Puts a number in decimal at the end of a text.
pub fn put_decimal(text: &mut Vec<u8>, number: usize) -> Result<(), AllocError>
    ensures { OnOk result (text.new.items ≡ text.old.items ++ decimal number) }
{
    match write!(text, "{number}") {
        Ok(()) => Ok(()),
        Err(_) => Err(AllocError),
    }
}

/// Puts the six octal digits of a word at the end of a text.
pub fn put_octal(text: &mut Vec<u8>, word: u16) -> Result<(), AllocError>
    ensures { OnOk result (text.new.items ≡ text.old.items ++ octal_text word) }
{
    text.extend_from_slice(&oct6(word))
}
