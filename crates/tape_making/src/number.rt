//! Octal numbers with blanks between them.
ghost use Rattle.std.specs.Prelude.{◌≡◌, ◌≤◌, ◌-◌, ◌++◌, ℕ, length, replicate, map, IfSome, IfNone, IfOk, MatchResult};
ghost use Rattle.tape_making.specs.Words.{AreNumbers, IsNumber, fields, is_blank};
ghost use Rattle.tape_making.specs.Reading.{IsNone};

use crate::refusal::{RowFault, WordsWhy};
use octal::read_oct6;
use std::alloc::{AllocError, Global};

// The most digits of a number: those of a word's text.
const MOST_DIGITS: usize = 6;

/// The numbers that a text is, with blanks between them and around.
///
/// `BadNumber` is a text that is something else, `Memory` a growth that was refused.
pub(crate) fn numbers_in(alloc: Global, text: &[u8]) -> Result<Vec<u16>, RowFault>
    ensures { MatchResult result (λ numbers. AreNumbers text.now numbers.items) (IsNone (AreNumbers text.now)) }
{
    let fields = fields_of(alloc, text)?;
    let mut numbers = Vec::new(alloc);
    for field in &fields {
        let Some(number) = number(field) else {
            return Err(RowFault::Wrong(WordsWhy::BadNumber));
        };
        numbers.push(number)?;
    }
    Ok(numbers)
}

// What stands between blanks.
fn fields_of(alloc: Global, text: &[u8]) -> Result<Vec<&[u8]>, AllocError>
    ensures { IfOk result (λ found. map (λ field. field.now) found.items ≡ fields text.now) }
{
    text.split(|c| is_blank(*c))
        .filter(|field| !field.is_empty())
        .collect(alloc)
}

// A space, a tab, and the CR of a line that ends with CR LF.
fn is_blank(c: u8) -> bool
    ensures { result ≡ is_blank c }
{
    c == b' ' || c == b'\t' || c == b'\r'
}

// The number that one to six octal digits stand for.
fn number(text: &[u8]) -> Option<u16>
    ensures found { IfSome result (IsNumber text.now) }
    ensures none { IfNone result ((n : ℕ) → IsNumber text.now n → ⊥) }
{
    if text.is_empty() || text.len() > MOST_DIGITS {
        return None;
    }
    read_oct6(&padded(text))
}

// A text of six characters at most, with zeros before it.
fn padded(text: &[u8]) -> [u8; MOST_DIGITS]
    requires { length text.now ≤ 6 }
    ensures { result ≡ replicate (6 - length text.now) 48 ++ text.now }
{
    let mut digits = [b'0'; MOST_DIGITS];
    digits[MOST_DIGITS - text.len()..].copy_from_slice(text);
    digits
}
