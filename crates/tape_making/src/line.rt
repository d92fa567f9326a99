//! What a line says.
ghost use Rattle.std.specs.Prelude.{◌≡◌, ◌*◌, ◌+◌, ◌≤◌, ◌<◌, length, IfOk, IfSome, MatchResult, position};
ghost use Rattle.tape_making.specs.Words.{HasNumbers, Says, is_remark, is_slash, judged, without_remark};
ghost use Rattle.tape_making.specs.Reading.{IsNone, said_by};

use crate::number::numbers_in;
use crate::refusal::{RowFault, WordsWhy};
use std::alloc::{AllocError, Global};
use tape_values::{Block, TOP, low_bytes_first};

/// What a line says: nothing, or the bytes of its words at its address.
///
/// `Wrong` is a line of no form, or with an address that no word can have; `Memory` a growth that was
/// refused.
pub(crate) fn read_line(alloc: Global, line: &[u8]) -> Result<Option<Block>, RowFault>
    ensures { IfSome (said_by result) (Says line.now) }
{
    let numbers = numbers_of(alloc, without_remark(line))?;
    row_of(alloc, &numbers)
}

// A line up to its remark.
fn without_remark(line: &[u8]) -> &[u8]
    ensures { result.now ≡ without_remark line.now }
{
    match remark_place(line) {
        Some(end) => &line[..end],
        None => line,
    }
}

// Where a remark begins.
fn remark_place(line: &[u8]) -> Option<usize>
    ensures { result ≡ position is_remark line.now }
{
    line.iter().position(|c| is_remark(*c))
}

// What begins a remark.
fn is_remark(c: u8) -> bool
    ensures { result ≡ is_remark c }
{
    c == b';' || c == b'#'
}

// Where the first slash stands.
fn slash_place(text: &[u8]) -> Option<usize>
    ensures { result ≡ position is_slash text.now }
{
    text.iter().position(|c| *c == b'/')
}

// The numbers of a line, of which a slash may follow the first.
fn numbers_of(alloc: Global, text: &[u8]) -> Result<Vec<u16>, RowFault>
    ensures { MatchResult result (λ numbers. HasNumbers text.now numbers.items) (IsNone (HasNumbers text.now)) }
{
    let Some(slash) = slash_place(text) else {
        return numbers_in(alloc, text);
    };
    let mut numbers = numbers_in(alloc, &text[..slash])?;
    if numbers.len() != 1 {
        return Err(RowFault::Wrong(WordsWhy::BadNumber));
    }
    let words = numbers_in(alloc, &text[slash + 1..])?;
    numbers.extend_from_slice(&words)?;
    Ok(numbers)
}

// What the numbers of a line say.
fn row_of(alloc: Global, numbers: &[u16]) -> Result<Option<Block>, RowFault>
    ensures { IfSome (said_by result) (λ said. said ≡ judged numbers.now) }
{
    let [address, words @ ..] = numbers else {
        return Ok(None);
    };
    if words.is_empty() {
        return Err(RowFault::Wrong(WordsWhy::NoWords));
    }
    if *address % 2 == 1 {
        return Err(RowFault::Wrong(WordsWhy::OddAddress));
    }
    if words.len() > TOP.saturating_sub(usize::from(*address)) / 2 {
        return Err(RowFault::Wrong(WordsWhy::PastTop));
    }
    Ok(Some(Block {
        address: *address,
        bytes: low_bytes_first(alloc, words)?,
    }))
}
