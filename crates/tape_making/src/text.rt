//! Whole texts of words.
ghost use Rattle.std.specs.Prelude.{◌≡◌, map, length, IfOk, MatchResult};
ghost use Rattle.tape_values.specs.Block.{top};
ghost use Rattle.tape_making.specs.Words.{lines};
ghost use Rattle.tape_making.specs.Sheet.{bytes_on};
ghost use Rattle.tape_making.specs.Reading.{HoldsText, IsRowFault, IsWordsFault, LaysLine, fault_at};

use crate::line::read_line;
use crate::refusal::{Refusal, RowFault, WordsFault, WordsWhy};
use crate::sheet::Sheet;
use std::alloc::{AllocError, Global};

/// The most bytes that a text of words may have (this project's choice).
pub const WORDS_LIMIT: usize = 4_194_304;

/// The sheet of what a text says, where every line has a form; later words at an address count.
///
/// `Refused` is the first line that is wrong and why, or a text of more than 4,194,304 bytes: at line 0.
/// `Memory` comes only where a growth was refused.
pub fn read_words(alloc: Global, text: &[u8]) -> Result<Sheet, WordsFault>
    ensures { MatchResult result (HoldsText text.now) (IsWordsFault text.now) }
{
    if text.len() > WORDS_LIMIT {
        return Err(fault_at(0, RowFault::Wrong(WordsWhy::TooLong)));
    }
    let lines = lines_of(alloc, text)?;
    let mut sheet = Sheet::new(alloc)?;
    for (index, line) in lines.iter().enumerate() {
        match lay_line(alloc, line, &mut sheet) {
            Ok(()) => {}
            Err(fault) => return Err(fault_at(index + 1, fault)),
        }
    }
    Ok(sheet)
}

// What stands between line feeds.
fn lines_of(alloc: Global, text: &[u8]) -> Result<Vec<&[u8]>, AllocError>
    ensures { IfOk result (λ found. map (λ line. line.now) found.items ≡ lines text.now) }
{
    text.split(|c| *c == b'\n').collect(alloc)
}

// Lays what a line says on a sheet.
fn lay_line(alloc: Global, line: &[u8], sheet: &mut Sheet) -> Result<(), RowFault>
    requires { length (bytes_on sheet.old) ≡ top }
    ensures { MatchResult result (λ _. LaysLine line.now sheet.old sheet.new) (IsRowFault line.now) }
{
    let said = read_line(alloc, line)?;
    match said {
        Some(row) => {
            sheet.lay(&row);
            Ok(())
        }
        None => Ok(()),
    }
}

// What is wrong with the line of this number.
fn fault_at(line: usize, fault: RowFault) -> WordsFault
    ensures { result ≡ fault_at line fault }
{
    match fault {
        RowFault::Wrong(why) => WordsFault::Refused(Refusal { line, why }),
        RowFault::Memory => WordsFault::Memory,
    }
}
