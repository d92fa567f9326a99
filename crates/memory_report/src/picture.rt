//! The picture of a board.
ghost use Rattle.std.specs.Prelude.{◌≡◌, ◌+◌, ◌*◌, ◌-◌, ◌<◌, ◌≤◌, ◌++◌, length};
ghost use Rattle.arrayvec.specs.ArrayVec.{array_vec_len};
ghost use Rattle.byte_io.specs.Text.{line};
ghost use Rattle.memory_report.specs.Report.{bad_text, bank_text, cell_text, cells_text, gap_text, row_text, rows_text, seen_text, tested_text, untested_text};

use crate::bank::{BANK, bad_in, column, gap_in, tested_in};
use crate::findings::Word;
use crate::report::Report;
use crate::verdict::Verdict;
use byte_io::{push_bytes, push_decimal, push_octal};

/// Puts the rows of the banks from one to another.
pub(crate) fn push_rows(text: &mut Report, words: &[Word], gaps: &[u16], first: u16, last: u16)
    requires room { array_vec_len text.old ≤ 100 }
    requires banks { last < 7 }
    requires order { first ≤ last }
    ensures items { text.new.items ≡ text.old.items ++ rows_text words.now gaps.now first (last - first + 1) }
    ensures length { array_vec_len text.new ≤ array_vec_len text.old + 980 }
{
    let count = last - first + 1;
    for number in 0..count {
        push_row(text, words, gaps, first + number);
    }
}

// Puts the row of a bank.
fn push_row(text: &mut Report, words: &[Word], gaps: &[u16], bank: u16)
    requires room { array_vec_len text.old ≤ 2000 }
    requires bank { bank < 7 }
    ensures items { text.new.items ≡ text.old.items ++ row_text words.now gaps.now bank }
    ensures length { array_vec_len text.new ≤ array_vec_len text.old + 140 }
{
    push_bank(text, bank);
    push_seen(text, words, gap_in(gaps, bank), bank);
    push_bytes(text, b"\n");
}

// Puts the first and the last address of a bank.
fn push_bank(text: &mut Report, bank: u16)
    requires room { array_vec_len text.old ≤ 2000 }
    requires bank { bank < 7 }
    ensures items { text.new.items ≡ text.old.items ++ bank_text bank }
    ensures length { array_vec_len text.new ≤ array_vec_len text.old + 13 }
{
    push_octal(text, bank * BANK);
    push_bytes(text, b"-");
    push_octal(text, bank * BANK + 0o17776);
}

// Puts what was seen of a bank.
fn push_seen(text: &mut Report, words: &[Word], gap: Option<u16>, bank: u16)
    requires room { array_vec_len text.old ≤ 2100 }
    ensures items { text.new.items ≡ text.old.items ++ seen_text words.now gap bank }
    ensures length { array_vec_len text.new ≤ array_vec_len text.old + 126 }
{
    let tested = tested_in(words, bank);
    if tested == 0 {
        push_untested(text, gap);
    } else {
        push_tested(text, words, gap, bank, tested);
    }
}

// Puts what is to be said of a bank of which no word was tested.
fn push_untested(text: &mut Report, gap: Option<u16>)
    requires { array_vec_len text.old ≤ 2100 }
    ensures items { text.new.items ≡ text.old.items ++ untested_text gap }
    ensures length { array_vec_len text.new ≤ array_vec_len text.old + 13 }
{
    match gap {
        Some(_) => push_bytes(text, b"   no memory"),
        None => push_bytes(text, b"   not tested"),
    }
}

// Puts what was seen of a bank of which so many words were tested.
fn push_tested(text: &mut Report, words: &[Word], gap: Option<u16>, bank: u16, tested: u64)
    requires room { array_vec_len text.old ≤ 2100 }
    ensures items { text.new.items ≡ text.old.items ++ tested_text words.now gap bank tested }
    ensures length { array_vec_len text.new ≤ array_vec_len text.old + 126 }
{
    push_bytes(text, b" ");
    push_cells(text, words, bank);
    push_bad(text, bad_in(words, bank), tested);
    push_gap(text, gap);
}

// Puts what was seen of the bits of a bank, from bit 15 on.
fn push_cells(text: &mut Report, words: &[Word], bank: u16)
    requires room { array_vec_len text.old ≤ 2150 }
    ensures items { text.new.items ≡ text.old.items ++ cells_text words.now bank 16 }
    ensures length { array_vec_len text.new ≤ array_vec_len text.old + 48 }
{
    for place in 0..16u8 {
        push_cell(text, column(words, bank, 15 - place));
    }
}

// Puts what was seen of a bit.
fn push_cell(text: &mut Report, seen: Option<Verdict>)
    requires room { array_vec_len text.old ≤ 2200 }
    ensures items { text.new.items ≡ text.old.items ++ cell_text seen }
    ensures length { array_vec_len text.new ≡ array_vec_len text.old + 3 }
{
    match seen {
        Some(Verdict::Holds) => push_bytes(text, b"  ."),
        Some(Verdict::ReadsZero) => push_bytes(text, b"  0"),
        Some(Verdict::ReadsOne) => push_bytes(text, b"  1"),
        Some(Verdict::Fails) => push_bytes(text, b"  x"),
        None => push_bytes(text, b"   "),
    }
}

// Puts how many of the tested words of a bank do not hold, where one does not.
fn push_bad(text: &mut Report, bad: u64, tested: u64)
    requires room { array_vec_len text.old ≤ 2200 }
    ensures items { text.new.items ≡ text.old.items ++ bad_text bad tested }
    ensures length { array_vec_len text.new ≤ array_vec_len text.old + 47 }
{
    if bad > 0 {
        push_bytes(text, b"   ");
        push_decimal(text, bad);
        push_bytes(text, b" of ");
        push_decimal(text, tested);
    }
}

// Puts where nothing answered in a bank, if it was so.
fn push_gap(text: &mut Report, gap: Option<u16>)
    requires room { array_vec_len text.old ≤ 2300 }
    ensures items { text.new.items ≡ text.old.items ++ gap_text gap }
    ensures length { array_vec_len text.new ≤ array_vec_len text.old + 22 }
{
    if let Some(address) = gap {
        push_bytes(text, b"   no memory at ");
        push_octal(text, address);
    }
}
