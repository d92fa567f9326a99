//! The words that do not hold.
ghost use Rattle.std.specs.Prelude.{◌≡◌, ◌+◌, ◌*◌, ◌≤◌, ◌++◌, length};
ghost use Rattle.arrayvec.specs.ArrayVec.{array_vec_len};
ghost use Rattle.memory_report.specs.Report.{bad_words_text, count_lines, looks_text, more_lines, numbers_text, readings_text, reads_text, shown_also, shown_text, word_text, words_text};

use crate::bank::count_bad;
use crate::findings::Word;
use crate::report::Report;
use byte_io::{push_bytes, push_decimal, push_octal};
use memory_core::{Readings, Seen};

// How many of them are shown.
const SHOWN: u64 = 8;

/// Puts the first words that do not hold, how many more there are, and how many were tested.
pub(crate) fn push_words(text: &mut Report, words: &[Word])
    requires room { array_vec_len text.old ≤ 1100 }
    ensures items { text.new.items ≡ text.old.items ++ words_text words.now }
    ensures length { array_vec_len text.new ≤ array_vec_len text.old + 602 }
{
    let bad = count_bad(words);
    push_first(text, words);
    push_more(text, bad);
    push_count(text, words.len() as u64, bad);
}

// Puts the first eight words that do not hold.
fn push_first(text: &mut Report, words: &[Word])
    requires room { array_vec_len text.old ≤ 1100 }
    ensures items { text.new.items ≡ text.old.items ++ bad_words_text words.now }
    ensures length { array_vec_len text.new ≤ array_vec_len text.old + 8 * 61 }
{
    let mut shown = 0;
    for word in words {
        shown = push_if_bad(text, *word, shown);
    }
}

// Puts a word where it does not hold and fewer than eight are shown, and answers how many are shown then.
fn push_if_bad(text: &mut Report, word: Word, shown: u64) -> u64
    requires room { array_vec_len text.old ≤ 1700 }
    ensures items { text.new.items ≡ text.old.items ++ shown_text shown word }
    ensures shown { result ≡ shown_also shown word }
    ensures length { array_vec_len text.new + 61 * shown ≤ array_vec_len text.old + 61 * result }
{
    if shown < SHOWN && word.is_bad() {
        push_word(text, word);
        shown + 1
    } else {
        shown
    }
}

// Puts a word and what was read of it.
fn push_word(text: &mut Report, word: Word)
    requires room { array_vec_len text.old ≤ 1700 }
    ensures items { text.new.items ≡ text.old.items ++ word_text word }
    ensures length { array_vec_len text.new ≤ array_vec_len text.old + 61 }
{
    push_octal(text, word.address);
    push_readings(text, word.seen);
    push_bytes(text, b"\n");
}

// Puts what was read of a word.
fn push_readings(text: &mut Report, seen: Seen)
    requires room { array_vec_len text.old ≤ 1710 }
    ensures items { text.new.items ≡ text.old.items ++ readings_text seen }
    ensures length { array_vec_len text.new ≤ array_vec_len text.old + 54 }
{
    match seen {
        Seen::Unsteady(first, second) => push_looks(text, first, second),
        Seen::Tested(readings) => push_numbers(text, readings),
    }
}

// Puts what two looks read, which differ.
fn push_looks(text: &mut Report, first: u16, second: u16)
    requires room { array_vec_len text.old ≤ 1710 }
    ensures items { text.new.items ≡ text.old.items ++ looks_text first second }
    ensures length { array_vec_len text.new ≡ array_vec_len text.old + 26 }
{
    push_bytes(text, b" reads ");
    push_octal(text, first);
    push_bytes(text, b", then ");
    push_octal(text, second);
}

// Puts what a word held and what it reads.
fn push_numbers(text: &mut Report, readings: Readings)
    requires room { array_vec_len text.old ≤ 1710 }
    ensures items { text.new.items ≡ text.old.items ++ numbers_text readings }
    ensures length { array_vec_len text.new ≡ array_vec_len text.old + 54 }
{
    let Readings { old, turned, back } = readings;
    push_bytes(text, b" held ");
    push_octal(text, old);
    push_bytes(text, b"; ");
    push_reads(text, u16::MAX.saturating_sub(old), turned);
    push_bytes(text, b", ");
    push_reads(text, old, back);
}

// Puts what a word reads as, behind what was deposited in it.
fn push_reads(text: &mut Report, deposited: u16, read: u16)
    requires room { array_vec_len text.old ≤ 1800 }
    ensures items { text.new.items ≡ text.old.items ++ reads_text deposited read }
    ensures length { array_vec_len text.new ≡ array_vec_len text.old + 19 }
{
    push_octal(text, deposited);
    push_bytes(text, b" reads ");
    push_octal(text, read);
}

// Puts how many words that do not hold are not shown.
fn push_more(text: &mut Report, bad: u64)
    requires room { array_vec_len text.old ≤ 1700 }
    ensures items { text.new.items ≡ text.old.items ++ more_lines bad }
    ensures length { array_vec_len text.new ≤ array_vec_len text.old + 30 }
{
    if bad > SHOWN {
        push_bytes(text, b"and ");
        push_decimal(text, bad - SHOWN);
        push_bytes(text, b" more\n");
    }
}

// Puts how many words were tested, and how many of them do not hold.
fn push_count(text: &mut Report, tested: u64, bad: u64)
    requires room { array_vec_len text.old ≤ 1800 }
    ensures items { text.new.items ≡ text.old.items ++ count_lines tested bad }
    ensures length { array_vec_len text.new ≤ array_vec_len text.old + 68 }
{
    push_bytes(text, b"tested ");
    push_decimal(text, tested);
    push_bytes(text, b" words, ");
    push_decimal(text, bad);
    push_bytes(text, b" do not hold\n");
}
