//! The text that `check` prints of tapes.
ghost use Rattle.std.specs.Prelude.{◌≡◌, ◌≤◌, ◌++◌, ℕ, List, length, [], ◌∷◌, OnOk, IfOk};
ghost use Rattle.std.specs.List.{flat_map};
ghost use Rattle.octal.specs.Octal.{octal_text};
ghost use Rattle.tape_values.specs.Tape.{IsTape, tape_limit};
ghost use Rattle.tape_image.specs.Plan.{plan_of_all};
ghost use Rattle.tape_image.specs.Word.{word_fields};
ghost use Rattle.input_files.specs.Tapes.{TapeText};
ghost use Rattle.byte_io.specs.Text.{line};
ghost use Rattle.tape_commands.specs.CheckText.{data_count, blocks_text, start_text, canonical_text};
ghost use Rattle.tape_commands.specs.CheckText.{tape_text, words_text, check_text as text_of_check, AreTexts};

use byte_io::{put_decimal, put_octal};
use input_files::Tapes;
use std::alloc::{AllocError, Global};
use tape_image::{Plan, Word};
use tape_values::{Block, Tape};

/// What is printed of tapes, which make this plan together.
pub(crate) fn check_text(alloc: Global, taken: &Tapes, plan: &Plan) -> Result<Vec<u8>, AllocError>
    requires layouts { length taken.now.layouts.items ≡ length taken.now.tapes.items }
    requires plan { plan.now ≡ plan_of_all taken.now.tapes.items }
    ensures { IfOk result (λ report. (texts : List TapeText) → AreTexts taken.now.tapes.items taken.now.layouts.items texts →
        report.items ≡ text_of_check texts) }
{
    let mut report = Vec::new(alloc);
    for place in 0..taken.tapes.len() {
        put_tape(&mut report, &taken.tapes[place], taken.layouts[place].size)?;
    }
    put_words(&mut report, plan.words())?;
    Ok(report)
}

// The lines of one tape, which was read from so many bytes: they are its plain text where nothing stands
// between its blocks.
fn put_tape(report: &mut Vec<u8>, tape: &Tape, size: u32) -> Result<(), AllocError>
    ensures { OnOk result ((text : List ℕ) → IsTape text tape.now.blocks tape.now.start → size ≡ length text →
        report.new.items ≡ report.old.items ++ tape_text (record { text = text; tape = tape.now })) }
{
    put_counts(report, tape, size)?;
    put_start(report, tape.start())?;
    put_canonical(report, size as usize == tape.written_length())
}

fn put_counts(report: &mut Vec<u8>, tape: &Tape, size: u32) -> Result<(), AllocError>
    ensures { OnOk result (report.new.items ≡ report.old.items ++ line (blocks_text tape.now size)) }
{
    let blocks = tape.blocks();
    report.extend_from_slice(b"blocks ")?;
    put_decimal(report, blocks.len())?;
    report.extend_from_slice(b" data ")?;
    put_decimal(report, data_count(blocks))?;
    report.extend_from_slice(b" read ")?;
    put_decimal(report, size as usize)?;
    report.extend_from_slice(b"\n")
}

fn data_count(blocks: &[Block]) -> usize
    requires { data_count blocks.now ≤ tape_limit }
    ensures { result ≡ data_count blocks.now }
{
    blocks.iter().map(|block| block.bytes.len()).sum()
}

fn put_start(report: &mut Vec<u8>, start: u16) -> Result<(), AllocError>
    ensures { OnOk result (report.new.items ≡ report.old.items ++ line (start_text start)) }
{
    if start % 2 != 0 {
        report.extend_from_slice(b"no ")?;
    }
    report.extend_from_slice(b"start ")?;
    put_octal(report, start)?;
    report.extend_from_slice(b"\n")
}

fn put_canonical(report: &mut Vec<u8>, is_canonical: bool) -> Result<(), AllocError>
    ensures { OnOk result (report.new.items ≡ report.old.items ++ line (canonical_text is_canonical)) }
{
    report.extend_from_slice(b"canonical ")?;
    report.extend_from_slice(if is_canonical { b"yes\n" } else { b"no\n" })
}

fn put_words(report: &mut Vec<u8>, words: &[Word]) -> Result<(), AllocError>
    ensures { OnOk result (report.new.items ≡ report.old.items ++ words_text words.now) }
{
    report.extend_from_slice(b"words ")?;
    put_decimal(report, words.len())?;
    report.extend_from_slice(b"\n")?;
    put_word_lines(report, words)
}

fn put_word_lines(report: &mut Vec<u8>, words: &[Word]) -> Result<(), AllocError>
    ensures { OnOk result (report.new.items ≡ report.old.items ++ flat_map (λ w. line (word_fields w)) words.now) }
{
    for word in words {
        put_word(report, *word)?;
    }
    Ok(())
}

fn put_word(report: &mut Vec<u8>, word: Word) -> Result<(), AllocError>
    ensures { OnOk result (report.new.items ≡ report.old.items ++ line (word_fields word)) }
{
    put_field(report, word.address(), b' ')?;
    put_field(report, word.mask(), b' ')?;
    put_field(report, word.value(), b'\n')
}

fn put_field(report: &mut Vec<u8>, word: u16, end: u8) -> Result<(), AllocError>
    ensures { OnOk result (report.new.items ≡ report.old.items ++ octal_text word ++ end ∷ []) }
{
    put_octal(report, word)?;
    report.push(end)?;
    Ok(())
}
