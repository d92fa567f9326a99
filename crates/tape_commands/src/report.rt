//! The report of a world.
ghost use Rattle.std.specs.Prelude.{◌≡◌, ◌++◌, codes, decimal, OnOk};
ghost use Rattle.std.specs.List.{flat_map};
ghost use Rattle.octal.specs.Octal.{octal_text};
ghost use Rattle.byte_io.specs.Text.{line};
ghost use Rattle.tape_commands.specs.Report.{life_text, end_text, mode_name, held_text, held_word_text, report};

use byte_io::{put_decimal, put_octal};
use host_core::End;
use line_world::World;
use odt_machine::{Mode, Odt};
use std::alloc::AllocError;
use std::io::Write;
use tape_image::{Word, stands};

/// Puts the report of a world at the end of a text: the counts of the host's life, how it ended,
/// the console's mode, and for each word of the plan what memory holds there. The error is want of
/// memory.
pub(crate) fn put_report(text: &mut Vec<u8>, world: &World) -> Result<(), AllocError>
    ensures { OnOk result (text.new.items ≡ text.old.items ++ report world.now) }
{
    put_counts(text, world)?;
    put_end(text, world.core().end())?;
    put_mode(text, world.odt().mode())?;
    put_words(text, world.odt(), world.core().plan().words())
}

fn put_counts(text: &mut Vec<u8>, world: &World) -> Result<(), AllocError>
    ensures { OnOk result (text.new.items ≡ text.old.items ++ line (life_text world.now)) }
{
    let core = world.core();
    text.extend_from_slice(b"sent ")?;
    put_decimal(text, core.sent_count() as usize)?;
    text.extend_from_slice(b" lost ")?;
    put_decimal(text, world.lost() as usize)?;
    text.extend_from_slice(b" spent ")?;
    put_decimal(text, core.spent() as usize)?;
    text.extend_from_slice(b" verified ")?;
    put_decimal(text, core.progress().verified as usize)?;
    text.extend_from_slice(b" of ")?;
    put_decimal(text, core.plan().words().len())?;
    text.extend_from_slice(b"\n")
}

fn put_end(text: &mut Vec<u8>, end: Option<End>) -> Result<(), AllocError>
    ensures { OnOk result (text.new.items ≡ text.old.items ++ line (codes "end " ++ end_text end)) }
{
    let Some(end) = end else {
        return text.extend_from_slice(b"end none\n");
    };
    match writeln!(text, "end {end}") {
        Ok(()) => Ok(()),
        Err(_) => Err(AllocError),
    }
}

fn put_mode(text: &mut Vec<u8>, mode: Mode) -> Result<(), AllocError>
    ensures { OnOk result (text.new.items ≡ text.old.items ++ line (codes "odt " ++ mode_name mode)) }
{
    text.extend_from_slice(b"odt ")?;
    put_mode_name(text, mode)?;
    text.extend_from_slice(b"\n")
}

fn put_mode_name(text: &mut Vec<u8>, mode: Mode) -> Result<(), AllocError>
    ensures { OnOk result (text.new.items ≡ text.old.items ++ mode_name mode) }
{
    match mode {
        Mode::Prompt => text.extend_from_slice(b"Prompt"),
        Mode::Number(value, digits) => {
            put_named(text, b"Number ", value)?;
            put_digits(text, digits)
        }
        Mode::Opened(address) => put_named(text, b"Opened ", address),
        Mode::Typing(address, value, digits) => {
            put_named(text, b"Typing ", address)?;
            put_named(text, b" ", value)?;
            put_digits(text, digits)
        }
        Mode::Running(address) => put_named(text, b"Running ", address),
    }
}

fn put_named(text: &mut Vec<u8>, name: &[u8], word: u16) -> Result<(), AllocError>
    ensures { OnOk result (text.new.items ≡ text.old.items ++ name.now ++ octal_text word) }
{
    text.extend_from_slice(name)?;
    put_octal(text, word)
}

fn put_digits(text: &mut Vec<u8>, digits: u8) -> Result<(), AllocError>
    ensures { OnOk result (text.new.items ≡ text.old.items ++ codes " " ++ decimal digits) }
{
    text.extend_from_slice(b" ")?;
    put_decimal(text, usize::from(digits))
}

fn put_words(text: &mut Vec<u8>, odt: &Odt, words: &[Word]) -> Result<(), AllocError>
    ensures { OnOk result (text.new.items ≡ text.old.items ++ flat_map (λ word. line (held_word_text odt.now.memory word)) words.now) }
{
    for word in words {
        put_word(text, *word, odt.peek(word.address()))?;
    }
    Ok(())
}

fn put_word(text: &mut Vec<u8>, word: Word, held: Option<u16>) -> Result<(), AllocError>
    ensures { OnOk result (text.new.items ≡ text.old.items ++ line (octal_text word.address ++ held_text word held)) }
{
    put_octal(text, word.address())?;
    put_held(text, word, held)?;
    text.extend_from_slice(b"\n")
}

fn put_held(text: &mut Vec<u8>, word: Word, held: Option<u16>) -> Result<(), AllocError>
    ensures { OnOk result (text.new.items ≡ text.old.items ++ held_text word held) }
{
    let Some(now) = held else {
        return text.extend_from_slice(b" ------ absent");
    };
    put_named(text, b" ", now)?;
    if stands(word, now) {
        text.extend_from_slice(b" stands")
    } else {
        text.extend_from_slice(b" differs")
    }
}
