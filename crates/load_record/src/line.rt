//! What the lines of a record look like, by the word.
ghost use Rattle.std.specs.Prelude.{◌≡◌, [], ◌∷◌};
ghost use Rattle.byte_io.specs.Text.{line, line_end};
ghost use Rattle.tape_image.specs.Word.{word_fields};
ghost use Rattle.load_record.specs.Lines.{half_line, run_text, value_text};

use octal::oct6;
use tape_image::Word;

/// A space and the word's value: what a run line has for each of its words.
pub(crate) fn value_text(word: Word) -> [u8; 7]
    ensures { result ≡ value_text word }
{
    let mut text = [b' '; 7];
    text[1..].copy_from_slice(&oct6(word.value()));
    text
}

/// The word's address, mask and value, one space between.
pub(crate) fn word_fields(word: Word) -> [u8; 20]
    ensures { result ≡ word_fields word }
{
    let mut text = [b' '; 20];
    text[..6].copy_from_slice(&oct6(word.address()));
    text[7..13].copy_from_slice(&oct6(word.mask()));
    text[14..].copy_from_slice(&oct6(word.value()));
    text
}

/// The line of a word of which the tape has one byte alone, in version 2.
pub(crate) fn half_line(word: Word) -> [u8; 22]
    ensures { result ≡ half_line word }
{
    let mut text = *b"H                     ";
    text[2..].copy_from_slice(&word_fields(word));
    text
}

/// LF, and then a run line that begins: the word's address, a space and its value.
pub(crate) fn ended_run_text(word: Word) -> [u8; 14]
    ensures { result ≡ line_end ∷ run_text (word ∷ []) }
{
    let mut text = [b'\n'; 14];
    text[1..7].copy_from_slice(&oct6(word.address()));
    text[7..].copy_from_slice(&value_text(word));
    text
}

/// LF, and then the ended line of a word of which the tape has one byte alone.
pub(crate) fn ended_half_line(word: Word) -> [u8; 24]
    ensures { result ≡ line_end ∷ line (half_line word) }
{
    let mut text = [b'\n'; 24];
    text[1..23].copy_from_slice(&half_line(word));
    text
}
