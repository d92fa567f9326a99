//! The commands about no machine.
//!
//! Lines of help have less than 80 columns.
ghost use Rattle.std.specs.Prelude.{◌≡◌, map};
ghost use Rattle.command_tables.specs.Words.{command_of, tape_commands};

use crate::arguments::{
    BLOCKS, FILE, MORE, NO_START, OCTAL_WORDS, SAVED_START, SCRIPT, START, STYLE, TAPE, WORDS,
};
use crate::commands::KnownCommand;

/// The commands about no machine, as help lists them.
pub fn tape_commands() -> [KnownCommand; 5]
    ensures { map command_of result ≡ tape_commands }
{
    [MAKE, CHECK, DIALOGUE, REHEARSE, TYPE]
}

const MAKE: KnownCommand = KnownCommand {
    word: "make",
    about: "Makes a tape of octal words",
    arguments: &[FILE, OCTAL_WORDS, SAVED_START],
    help: "\
A line of WORDS is an address and the words from there on, each one to six
octal digits; a '/' may stand behind the address, as ODT prints it. Empty lines
and what follows ';' or '#' are skipped, and later words at an address count.
A file that is there is never overwritten. Nothing is printed.

Exit status:
  0  FILE has the tape
  3  the words are refused: the line on standard error says at which line, from
     1, and why, and nothing was written
  4  the words could not be read, or FILE is there already or could not be
     written

Example:
  printf '001000/012700 000101\\n001004/000000\\n' | ldaodt make first.lda",
};

const CHECK: KnownCommand = KnownCommand {
    word: "check",
    about: "Checks tapes and lists the words that they make together",
    arguments: &[TAPE, MORE, BLOCKS],
    help: "\
The line of a word has its address, its mask and its value, all octal. The mask
says which bytes of the word the tape has: 000377 the low one, 177400 the high
one, 177777 both.

Exit status:
  0  each is a tape
  3  one is refused: the line on standard error says at which byte, from 0, and
     in one word why: Stray (there is no block), BadMark, BadCount (its head is
     none), Cut (it is not all there), BadSum (a wrong checksum), PastTop (data
     above 157777), NoTransfer (no block with a start comes last) or TooLong
  4  a file could not be read, or the output not be written

Example:
  ldaodt check first.lda",
};

const DIALOGUE: KnownCommand = KnownCommand {
    word: "dialogue",
    about: "Loads a simulated machine and shows all that passes",
    arguments: &[TAPE, MORE, START, NO_START, WORDS, STYLE],
    help: "\
On the left is what the loader types, on the right what the console prints, a
space as '_', CR as '<CR>' and LF as '<LF>'. Memory is zero at the beginning.

Exit status:
  0  the load ended Loaded or Started
  3  a tape was refused
  4  a file could not be read, or the output not be written
  5  the load ended NoWord: the machine has no memory there

Example, a console that prints a space before the digits of a word:
  ldaodt dialogue --style 1 first.lda",
};

const REHEARSE: KnownCommand = KnownCommand {
    word: "rehearse",
    about: "Loads a simulated machine over a line that loses characters",
    arguments: &[TAPE, SCRIPT, MORE],
    help: "\
A script says which character is delivered when, and which one is lost, a line
for each. docs/SCRIPTS.md describes its lines.

Exit status:
  0  the script was rehearsed, however the load ended
  3  a tape or the script was refused
  4  a file could not be read, or the output not be written

Example, the fourth key is lost:
  printf 'to 4\\ndown 0\\nquiet\\nclean\\n' > lossy.script
  ldaodt rehearse first.lda lossy.script",
};

const TYPE: KnownCommand = KnownCommand {
    word: "type",
    about: "Types standard input into a simulated console, which answers",
    arguments: &[WORDS, STYLE],
    help: "\
An LF is typed as CR. It ends with its input, or after 1048576 keys.

Exit status:
  0  all was typed, or as many keys as that
  4  standard input could not be read, or the output not be written

Example, a word is deposited and looked at again:
  printf '001000/011064\\n001000/\\n' | ldaodt type",
};
