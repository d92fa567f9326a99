//! The commands at a machine.
//!
//! Lines of help have less than 80 columns.
ghost use Rattle.std.specs.Prelude.{◌≡◌, map};
ghost use Rattle.command_tables.specs.Words.{command_of, machine_commands};

use crate::arguments::{
    ADDRESS, CAREFUL, CAREFUL_LOAD, EVERY, FAST, FILE, FIRST_TESTED, FROM, LAST_TESTED, LINE,
    LISTEN, LOG, LONG_PATIENCE, MORE, NO_START, ONCE, PATIENCE, QUIET, RECHECK, RECORD,
    SAVED_START, START, TAPE, TO,
};
use crate::commands::KnownCommand;

/// The commands at a machine, as help lists them.
pub fn machine_commands() -> [KnownCommand; 5]
    ensures { map command_of result ≡ machine_commands }
{
    [LOAD, VERIFY, SAVE, PROBE, MEMORY]
}

const LOAD: KnownCommand = KnownCommand {
    word: "load",
    about: "Loads a machine at a serial device or behind a port",
    arguments: &[
        TAPE,
        LINE,
        MORE,
        RECORD,
        RECHECK,
        CAREFUL_LOAD,
        FAST,
        START,
        NO_START,
        LISTEN,
        PATIENCE,
        QUIET,
        LOG,
    ],
    help: "\
Each word is looked at, deposited where it is not there yet, and read back; at
the end the program is started, once at most. Without --record a later load
knows nothing of that, and may start it again. A record is good while the
machine keeps its power and nobody resets it; else load with --recheck, too.
A load that goes on looks at up to 8 of its words first: where one does not
stand it ends Stale, and has changed nothing.
'verified' counts the words read back, now or by the record before.

A device in the working folder is ./ttyUSB0. It is used as stty has set it.

Exit status:
  0  the load ended Loaded or Started
  3  a tape or the record was refused
  4  a file could not be read or something not be written, the record is
     another load's at the time, there was no connection, or the line failed;
     with the start in doubt a last line says so: look at the machine first
  5  the load ended GaveUp, NoWord, WontHold, Stale or TurnsOver
  6  it ended Uncertain or MaybeStarted: look at the machine before all else

Example, a machine on a serial adapter, which prints when it runs:
  stty -F /dev/ttyUSB0 9600 raw -echo cs8 -parenb -cstopb -crtscts \\
    clocal -hupcl
  ldaodt load first.lda /dev/ttyUSB0 --record first.record --listen 10",
};

const VERIFY: KnownCommand = KnownCommand {
    word: "verify",
    about: "Looks whether a machine holds what tapes say, and changes nothing",
    arguments: &[TAPE, LINE, MORE, CAREFUL, LONG_PATIENCE, QUIET, LOG],
    help: "\
Each word of the tapes is looked at, in the order of the addresses. One that
differs, also when it is looked at again, is a line: its address, mask and
value, 'differs', and the word that is there. Nothing is typed that changes
memory or starts anything.

Exit status:
  0  the look ended Same: memory holds each byte of the tapes
  1  it ended Differs
  3  a tape was refused
  4  a file could not be read, or the output not be written, there was no
     connection, or the line failed
  5  the look ended Changed, GaveUp, NoWord or TurnsOver

Example, the morning after a load:
  ldaodt verify first.lda /dev/ttyUSB0",
};

const SAVE: KnownCommand = KnownCommand {
    word: "save",
    about: "Saves words of a machine as a tape, and changes nothing",
    arguments: &[
        FILE,
        LINE,
        FROM,
        TO,
        SAVED_START,
        ONCE,
        LONG_PATIENCE,
        QUIET,
        LOG,
    ],
    help: "\
The words from FROM to TO, both included, are looked at, each twice, since they
may be the only copy, and written as one tape. A file that is there is never
overwritten. Where memory ends before TO, the tape has the words below, and
without any there is no file. Where it ends otherwise or is broken off,
FILE.part keeps each 256 words that were read, and the same line goes on behind
them, once it has looked at 8 of them. Behind Changed remove it first. Nothing
is typed that changes memory or starts anything.

Exit status:
  0  the look ended Saved
  3  FILE.part is of another save
  4  the file is there already or could not be written, the output could not
     be written, there was no connection, or the line failed
  5  the look ended Changed, GaveUp, NoWord, Stale or TurnsOver

Example, what is at the bottom of memory, before anything is loaded:
  ldaodt save before.lda /dev/ttyUSB0 0 7776",
};

const PROBE: KnownCommand = KnownCommand {
    word: "probe",
    about: "Finds out what console is there, and whether it may be trusted",
    arguments: &[LINE, ADDRESS, PATIENCE, QUIET, LOG],
    help: "\
One word is looked at, opened, three digits are typed and then a Z, and it is
looked at again: a console that forgets what was typed may be trusted. Then it
is found out where memory ends. Where the word became another one, so that the
console stores at a wrong key, the old one is put back. Nothing else is typed
that changes memory, and nothing that starts anything.

Leave the console at its @ before: what stands typed behind an open word could
be stored.

Exit status:
  0  the probe ended Probed: the console forgets digits
  4  the output could not be written, there was no connection, or the line
     failed
  5  the probe ended NotTrusted: do not load this machine; NoPrompt: there was
     no @; GaveUp: there was one, but too many mishaps; NoWord: memory has no
     word at the address; or TurnsOver: the line never falls silent

Example, before the first load:
  ldaodt probe /dev/ttyUSB0",
};

const MEMORY: KnownCommand = KnownCommand {
    word: "memory",
    about: "Tests a machine's memory, and puts back what it held",
    arguments: &[LINE, FIRST_TESTED, LAST_TESTED, EVERY, PATIENCE, QUIET, LOG],
    help: "\
Each word is looked at twice, its complement is deposited and looked at, and
what it held is put back and looked at. In the report a row is a bank of 4096
words, and a column a bit of them, which is a chip: '.' held in every word, '0'
or '1' reads so whatever is deposited, 'x' is bad in another way, as where two
looks read two numbers, and then nothing is deposited. The first 8 words that
do not hold are listed. FROM wants TO. Where each word of a range is tested,
so is the bus: data lines that touch and addresses that are one word are told.
Other tests may not show them.

Leave the console at its @ before, with no program running; none is started. At
the first word it is tried, as by probe, whether the console forgets digits: if
not, nothing is tested. Where a test is broken off, one word may hold another
number than it did: the terminal, or the report, names it and what it held.

Exit status:
  0  the test ended Tested: every word that was tested held
  1  a word does not hold, data lines touch, or two addresses are one word
  4  the output could not be written, there was no connection, or the line
     failed
  5  the test ended NotTrusted: the console stores digits, or the first word
     reads now so, now so, and FROM should be another; GaveUp: there was no @,
     or there were too many mishaps; NoWord: memory has no word there; or
     TurnsOver: the line never falls silent

Example, one word of 64 in all memory, and every word of one bank:
  ldaodt memory /dev/ttyUSB0
  ldaodt memory /dev/ttyUSB0 20000 37776",
};
