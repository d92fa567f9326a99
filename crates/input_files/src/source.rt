//! A file that was opened, and that can be read ahead and closed: where the system has no descriptor left,
//! the next file gets its one.
ghost use Rattle.std.specs.Prelude.{IfOk};
ghost use Rattle.std.specs.Io.Buffered.{reader_remaining};
ghost use Rattle.std.specs.Io.KnownBytes.{Keeps};
ghost use Rattle.input_files.specs.Source.{ahead_remaining};

use byte_io::{InputFault, read_up_to};
use loss_scripts::SCRIPT_LIMIT;
use std::alloc::{AllocError, Global};
use std::collections::VecDeque;
use std::io::{BufReader, ErrorKind, Read};
use std::snapshot::Snapshot;
use std::{io, mem};
use tape_blocks::{Fed, ReadError, TapeReader};
use tape_values::TAPE_LIMIT;

// The most bytes that are taken for a tape: one more than it may have, so that a longer one is seen.
const INPUT_LIMIT: usize = TAPE_LIMIT + 1;

/// What a file is read as, which says how much of it is asked for.
#[derive(Clone, Copy)]
pub enum Role {
    /// A tape: its own bytes, and none that follow them.
    Tape,

    /// A script: all that there is, or one byte more than a script may have.
    Script,
}

/// A file that was opened. Its reader can't tell whether it was read ahead.
#[derive(Drop)]
pub enum Source<F> {
    /// It is open.
    Open(Role, BufReader<F>),

    /// It was read ahead and closed.
    Closed(Ahead<F>),
}

impl<F: Read + Drop> Source<F> {
    ghost use Rattle.std.specs.Prelude.{OnOk};
    ghost use Rattle.std.specs.Io.KnownBytes.{Keeps};
    ghost use Rattle.input_files.specs.Source.{source_remaining};

    /// Takes of the file what its reader will ask for, and closes it. Its reader is told of a read that fails,
    /// once it comes to it.
    ///
    /// `AllocError` comes only where a growth was refused; then the file is closed, and what was taken is lost.
    pub(crate) fn read_ahead(&mut self, alloc: Global) -> Result<(), AllocError>
        ensures { OnOk result (Keeps (source_remaining F.remaining self.old) (source_remaining F.remaining self.new)) }
    {
        let failing = match self {
            Source::Open(_, file) => Ahead::failing(alloc, file),
            Source::Closed(_) => return Ok(()),
        };
        let ahead = match mem::replace(self, Source::Closed(failing)) {
            Source::Open(Role::Tape, file) => ahead_of_tape(alloc, file)?,
            Source::Open(Role::Script, file) => ahead_of_script(alloc, file)?,
            Source::Closed(ahead) => ahead,
        };
        *self = Source::Closed(ahead);
        Ok(())
    }
}

impl<F: Read> Read for Source<F> {
    ghost use Rattle.input_files.specs.Source.{source_remaining};

    ghost remaining = { source_remaining F.remaining };

    fn read(&mut self, buf: &mut [u8]) -> io::Result<usize> {
        match self {
            Source::Open(_, file) => file.read(buf),
            Source::Closed(ahead) => ahead.read(buf),
        }
    }
}

/// What was read ahead of a file, as far as it was not yet passed on.
#[derive(Drop)]
pub struct Ahead<F> {
    text: VecDeque<u8>,

    /// Whether the file ended behind the text. Else a read that comes to there fails, as the file's did; or nobody comes
    /// to there, since its reader asks for no more.
    has_ended: bool,

    /// The file as it was behind the text, which only clauses read.
    file: Snapshot<BufReader<F>>,
}

impl<F: Read> Ahead<F> {
    ghost use Rattle.std.specs.Prelude.{◌≡◌};
    ghost use Rattle.std.specs.Io.Buffered.{reader_remaining};
    ghost use Rattle.input_files.specs.Source.{ahead_remaining};

    // Nothing of a file, which can't be read.
    fn failing(alloc: Global, file: &BufReader<F>) -> Ahead<F>
        ensures { ahead_remaining F.remaining result ≡ reader_remaining F.remaining file.now }
    {
        Ahead {
            text: VecDeque::new(alloc),
            has_ended: false,
            file: Snapshot::of(file),
        }
    }
}

impl<F: Read> Read for Ahead<F> {
    ghost use Rattle.input_files.specs.Source.{ahead_remaining};

    ghost remaining = { ahead_remaining F.remaining };

    fn read(&mut self, buf: &mut [u8]) -> io::Result<usize> {
        if self.text.is_empty() && !self.has_ended && !buf.is_empty() {
            return Err(io::Error::from(ErrorKind::Other));
        }
        self.text.read(buf)
    }
}

// What the reader of a tape takes of a file: it is asked after each byte, since only it knows where a tape ends. What it
// makes of the tape is told when its turn comes.
fn ahead_of_tape<F: Read + Drop>(
    alloc: Global,
    mut file: BufReader<F>,
) -> Result<Ahead<F>, AllocError>
    ensures { IfOk result (λ ahead. Keeps (reader_remaining F.remaining file) (ahead_remaining F.remaining ahead)) }
{
    let mut reader = TapeReader::new(alloc);
    let mut text = Vec::new(alloc);
    let mut has_ended = false;
    for _ in 0..INPUT_LIMIT {
        let mut byte = [0u8; 1];
        match file.read(&mut byte) {
            Ok(0) => {
                has_ended = true;
                break;
            }
            Ok(_) => text.push(byte[0])?,
            Err(_) => break,
        }
        match reader.feed(&byte) {
            Ok(Fed::More) => {}
            Ok(Fed::Done(_)) | Err(ReadError::Tape(_)) => break,
            Err(ReadError::Memory) => return Err(AllocError),
        }
    }
    Ok(Ahead {
        text: VecDeque::from_vec(text),
        has_ended,
        file: Snapshot::of(&file),
    })
}

// What the reader of a script takes of a file. Where a read fails there is no script, whatever came before.
fn ahead_of_script<F: Read + Drop>(
    alloc: Global,
    mut file: BufReader<F>,
) -> Result<Ahead<F>, AllocError>
    ensures { IfOk result (λ ahead. Keeps (reader_remaining F.remaining file) (ahead_remaining F.remaining ahead)) }
{
    let failing = Ahead::failing(alloc, &file);
    match read_up_to(alloc, &mut file, SCRIPT_LIMIT + 1) {
        Ok(text) => Ok(Ahead {
            has_ended: text.len() <= SCRIPT_LIMIT,
            text: VecDeque::from_vec(text),
            file: Snapshot::of(&file),
        }),
        Err(InputFault::Read) => Ok(failing),
        Err(InputFault::Memory) => Err(AllocError),
    }
}
