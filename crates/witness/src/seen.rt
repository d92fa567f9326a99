ghost use Rattle.std.specs.Prelude.{◌≡◌};

use std::cell::Cell;
use std::io;
use std::io::ErrorKind;

/// How many of a file's first bytes are kept.
pub const FRONT_LENGTH: usize = 4;

/// The first bytes of a file, and 000 behind its end.
pub type Front = [u8; FRONT_LENGTH];

/// How many of the last bytes are kept that were read of a file.
pub const END_LENGTH: usize = 6;

/// The last bytes that were read of a file, and 000 before its beginning.
pub type End = [u8; END_LENGTH];

/// What was seen of a system: how it failed last, since it opened something, and with which bytes the file begins that was
/// begun to be read last, and which were read of it last; and how many characters of a line no loss explains.
///
/// Nothing is kept of a failure that says no more than the program's own words do: that a name is taken already, that a
/// call was interrupted, which is then made again, or that nothing has a name which was asked after before it is made.
#[derive(Drop)]
pub struct Witness {
    error: Cell<Option<io::Error>>,

    // How a read failed first. A file that is read ahead is told of once its turn comes, when others were opened.
    unread: Cell<Option<io::Error>>,
    front: Cell<Front>,
    end: Cell<End>,

    // Whether files may have been read ahead of their turn.
    is_ahead: Cell<bool>,

    pub(crate) changed: Cell<u32>,
}

impl Witness {
    /// It has seen nothing yet.
    pub fn new() -> Witness {
        Witness {
            error: Cell::new(None),
            unread: Cell::new(None),
            front: Cell::new([0; FRONT_LENGTH]),
            end: Cell::new([0; END_LENGTH]),
            is_ahead: Cell::new(false),
            changed: Cell::new(0),
        }
    }

    /// The error, where the system failed.
    pub fn error(&self) -> Option<io::Error> {
        match self.error.get() {
            Some(error) => Some(error),
            None => self.unread.get(),
        }
    }

    /// The first bytes of the file that was begun to be read last. None where some were read ahead of their turn.
    pub fn front(&self) -> Option<Front> {
        if self.is_ahead.get() {
            None
        } else {
            Some(self.front.get())
        }
    }

    /// The last bytes that were read of the same file. None as for its first.
    pub fn end(&self) -> Option<End> {
        if self.is_ahead.get() {
            None
        } else {
            Some(self.end.get())
        }
    }

    /// Keeps how a call failed, and answers what it came to.
    pub(crate) fn of_call<T>(&self, answer: io::Result<T>) -> io::Result<T>
        ensures { result ≡ answer }
    {
        if let Err(error) = &answer {
            self.keep(*error);
        }
        answer
    }

    /// The same of a read.
    pub(crate) fn of_read<T>(&self, answer: io::Result<T>) -> io::Result<T>
        ensures { result ≡ answer }
    {
        if let Err(error) = &answer {
            self.keep_unread(*error);
        }
        self.of_call(answer)
    }

    /// The same of a call that opens something: where it went well, what failed before is over.
    pub(crate) fn of_opening<T>(&self, answer: io::Result<T>) -> io::Result<T>
        ensures { result ≡ answer }
    {
        match &answer {
            Ok(_) => self.error.set(None),
            Err(error) => self.keep(*error),
        }
        answer
    }

    /// The same of a tape or a script. Where the system has no descriptor left, files are read ahead.
    pub(crate) fn of_input<T>(&self, answer: io::Result<T>) -> io::Result<T>
        ensures { result ≡ answer }
    {
        if answer.is_err() {
            self.is_ahead.set(true);
        }
        self.of_opening(answer)
    }

    /// The same of a question what stands under a name, which nothing may have.
    pub(crate) fn of_question<T>(&self, answer: io::Result<T>) -> io::Result<T>
        ensures { result ≡ answer }
    {
        if let Err(error) = &answer {
            match error.kind() {
                ErrorKind::NotFound => {}
                _ => self.keep(*error),
            }
        }
        answer
    }

    /// Keeps the first bytes of a file.
    pub(crate) fn see_front(&self, bytes: &[u8]) {
        let mut front = [0; FRONT_LENGTH];
        let count = bytes.len().min(FRONT_LENGTH);
        front[..count].copy_from_slice(&bytes[..count]);
        self.front.set(front);
        self.end.set([0; END_LENGTH]);
    }

    /// Keeps the last bytes of what was read.
    pub(crate) fn see_end(&self, bytes: &[u8]) {
        let mut end = self.end.get();
        let last = &bytes[bytes.len().saturating_sub(END_LENGTH)..];
        end.rotate_left(last.len());
        end[END_LENGTH - last.len()..].copy_from_slice(last);
        self.end.set(end);
    }

    // Keeps how a read failed, where none did before.
    fn keep_unread(&self, error: io::Error) {
        match (self.unread.get(), error.kind()) {
            (Some(_), _) | (None, ErrorKind::Interrupted) => {}
            (None, _) => self.unread.set(Some(error)),
        }
    }

    // Keeps an error in place of the one before.
    fn keep(&self, error: io::Error) {
        match error.kind() {
            ErrorKind::AlreadyExists | ErrorKind::Interrupted => {}
            _ => self.error.set(Some(error)),
        }
    }
}
