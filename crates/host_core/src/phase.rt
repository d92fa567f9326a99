use octal::Octal;
use std::fmt;

/// Which deposit of a value it is. A careful host makes a second one before it says that memory won't hold the value,
/// since a changed character can undo the first.
#[derive(Clone, Copy)]
pub enum Try {
    /// The one deposit of a plain host.
    Only,

    /// The first deposit of a careful host.
    First,

    /// The second deposit of a careful host: the check behind the first has read this.
    Second(u16),
}

/// Why the word under way is opened.
#[derive(Clone, Copy)]
pub enum Visit {
    /// To see what memory holds before anything is stored.
    Look,

    /// To see whether memory holds what the look has read, as a careful host does.
    Again(u16),

    /// To see that the deposit of this value reached memory.
    Check(Try, u16),
}

/// Why a CR was typed.
#[derive(Clone, Copy)]
pub enum Reason {
    /// It stores the digits before it, of this value.
    Store(Try, u16),

    /// It closes a word that is to be looked at again, since this was read.
    Reopen(u16),

    /// None was: behind a `?` in place of the reading at this address a careful host awaits what follows a refusal.
    Missing(u16),

    /// It closes a word that stands already.
    Close,
}

/// How a life ended.
#[derive(Clone, Copy)]
pub enum End {
    /// Every word is verified and the tape has no start.
    Loaded,

    /// The echo of `G` was heard.
    Started,

    /// `G` was sent and its echo did not come.
    Uncertain,

    /// The life began with the mark set: an earlier life sent `G`.
    MaybeStarted,

    /// More mishaps than the patience.
    GaveUp,

    /// No memory answers at this address.
    NoWord(u16),

    /// The word at this address was stored and reads back otherwise.
    WontHold(u16),
}

impl End {
    ghost use Rattle.std.specs.Prelude.{◌≡◌, ◌≤◌, length};
    ghost use Rattle.host_core.specs.End.{end_address, end_word};

    /// The word for this end in reports: 12 characters at most.
    pub fn word(self) -> &'static str
        ensures word { result.now ≡ end_word self }
        ensures short { length result.now ≤ 12 }
    {
        match self {
            End::Loaded => "Loaded",
            End::Started => "Started",
            End::Uncertain => "Uncertain",
            End::MaybeStarted => "MaybeStarted",
            End::GaveUp => "GaveUp",
            End::NoWord(_) => "NoWord",
            End::WontHold(_) => "WontHold",
        }
    }

    /// The address of the word that was not there or did not hold.
    pub fn address(self) -> Option<u16>
        ensures { result ≡ end_address self }
    {
        match self {
            End::NoWord(address) | End::WontHold(address) => Some(address),
            _ => None,
        }
    }
}

impl fmt::Display for End {
    ghost use Rattle.std.specs.Prelude.{Some};
    ghost use Rattle.host_core.specs.End.{end_name};

    ghost output = { λ end. Some (end_name end) };

    fn fmt<W: fmt::Write>(&self, f: &mut fmt::Formatter<W>) -> fmt::Result {
        let word = self.word();
        match self.address() {
            Some(address) => write!(f, "{word} {}", Octal(address)),
            None => f.write_str(word),
        }
    }
}

/// What the host waits for. Places count the digits of a number from 1; in `Value` and in the
/// answers to CR and to the key that resynchronises they count from 0.
#[derive(Clone, Copy)]
pub enum Phase {
    /// The line becomes quiet.
    Settle,

    /// The answer to the key that resynchronises, from place 0 to 5.
    Sync(u8),

    /// The echo of a digit of the word's address, place 1 to 6.
    Address(Visit, u8),

    /// The echo of `/`.
    Slash(Visit),

    /// The beginning of the reading.
    Before(Visit),

    /// The rest of the reading: the number so far, and how many of its digits came, 0 to 6.
    Value(Visit, u16, u8),

    /// The echo of a digit of the number that is stored, place 1 to 6.
    Deposit(Try, u16, u8),

    /// The answer to CR, or what follows a `?`, from place 0 to 3.
    Return(Reason, u8),

    /// The echo of a digit of the start address, place 1 to 6.
    Start(u8),

    /// The echo of `G`.
    Go,

    /// Nothing more: the life is over.
    Ended(End),
}
