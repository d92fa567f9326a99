// The table of a host that tests memory: for each phase, what it does on what the console answers.

ghost use Rattle.std.specs.Prelude.{◌≡◌, ◌≤◌};
ghost use Rattle.memory_core.specs.MemoryTable.{addressed, closed, deposited, read, reads, returned, second_look, slash_hears, synced, waits};

use crate::phase::{End, Phase, Visit};
use crate::seen::{Readings, Seen};
use crate::stage::Stage;
use crate::turn::Turn;
use host_core::answers::{Echo, Reading, Reply};
use host_core::console::{CARRIAGE_RETURN, RESYNCHRONISE, SLASH};

/// Behind the answer to `Z` comes the word under way.
pub(crate) fn synced(reply: Reply) -> Turn
    ensures { result ≡ synced reply }
{
    match reply {
        Reply::On(place) => Turn::Listen(Phase::Sync(place)),
        Reply::Over => Turn::Next,
        Reply::Wrong => Turn::Stray,
    }
}

/// Behind the echo of a digit of the address the next is typed, after the sixth `/`.
pub(crate) fn addressed(visit: Visit, place: u8, echo: Echo) -> Turn
    requires { place ≤ 6 }
    ensures { result ≡ addressed visit place echo }
{
    match echo {
        Echo::More(digit) => Turn::Key(digit, Phase::Address(visit, place + 1)),
        Echo::Whole => Turn::Key(SLASH, Phase::Slash(visit)),
        Echo::NoEcho => Turn::Stray,
    }
}

/// The echo of `/`.
pub(crate) fn slash(visit: Visit, c: u8) -> Turn
    ensures { result ≡ slash_hears visit c }
{
    match c {
        SLASH => Turn::Listen(Phase::Before(visit)),
        _ => Turn::Stray,
    }
}

/// A reading of the word at an address: it goes on, it is whole, or there is no memory.
pub(crate) fn reads(address: u16, stage: Stage, visit: Visit, reading: Reading) -> Turn
    ensures { result ≡ reads address stage visit reading }
{
    match reading {
        Reading::Digits(value, count) => Turn::Listen(Phase::Value(visit, value, count)),
        Reading::Number(value) => whole_reading(stage, visit, value),
        Reading::NoMemory => Turn::Stop(End::NoWord(address)),
        Reading::NoReading => Turn::Stray,
    }
}

// Six digits came, so nothing of the reading was lost. One look is not enough before something is deposited: memory whose
// reading flickers would get a wrong number back. A look at a word into which something was typed before a mishap says
// nothing: it is typed once more.
fn whole_reading(stage: Stage, visit: Visit, value: u16) -> Turn
    ensures { result ≡ read stage visit value }
{
    match (stage, visit) {
        (Stage::Unseen, _) => Turn::LooksAgain(value),
        (Stage::Once(first), _) => second_look(first, value),
        (Stage::Turned(old), Visit::Check) => Turn::Deposits(Stage::Returned(old, value)),
        (Stage::Returned(old, turned), Visit::Check) => Turn::Counts(Seen::Tested(Readings {
            old,
            turned,
            back: value,
        })),
        (_, Visit::Look) => Turn::Deposits(stage),
    }
}

// Two looks at the word.
fn second_look(first: u16, second: u16) -> Turn
    ensures { result ≡ second_look first second }
{
    if second == first {
        Turn::Deposits(Stage::Turned(second))
    } else {
        Turn::Counts(Seen::Unsteady(first, second))
    }
}

/// Behind the echo of a digit that is deposited the next is typed, after the sixth CR.
pub(crate) fn deposited(place: u8, echo: Echo) -> Turn
    requires { place ≤ 6 }
    ensures { result ≡ deposited place echo }
{
    match echo {
        Echo::More(digit) => Turn::Key(digit, Phase::Deposit(place + 1)),
        Echo::Whole => Turn::Key(CARRIAGE_RETURN, Phase::Return(0)),
        Echo::NoEcho => Turn::Stray,
    }
}

/// Behind the answer to the CR that stores the word is read back.
pub(crate) fn returned(reply: Reply) -> Turn
    ensures { result ≡ returned reply }
{
    match reply {
        Reply::On(place) => Turn::Listen(Phase::Return(place)),
        Reply::Over => Turn::ReadBack,
        Reply::Wrong => Turn::Stray,
    }
}

/// Behind the answer to the CR that closes the word comes the next.
pub(crate) fn closed(reply: Reply) -> Turn
    ensures { result ≡ closed reply }
{
    match reply {
        Reply::On(place) => Turn::Listen(Phase::Close(place)),
        Reply::Over => Turn::Next,
        Reply::Wrong => Turn::Stray,
    }
}

/// Nothing came for the quiet time.
pub(crate) fn quiet(phase: Phase) -> Turn
    ensures { result ≡ waits phase }
{
    match phase {
        Phase::Settle => Turn::Key(RESYNCHRONISE, Phase::Sync(0)),
        Phase::Ended(_) => Turn::Listen(phase),
        _ => Turn::Timeout,
    }
}
