// The table of a host that only looks: for each phase, what it does on what the console answers.

ghost use Rattle.std.specs.Prelude.{◌≡◌, ◌≤◌};
ghost use Rattle.reading_core.specs.ReadingTable.{addressed, closed, refused, slash_hears, synced, waits};

use crate::phase::{End, Phase};
use crate::turn::Turn;
use host_core::answers::{Echo, Reply};
use host_core::console::{RESYNCHRONISE, SLASH};

/// Behind the answer to `Z` comes the next word.
pub(crate) fn synced(reply: Reply) -> Turn
    ensures { result ≡ synced reply }
{
    match reply {
        Reply::On(place) => Turn::Listen(Phase::Sync(place)),
        Reply::Over => Turn::Next,
        Reply::Wrong => Turn::Stray,
    }
}

/// Behind the echo of a digit of the address the next is typed, after the sixth `/`.
pub(crate) fn addressed(place: u8, echo: Echo) -> Turn
    requires { place ≤ 6 }
    ensures { result ≡ addressed place echo }
{
    match echo {
        Echo::More(digit) => Turn::Key(digit, Phase::Address(place + 1)),
        Echo::Whole => Turn::Key(SLASH, Phase::Slash),
        Echo::NoEcho => Turn::Stray,
    }
}

/// The echo of `/`.
pub(crate) fn slash(c: u8) -> Turn
    ensures { result ≡ slash_hears c }
{
    match c {
        SLASH => Turn::Listen(Phase::Before),
        _ => Turn::Stray,
    }
}

/// Behind the answer to the CR that closes the word comes the next.
pub(crate) fn closed(reply: Reply) -> Turn
    ensures { result ≡ closed reply }
{
    match reply {
        Reply::On(place) => Turn::Listen(Phase::Close(place)),
        Reply::Over => Turn::Next,
        Reply::Wrong => Turn::Stray,
    }
}

/// Behind the whole refusal of `/` there is no memory at the address.
pub(crate) fn refused(address: u16, reply: Reply) -> Turn
    ensures { result ≡ refused address reply }
{
    match reply {
        Reply::On(place) => Turn::Listen(Phase::Refused(place)),
        Reply::Over => Turn::Stop(End::NoWord(address)),
        Reply::Wrong => Turn::Stray,
    }
}

/// Nothing came for the quiet time.
pub(crate) fn quiet(phase: Phase) -> Turn
    ensures { result ≡ waits phase }
{
    match phase {
        Phase::Settle => Turn::Key(RESYNCHRONISE, Phase::Sync(0)),
        Phase::Ended(_) => Turn::Listen(phase),
        _ => Turn::Timeout,
    }
}
