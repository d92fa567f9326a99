// The table of a trial: for each phase, what it does on what the console answers.

ghost use Rattle.std.specs.Prelude.{◌≡◌, ◌≤◌};
ghost use Rattle.trial_core.specs.TrialTable.{addressed, echoed, finished, reads, refused, slash_hears, synced, typed, waits};

use crate::letter::{CAPITAL_LETTER, SMALL_LETTER, SmallLetters};
use crate::phase::{End, Phase};
use crate::turn::Turn;
use host_core::answers::{Echo, Reading, Reply, digit};
use host_core::console::{RESYNCHRONISE, SLASH};

/// How many of a number's six octal digits are left out: the last three are typed into the open word.
pub(crate) const LEFT_OUT_DIGITS: u8 = 3;

/// Behind the first answer to `Z` the address is typed.
pub(crate) fn synced(address: u16, reply: Reply) -> Turn
    ensures { result ≡ synced address reply }
{
    match reply {
        Reply::On(place) => Turn::Listen(Phase::Sync(place)),
        Reply::Over => Turn::Key(digit(address, 1), Phase::Address(1)),
        Reply::Wrong => Turn::Stray,
    }
}

/// Behind the echo of a digit of the address the next is typed, after the sixth `/`.
pub(crate) fn addressed(place: u8, echo: Echo) -> Turn
    requires { place ≤ 6 }
    ensures { result ≡ addressed place echo }
{
    match echo {
        Echo::More(digit) => Turn::Key(digit, Phase::Address(place + 1)),
        Echo::Whole => Turn::Key(SLASH, Phase::Slash),
        Echo::NoEcho => Turn::Stray,
    }
}

/// The echo of `/`.
pub(crate) fn slash(c: u8) -> Turn
    ensures { result ≡ slash_hears c }
{
    match c {
        SLASH => Turn::Listen(Phase::Before),
        _ => Turn::Stray,
    }
}

/// Behind a whole reading the word is open, and the first of the last three digits is typed.
pub(crate) fn reads(digits: u16, reading: Reading) -> Turn
    ensures { result ≡ reads digits reading }
{
    match reading {
        Reading::Digits(_, count) => Turn::Listen(Phase::Value(count)),
        Reading::Number(_) => Turn::Key(digit(digits, LEFT_OUT_DIGITS + 1), Phase::Typed(1)),
        Reading::NoMemory => Turn::Stop(End::NoWord),
        Reading::NoReading => Turn::Stray,
    }
}

/// Behind the echo of a digit that was typed into the open word the next is typed, after the third `Z`.
pub(crate) fn typed(place: u8, echo: Echo) -> Turn
    requires { place ≤ 3 }
    ensures { result ≡ typed place echo }
{
    match echo {
        Echo::More(digit) => Turn::Key(digit, Phase::Typed(place + 1)),
        Echo::Whole => Turn::Key(RESYNCHRONISE, Phase::Done(0)),
        Echo::NoEcho => Turn::Stray,
    }
}

/// Behind the last answer to `Z` a small letter is typed.
pub(crate) fn finished(reply: Reply) -> Turn
    ensures { result ≡ finished reply }
{
    match reply {
        Reply::On(place) => Turn::Listen(Phase::Done(place)),
        Reply::Over => Turn::Key(SMALL_LETTER, Phase::Letter),
        Reply::Wrong => Turn::Stray,
    }
}

/// The echo of the small letter, as it was typed or as a capital. Where anything else comes, the trial is
/// over: the word was tried, and that is no mishap.
pub(crate) fn echoed(c: u8) -> Turn
    ensures { result ≡ echoed c }
{
    match c {
        SMALL_LETTER => Turn::Listen(Phase::Refused(SmallLetters::Kept, 1)),
        CAPITAL_LETTER => Turn::Listen(Phase::Refused(SmallLetters::Folded, 1)),
        _ => Turn::Stop(End::Tried),
    }
}

/// The rest of the answer to the small letter. Behind it the trial is over, and where anything else comes.
pub(crate) fn refused(letters: SmallLetters, reply: Reply) -> Turn
    ensures { result ≡ refused letters reply }
{
    match reply {
        Reply::On(place) => Turn::Listen(Phase::Refused(letters, place)),
        Reply::Over | Reply::Wrong => Turn::Stop(End::Tried),
    }
}

/// Nothing came for the quiet time.
pub(crate) fn quiet(phase: Phase) -> Turn
    ensures { result ≡ waits phase }
{
    match phase {
        Phase::Settle => Turn::Key(RESYNCHRONISE, Phase::Sync(0)),
        Phase::Letter | Phase::Refused(_, _) => Turn::Stop(End::Tried),
        Phase::Ended(_) => Turn::Listen(phase),
        _ => Turn::Timeout,
    }
}
