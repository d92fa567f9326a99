// The phase table: for each phase, what the host does on a character.

ghost use Rattle.std.specs.Prelude.{◌≡◌};
ghost use Rattle.host_core.specs.Host.{IsPlace};
ghost use Rattle.host_core.specs.Console.{resynchronise_of};
ghost use Rattle.host_core.specs.PhaseTable.{address_hears, checked, deposit_hears, differs, echoed, go_hears, looked, looked_again, looked_carefully};
ghost use Rattle.host_core.specs.PhaseTable.{looked_once, mends, read, reads, returns, slash_hears, start_hears, synced, waits};

use crate::answers::{Echo, Reading, Reply, digit, digit_echo};
use crate::console::{CARRIAGE_RETURN, GO, RESYNCHRONISE, RESYNCHRONISE_CAREFULLY, SLASH};
use crate::phase::{End, Phase, Reason, Try, Visit};
use crate::turn::Turn;
use tape_image::{Word, merge};

/// The key by which a host resynchronises.
pub(crate) fn resynchronise(careful: bool) -> u8
    ensures { result ≡ resynchronise_of careful }
{
    if careful {
        RESYNCHRONISE_CAREFULLY
    } else {
        RESYNCHRONISE
    }
}

/// Behind the answer to the key that resynchronises comes the next word.
pub(crate) fn synced(reply: Reply) -> Turn
    ensures { result ≡ synced reply }
{
    match reply {
        Reply::On(place) => Turn::Listen(Phase::Sync(place)),
        Reply::Over => Turn::Next,
        Reply::Wrong => Turn::Stray,
    }
}

// Behind the echo of a digit the next is typed, to go on in phase `next`; after the sixth comes `last`.
fn echoed(echo: Echo, next: Phase, last: Turn) -> Turn
    ensures { result ≡ echoed echo next last }
{
    match echo {
        Echo::More(digit) => Turn::Key(digit, next),
        Echo::Whole => last,
        Echo::NoEcho => Turn::Stray,
    }
}

/// The echo of each digit of the address, then `/` is typed.
pub(crate) fn address(address: u16, visit: Visit, place: u8, c: u8) -> Turn
    requires { IsPlace place }
    ensures { result ≡ address_hears address visit place c }
{
    let opens = Turn::Key(SLASH, Phase::Slash(visit));
    let echo = digit_echo(address, place, c);
    echoed(echo, Phase::Address(visit, place + 1), opens)
}

/// The echo of `/`.
pub(crate) fn slash(visit: Visit, c: u8) -> Turn
    ensures { result ≡ slash_hears visit c }
{
    match c {
        SLASH => Turn::Listen(Phase::Before(visit)),
        _ => Turn::Stray,
    }
}

/// A reading of the word on a visit: it goes on, it is whole, or there is no memory. A changed character alone can make the
/// `?` of that, so a careful host awaits the rest of the refusal.
pub(crate) fn reads(careful: bool, word: Word, visit: Visit, reading: Reading) -> Turn
    ensures { result ≡ reads careful word visit reading }
{
    match reading {
        Reading::Digits(value, count) => Turn::Listen(Phase::Value(visit, value, count)),
        Reading::Number(value) => whole_reading(careful, word, visit, value),
        Reading::NoMemory if careful => {
            Turn::Listen(Phase::Return(Reason::Missing(word.address()), 0))
        }
        Reading::NoMemory => Turn::Stop(End::NoWord(word.address())),
        Reading::NoReading => Turn::Stray,
    }
}

// Six digits came, so nothing of the reading was lost.
fn whole_reading(careful: bool, word: Word, visit: Visit, value: u16) -> Turn
    ensures { result ≡ read careful word visit value }
{
    match visit {
        Visit::Look => looked(careful, word, value),
        Visit::Again(first) => looked_again(word, first, value),
        Visit::Check(deposit, stored) => checked(word, deposit, stored, value),
    }
}

// The first look.
fn looked(careful: bool, word: Word, value: u16) -> Turn
    ensures { result ≡ looked careful word value }
{
    if careful {
        looked_carefully(word, value)
    } else {
        looked_once(word, value)
    }
}

// A plain host takes what it read for true.
fn looked_once(word: Word, value: u16) -> Turn
    ensures { result ≡ looked_once word value }
{
    let stored = merge(word, value);
    if stored == value {
        Turn::Verified
    } else {
        mends(Try::Only, stored)
    }
}

// A careful host reads the word again: only where the tape gives the whole word, and another one seems to stand there,
// does nothing hang on what was read.
fn looked_carefully(word: Word, value: u16) -> Turn
    ensures { result ≡ looked_carefully word value }
{
    let stored = merge(word, value);
    if word.mask() == 0o177777 && stored != value {
        mends(Try::First, stored)
    } else {
        Turn::Key(CARRIAGE_RETURN, Phase::Return(Reason::Reopen(value), 0))
    }
}

// The second look has to read the same.
fn looked_again(word: Word, first: u16, value: u16) -> Turn
    ensures { result ≡ looked_again word first value }
{
    let stored = merge(word, value);
    if value != first {
        Turn::Stray
    } else if stored == value {
        Turn::Verified
    } else {
        mends(Try::First, stored)
    }
}

// The check after a deposit.
fn checked(word: Word, deposit: Try, stored: u16, value: u16) -> Turn
    ensures { result ≡ checked word deposit stored value }
{
    if merge(word, value) == value {
        Turn::Verified
    } else {
        differs(word, deposit, stored, value)
    }
}

// A check that differs: memory won't hold the value, or a careful host deposits it once more. It says so only where the
// second check reads as the first.
fn differs(word: Word, deposit: Try, stored: u16, value: u16) -> Turn
    ensures { result ≡ differs word deposit stored value }
{
    match deposit {
        Try::First => mends(Try::Second(value), stored),
        Try::Second(before) if value != before => Turn::Stray,
        Try::Only | Try::Second(_) => Turn::Stop(End::WontHold(word.address())),
    }
}

// The value is deposited.
fn mends(deposit: Try, value: u16) -> Turn
    ensures { result ≡ mends deposit value }
{
    Turn::Key(digit(value, 1), Phase::Deposit(deposit, value, 1))
}

/// The echo of each digit of the number that is stored, then CR is typed.
pub(crate) fn deposit(deposit: Try, value: u16, place: u8, c: u8) -> Turn
    requires { IsPlace place }
    ensures { result ≡ deposit_hears deposit value place c }
{
    let stores = Turn::Key(
        CARRIAGE_RETURN,
        Phase::Return(Reason::Store(deposit, value), 0),
    );
    let echo = digit_echo(value, place, c);
    echoed(echo, Phase::Deposit(deposit, value, place + 1), stores)
}

/// The answer to CR: behind a deposit the word is read back, behind a look it is looked at again, behind a verified word
/// comes the next. Behind a whole refusal no memory answers at the address.
pub(crate) fn after_return(reason: Reason, reply: Reply) -> Turn
    ensures { result ≡ returns reason reply }
{
    match (reply, reason) {
        (Reply::On(place), _) => Turn::Listen(Phase::Return(reason, place)),
        (Reply::Over, Reason::Store(deposit, value)) => {
            Turn::Revisit(Visit::Check(deposit, value))
        }
        (Reply::Over, Reason::Reopen(first)) => Turn::Revisit(Visit::Again(first)),
        (Reply::Over, Reason::Missing(address)) => Turn::Stop(End::NoWord(address)),
        (Reply::Over, Reason::Close) => Turn::Next,
        (Reply::Wrong, _) => Turn::Stray,
    }
}

/// The echo of each digit of the start address, then `G` is typed.
pub(crate) fn start(start: u16, place: u8, c: u8) -> Turn
    requires { IsPlace place }
    ensures { result ≡ start_hears start place c }
{
    let echo = digit_echo(start, place, c);
    echoed(echo, Phase::Start(place + 1), Turn::Mark)
}

/// The echo of `G`. It is never sent again: the program may be running.
pub(crate) fn go(c: u8) -> Turn
    ensures { result ≡ go_hears c }
{
    match c {
        GO => Turn::Stop(End::Started),
        _ => Turn::Stop(End::Uncertain),
    }
}

/// Nothing came for the quiet time.
pub(crate) fn quiet(careful: bool, phase: Phase) -> Turn
    ensures { result ≡ waits careful phase }
{
    match phase {
        Phase::Settle => Turn::Key(resynchronise(careful), Phase::Sync(0)),
        Phase::Go => Turn::Stop(End::Uncertain),
        Phase::Ended(_) => Turn::Listen(phase),
        _ => Turn::Timeout,
    }
}
