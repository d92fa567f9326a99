//! What is told at a terminal behind the report of a load.

use engine::Cut;
use host_core::End;
use host_devices::Line;
use load_engine::Stop;
use machine_load::{LoadEnd, LoadFault, Outcome, StubStop, Stubs, StubsEnd};
use octal::Octal;
use progress_display::ProgressLine;
use request_values::Load;
use std::alloc::{AllocError, Global};
use std::fmt;
use std::io::Print;
use std::time::Clock;
use tape_image::Plan;

/// What helps where no word was done, for want of answers.
pub(crate) const ASK_PROBE: &str = "'ldaodt probe LINE' says what is wrong\n";

// What may be the cause, too, where a word does not hold, and what decides.
const MAY_BE_CHANGED: &str =
    "or the line changed a character: the same line with --careful decides\n";

// What helps where a record goes on.
const GOES_ON: &str = "the same line goes on where it was; power lost? add --recheck\n";

// What helps where the start was typed before, or was about to be.
const LOOK_FIRST: &str =
    "look at the machine first: the program may run; to load it again remove the record\n";

// What is told in place of a report that can't be written, behind which nobody may load again.
const MAY_RUN: &str = "the start may have gone out: look at the machine first\n";

/// What is known of the words that a load is of.
#[derive(Clone, Copy)]
pub struct PlanSize {
    /// How many there are.
    pub words: u32,

    /// The address of the last, which is the highest.
    pub last: Option<u16>,
}

impl PlanSize {
    /// That of a plan.
    pub fn of(plan: &Plan) -> PlanSize {
        let words = plan.words();
        PlanSize {
            words: words.len() as u32,
            last: words.last().map(|word| word.address()),
        }
    }
}

/// Tells behind the report of a load how many of its words are verified by the record alone, why stubs verified none,
/// where they were asked for, and what helps where the load did not come to its end.
pub fn advise_load<C: Clock, T: Print, L: Line>(
    alloc: Global,
    progress: Option<&ProgressLine<'_, C, T>>,
    load: Load<'_>,
    size: PlanSize,
    outcome: &Outcome<L>,
) {
    let Some(progress) = progress else {
        return;
    };
    // Of a record that memory does not hold nothing counts.
    let (LoadEnd::Driven(stop) | LoadEnd::Unfinished(stop)) = outcome.end else {
        return;
    };
    // A load that was over before it began has looked at nothing.
    let recorded = match outcome.line {
        Some(_) => progress.done_at_first(),
        None => size.words,
    };
    say_recorded(alloc, progress, recorded, size.words);
    if let Some(stubs) = outcome.stubs {
        say_no_stub(alloc, progress, recorded, stubs);
    }
    let goes_on = load.record.is_some() && !outcome.marked;
    if let Some(text) = advice(stop, goes_on, progress.done()) {
        progress.say(text);
    }
    match stop {
        Stop::Ended(End::WontHold(address)) => {
            say_unheld(alloc, progress, address);
            if !load.options.careful {
                progress.say(MAY_BE_CHANGED);
            }
        }
        Stop::Ended(End::NoWord(address)) => say_unfit(alloc, progress, address, size.last),
        _ => {}
    }
}

/// Tells where a load failed with its report untold that the program may run, where it may.
pub fn advise_unreported<C: Clock, T: Print>(
    progress: Option<&ProgressLine<'_, C, T>>,
    fault: LoadFault,
) {
    if let (Some(progress), LoadFault::WriteOutput { marked: true }) = (progress, fault) {
        progress.say(MAY_RUN);
    }
}

// Tells a text, where there was memory for it.
fn say<C: Clock, T: Print>(progress: &ProgressLine<'_, C, T>, text: Result<String, AllocError>) {
    if let Ok(text) = text {
        progress.say(text.as_str());
    }
}

// Tells how many words are verified by the record alone, where any are.
fn say_recorded<C: Clock, T: Print>(
    alloc: Global,
    progress: &ProgressLine<'_, C, T>,
    recorded: u32,
    words: u32,
) {
    if recorded > 0 {
        say(
            progress,
            format!(in alloc; "{recorded} of {words} by the record\n"),
        );
    }
}

// Tells why stubs verified no word beside those of the record, where that left the rest to the load.
fn say_no_stub<C: Clock, T: Print>(
    alloc: Global,
    progress: &ProgressLine<'_, C, T>,
    recorded: u32,
    stubs: Stubs,
) {
    if stubs.tally.verified > recorded {
        return;
    }
    if let Some(why) = why_no_stub(stubs.stop) {
        say(progress, format!(in alloc; "--fast did not serve: {why}\n"));
    }
}

// Why no stub took words; none where what stopped them is the load's own end.
fn why_no_stub(stop: StubStop) -> Option<&'static str> {
    let StubStop::Ended(end) = stop else {
        return None;
    };
    match end {
        StubsEnd::TooFewWords => Some("too few words"),
        StubsEnd::NoRoom => Some("no room for the stub in this tape"),
        StubsEnd::InVain => Some("three stubs took no word: is the HALT switch at ENABLE?"),
        StubsEnd::NotStarted(End::NoWord(_)) => None,
        StubsEnd::NotStarted(_) => Some("the stub did not start"),
        StubsEnd::Memory => Some("no memory left"),
    }
}

// Tells that the tape goes further than memory, which has no word at this address, and what shows more.
fn say_unfit<C: Clock, T: Print>(
    alloc: Global,
    progress: &ProgressLine<'_, C, T>,
    address: u16,
    last: Option<u16>,
) {
    let Some(last) = last else {
        return;
    };
    let (address, last) = (Octal(address), Octal(last));
    say(
        progress,
        format!(in alloc;
            "no word at {address}, and the tape goes up to {last}: 'ldaodt probe LINE' says where memory ends\n"
        ),
    );
}

// Tells which bits of the word at this address do not hold, by what was typed and read there last, and what shows more.
fn say_unheld<C: Clock, T: Print>(alloc: Global, progress: &ProgressLine<'_, C, T>, address: u16) {
    let word = progress.last_word();
    let unheld = Unheld {
        address: Octal(address),
        given: word.given,
        read: word.read,
    };
    say(progress, format!(in alloc; "{unheld}\n"));
}

// A word that does not hold what was deposited, as it is told: `001000 was given 123456 and reads 123452: bit 2`, and
// what shows more.
#[derive(Clone, Copy)]
struct Unheld {
    address: Octal,
    given: u16,
    read: u16,
}

impl fmt::Display for Unheld {
    fn fmt<W: fmt::Write>(&self, f: &mut fmt::Formatter<W>) -> fmt::Result {
        let (address, given, read) = (self.address, Octal(self.given), Octal(self.read));
        write!(f, "{address} was given {given} and reads {read}: bit")?;
        put_bits(f, self.given ^ self.read)?;
        write!(f, "; 'ldaodt memory LINE {address} {address}' shows more")
    }
}

// The bits that a number has, from the highest on.
fn put_bits<W: fmt::Write>(f: &mut fmt::Formatter<W>, number: u16) -> fmt::Result {
    for bit in (0..16u16).rev() {
        if number >> bit & 1 == 1 {
            write!(f, " {bit}")?;
        }
    }
    Ok(())
}

// What helps where a load with so many verified words stopped so; where it has a record and did not come to the start, it
// goes on.
fn advice(stop: Stop, goes_on: bool, verified: u32) -> Option<&'static str> {
    match stop {
        Stop::Ended(End::MaybeStarted) => Some(LOOK_FIRST),
        Stop::Ended(End::GaveUp) if verified == 0 => Some(ASK_PROBE),
        Stop::Ended(End::GaveUp) | Stop::CutOff(Cut::LineFailed(_)) if goes_on => Some(GOES_ON),
        _ => None,
    }
}
