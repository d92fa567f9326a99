//! A test of memory between two hosts.
ghost use Rattle.std.specs.Prelude.{◌≡◌, ◌<◌, ◌++◌, ◌∷◌, [], IfOk};
ghost use Rattle.machine_memory.specs.declared.course.Place.TheVariants.{Over};
ghost use Rattle.reading_core.specs.Addresses.{IsRange};
ghost use Rattle.machine_memory.specs.Words.{words_of};
ghost use Rattle.machine_probe.specs.Follow.{number_in};
ghost use Rattle.machine_memory.specs.Course.{behind_test, behind_trial, begun, borrowed_behind, by_first, next_bank, sighting_end};
ghost use Rattle.machine_memory.specs.Course.{test_next, try_next, unknown_behind, unknown_end};

use crate::words::push_words;
use engine::{Cut, Stop};
use memory_core::{Borrowed, End, MemoryCore};
use memory_report::{Bus, TestEnd, Word};
use probe_report::{Findings as Tried, Sighting, TrialEnd, TrialFindings, Verdict, judge};
use std::alloc::{AllocError, Global};
use std::marker::Model;

// How many bytes a bank has.
const BANK: u16 = 0o20000;

/// What comes next.
#[derive(Clone, Copy)]
pub enum Place {
    /// The console is tried at this word.
    Trying(u16),

    /// The words from this one on are tested.
    Testing(u16),

    /// The number at this place of the bus test is deposited in this word, which held that one before.
    Marking(Borrowed, u8),

    /// The words from this address on that are one address line from this word are looked at, while it holds the mark.
    Looking(Borrowed, u16),

    /// The word gets its old number again.
    PuttingBack(Borrowed),

    /// The same words are looked at again.
    LookingAgain(Borrowed, u16),

    /// Nothing: so it ended.
    Over(TestEnd),
}

/// What was found so far, and what comes next.
#[derive(Drop)]
pub(crate) struct Course {
    pub(crate) words: Vec<Word>,
    pub(crate) gaps: Vec<u16>,
    pub(crate) bus: Bus,
    pub(crate) borrowed: Option<Borrowed>,
    pub(crate) place: Place,
}

impl Model for Course {
    ghost use Rattle.memory_report.specs.Bus.{bus_of};
    ghost use Rattle.machine_memory.specs.Course.{Standing, standing_of};

    ghost Value = { Standing };

    ghost view = { λ c. standing_of c.words.items c.gaps.items (bus_of c.bus) c.borrowed c.place };
}

impl Course {
    /// Nothing was found yet: the console is to be tried at this word. There is room for so many words. The error is want of memory.
    pub(crate) fn new(alloc: Global, from: u16, words: usize) -> Result<Course, AllocError>
        ensures { IfOk result (λ course. course ≡ begun from) }
    {
        Ok(Course {
            words: Vec::with_capacity(alloc, words)?,
            gaps: Vec::with_capacity(alloc, 8)?,
            bus: Bus {
                at: None,
                touches: false,
                looked_at: 0,
                marked: Vec::with_capacity(alloc, 16)?,
                returned: Vec::with_capacity(alloc, 16)?,
            },
            borrowed: None,
            place: Place::Trying(from),
        })
    }

    // It ended so.
    pub(crate) fn over(self, end: TestEnd, borrowed: Option<Borrowed>) -> Course
        ensures { result ≡ record self { borrowed = borrowed; place = Over end } }
    {
        Course {
            borrowed,
            place: Place::Over(end),
            ..self
        }
    }

    // Nothing answers at this address.
    fn with_gap(self, gap: u16, place: Place) -> Result<Course, AllocError>
        ensures { IfOk result (λ course. course ≡ record self { gaps = self.gaps ++ gap ∷ []; place = place }) }
    {
        let Course {
            words,
            mut gaps,
            bus,
            borrowed,
            place: _,
        } = self;
        gaps.push(gap)?;
        Ok(Course {
            words,
            gaps,
            bus,
            borrowed,
            place,
        })
    }

    // What a core tested.
    fn with_words(self, core: &MemoryCore) -> Result<Course, AllocError>
        ensures { IfOk result (λ course. course ≡ record self { words = self.words ++ words_of core.now.addresses core.now.seen }) }
    {
        let Course {
            mut words,
            gaps,
            bus,
            borrowed,
            place,
        } = self;
        push_words(&mut words, core.addresses(), core.seen())?;
        Ok(Course {
            words,
            gaps,
            bus,
            borrowed,
            place,
        })
    }

    /// What comes behind a trial of the console.
    pub(crate) fn behind_trial(self, found: &Tried, to: u16) -> Result<Course, AllocError>
        requires { IsRange found.now.address to }
        ensures { IfOk result (λ course. course ≡ behind_trial to self found.now) }
    {
        match judge(found) {
            Verdict::Forgets => Ok(Course {
                place: Place::Testing(found.address),
                ..self
            }),
            Verdict::Stores => {
                let old = number_in(found.first);
                let borrowed = borrowed_behind(found.address, old, found.put_back);
                Ok(self.over(TestEnd::NotTrusted, borrowed))
            }
            Verdict::Unknown => self.behind_failure(found, to),
        }
    }

    // What comes behind a trial from which it is not known whether the console forgets digits.
    fn behind_failure(self, found: &Tried, to: u16) -> Result<Course, AllocError>
        requires { to < 0o160000 }
        ensures { IfOk result (λ course. course ≡ by_first to self found.now found.now.first) }
    {
        let address = found.address;
        match found.first {
            Sighting::Number(old) => {
                let end = unknown_behind(old, found.trial, found.second);
                Ok(self.over(end, Some(Borrowed { address, old })))
            }
            Sighting::NoWord => self.with_gap(address, try_next(address, next_bank(address, to))),
            Sighting::GaveUp => Ok(self.over(TestEnd::GaveUp, None)),
            Sighting::CutOff(cut) => Ok(self.over(TestEnd::CutOff(cut), None)),
        }
    }

    /// What comes behind a test of words that stopped so.
    pub(crate) fn behind_test(
        self,
        core: &MemoryCore,
        stop: Stop<End>,
        to: u16,
    ) -> Result<Course, AllocError>
        requires { to < 0o160000 }
        ensures { IfOk result (λ course. course ≡ behind_test to self core.now stop) }
    {
        let course = self.with_words(core)?;
        let borrowed = core.borrowed();
        match (stop, borrowed) {
            (Stop::Ended(End::Complete), _) => Ok(course.over(TestEnd::Tested, borrowed)),
            (Stop::Ended(End::NoWord(gap)), None) => {
                course.with_gap(gap, test_next(next_bank(gap, to)))
            }
            (Stop::Ended(End::NoWord(address)), Some(_)) => {
                Ok(course.over(TestEnd::NoWord(address), borrowed))
            }
            (Stop::Ended(End::GaveUp), _) => Ok(course.over(TestEnd::GaveUp, borrowed)),
            (Stop::KeepFailed(_), _) => Ok(course.over(TestEnd::CutOff(Cut::TurnsOver), borrowed)),
            (Stop::CutOff(cut), _) => Ok(course.over(TestEnd::CutOff(cut), borrowed)),
        }
    }
}

// The first word of the next bank, if it may be tested.
fn next_bank(address: u16, to: u16) -> Option<u16>
    requires { to < 0o160000 }
    ensures { result ≡ next_bank address to }
{
    if address >= 0o160000 {
        return None;
    }
    let next = (address / BANK + 1) * BANK;
    if next <= to { Some(next) } else { None }
}

// Where the console is tried next, if it is.
fn try_next(address: u16, next: Option<u16>) -> Place
    ensures { result ≡ try_next address next }
{
    match next {
        Some(next) => Place::Trying(next),
        None => Place::Over(TestEnd::NoWord(address)),
    }
}

// Where words are tested next, if any are.
fn test_next(next: Option<u16>) -> Place
    ensures { result ≡ test_next next }
{
    match next {
        Some(next) => Place::Testing(next),
        None => Place::Over(TestEnd::Tested),
    }
}

// The number that a look read.
fn number_in(sighting: Sighting) -> u16
    ensures { result ≡ number_in sighting }
{
    match sighting {
        Sighting::Number(number) => number,
        _ => 0,
    }
}

// The word at which the console stored digits, unless it holds its old number again.
fn borrowed_behind(address: u16, old: u16, put_back: Option<bool>) -> Option<Borrowed>
    ensures { result ≡ borrowed_behind address old put_back }
{
    match put_back {
        Some(true) => None,
        _ => Some(Borrowed { address, old }),
    }
}

// How it ended, where it is not known whether the console forgets digits, though the first look read a number.
fn unknown_behind(old: u16, trial: Option<TrialFindings>, second: Option<Sighting>) -> TestEnd
    ensures { result ≡ unknown_behind old trial second }
{
    match second {
        Some(second) => sighting_end(old, second),
        None => match trial {
            Some(TrialFindings { end, .. }) => unknown_end(end),
            None => TestEnd::GaveUp,
        },
    }
}

fn unknown_end(end: TrialEnd) -> TestEnd
    ensures { result ≡ unknown_end end }
{
    match end {
        TrialEnd::CutOff(cut) => TestEnd::CutOff(cut),
        TrialEnd::Tried | TrialEnd::NoWord | TrialEnd::GaveUp => TestEnd::GaveUp,
    }
}

fn sighting_end(old: u16, second: Sighting) -> TestEnd
    ensures { result ≡ sighting_end old second }
{
    match second {
        Sighting::CutOff(cut) => TestEnd::CutOff(cut),
        Sighting::Number(now) if now != old => TestEnd::NotTrusted,
        Sighting::Number(_) | Sighting::NoWord | Sighting::GaveUp => TestEnd::GaveUp,
    }
}
