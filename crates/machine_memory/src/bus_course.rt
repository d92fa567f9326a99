//! A test of a bus between two hosts.
ghost use Rattle.std.specs.Prelude.{◌≡◌, ◌+◌, ◌≤◌, ◌++◌, true, None, Some, length, min, vec_capacity, IfOk, OnErr};
ghost use Rattle.engine.specs.declared.stop.Stop.TheVariants.{Ended};
ghost use Rattle.host_core.specs.declared.phase.End.TheVariants.{Loaded};
ghost use Rattle.machine_memory.specs.Bus.{mark, reading};
ghost use Rattle.machine_memory.specs.BusCourse.{behind_look, behind_mark, behind_put_back, behind_second_look, first_good, good_also};
ghost use Rattle.machine_memory.specs.BusCourse.{in_bus, look_on, next_mark, put_back_next, second_look_on, stopped_load, then_bus};

use crate::bus_numbers::{NUMBERS, mark};
use crate::course::{Course, Place};
use crate::neighbours::{LAST_WORD, note_reading, push_reading};
use engine::Cut;
use host_core::End as LoadEnd;
use load_engine::Stop as LoadStop;
use memory_core::Borrowed;
use memory_report::{Bus, TestEnd, Word};
use reading_core::{End as LookEnd, ReadingCore};
use std::alloc::AllocError;

/// How a look stopped.
type LookStop = Result<LookEnd, Cut>;

impl Course {
    /// Where each word of the range was tested, and none is lent, the bus is tested at the first word that holds.
    pub(crate) fn then_bus(self, every: u16) -> Course
        ensures { result ≡ then_bus every self }
    {
        match (self.place, self.borrowed, first_good(&self.words)) {
            (Place::Over(TestEnd::Tested), None, Some(word)) if every == 1 => Course {
                bus: Bus {
                    at: Some(word.address),
                    ..self.bus
                },
                place: Place::Marking(word, 0),
                ..self
            },
            _ => self,
        }
    }

    // The word is lent to the test of the bus, and so it goes on.
    fn lends(self, word: Borrowed, place: Place) -> Course
        ensures { result ≡ record self { borrowed = Some word; place = place } }
    {
        Course {
            borrowed: Some(word),
            place,
            ..self
        }
    }

    // A number did not stand.
    fn touching(self) -> Course
        ensures { result ≡ record self { bus = record self.bus { touches = true } } }
    {
        Course {
            bus: Bus {
                touches: true,
                ..self.bus
            },
            ..self
        }
    }

    // A load that stopped so, other than where the number stands or does not.
    fn stopped_load(self, word: Borrowed, stop: LoadStop) -> Course
        ensures { result ≡ stopped_load self word stop }
    {
        let end = match stop {
            LoadStop::Ended(LoadEnd::NoWord(address)) => TestEnd::NoWord(address),
            LoadStop::Ended(_) => TestEnd::GaveUp,
            LoadStop::KeepFailed(_) => TestEnd::CutOff(Cut::TurnsOver),
            LoadStop::CutOff(cut) => TestEnd::CutOff(cut),
        };
        self.over(end, Some(word))
    }

    /// What comes behind the old number, where memory was wanting for more: that, or, where the number may not stand, an end
    /// that names the word.
    pub(crate) fn behind_want(self, word: Borrowed, stop: LoadStop) -> Result<Course, AllocError>
        ensures named { IfOk result (λ course. course ≡ stopped_load self word stop) }
        ensures restored { OnErr result (stop ≡ Ended Loaded) }
    {
        match stop {
            LoadStop::Ended(LoadEnd::Loaded) => Err(AllocError),
            other => Ok(self.stopped_load(word, other)),
        }
    }

    /// What comes behind the deposit of the number at this place.
    pub(crate) fn behind_mark(self, word: Borrowed, place: u8, stop: LoadStop) -> Course
        ensures { result ≡ behind_mark self word place stop }
    {
        match stop {
            LoadStop::Ended(LoadEnd::Loaded) => self.lends(word, next_mark(word, place)),
            LoadStop::Ended(LoadEnd::WontHold(_)) => {
                self.touching().lends(word, Place::PuttingBack(word))
            }
            other => self.stopped_load(word, other),
        }
    }

    /// What comes behind the deposit of the old number.
    pub(crate) fn behind_put_back(self, word: Borrowed, stop: LoadStop) -> Course
        ensures { result ≡ behind_put_back self word stop }
    {
        match stop {
            LoadStop::Ended(LoadEnd::Loaded) => {
                let place = put_back_next(word, &self.bus.marked);
                Course {
                    borrowed: None,
                    place,
                    ..self
                }
            }
            LoadStop::Ended(LoadEnd::WontHold(_)) => {
                self.touching().over(TestEnd::Tested, Some(word))
            }
            other => self.stopped_load(word, other),
        }
    }

    /// What comes behind a look at the words around this one, which holds the mark. There is room for those that read it,
    /// behind the earlier ones.
    pub(crate) fn behind_look(
        self,
        word: Borrowed,
        core: &ReadingCore,
        marked: Vec<u16>,
        stop: LookStop,
    ) -> Course
        requires same { marked.items ≡ self.bus.marked }
        requires ample { length marked.items + length core.now.values ≤ vec_capacity marked }
        ensures { result ≡ behind_look self word core.now stop }
    {
        let course = self.with_marked(word, core, marked);
        match stop {
            Ok(LookEnd::Complete) => course.at(Place::PuttingBack(word)),
            Ok(LookEnd::NoWord(gap)) => course.at(look_on(word, gap)),
            Ok(LookEnd::GaveUp) => course.over(TestEnd::GaveUp, Some(word)),
            Err(cut) => course.over(TestEnd::CutOff(cut), Some(word)),
        }
    }

    /// What comes behind a second look at them, once the word has its old number again.
    pub(crate) fn behind_second_look(
        self,
        word: Borrowed,
        core: &ReadingCore,
        stop: LookStop,
    ) -> Result<Course, AllocError>
        ensures { IfOk result (λ course. course ≡ behind_second_look self word core.now stop) }
    {
        let course = self.with_returned(word, core)?;
        Ok(match stop {
            Ok(LookEnd::Complete) => course.over(TestEnd::Tested, None),
            Ok(LookEnd::NoWord(gap)) => course.at(second_look_on(word, gap)),
            Ok(LookEnd::GaveUp) => course.over(TestEnd::GaveUp, None),
            Err(cut) => course.over(TestEnd::CutOff(cut), None),
        })
    }

    // So it goes on.
    fn at(self, place: Place) -> Course
        ensures { result ≡ record self { place = place } }
    {
        Course { place, ..self }
    }

    // What a look read while the word held the mark.
    fn with_marked(self, word: Borrowed, core: &ReadingCore, marked: Vec<u16>) -> Course
        requires same { marked.items ≡ self.bus.marked }
        requires ample { length marked.items + length core.now.values ≤ vec_capacity marked }
        ensures { result ≡ record self {
          bus = record self.bus {
            looked_at = min (self.bus.looked_at + length core.now.values) 4294967295;
            marked = self.bus.marked ++ reading (mark word.old) core.now.addresses core.now.values;
          };
        } }
    {
        let Bus {
            at,
            touches,
            looked_at,
            marked: earlier,
            returned,
        } = self.bus;
        drop(earlier);
        let mut marked = marked;
        note_reading(&mut marked, mark(word.old), core.addresses(), core.values());
        let more = core.values().len() as u32;
        let bus = Bus {
            at,
            touches,
            looked_at: looked_at.saturating_add(more),
            marked,
            returned,
        };
        Course { bus, ..self }
    }

    // What a look read once the word had its old number again.
    fn with_returned(self, word: Borrowed, core: &ReadingCore) -> Result<Course, AllocError>
        ensures { IfOk result (λ course. course ≡ record self {
          bus = record self.bus {
            returned = self.bus.returned ++ reading word.old core.now.addresses core.now.values;
          };
        }) }
    {
        let Bus {
            at,
            touches,
            looked_at,
            marked,
            mut returned,
        } = self.bus;
        push_reading(&mut returned, word.old, core.addresses(), core.values())?;
        let bus = Bus {
            at,
            touches,
            looked_at,
            marked,
            returned,
        };
        Ok(Course { bus, ..self })
    }
}

// The first word that holds what it is given, and what it held before.
fn first_good(words: &[Word]) -> Option<Borrowed>
    ensures { result ≡ first_good words.now }
{
    let mut found = None;
    for word in words {
        found = good_also(found, *word);
    }
    found
}

// The same, with one word more.
fn good_also(found: Option<Borrowed>, word: Word) -> Option<Borrowed>
    ensures { result ≡ good_also found word }
{
    match found {
        Some(found) => Some(found),
        None if word.is_bad() => None,
        None => Some(Borrowed {
            address: word.address,
            old: word.seen.old(),
        }),
    }
}

// What comes behind a number that stands.
fn next_mark(word: Borrowed, place: u8) -> Place
    ensures { result ≡ next_mark word place }
{
    if place < NUMBERS - 1 {
        Place::Marking(word, place + 1)
    } else {
        Place::Looking(word, 0)
    }
}

// What comes behind the old number: a second look, where a word read the mark.
fn put_back_next(word: Borrowed, marked: &[u16]) -> Place
    ensures { result ≡ put_back_next word marked.now }
{
    match marked {
        [] => Place::Over(TestEnd::Tested),
        [_, ..] => Place::LookingAgain(word, 0),
    }
}

// What comes behind an address at which nothing answers.
fn look_on(word: Borrowed, gap: u16) -> Place
    ensures { result ≡ look_on word gap }
{
    match behind(gap) {
        Some(next) => Place::Looking(word, next),
        None => Place::PuttingBack(word),
    }
}

// The same, at the second look.
fn second_look_on(word: Borrowed, gap: u16) -> Place
    ensures { result ≡ second_look_on word gap }
{
    match behind(gap) {
        Some(next) => Place::LookingAgain(word, next),
        None => Place::Over(TestEnd::Tested),
    }
}

// The word behind an address, if there may be one.
fn behind(gap: u16) -> Option<u16>
    ensures { result ≡ in_bus gap }
{
    if gap < LAST_WORD {
        Some(gap / 2 * 2 + 2)
    } else {
        None
    }
}
