//! The hosts of a test of memory, one after another over one line.
ghost use Rattle.std.specs.Prelude.{◌≡◌, None, IfOk, OnErr};
ghost use Rattle.reading_core.specs.Addresses.{IsRange};
ghost use Rattle.machine_probe.specs.Runs.{OnLine};
ghost use Rattle.machine_memory.specs.declared.course.Place.TheVariants.{Testing, Trying};
ghost use Rattle.machine_memory.specs.BusRuns.{IsReady, IsUnlent};
ghost use Rattle.machine_memory.specs.Course.{AreWords, IsWithin};
ghost use Rattle.machine_memory.specs.Options.{IsAsked};
ghost use Rattle.machine_memory.specs.Runs.{IsCut, IsCutStep, IsRow, IsStep, IsTestStep, IsTryStep};

use crate::behind::Behind;
use crate::bus_steps::{back_for, look_again, look_around, mark_word, put_back};
use crate::course::{Course, Place};
use crate::memory_options::MemoryOptions;
use host_devices::{Line, MOST_TURNS, Onlooker};
use machine_probe::{Deposit, ProbeOptions, try_console};
use memory_core::MemoryCore;
use memory_engine::{WordWatch, put_to_test};
use std::alloc::{AllocError, Global};

// More steps than a test has: in each of the seven banks the console is tried or words are tested, and once more where the
// console forgets; five numbers are deposited, and behind each of fifteen words nothing may answer, twice.
const STEPS: u32 = 64;

/// Leads the hosts of a test, one after another over the line, until it is over.
///
/// The one error is want of memory, before a host or behind one. A word that was lent to the bus has its old number again
/// then: the host for that is made before anything is deposited, and where the number may not stand there is no error, but an
/// end that names the word.
pub(crate) fn make_steps<L: Line, O: Onlooker + WordWatch>(
    alloc: Global,
    course: Course,
    options: MemoryOptions,
    line: &mut L,
    onlooker: &O,
) -> Result<Course, AllocError>
    requires asked { IsAsked options }
    requires within { IsWithin options.to course.place }
    requires ready { IsReady options course.place None }
    requires words { AreWords course.words }
    ensures made { IfOk result (λ last. OnLine (IsRow options course last) (L.told line.old) (L.told line.new)) }
    ensures cut { OnErr result (OnLine (IsCut options course) (L.told line.old) (L.told line.new)) }
{
    let mut course = course;
    let mut back = None;
    for _ in 0..STEPS {
        course = step(alloc, course, &mut back, options, line, onlooker)?;
    }
    Ok(course)
}

// What comes next.
fn step<L: Line, O: Onlooker + WordWatch>(
    alloc: Global,
    course: Course,
    back: &mut Option<Deposit>,
    options: MemoryOptions,
    line: &mut L,
    onlooker: &O,
) -> Result<Course, AllocError>
    requires asked { IsAsked options }
    requires within { IsWithin options.to course.place }
    requires words { AreWords course.words }
    requires ready { IsReady options course.place back.old }
    ensures made { IfOk result (λ next. OnLine (IsStep options course next) (L.told line.old) (L.told line.new)) }
    ensures within { IfOk result (λ next. IsWithin options.to next.place) }
    ensures words { IfOk result (λ next. AreWords next.words) }
    ensures ready { IfOk result (λ next. IsReady options next.place back.new) }
    ensures cut { OnErr result (OnLine (IsCutStep options course.place) (L.told line.old) (L.told line.new)) }
{
    match course.place {
        Place::Trying(at) => try_at(alloc, course, at, options, line),
        Place::Testing(at) => test_from(alloc, course, at, back, options, line, onlooker),
        Place::Marking(word, place) => {
            onlooker.borrows(word);
            mark_word(alloc, course, word, place, back, options, line)
        }
        Place::Looking(word, first) => look_around(alloc, course, word, first, back, options, line),
        Place::PuttingBack(word) => Ok(put_back(course, word, back.take().unwrap(), line)),
        Place::LookingAgain(word, first) => look_again(alloc, course, word, first, options, line),
        Place::Over(_) => Ok(course),
    }
}

// Tries the console at this word.
fn try_at<L: Line>(
    alloc: Global,
    course: Course,
    at: u16,
    options: MemoryOptions,
    line: &mut L,
) -> Result<Course, AllocError>
    requires asked { IsAsked options }
    requires within { IsRange at options.to }
    requires words { AreWords course.words }
    ensures made { IfOk result (λ next. OnLine (IsTryStep options at course next) (L.told line.old) (L.told line.new)) }
    ensures within { IfOk result (λ next. IsWithin options.to next.place) }
    ensures words { IfOk result (λ next. AreWords next.words) }
    ensures ready { IfOk result (λ next. IsUnlent next.place) }
    ensures cut { OnErr result (OnLine (IsCutStep options (Trying at)) (L.told line.old) (L.told line.new)) }
{
    let probe = ProbeOptions {
        address: at,
        patience: options.patience,
    };
    let found = try_console(alloc, probe, line)?;
    course.behind_trial(&found, options.to)
}

// Tests the words from this one on.
fn test_from<L: Line, O: Onlooker + WordWatch>(
    alloc: Global,
    course: Course,
    at: u16,
    back: &mut Option<Deposit>,
    options: MemoryOptions,
    line: &mut L,
    onlooker: &O,
) -> Result<Course, AllocError>
    requires asked { IsAsked options }
    requires within { IsRange at options.to }
    requires words { AreWords course.words }
    ensures made { IfOk result (λ next. OnLine (IsTestStep options at course next) (L.told line.old) (L.told line.new)) }
    ensures within { IfOk result (λ next. IsWithin options.to next.place) }
    ensures words { IfOk result (λ next. AreWords next.words) }
    ensures ready { IfOk result (λ next. IsReady options next.place back.new) }
    ensures cut { OnErr result (OnLine (IsCutStep options (Testing at)) (L.told line.old) (L.told line.new)) }
{
    let core = MemoryCore::of_range(alloc, at, options.to, options.every, options.patience)?;
    let behind = Behind {
        onlooker,
        tested: u32::try_from(course.words.len()).unwrap_or(u32::MAX),
    };
    let (core, stop) = put_to_test(core, line, MOST_TURNS, &behind, onlooker);
    let next = course.behind_test(&core, stop, options.to)?;
    let next = next.then_bus(options.every);
    *back = back_for(alloc, next.place, options)?;
    Ok(next)
}
