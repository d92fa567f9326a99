//! The hosts of a test of a bus.
ghost use Rattle.std.specs.Prelude.{◌≡◌, ℕ, [], IfOk, OnErr};
ghost use Rattle.reading_core.specs.Addresses.{IsAddress};
ghost use Rattle.reading_core.specs.Reader.{begun};
ghost use Rattle.machine_probe.specs.Runs.{OnLine};
ghost use Rattle.machine_probe.specs.PuttingBack.{IsDeposit};
ghost use Rattle.machine_memory.specs.declared.course.Place.TheVariants.{Looking, LookingAgain, Marking};
ghost use Rattle.request_values.specs.Change.{◌⇒◌};
ghost use Rattle.machine_memory.specs.BusRuns.{HasBack, IsLookAgainStep, IsLookRoom, IsReady, IsRestored, IsUnlent, LeadsDeposit, PutsBackBy};
ghost use Rattle.machine_memory.specs.Bus.{neighbours};
ghost use Rattle.machine_memory.specs.Course.{AreWords, IsWithin};
ghost use Rattle.machine_memory.specs.Options.{probe_options};
ghost use Rattle.machine_memory.specs.Runs.{IsCutStep, IsStepAt};

use crate::bus_numbers::number_at;
use crate::course::{Course, Place};
use crate::memory_options::MemoryOptions;
use crate::neighbours::{neighbours, with_room};
use host_devices::{Line, MOST_TURNS, Unwatched};
use load_engine::{Stop as LoadStop, drive};
use looking_engine::inquire;
use machine_probe::{Deposit, ProbeOptions};
use memory_core::Borrowed;
use reading_core::ReadingCore;
use std::alloc::{AllocError, Global};

/// A host that is to look at words, and room for those that read the mark, behind the earlier ones.
#[derive(Drop)]
pub(crate) struct LookRoom {
    pub(crate) core: ReadingCore,
    pub(crate) marked: Vec<u16>,
}

/// The host that gives a word its old number again, where this comes next may be behind a number that is deposited there. It is
/// made before: then it takes no memory. The error is want of memory.
pub(crate) fn back_for(
    alloc: Global,
    place: Place,
    options: MemoryOptions,
) -> Result<Option<Deposit>, AllocError>
    requires { IsWithin options.to place }
    ensures { IfOk result (IsReady options place) }
{
    match place {
        Place::Marking(word, _) | Place::Looking(word, _) | Place::PuttingBack(word) => {
            let back = deposit_of(alloc, word.address, word.old, options)?;
            Ok(Some(back))
        }
        _ => Ok(None),
    }
}

/// Deposits the number at this place in the word. Where memory is wanting for that it gets its old number again.
pub(crate) fn mark_word<L: Line>(
    alloc: Global,
    course: Course,
    word: Borrowed,
    place: u8,
    back: &mut Option<Deposit>,
    options: MemoryOptions,
    line: &mut L,
) -> Result<Course, AllocError>
    requires within { IsAddress word.address }
    requires words { AreWords course.words }
    requires back { HasBack options word back.old }
    ensures made { IfOk result (λ next. OnLine (IsStepAt options (Marking word place) course next) (L.told line.old) (L.told line.new)) }
    ensures within { IfOk result (λ next. IsWithin options.to next.place) }
    ensures words { IfOk result (λ next. AreWords next.words) }
    ensures ready { IfOk result (λ next. IsReady options next.place back.new) }
    ensures cut { OnErr result (OnLine (IsRestored options word) (L.told line.old) (L.told line.new)) }
{
    let number = number_at(place, word.old);
    match deposit_of(alloc, word.address, number, options) {
        Ok(deposit) => {
            let stop = lead_deposit(deposit, line);
            Ok(course.behind_mark(word, place, stop))
        }
        Err(_) => {
            let stop = lead_deposit(back.take().unwrap(), line);
            course.behind_want(word, stop)
        }
    }
}

/// Deposits in the word what it held before. It takes no memory.
pub(crate) fn put_back<L: Line>(
    course: Course,
    word: Borrowed,
    back: Deposit,
    line: &mut L,
) -> Course
    requires words { AreWords course.words }
    ensures made { PutsBackBy back word (course ⇒ result) (L.told line.old) (L.told line.new) }
    ensures within { (to : ℕ) → IsWithin to result.place }
    ensures words { AreWords result.words }
    ensures ready { IsUnlent result.place }
{
    let stop = lead_deposit(back, line);
    course.behind_put_back(word, stop)
}

// A host that deposits a number in a word. The error is want of memory.
fn deposit_of(
    alloc: Global,
    address: u16,
    number: u16,
    options: MemoryOptions,
) -> Result<Deposit, AllocError>
    requires { IsAddress address }
    ensures { IfOk result (IsDeposit (probe_options options address) number) }
{
    let probe = ProbeOptions {
        address,
        patience: options.patience,
    };
    Deposit::new(alloc, probe, number)
}

// Leads it over the line, and takes no memory.
fn lead_deposit<L: Line>(deposit: Deposit, line: &mut L) -> LoadStop
    ensures { LeadsDeposit deposit result (L.told line.old) (L.told line.new) }
{
    let Deposit { core, mut keeper } = deposit;
    let (_, stop) = drive(core, line, &mut keeper, MOST_TURNS, &Unwatched);
    stop
}

/// Looks at the words from one on that are one address line from the word, while it holds the mark. Where memory is wanting for
/// that it gets its old number again.
pub(crate) fn look_around<L: Line>(
    alloc: Global,
    course: Course,
    word: Borrowed,
    first: u16,
    back: &mut Option<Deposit>,
    options: MemoryOptions,
    line: &mut L,
) -> Result<Course, AllocError>
    requires word { IsAddress word.address }
    requires first { IsAddress first }
    requires words { AreWords course.words }
    requires back { HasBack options word back.old }
    ensures made { IfOk result (λ next. OnLine (IsStepAt options (Looking word first) course next) (L.told line.old) (L.told line.new)) }
    ensures within { IfOk result (λ next. IsWithin options.to next.place) }
    ensures words { IfOk result (λ next. AreWords next.words) }
    ensures ready { IfOk result (λ next. IsReady options next.place back.new) }
    ensures cut { OnErr result (OnLine (IsRestored options word) (L.told line.old) (L.told line.new)) }
{
    match look_room(alloc, &course.bus.marked, word.address, first, options) {
        Ok(room) => {
            let LookRoom { core, marked } = room;
            let (core, stop) = inquire(core, line, MOST_TURNS, &Unwatched);
            Ok(course.behind_look(word, &core, marked, stop))
        }
        Err(_) => {
            let stop = lead_deposit(back.take().unwrap(), line);
            course.behind_want(word, stop)
        }
    }
}

// All that a look takes. The error is want of memory.
fn look_room(
    alloc: Global,
    marked: &[u16],
    at: u16,
    first: u16,
    options: MemoryOptions,
) -> Result<LookRoom, AllocError>
    requires { IsAddress first }
    ensures { IfOk result (IsLookRoom options marked.now at first) }
{
    let core = looker(alloc, at, first, options)?;
    let marked = with_room(alloc, marked, core.addresses().len())?;
    Ok(LookRoom { core, marked })
}

/// Looks at the same words again, once the word has its old number.
pub(crate) fn look_again<L: Line>(
    alloc: Global,
    course: Course,
    word: Borrowed,
    first: u16,
    options: MemoryOptions,
    line: &mut L,
) -> Result<Course, AllocError>
    requires first { IsAddress first }
    requires words { AreWords course.words }
    ensures made { IfOk result (λ next. OnLine (IsLookAgainStep options word first course next) (L.told line.old) (L.told line.new)) }
    ensures within { IfOk result (λ next. IsWithin options.to next.place) }
    ensures words { IfOk result (λ next. AreWords next.words) }
    ensures ready { IfOk result (λ next. IsUnlent next.place) }
    ensures cut { OnErr result (OnLine (IsCutStep options (LookingAgain word first)) (L.told line.old) (L.told line.new)) }
{
    let core = looker(alloc, word.address, first, options)?;
    let (core, stop) = inquire(core, line, MOST_TURNS, &Unwatched);
    course.behind_second_look(word, &core, stop)
}

// A host that looks at the words from one on that are one address line from another. The error is want of memory.
fn looker(
    alloc: Global,
    at: u16,
    first: u16,
    options: MemoryOptions,
) -> Result<ReadingCore, AllocError>
    requires { IsAddress first }
    ensures { IfOk result (λ core. core ≡ begun (neighbours at first) [] options.patience) }
{
    let addresses = neighbours(alloc, at, first)?;
    let room = Vec::with_capacity(alloc, addresses.len())?;
    Ok(ReadingCore::in_room(addresses, room, options.patience))
}
