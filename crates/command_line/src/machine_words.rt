//! What each command at a machine asks for.
ghost use Rattle.std.specs.Prelude.{◌≡◌, IfOk, codes};
ghost use Rattle.clap.specs.Matches.{found_of};
ghost use Rattle.clap.specs.Matches.{first_value};
ghost use Rattle.host_core.specs.Core.{plain_patience};
ghost use Rattle.command_line.specs.Commands.{SaysLoad, IsLookOf, IsMachineRequestOf, IsSavingCare, IsVerifyingCare};
ghost use Rattle.command_line.specs.Options.{IsNumberOf, plain_step};

use crate::addresses::{probed_of, range_of, saved_start_of, start_of, tested_range_of};
use crate::no_request::NoRequest;
use crate::values::{line_of, long_number_of, number_given, number_of, tapes_of, text_of};
use clap::ArgMatches;
use command_tables::names;
use host_core::PLAIN_PATIENCE;
use reading_core::Care;
use request_values::{Load, LoadOptions, Look, MachineRequest, MemoryTest, Probe, Save};
use std::alloc::Global;

// How many milliseconds of silence mean that nothing more is coming, where nothing else is said.
const PLAIN_QUIET: u16 = 2000;

// Of how many words one is tested, where nothing else is said: of all memory, and where addresses are given.
const SOME_WORDS: u16 = 64;

const EVERY_WORD: u16 = 1;

/// The load of tapes into a machine.
pub(crate) fn loading_of<'a>(
    alloc: Global,
    found: &ArgMatches<'a>,
) -> Result<MachineRequest<'a>, NoRequest>
    ensures { IfOk result (IsMachineRequestOf (codes "load") (found_of found.now)) }
{
    let load = load_of(alloc, found)?;
    Ok(MachineRequest::Load(tapes_of(alloc, found)?, load))
}

// A load, but for its tapes.
fn load_of<'a>(alloc: Global, found: &ArgMatches<'a>) -> Result<Load<'a>, NoRequest>
    ensures { IfOk result (SaysLoad (found_of found.now)) }
{
    Ok(Load {
        line: line_of(alloc, found)?,
        record: found.get_str(names::RECORD),
        options: LoadOptions {
            patience: patience_of(found)?,
            recheck: found.get_flag(names::RECHECK),
            fast: found.get_flag(names::FAST),
            careful: found.get_flag(names::CAREFUL),
        },
        start: start_of(alloc, found)?,
        listen: number_given(found, names::LISTEN)?,
        quiet_ms: u32::from(number_of(found, names::QUIET, PLAIN_QUIET)?),
    })
}

/// The look whether a machine holds what tapes say.
pub(crate) fn verifying_of<'a>(
    alloc: Global,
    found: &ArgMatches<'a>,
) -> Result<MachineRequest<'a>, NoRequest>
    ensures { IfOk result (IsMachineRequestOf (codes "verify") (found_of found.now)) }
{
    let look = look_of(
        alloc,
        found,
        verifying_care(found),
        long_patience_of(found)?,
    )?;
    Ok(MachineRequest::Verify(tapes_of(alloc, found)?, look))
}

/// The save of words of a machine.
pub(crate) fn saving_of<'a>(
    alloc: Global,
    found: &ArgMatches<'a>,
) -> Result<MachineRequest<'a>, NoRequest>
    ensures { IfOk result (IsMachineRequestOf (codes "save") (found_of found.now)) }
{
    let file = text_of(found, names::FILE)?;
    let look = look_of(alloc, found, saving_care(found), long_patience_of(found)?)?;
    let range = range_of(alloc, found)?;
    let start = saved_start_of(alloc, found)?;
    Ok(MachineRequest::Save(Save {
        file,
        range,
        start,
        look,
    }))
}

/// The probe of a machine's console.
pub(crate) fn probing_of<'a>(
    alloc: Global,
    found: &ArgMatches<'a>,
) -> Result<MachineRequest<'a>, NoRequest>
    ensures { IfOk result (IsMachineRequestOf (codes "probe") (found_of found.now)) }
{
    let look = look_of(alloc, found, Care::Once, patience_of(found)?)?;
    let address = probed_of(alloc, found)?;
    Ok(MachineRequest::Probe(Probe { address, look }))
}

/// The test of a machine's memory.
pub(crate) fn testing_of<'a>(
    alloc: Global,
    found: &ArgMatches<'a>,
) -> Result<MachineRequest<'a>, NoRequest>
    ensures { IfOk result (IsMachineRequestOf (codes "memory") (found_of found.now)) }
{
    let look = look_of(alloc, found, Care::Once, patience_of(found)?)?;
    let range = tested_range_of(alloc, found)?;
    let every = step_of(found)?;
    if every == 0 {
        return Err(NoRequest::Meaningless);
    }
    Ok(MachineRequest::Memory(MemoryTest { range, every, look }))
}

// Of how many words one is tested.
fn step_of(found: &ArgMatches<'_>) -> Result<u16, NoRequest>
    ensures { IfOk result (IsNumberOf (found_of found.now) (codes "every") (plain_step (first_value (found_of found.now) (codes "FROM")))) }
{
    let otherwise = match found.get_str(names::FROM) {
        Some(_) => EVERY_WORD,
        None => SOME_WORDS,
    };
    number_of(found, names::EVERY, otherwise)
}

// How many mishaps are survived.
fn patience_of(found: &ArgMatches<'_>) -> Result<u32, NoRequest>
    ensures { IfOk result (IsNumberOf (found_of found.now) (codes "patience") plain_patience) }
{
    Ok(u32::from(number_of(found, names::PATIENCE, PLAIN_PATIENCE as u16)?))
}

// The same, where they may be more.
fn long_patience_of(found: &ArgMatches<'_>) -> Result<u32, NoRequest>
    ensures { IfOk result (IsNumberOf (found_of found.now) (codes "patience") plain_patience) }
{
    long_number_of(found, names::PATIENCE, PLAIN_PATIENCE)
}

// How often words are looked at where they are verified.
fn verifying_care(found: &ArgMatches<'_>) -> Care
    ensures { IsVerifyingCare (found_of found.now) result }
{
    if found.get_flag(names::CAREFUL) {
        Care::Twice
    } else {
        Care::TwiceWhereOther
    }
}

// How often words are looked at where they are saved.
fn saving_care(found: &ArgMatches<'_>) -> Care
    ensures { IsSavingCare (found_of found.now) result }
{
    if found.get_flag(names::ONCE) {
        Care::Once
    } else {
        Care::Twice
    }
}

// A look at a machine, with this care and this patience.
fn look_of<'a>(
    alloc: Global,
    found: &ArgMatches<'a>,
    care: Care,
    patience: u32,
) -> Result<Look<'a>, NoRequest>
    requires { IsNumberOf (found_of found.now) (codes "patience") plain_patience patience }
    ensures says { IfOk result (IsLookOf (found_of found.now)) }
    ensures care { IfOk result (λ look. look.care ≡ care) }
{
    Ok(Look {
        line: line_of(alloc, found)?,
        care,
        patience,
        quiet_ms: u32::from(number_of(found, names::QUIET, PLAIN_QUIET)?),
    })
}
