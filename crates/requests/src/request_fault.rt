//! What fails at a real machine, or where a new file is put, and the failure that it is.
ghost use Rattle.requests.specs.Ending.{IsFailureOf};

use endings::Failure;
use machine_load::LoadFault;
use machine_look::LookFault;
use machine_probe::ProbeFault;
use tape_shelf::ShelfFault;

/// What failed, by what was done.
pub enum RequestFault {
    /// A load of a real machine.
    Load(LoadFault),

    /// A look at one: `verify` or `save`.
    Look(LookFault),

    /// A probe of one, or a test of its memory.
    Probe(ProbeFault),

    /// A tape that was put whole into a new file.
    Shelf(ShelfFault),
}

impl RequestFault {
    /// The failure that it is, where its console has this name, and its record or its new file that one.
    pub(crate) fn failure<'a>(self, console: &'a str, file: &'a str) -> Failure<'a>
        ensures { IsFailureOf self console.entry.now file.entry.now result }
    {
        match self {
            RequestFault::Load(LoadFault::ReadRecord) => Failure::CannotRead(file),
            RequestFault::Load(LoadFault::RecordInUse) => Failure::RecordInUse(file),
            RequestFault::Load(LoadFault::Record(why)) => Failure::RecordRefused(why),
            RequestFault::Look(LookFault::IsThere) | RequestFault::Shelf(ShelfFault::IsThere) => {
                Failure::FileIsThere(file)
            }
            RequestFault::Look(LookFault::PartIsThere)
            | RequestFault::Shelf(ShelfFault::PartIsThere) => Failure::PartIsThere(file),
            RequestFault::Look(LookFault::NotOfSave) | RequestFault::Shelf(ShelfFault::NotOfSave) =>
                Failure::PartNotOfSave(file),
            RequestFault::Load(LoadFault::WriteRecord)
            | RequestFault::Look(LookFault::WriteTape)
            | RequestFault::Shelf(ShelfFault::Write) => Failure::CannotWriteFile(file),
            RequestFault::Load(LoadFault::Connect)
            | RequestFault::Look(LookFault::Connect)
            | RequestFault::Probe(ProbeFault::Connect) => Failure::CannotConnect(console),
            RequestFault::Load(LoadFault::WriteOutput { .. })
            | RequestFault::Look(LookFault::WriteOutput)
            | RequestFault::Probe(ProbeFault::WriteOutput) => Failure::CannotWrite,
            RequestFault::Load(LoadFault::Memory)
            | RequestFault::Look(LookFault::Memory)
            | RequestFault::Probe(ProbeFault::Memory)
            | RequestFault::Shelf(ShelfFault::Memory) => Failure::NoMemory,
        }
    }
}
