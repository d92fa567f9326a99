//! Looking at samples, over a line that is given.
ghost use Rattle.std.specs.Prelude.{◌≡◌, ◌≤◌, [], Some, length, take, IfOk};
ghost use Rattle.host_devices.specs.Devices.{line_told};
ghost use Rattle.host_devices.specs.Turns.{most_turns};
ghost use Rattle.reading_core.specs.Addresses.{AreAddresses, addresses_of};
ghost use Rattle.reading_core.specs.Bound.{life_bound};
ghost use Rattle.reading_core.specs.Invariant.{IsReader};
ghost use Rattle.reading_core.specs.Reader.{begun_in, manner_of};
ghost use Rattle.looking_engine.specs.Inquired.{IsInquired, inquiry};
ghost use Rattle.sample_looks.specs.Finding.{IsFound};
ghost use Rattle.sample_looks.specs.Looked.{IsSoOver};
ghost use Rattle.sample_looks.specs.Samples.{BeginWith};

use crate::finding::{Finding, found};
use engine::Cut;
use host_devices::{Line, MOST_TURNS, Onlooker};
use looking_engine::inquire;
use reading_core::{Care, End, ReadingCore};
use std::alloc::{AllocError, Global};
use tape_image::Word;

/// What looks at samples came to.
#[derive(Drop)]
pub struct Looked {
    /// The host that looked, as it was in the end: what it read, sent and spent.
    pub reader: ReadingCore,

    /// Why the reading stopped.
    pub stop: Result<End, Cut>,

    /// What it found.
    pub finding: Finding,
}

/// A host that is to look at these words, at each so often, and survives `patience` mishaps. The one error
/// is want of memory; `look_at_samples` takes none.
pub fn reader_of(
    alloc: Global,
    samples: &[Word],
    care: Care,
    patience: u32,
) -> Result<ReadingCore, AllocError>
    requires { AreAddresses (addresses_of samples.now) }
    ensures begun { IfOk result (λ reader. reader ≡ begun_in (manner_of care []) (addresses_of samples.now) [] patience) }
    ensures kept { IfOk result IsReader }
{
    let mut addresses = Vec::with_capacity(alloc, samples.len())?;
    for sample in samples {
        addresses.push(sample.address())?;
    }
    let room = Vec::with_capacity(alloc, samples.len())?;
    Ok(ReadingCore::in_room(addresses, room, patience).with_care(care))
}

/// Looks at words of a plan, in any manner, over a line, for at most 10,000,000 turns, changes none, and says whether
/// they stand. Of a half word only the tape's byte counts. Where a word that was read does not stand,
/// that is found, however the reading stopped. Of the words that the reader has beyond these it is asked only that
/// memory answers: else the reading stops there. An onlooker is told of each step.
pub fn look_at_samples<L: Line, O: Onlooker>(
    reader: ReadingCore,
    samples: &[Word],
    line: &mut L,
    onlooker: &O,
) -> Looked
    requires begun { reader ≡ begun_in reader.manner reader.addresses [] reader.patience }
    requires asked { BeginWith samples.now reader.addresses }
    ensures inquired { IsInquired most_turns (inquiry reader result.reader (Some result.stop)) (line_told L.Line line.old) (line_told L.Line line.new) }
    ensures found { IsFound samples.now (take (length samples.now) result.reader.values) result.stop result.finding }
    ensures honest { IsSoOver samples.now reader.addresses result.finding (L.told line.old) (L.told line.new) }
    ensures bound { result.reader.sent ≤ life_bound reader.manner.care (length reader.addresses) reader.patience }
{
    let (reader, stop) = inquire(reader, line, MOST_TURNS, onlooker);
    let finding = found(samples, front(reader.values(), samples.len()), stop);
    Looked {
        reader,
        stop,
        finding,
    }
}

// The first of these numbers, at most so many.
fn front(numbers: &[u16], most: usize) -> &[u16]
    ensures { result.now ≡ take most numbers.now }
{
    &numbers[..most.min(numbers.len())]
}
