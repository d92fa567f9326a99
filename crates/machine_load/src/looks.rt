//! The looks of a load: at words that its record has, before it is believed, and again behind a stub that was in vain; and
//! at the tape's highest word, before a careful load or a fast one.
ghost use Rattle.std.specs.Prelude.{◌≡◌, ◌≤◌, [], length, vec_capacity, IfOk};
ghost use Rattle.host_devices.specs.Devices.{line_told};
ghost use Rattle.machine_load.specs.Asked.{◌⇒◌};
ghost use Rattle.machine_load.specs.Looks.{AreLooks, AreLooksAt, IsRoom, IsSampled, held_up_by, looked_at, unfinished_at};
ghost use Rattle.reading_core.specs.Addresses.{AreAddresses, addresses_of};
ghost use Rattle.reading_core.specs.Reader.{begun_in};
ghost use Rattle.sample_looks.specs.Samples.{AreSamples, BeginWith};

use crate::first_life::FirstLife;
use crate::load_end::LoadEnd;
use engine::Cut;
use host_core::End;
use host_devices::{Line, Unwatched};
use load_engine::Stop;
use reading_core::{End as ReadingEnd, ReadingCore};
use sample_looks::{Finding, MOST_SAMPLES, look_at_samples, place_of_sample};
use std::alloc::{AllocError, Global};
use tape_image::{Plan, Word};

/// What the looks of a load came to.
#[derive(Clone, Copy)]
pub struct Looks {
    /// The characters that they sent.
    pub sent: u64,

    /// The mishaps that they met.
    pub spent: u32,

    /// Why the reading stopped.
    pub stop: Result<ReadingEnd, Cut>,

    /// What was found.
    pub finding: Finding,
}

impl Looks {
    /// How a load ends that its looks do not let go on.
    pub(crate) fn hindrance(self) -> Option<LoadEnd>
        ensures { result ≡ held_up_by self }
    {
        match self.finding {
            Finding::Stale(address) => Some(LoadEnd::Stale(address)),
            _ => unfinished(self.stop),
        }
    }
}

// How a load ends whose looks stopped so before each word was read.
fn unfinished(stop: Result<ReadingEnd, Cut>) -> Option<LoadEnd>
    ensures { result ≡ unfinished_at stop }
{
    let stop = match stop {
        Ok(ReadingEnd::Complete) => return None,
        Ok(ReadingEnd::GaveUp) => Stop::Ended(End::GaveUp),
        Ok(ReadingEnd::NoWord(address)) => Stop::Ended(End::NoWord(address)),
        Err(cut) => Stop::CutOff(cut),
    };
    Some(LoadEnd::Unfinished(stop))
}

/// Room for the looks of a load, which take no memory then.
#[derive(Drop)]
pub(crate) struct LooksRoom {
    pub(crate) samples: Vec<Word>,
    pub(crate) addresses: Vec<u16>,
    pub(crate) numbers: Vec<u16>,
}

impl LooksRoom {
    /// Room for the most samples, and for one address more. The one error is want of memory.
    pub(crate) fn new(alloc: Global) -> Result<LooksRoom, AllocError>
        ensures { IfOk result IsRoom }
    {
        Ok(LooksRoom {
            samples: Vec::with_capacity(alloc, MOST_SAMPLES)?,
            addresses: Vec::with_capacity(alloc, MOST_SAMPLES + 1)?,
            numbers: Vec::with_capacity(alloc, MOST_SAMPLES + 1)?,
        })
    }

    // Samples of the words that count as verified in a life, and the host that is to look at them, and at the highest word
    // where it is asked for.
    fn sampled(self, life: &FirstLife, highest: bool) -> (Vec<Word>, ReadingCore)
        requires { IsRoom self }
        ensures { IsSampled life.now highest result.0.items result.1 }
    {
        let LooksRoom {
            samples,
            addresses,
            numbers,
        } = self;
        let samples = samples_in(samples, life.plan(), life.verified() as usize);
        let addresses = addresses_in(addresses, &samples);
        let addresses = with_highest(addresses, &samples, life, highest);
        let reader = ReadingCore::in_room(addresses, numbers, life.patience());
        (samples, reader.with_care(life.care()))
    }
}

// Of the first words of a plan, so many, those that are looked at, as `samples_of` of the crate `sample_looks` has them,
// in room that was made before.
fn samples_in(room: Vec<Word>, plan: &Plan, count: usize) -> Vec<Word>
    requires count { count ≤ length plan.now.words }
    requires empty { room.items ≡ [] }
    requires ample { 8 ≤ vec_capacity room }
    ensures spread { AreSamples plan.now.words count result.items }
    ensures asked { AreAddresses (addresses_of result.items) }
    ensures few { length result.items ≤ 8 }
{
    let mut samples = room;
    let words = plan.words();
    let number = count.min(MOST_SAMPLES);
    for i in 0..number {
        let _ = samples.push(words[place_of_sample(i, count)]);
    }
    samples
}

// The addresses of these words, in room that was made before.
fn addresses_in(room: Vec<u16>, samples: &[Word]) -> Vec<u16>
    requires empty { room.items ≡ [] }
    requires few { length samples.now ≤ 8 }
    requires ample { 9 ≤ vec_capacity room }
    ensures items { result.items ≡ addresses_of samples.now }
    ensures room { 9 ≤ vec_capacity result }
{
    let mut addresses = room;
    for sample in samples {
        let _ = addresses.push(sample.address());
    }
    addresses
}

// The addresses of samples, and behind them that of the plan's last word, where it is asked for and not all words count as
// verified: of more the last is a sample.
fn with_highest(addresses: Vec<u16>, samples: &[Word], life: &FirstLife, asked: bool) -> Vec<u16>
    requires samples { AreSamples life.now.plan.words life.now.verified samples.now }
    requires rise { AreAddresses (addresses_of samples.now) }
    requires there { addresses.items ≡ addresses_of samples.now }
    requires few { length samples.now ≤ 8 }
    requires ample { 9 ≤ vec_capacity addresses }
    ensures there { result.items ≡ looked_at life.now asked samples.now }
    ensures rise { AreAddresses (looked_at life.now asked samples.now) }
    ensures few { length result.items ≤ 9 }
{
    let mut addresses = addresses;
    let words = life.plan().words();
    let all = life.verified() as usize == words.len();
    if asked && !all {
        let _ = addresses.push(words[words.len() - 1].address());
    }
    addresses
}

/// Looks at samples of the words that count as verified in a life, over a line, and changes none; and at the tape's highest
/// word, where it is asked for: there memory has to answer. Nobody looks on: what is done is no word of the load.
pub(crate) fn look<L: Line>(life: &FirstLife, highest: bool, room: LooksRoom, line: &mut L) -> Looks
    requires { IsRoom room }
    ensures { AreLooks life.now highest result (line_told L.Line line.old) (line_told L.Line line.new) }
{
    let (samples, reader) = room.sampled(life, highest);
    look_at(&samples, reader, line)
}

// Looks at words, those of samples in front.
fn look_at<L: Line>(samples: &[Word], reader: ReadingCore, line: &mut L) -> Looks
    requires begun { reader ≡ begun_in reader.manner reader.addresses [] reader.patience }
    requires asked { BeginWith samples.now reader.addresses }
    ensures { AreLooksAt samples.now reader.addresses reader.manner reader.patience result (line_told L.Line line.old ⇒ line_told L.Line line.new) }
{
    let looked = look_at_samples(reader, samples, line, &Unwatched);
    Looks {
        sent: looked.reader.sent_count(),
        spent: looked.reader.spent(),
        stop: looked.stop,
        finding: looked.finding,
    }
}
