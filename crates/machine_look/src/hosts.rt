//! The hosts of a save: one that looks at samples of what was found, and one that reads the words behind it.
ghost use Rattle.std.specs.Prelude.{◌≡◌, ◌+◌, ◌-◌, ◌*◌, ◌%◌, ◌<◌, ◌≤◌, IfOk};
ghost use Rattle.tape_values.specs.Block.{top};
ghost use Rattle.tape_image.specs.Word.{whole_word};
ghost use Rattle.reading_core.specs.Addresses.{AreAddresses, addresses_from};
ghost use Rattle.machine_look.specs.Behind.{AreOfFound};
ghost use Rattle.tape_shelf.specs.FoundPart.{FillBlocks};
ghost use Rattle.tape_shelf.specs.SavedTape.{words_in};
ghost use Rattle.machine_look.specs.Hosts.{AreHosts};

use crate::saving::SaveOptions;
use reading_core::ReadingCore;
use request_values::AddressRange;
use sample_looks::{MOST_SAMPLES, place_of_sample, reader_of};
use std::alloc::{AllocError, Global};
use tape_image::Word;
use tape_shelf::words_of;

/// What a save needs to look and to read. They take no more memory.
#[derive(Drop)]
pub(crate) struct Hosts {
    /// Samples of the words that were found.
    pub(crate) samples: Vec<Word>,

    /// The host that is to look at them.
    pub(crate) looker: ReadingCore,

    /// The addresses that are to be read behind what was found.
    pub(crate) addresses: Vec<u16>,

    /// Room for what is read there.
    pub(crate) room: Vec<u16>,
}

impl Hosts {
    /// The hosts of a save, behind what was found: each looks so often, and survives so many mishaps. The one
    /// error is want of memory.
    pub(crate) fn new(
        alloc: Global,
        options: SaveOptions,
        found: &[u16],
    ) -> Result<Hosts, AllocError>
        requires { FillBlocks options.range found.now }
        ensures { IfOk result (λ hosts. AreHosts options found.now hosts) }
    {
        let range = options.range;
        let samples = samples_of_found(alloc, range, found)?;
        let looker = reader_of(alloc, &samples, options.care, options.patience)?;
        let addresses = behind(alloc, range, found.len())?;
        let room = Vec::with_capacity(alloc, addresses.len())?;
        Ok(Hosts {
            samples,
            looker,
            addresses,
            room,
        })
    }
}

// At most 8 of the words that were found: the first, the last, and others spread evenly between.
fn samples_of_found(
    alloc: Global,
    range: AddressRange,
    found: &[u16],
) -> Result<Vec<Word>, AllocError>
    requires { FillBlocks range found.now }
    ensures { IfOk result (λ samples. AreOfFound range found.now samples.items) }
{
    let from = range.from();
    let number = found.len().min(MOST_SAMPLES);
    let mut samples = Vec::with_capacity(alloc, number)?;
    for i in 0..number {
        let place = place_of_sample(i, found.len());
        samples.push(word_at(from + 2 * place as u16, found[place]))?;
    }
    Ok(samples)
}

// The word that has this number whole, at this address.
fn word_at(address: u16, number: u16) -> Word
    requires even { address % 2 ≡ 0 }
    requires below { address < top }
    ensures { result ≡ whole_word address number }
{
    Word::new(address, 0o177777, number).unwrap()
}

// The addresses of a range, but for the first, so many.
fn behind(alloc: Global, range: AddressRange, count: usize) -> Result<Vec<u16>, AllocError>
    requires { count ≤ words_in range }
    ensures addresses { IfOk result (λ list. list.items ≡ addresses_from (range.from + 2 * count) (words_in range - count)) }
    ensures asked { IfOk result (λ list. AreAddresses list.items) }
{
    let first = range.from() + 2 * count as u16;
    let left = words_of(range) - count;
    let mut addresses = Vec::with_capacity(alloc, left)?;
    for number in 0..left {
        addresses.push(first + 2 * number as u16)?;
    }
    Ok(addresses)
}
