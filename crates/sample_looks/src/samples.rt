//! Which of a plan's words are looked at.
ghost use Rattle.std.specs.Prelude.{◌≡◌, ◌<◌, ◌≤◌, length, min, IfOk};
ghost use Rattle.host_core.specs.Memory.{most_words};
ghost use Rattle.reading_core.specs.Addresses.{AreAddresses, addresses_of};
ghost use Rattle.sample_looks.specs.Places.{place_of};
ghost use Rattle.sample_looks.specs.Samples.{AreSamples};

use std::alloc::{AllocError, Global};
use tape_image::{Plan, Word};

/// The most words that are looked at (this project's choice).
pub const MOST_SAMPLES: usize = 8;

/// Of the first words of a plan, so many, those that are looked at: at most 8, the first and the last
/// among them, the others spread evenly between; all, where there are 8 or fewer. The one error is want
/// of memory.
pub fn samples_of(alloc: Global, plan: &Plan, count: usize) -> Result<Vec<Word>, AllocError>
    requires { count ≤ length plan.now.words }
    ensures spread { IfOk result (λ samples. AreSamples plan.now.words count samples.items) }
    ensures asked { IfOk result (λ samples. AreAddresses (addresses_of samples.items)) }
{
    let words = plan.words();
    let number = count.min(MOST_SAMPLES);
    let mut samples = Vec::with_capacity(alloc, number)?;
    for i in 0..number {
        samples.push(words[place_of_sample(i, count)])?;
    }
    Ok(samples)
}

/// The place of the sample with this number, from 0 on, among so many words.
pub fn place_of_sample(number: usize, count: usize) -> usize
    requires few { count ≤ most_words }
    requires among { number < min count 8 }
    ensures { result ≡ place_of count number }
{
    if count <= MOST_SAMPLES {
        number
    } else {
        number * (count - 1) / (MOST_SAMPLES - 1)
    }
}
