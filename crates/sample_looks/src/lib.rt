//! Looks at samples of the words that a record has, before it is believed.
//!
//! `samples_of` chooses at most 8 of a plan's first words: the first, the last, and others spread evenly
//! between. `look_at_samples` lends a reading host to a line that looks at them, and says whether they
//! stand, which is the first that does not, or that the reading stopped before. Over an honest line what
//! it says is true of memory, which is what it was. The laws say that a load may follow such looks on
//! its line, and that lives in a row stay what they are. Used by `machine_load`, and by `machine_look` for the
//! words that an earlier `save` left.
#![tactic(auto)]

mod finding;
mod law;
mod looking;
mod samples;

pub use finding::Finding;
pub use law::{
    loads_may_follow, looks_may_come_first, looks_may_stand_alone, samples_are_of_the_record,
};
pub use looking::{Looked, look_at_samples, reader_of};
pub use samples::{MOST_SAMPLES, place_of_sample, samples_of};
