ghost use Rattle.std.specs.Prelude.{◌≡◌, ◌+◌, ◌-◌, ◌<◌, ◌≤◌, ◌*◌, ◌/◌, length};
ghost use Rattle.exchange_core.specs.Chunk.{IsChunk, told, answer_at, key_at, keys_from, nibble_of, sent_at};

use crate::duplex::Duplex;
use arrayvec::ArrayVec;
use tape_image::Plan;

/// Consecutive bytes of an image, which are verified together.
#[derive(Clone, Copy)]
pub struct Chunk {
    /// The address of the first.
    pub address: u16,

    /// How many they are, 1 to 64.
    pub size: u8,

    /// How many of the plan's words are verified once they are.
    pub until: u32,
}

/// The characters that one step sends.
pub type Keys = ArrayVec<u8, 32>;

// The character of nibble 0.
const FIRST_NIBBLE: u8 = 0o140;

// The character of the complement of nibble 0.
const LAST_NIBBLE: u8 = 0o157;

// How many characters the host sends at most beyond the answers that it heard.
const MOST_AHEAD: u8 = 32;

/// How many characters of a chunk the host has sent once it has heard so many of the answer.
pub(crate) fn sent_at(duplex: Duplex, chunk: Chunk, place: u8) -> u8
    requires few { chunk.size ≤ 64 }
    requires within { place < 2 * chunk.size }
    ensures { result ≡ sent_at duplex chunk place }
{
    let all = 2 * chunk.size;
    let most = match duplex {
        Duplex::Full => place + MOST_AHEAD,
        Duplex::Half => 2 * (place / 2) + 2,
    };
    if most < all { most } else { all }
}

/// A chunk's characters from one place up to another, which is excluded.
#[tactic(auto, using(crate::proofs::Keys::keys_last, crate::proofs::Keys::keys_none))]
pub(crate) fn keys_of(plan: &Plan, chunk: Chunk, from: u8, to: u8) -> Keys
    requires is_chunk { IsChunk plan.now.image chunk }
    requires order { from ≤ to }
    requires few { to ≤ from + 32 }
    requires within { to ≤ 2 * chunk.size }
    ensures { result.items ≡ keys_from plan.now.image chunk from (to - from) }
{
    let mut keys = Keys::new();
    for place in from..to {
        keys.push(key(plan, chunk, place));
    }
    keys
}

// One character of a chunk.
fn key(plan: &Plan, chunk: Chunk, place: u8) -> u8
    requires is_chunk { IsChunk plan.now.image chunk }
    requires within { place < 2 * chunk.size }
    ensures { result ≡ key_at plan.now.image chunk place }
{
    FIRST_NIBBLE + nibble(byte(plan, chunk, place), place)
}

/// The character that is awaited at a place of a chunk's answer.
pub(crate) fn awaited(plan: &Plan, chunk: Chunk, place: u8) -> u8
    requires is_chunk { IsChunk plan.now.image chunk }
    requires within { place < 2 * chunk.size }
    ensures { result ≡ answer_at plan.now.image chunk place }
{
    LAST_NIBBLE - nibble(byte(plan, chunk, place), place)
}

// The byte of which a place of a chunk tells a nibble.
fn byte(plan: &Plan, chunk: Chunk, place: u8) -> u8
    requires is_chunk { IsChunk plan.now.image chunk }
    requires within { place < 2 * chunk.size }
    ensures { result ≡ told plan.now.image (chunk.address + place / 2) }
{
    plan.byte_at(chunk.address + u16::from(place / 2))
        .unwrap_or(0)
}

// The high nibble of a byte for an even place, the low one for an odd one.
fn nibble(byte: u8, place: u8) -> u8
    ensures value { result ≡ nibble_of byte place }
    ensures small { result ≤ 15 }
{
    if place % 2 == 0 { byte / 16 } else { byte % 16 }
}
