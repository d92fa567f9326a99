//! The words that a bus tells from another by one address line alone.
ghost use Rattle.std.specs.Prelude.{◌≡◌, ◌+◌, ◌<◌, ◌≤◌, ◌++◌, ◌∷◌, [], length, vec_capacity, IfOk, OnOk};
ghost use Rattle.std.specs.List.{filter};
ghost use Rattle.reading_core.specs.Addresses.{IsAddress};
ghost use Rattle.machine_memory.specs.Bus.{is_neighbour, neighbours, reading};

use std::alloc::{AllocError, Global};

/// The last word below the addresses of devices.
pub(crate) const LAST_WORD: u16 = 0o157776;

/// The words from one on that are one address line from another word, rising. The error is want of memory.
pub(crate) fn neighbours(alloc: Global, at: u16, first: u16) -> Result<Vec<u16>, AllocError>
    requires { IsAddress first }
    ensures { IfOk result (λ list. list.items ≡ neighbours at first) }
{
    let count = (LAST_WORD - first) / 2 + 1;
    let mut list = Vec::with_capacity(alloc, 16)?;
    for number in 0..count {
        push_if_neighbour(&mut list, at, first + 2 * number)?;
    }
    Ok(list)
}

// Puts an address behind others where it is one address line from a word.
fn push_if_neighbour(list: &mut Vec<u16>, at: u16, address: u16) -> Result<(), AllocError>
    ensures { OnOk result (list.new.items ≡ list.old.items ++ filter (is_neighbour at) (address ∷ [])) }
{
    if is_neighbour(at, address) {
        list.push(address)?;
    }
    Ok(())
}

// Whether two addresses differ in one line.
fn is_neighbour(at: u16, address: u16) -> bool
    ensures { result ≡ is_neighbour at address }
{
    (at ^ address).is_power_of_two()
}

/// Puts those of the words behind others that read this number, of which these numbers were read.
pub(crate) fn push_reading(
    found: &mut Vec<u16>,
    number: u16,
    addresses: &[u16],
    values: &[u16],
) -> Result<(), AllocError>
    requires { length values.now ≤ length addresses.now }
    ensures { OnOk result (found.new.items ≡ found.old.items ++ reading number addresses.now values.now) }
{
    for (place, value) in values.iter().enumerate() {
        push_if_reads(found, number, addresses[place], *value)?;
    }
    Ok(())
}

// Puts a word behind others if it reads this number.
fn push_if_reads(
    found: &mut Vec<u16>,
    number: u16,
    address: u16,
    value: u16,
) -> Result<(), AllocError>
    ensures { OnOk result (found.new.items ≡ found.old.items ++ reading number (address ∷ []) (value ∷ [])) }
{
    if value == number {
        found.push(address)?;
    }
    Ok(())
}

/// The same, where there is room for all of them: no memory is taken.
pub(crate) fn note_reading(found: &mut Vec<u16>, number: u16, addresses: &[u16], values: &[u16])
    requires within { length values.now ≤ length addresses.now }
    requires ample { length found.old.items + length values.now ≤ vec_capacity found.old }
    ensures { found.new.items ≡ found.old.items ++ reading number addresses.now values.now }
{
    for (place, value) in values.iter().enumerate() {
        note_if_reads(found, number, addresses[place], *value);
    }
}

// Puts a word behind others if it reads this number: there is room for it.
fn note_if_reads(found: &mut Vec<u16>, number: u16, address: u16, value: u16)
    requires { length found.old.items < vec_capacity found.old }
    ensures items { found.new.items ≡ found.old.items ++ reading number (address ∷ []) (value ∷ []) }
    ensures more { length found.new.items ≤ length found.old.items + 1 }
    ensures room { vec_capacity found.old ≤ vec_capacity found.new }
{
    if value == number {
        let _ = found.push(address);
    }
}

/// The same words, with room for so many more. The error is want of memory.
pub(crate) fn with_room(alloc: Global, found: &[u16], more: usize) -> Result<Vec<u16>, AllocError>
    requires { more ≤ 65536 }
    ensures items { IfOk result (λ list. list.items ≡ found.now) }
    ensures ample { IfOk result (λ list. length found.now + more ≤ vec_capacity list) }
{
    let mut list = Vec::with_capacity(alloc, found.len() + more)?;
    list.extend_from_slice(found)?;
    Ok(list)
}
