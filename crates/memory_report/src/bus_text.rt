//! What was found of the bus.
ghost use Rattle.std.specs.Prelude.{◌≡◌, ◌+◌, ◌*◌, ◌≤◌, ◌++◌, length};
ghost use Rattle.arrayvec.specs.ArrayVec.{array_vec_len};
ghost use Rattle.memory_report.specs.Bus.{bus_of, is_same, same_words};
ghost use Rattle.memory_report.specs.Report.{bus_text, same_shown_text, same_shown_also, same_text, same_words_text, touch_text};

use crate::findings::Bus;
use crate::report::Report;
use byte_io::{push_bytes, push_decimal, push_octal};

// How many words that are one with another are shown.
const SHOWN: u64 = 8;

/// Puts what was found of the bus, where it was tested.
pub(crate) fn push_bus(text: &mut Report, bus: &Bus)
    requires room { array_vec_len text.old ≤ 1800 }
    ensures items { text.new.items ≡ text.old.items ++ bus_text (bus_of bus.now) }
    ensures length { array_vec_len text.new ≤ array_vec_len text.old + 340 }
{
    if let Some(at) = bus.at {
        push_touch(text, bus.touches);
        push_same_words(text, at, bus);
        push_bytes(text, b"tested the bus at ");
        push_octal(text, at);
        push_bytes(text, b", beside ");
        push_decimal(text, u64::from(bus.looked_at));
        push_bytes(text, b" words\n");
    }
}

// Puts that data lines touch, where they do.
fn push_touch(text: &mut Report, touches: bool)
    requires room { array_vec_len text.old ≤ 1800 }
    ensures items { text.new.items ≡ text.old.items ++ touch_text touches }
    ensures length { array_vec_len text.new ≤ array_vec_len text.old + 17 }
{
    if touches {
        push_bytes(text, b"data lines touch\n");
    }
}

// Puts the first eight words that are one with the word that was tested.
fn push_same_words(text: &mut Report, at: u16, bus: &Bus)
    requires room { array_vec_len text.old ≤ 1850 }
    ensures items { text.new.items ≡ text.old.items ++ same_words_text at (bus_of bus.now) }
    ensures length { array_vec_len text.new ≤ array_vec_len text.old + 8 * 31 }
{
    let mut shown = 0;
    for address in &bus.marked {
        shown = push_if_same(text, at, *address, bus, shown);
    }
}

// Puts a word where it is one with another and fewer than eight are shown, and answers how many are shown then.
fn push_if_same(text: &mut Report, at: u16, address: u16, bus: &Bus, shown: u64) -> u64
    requires room { array_vec_len text.old ≤ 2100 }
    ensures items { text.new.items ≡ text.old.items ++ same_shown_text at (bus_of bus.now) shown address }
    ensures shown { result ≡ same_shown_also (bus_of bus.now) shown address }
    ensures length { array_vec_len text.new + 31 * shown ≤ array_vec_len text.old + 31 * result }
{
    if shown < SHOWN && is_same(bus, address) {
        push_same(text, at, address);
        shown + 1
    } else {
        shown
    }
}

// Puts that two addresses are one word.
fn push_same(text: &mut Report, at: u16, address: u16)
    requires room { array_vec_len text.old ≤ 2150 }
    ensures items { text.new.items ≡ text.old.items ++ same_text at address }
    ensures length { array_vec_len text.new ≡ array_vec_len text.old + 31 }
{
    push_octal(text, at);
    push_bytes(text, b" and ");
    push_octal(text, address);
    push_bytes(text, b" are one word\n");
}

/// How many words are one with the word that was tested.
pub(crate) fn count_same(bus: &Bus) -> u64
    ensures value { result ≡ length (same_words (bus_of bus.now)) }
{
    let mut count = 0;
    for address in &bus.marked {
        if is_same(bus, *address) {
            count += 1;
        }
    }
    count
}

// Whether a word read what the tested one had held, once that was put back.
fn is_same(bus: &Bus, address: u16) -> bool
    ensures { result ≡ is_same (bus_of bus.now) address }
{
    let mut found = false;
    for other in &bus.returned {
        found = found || *other == address;
    }
    found
}
