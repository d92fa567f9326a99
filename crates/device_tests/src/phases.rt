//! The phase table, row by row, for every character, also those that no console answers: what each phase lists, what it
//! sends, and where it leads.

use host_core::{End, Heard, HostCore, Progress};
use std::alloc::Global;
use tape_blocks::read_tape;
use tape_image::Plan;

// A tape of one word, 011064 at 001000, where it starts.
const TAPE: [u8; 16] = [
    0x01, 0x00, 0x08, 0x00, 0x00, 0x02, 0x34, 0x12, 0xAF, 0x01, 0x00, 0x06, 0x00, 0x00, 0x02, 0xF7,
];

// In a text of what is heard: nothing comes for the quiet time.
const PAUSE: u8 = b'~';

// A phase by the text that leads a host for the one word to it; the characters that it lists, any
// other being a mishap; and the key that each of these makes the host send.
type Phase = (&'static str, &'static [u8], Option<u8>);

// The phases that wait for an answer. Where one leads is seen by what the next one lists.
const PHASES: [Phase; 28] = [
    ("~", b"Z?", None),
    ("~Z", b"?", None),
    ("~?", b"\r", None),
    ("~Z?", b"\r", None),
    ("~?\r", b"\r\n", None),
    ("~?\r\r", b"\n", None),
    ("~?\r\n", b"@", Some(b'0')),
    ("~?\r\r\n", b"@", Some(b'0')),
    ("~?\r\n@", b"0", Some(b'0')),
    ("~?\r\n@0", b"0", Some(b'1')),
    ("~?\r\n@00100", b"0", Some(b'/')),
    ("~?\r\n@001000", b"/", None),
    ("~?\r\n@001000/", b" 01?", None),
    ("~?\r\n@001000/ ", b"01", None),
    ("~?\r\n@001000/1", b"01234567", None),
    ("~?\r\n@001000/ 17777", b"01234567", None),
    ("~?\r\n@001000/011064", b" ", Some(b'\r')),
    ("~?\r\n@001000/111064", b" ", Some(b'0')),
    ("~?\r\n@001000/000000 0", b"1", Some(b'1')),
    ("~?\r\n@001000/000000 01106", b"4", Some(b'\r')),
    ("~?\r\n@001000/000000 011064", b"\r", None),
    ("~?\r\n@001000/000000 011064\r", b"\r\n", None),
    ("~?\r\n@001000/000000 011064\r\r", b"\n", None),
    ("~?\r\n@001000/000000 011064\r\n", b"@", Some(b'0')),
    ("~?\r\n@001000/000000 011064\r\n@001000/011060", b" ", None),
    ("~?\r\n@001000/011064 \r\n", b"@", Some(b'0')),
    ("~?\r\n@001000/011064 \r\n@0", b"0", Some(b'1')),
    ("~?\r\n@001000/011064 \r\n@00100", b"0", Some(b'G')),
];

// What leads to an end, or is no mishap though nothing is listed: the text before it, what is heard,
// the key that it makes the host send, and the end then, by its word.
type Other = (&'static str, u8, Option<u8>, Option<&'static str>);

const OTHERS: [Other; 12] = [
    ("", b'x', None, None),
    ("", PAUSE, Some(b'Z'), None),
    ("~?\r\n@001000/", b'?', None, Some("NoWord")),
    ("~?\r\n@001000/?", b'0', None, Some("NoWord")),
    ("~?\r\n@001000/?", PAUSE, None, Some("NoWord")),
    (
        "~?\r\n@001000/000000 011064\r\n@001000/011060",
        b' ',
        None,
        Some("WontHold"),
    ),
    (
        "~?\r\n@001000/000000 011064\r\n@001000/",
        b'?',
        None,
        Some("NoWord"),
    ),
    (
        "~?\r\n@001000/011064 \r\n@001000",
        b'G',
        None,
        Some("Started"),
    ),
    (
        "~?\r\n@001000/011064 \r\n@001000",
        b'x',
        None,
        Some("Uncertain"),
    ),
    (
        "~?\r\n@001000/011064 \r\n@001000",
        PAUSE,
        None,
        Some("Uncertain"),
    ),
    (
        "~?\r\n@001000/011064 \r\n@001000G",
        b'x',
        None,
        Some("Started"),
    ),
    (
        "~?\r\n@001000/011064 \r\n@001000G",
        PAUSE,
        None,
        Some("Started"),
    ),
];

// The key with which the host answers a character of a text. What its contract promises of it, no test needs.
fn answer(host: &mut HostCore, character: u8) -> Option<u8> {
    host.step(match character {
        PAUSE => Heard::Quiet,
        _ => Heard::Got(character),
    })
}

// A host for the one word that has heard the text, and survives one mishap more than that has.
fn host_after(alloc: Global, text: &str) -> Option<HostCore> {
    let (tape, _) = read_tape(alloc, &TAPE).ok()?;
    let plan = Plan::of(alloc, &tape).ok()?;
    let nothing = Progress {
        verified: 0,
        going: false,
    };
    let mut host = HostCore::new(plan, nothing, 1).ok()?;
    for character in text.as_bytes() {
        answer(&mut host, *character);
    }
    Some(host)
}

// Whether a host in a phase takes a character as this says: with the key, or as a mishap, behind which it begins with `Z`.
fn is_taken_so(alloc: Global, phase: &Phase, character: u8) -> Option<bool> {
    let (before, listed, key) = *phase;
    let mut host = host_after(alloc, before)?;
    let sent = host.step(Heard::Got(character));
    let spent = host.spent();
    if listed.contains(&character) {
        Some(sent == key && spent == 0)
    } else {
        Some(sent.is_none() && spent == 1 && answer(&mut host, PAUSE) == Some(b'Z'))
    }
}

// Whether it takes every character so.
fn are_taken_so(alloc: Global, phase: &Phase) -> bool {
    for character in 0..=255 {
        if is_taken_so(alloc, phase, character) != Some(true) {
            return false;
        }
    }
    true
}

// Whether a host is at the end of this word, or at none; the one word is all that an end can name.
fn is_at_end(host: &HostCore, word: Option<&str>) -> bool {
    match (host.end(), word) {
        (Some(end), Some(word)) => end.word() == word && names_the_word(end),
        (None, None) => true,
        _ => false,
    }
}

// Whether an end names the one word, or none.
fn names_the_word(end: End) -> bool {
    match end {
        End::NoWord(address) | End::WontHold(address) => address == 0o001000,
        _ => true,
    }
}

// Whether a host answers with this key, and is then at this end, without a mishap.
fn ends_so(alloc: Global, row: &Other) -> Option<bool> {
    let (before, character, key, end) = *row;
    let mut host = host_after(alloc, before)?;
    let sent = answer(&mut host, character);
    Some(sent == key && host.spent() == 0 && is_at_end(&host, end))
}

#[test]
fn each_phase_lists_its_characters(rt: HostRuntime) {
    for phase in &PHASES {
        assert!(rt; are_taken_so(rt.alloc(), phase), "{}", phase.0);
    }
}

#[test]
fn each_end_and_each_silence_is_no_mishap(rt: HostRuntime) {
    for row in &OTHERS {
        assert!(rt; ends_so(rt.alloc(), row) == Some(true), "{}", row.0);
    }
}
