//! What is noted of what is said on a line.
ghost use Rattle.std.specs.Prelude.{◌≡◌, ◌≤◌, ℕ, ◌==◌, ◌&&◌, ◌||◌, List, [], ◌∷◌, ◌++◌, length};
ghost use Rattle.host_core.specs.Console.{prompt};
ghost use Rattle.host_devices.specs.declared.item.Item.{Item};
ghost use Rattle.probe_report.specs.Notes.{echoes, last_of, notes_of, tail_length};

use arrayvec::ArrayVec;
use host_core::Heard;
use host_core::console::PROMPT;
use std::marker::Model;

// How many of the characters that were heard last are kept.
const TAIL: usize = 40;

/// What is noted of what is said on a line: whether a prompt was heard, whether each character that was
/// heard is the key that was typed last, and the last 40 characters that were heard.
#[derive(Drop)]
pub struct Notes {
    prompt: bool,
    only_echoes: bool,
    last_key: Option<u8>,
    tail: ArrayVec<u8, TAIL>,
}

impl Model for Notes {
    ghost use Rattle.probe_report.specs.Notes.{Noted};

    ghost Value = { Noted };

    ghost view = { λ n. record { prompt = n.prompt; only_echoes = n.only_echoes; last_key = n.last_key; tail = n.tail.items } };
}

impl Notes {
    /// Nothing was said.
    pub fn new() -> Notes
        ensures { result ≡ notes_of [] }
    {
        Notes {
            prompt: false,
            only_echoes: true,
            last_key: None,
            tail: ArrayVec::new(),
        }
    }

    /// Notes that a key was sent.
    pub fn sends(&mut self, key: u8)
        ensures { (items : List Item) → self.old ≡ notes_of items → self.new ≡ notes_of (items ++ Item.Sent key ∷ []) }
    {
        self.last_key = Some(key);
    }

    /// Notes what was heard: a character, or that nothing came.
    pub fn hears(&mut self, heard: Heard)
        ensures { (items : List Item) → self.old ≡ notes_of items → self.new ≡ notes_of (items ++ Item.Heard heard ∷ []) }
    {
        match heard {
            Heard::Got(c) => {
                self.only_echoes = still_echoes(self.only_echoes, self.last_key, c);
                self.prompt = prompt_by_now(self.prompt, c);
                push_last(&mut self.tail, c);
            }
            Heard::Quiet => (),
        }
    }

    /// Whether a prompt was heard.
    pub(crate) fn prompt(&self) -> bool
        ensures { result ≡ self.now.prompt }
    {
        self.prompt
    }

    /// Whether each character that was heard is the key that was typed last.
    pub(crate) fn only_echoes(&self) -> bool
        ensures { result ≡ self.now.only_echoes }
    {
        self.only_echoes
    }

    /// The last 40 characters that were heard, the oldest first.
    pub(crate) fn tail(&self) -> &[u8]
        ensures is { result.now ≡ self.now.tail }
        ensures few { length result.now ≤ 40 }
    {
        &self.tail
    }
}

// Whether nothing but echoes was heard, with one character more.
fn still_echoes(so_far: bool, last_key: Option<u8>, c: u8) -> bool
    ensures { result ≡ (so_far && echoes last_key c) }
{
    match last_key {
        Some(key) => so_far && c == key,
        None => false,
    }
}

// Whether a prompt was heard, with one character more.
fn prompt_by_now(so_far: bool, c: u8) -> bool
    ensures { result ≡ (so_far || c == prompt) }
{
    so_far || c == PROMPT
}

// Puts a character at the end of the last ones, and drops the oldest where there is no room for it.
fn push_last(tail: &mut ArrayVec<u8, TAIL>, c: u8)
    ensures { (all : List ℕ) → tail.old.items ≡ last_of tail_length all → tail.new.items ≡ last_of tail_length (all ++ c ∷ []) }
{
    if tail.is_full() {
        tail.remove(0);
    }
    tail.push(c);
}
