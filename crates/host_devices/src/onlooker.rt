//! Who looks on.

use host_core::Heard;

/// What an onlooker is told of a turn of the engine.
#[derive(Clone, Copy)]
pub struct Sight {
    /// What was heard.
    pub heard: Heard,

    /// The key that the host answered, which is about to be sent.
    pub key: Option<u8>,

    /// How many words are done: verified, or read.
    pub done: u32,

    /// How many mishaps the host has met in this life.
    pub spent: u32,

    /// Whether the host knows that no loss explains what was heard: the line changed or made up that
    /// character. Some hosts know it of none.
    pub foreign: bool,
}

/// Somebody who looks on at a load or at a reading. Nothing that happens here decides anything.
pub trait Onlooker {
    /// It begins with so many words done of all.
    fn begins(&self, done: u32, words: u32);

    /// The host has taken a step, and nothing came of it yet.
    fn sees(&self, sight: Sight);

    /// A stub is about to be typed. Of the host that types it nothing is told.
    fn stub_begins(&self);

    /// It is over.
    fn ends(&self);
}

/// Nobody.
#[derive(Clone, Copy)]
pub struct Unwatched;

impl Onlooker for Unwatched {
    fn begins(&self, _done: u32, _words: u32) {}

    fn sees(&self, _sight: Sight) {}

    fn stub_begins(&self) {}

    fn ends(&self) {}
}

// Somebody, where there is one.
impl<O: Onlooker> Onlooker for Option<O> {
    fn begins(&self, done: u32, words: u32) {
        if let Some(onlooker) = self {
            onlooker.begins(done, words);
        }
    }

    fn sees(&self, sight: Sight) {
        if let Some(onlooker) = self {
            onlooker.sees(sight);
        }
    }

    fn stub_begins(&self) {
        if let Some(onlooker) = self {
            onlooker.stub_begins();
        }
    }

    fn ends(&self) {
        if let Some(onlooker) = self {
            onlooker.ends();
        }
    }
}
