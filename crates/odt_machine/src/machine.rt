ghost use Rattle.std.specs.Prelude.{◌≡◌, ◌<◌, ◌↔◌, replicate, IsTrue, IsOk, IfOk, IfErr};
ghost use Rattle.odt_machine.specs.Machine.{ModeFits, IsMachine, largest_words};

mod memory;
mod typing;

use crate::mode::Mode;
use crate::style::Style;
use std::alloc::Global;
use std::marker::Model;

/// The most words that a machine's memory has: the addresses below the I/O page, which begins at
/// octal 160000.
pub const LARGEST_WORDS: u16 = 28672;

/// The largest digit count: it stands for seven digits or more.
pub(crate) const MANY_DIGITS: u8 = 7;

/// Why no machine was made.
#[derive(Clone, Copy)]
pub enum OdtError {
    /// More than 28,672 words were asked for.
    TooLarge,

    /// No memory was left for the machine's words.
    Memory,
}

/// A machine under its console ODT: its memory, the console's mode, and its style.
///
/// Contracts see it as these three. Of every machine it holds that there are at most 28,672 words,
/// that a digit count is 1 to 7, and that an open word lies in memory.
#[derive(Drop)]
pub struct Odt {
    style: Style,
    memory: Vec<u16>,
    mode: Mode,
}

impl Model for Odt {
    ghost use Rattle.odt_machine.specs.Machine.{Machine, IsMachine};

    ghost Value = { Machine };

    ghost view = { λ o. record { style = o.style; memory = o.memory.items; mode = o.mode } };

    ghost invariant = { λ o. IsMachine (record { style = o.style; memory = o.memory.items; mode = o.mode }) };
}

impl Odt {
    /// A machine of `words` words of zero, at the prompt.
    ///
    /// `TooLarge` exactly above 28,672 words, judged before any memory is asked for. `Memory` only
    /// where that was refused.
    pub fn new(alloc: Global, words: u16, style: Style) -> Result<Odt, OdtError>
        ensures ok { IfOk result (λ odt. odt ≡ record { style = style; memory = replicate words 0; mode = Mode.Prompt }) }
        ensures too_large { (result ≡ Err OdtError.TooLarge) ↔ (largest_words < words) }
        ensures machine { IfOk result IsMachine }
    {
        if words > LARGEST_WORDS {
            return Err(OdtError::TooLarge);
        }
        let Ok(memory) = vec![in alloc; 0; usize::from(words)] else {
            return Err(OdtError::Memory);
        };
        Ok(Odt {
            style,
            memory,
            mode: Mode::Prompt,
        })
    }

    /// The same machine in another mode.
    ///
    /// A mode that no typing could reach is refused, and the machine comes back as it was: no digit
    /// or more than 7 counted, or an open word that does not lie in memory.
    pub fn with_mode(self, mode: Mode) -> Result<Odt, Odt>
        ensures accepted { IsOk result ↔ ModeFits self.memory mode }
        ensures ok { IfOk result (λ odt. odt ≡ record self { mode = mode }) }
        ensures err { IfErr result (λ odt. odt ≡ self) }
    {
        if !self.fits(mode) {
            return Err(self);
        }
        let mut odt = self;
        odt.mode = mode;
        Ok(odt)
    }

    /// What the console is in the middle of.
    pub fn mode(&self) -> Mode
        ensures value { result ≡ self.now.mode }
        ensures machine { IsMachine self.now }
    {
        self.mode
    }

    /// What this console's answers look like.
    pub fn style(&self) -> Style
        ensures value { result ≡ self.now.style }
        ensures machine { IsMachine self.now }
    {
        self.style
    }

    fn fits(&self, mode: Mode) -> bool
        ensures { IsTrue result ↔ ModeFits self.now.memory mode }
    {
        match mode {
            Mode::Prompt | Mode::Running(_) => true,
            Mode::Number(_, digits) => 1 <= digits && digits <= MANY_DIGITS,
            Mode::Opened(address) => self.has_word(address),
            Mode::Typing(address, _, digits) => self.has_word(address)
                && 1 <= digits
                && digits <= MANY_DIGITS,
        }
    }
}
