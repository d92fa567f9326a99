//! The numbers that are deposited in a word to test a bus.
ghost use Rattle.std.specs.Prelude.{◌≡◌};
ghost use Rattle.machine_memory.specs.Bus.{mark, number_at};

/// How many numbers are deposited, one after another: any two data lines carry two bits in one of them.
pub(crate) const NUMBERS: u8 = 4;

/// The number at a place, counted from 0, in a word that held this one before. The last is the mark.
pub(crate) fn number_at(place: u8, old: u16) -> u16
    ensures { result ≡ number_at place old }
{
    match place {
        0 => 0o125252,
        1 => 0o146314,
        2 => 0o170360,
        _ => mark(old),
    }
}

/// The number by which a word is known again: not the one that it held before.
pub(crate) fn mark(old: u16) -> u16
    ensures { result ≡ mark old }
{
    if old == 0o177400 { 0o377 } else { 0o177400 }
}
