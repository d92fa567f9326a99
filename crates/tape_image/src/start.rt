ghost use Rattle.std.specs.Prelude.{◌≡◌};
ghost use Rattle.tape_image.specs.Plan.{program_start};

/// Which start a load has in place of the tape's.
#[derive(Clone, Copy)]
pub enum Start {
    /// The tape's own.
    OfTape,

    /// The program begins at this address; an odd one starts nothing, as on a tape.
    At(u16),

    /// The program is not started.
    Nowhere,
}

/// Where the program begins: an odd start address says that it does not.
pub(crate) fn program_start(start: u16) -> Option<u16>
    ensures { result ≡ program_start start }
{
    (start % 2 == 0).then_some(start)
}
