use host_core::End;
use std::alloc::AllocError;

/// Why no more stubs are brought in, where no device failed.
#[derive(Clone, Copy)]
pub enum StubsEnd {
    /// Fewer than 256 words are to be gained by a stub.
    TooFewWords,

    /// The words that are not verified have no room for a stub.
    NoRoom,

    /// Three stubs in a row verified nothing.
    InVain,

    /// The host that brought in a stub did not see it start, and came to this end.
    NotStarted(End),

    /// A growth was refused, before the first key of a stub.
    Memory,
}

/// Why no more stubs are brought in. `TurnsOver` says that the turns of a host that was to bring one in, or of an
/// exchange, were over before it had an end.
pub type Stop = engine::Stop<StubsEnd>;

impl From<AllocError> for StubsEnd {
    ghost use Rattle.std.specs.Prelude.{◌≡◌};
    ghost use Rattle.stub_engine.specs.declared.stop.StubsEnd.TheVariants.{Memory};

    ghost from_gives = { λ _ end. end ≡ Memory };

    fn from(_e: AllocError) -> StubsEnd {
        StubsEnd::Memory
    }
}
