use crate::first_life::FirstLife;
use crate::lived::Lived;
use crate::looks::{Looks, LooksRoom};

/// What the beginning of a life came to.
#[derive(Drop)]
pub(crate) enum Beginning<L, K> {
    /// The life is over: it was so before it began, or its looks do not let it go on.
    Over(Lived<L>),

    /// It goes on.
    Begun(BegunLife<L, K>),
}

/// A life that goes on behind its looks: with its line, with room to look again, and with the keeper that its record was
/// begun anew for.
#[derive(Drop)]
pub(crate) struct BegunLife<L, K> {
    pub(crate) first: FirstLife,
    pub(crate) looks: Looks,
    pub(crate) room: LooksRoom,
    pub(crate) line: L,
    pub(crate) keeper: K,
}
