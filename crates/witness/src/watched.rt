ghost use Rattle.std.specs.Prelude.{◌≡◌};

use crate::seen::Witness;

/// A part of a system: its files, its disk or what it has for lines. Each call is handed on, and how it failed is
/// kept.
#[derive(Drop)]
pub struct Watched<'c, T> {
    pub(crate) part: T,
    pub(crate) witness: &'c Witness,
}

impl<'c, T> Watched<'c, T> {
    /// Watches a part.
    pub fn new(part: T, witness: &'c Witness) -> Watched<'c, T>
        ensures { result.part ≡ part }
    {
        Watched { part, witness }
    }
}
