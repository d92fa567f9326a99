ghost use Rattle.std.specs.Prelude.{◌≡◌};
ghost use Rattle.machine_probe.specs.Turns.{turns_of};

/// Which word a probe tries, and how patient it is.
#[derive(Clone, Copy)]
pub struct ProbeOptions {
    /// The word's address: even, and below 160000 (octal).
    pub address: u16,

    /// How many mishaps each of the runs survives.
    pub patience: u32,
}

impl ProbeOptions {
    /// The most turns of a run: so few that a line which never falls silent ends it within minutes.
    pub(crate) fn turns(self) -> u64
        ensures { result ≡ turns_of self.patience }
    {
        10_000 + 100 * u64::from(self.patience)
    }
}
