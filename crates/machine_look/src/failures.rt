ghost use Rattle.std.specs.Prelude.{◌≡◌};
ghost use Rattle.host_devices.specs.Failures.{count_after, fault_of};

use host_devices::KeepFault;

/// How often a keeper has failed, and what its last call came to.
#[derive(Clone, Copy)]
pub(crate) struct Failures {
    /// How many of its calls; at its largest value it stays.
    pub(crate) count: u64,

    /// The fault of the last one, if it failed.
    pub(crate) last: Option<KeepFault>,
}

impl Failures {
    /// Before the first call.
    pub(crate) const NONE: Failures = Failures {
        count: 0,
        last: None,
    };

    /// Behind a call that came to this.
    pub(crate) fn behind(self, kept: Result<(), KeepFault>) -> Failures
        ensures counted { result.count ≡ count_after self.count kept }
        ensures last { result.last ≡ fault_of kept }
    {
        match kept {
            Ok(()) => Failures { last: None, ..self },
            Err(fault) => Failures {
                count: self.count.saturating_add(1),
                last: Some(fault),
            },
        }
    }
}
