ghost use Rattle.std.specs.Prelude.{◌≡◌};
ghost use Rattle.machine_memory.specs.Ending.{memory_end};
ghost use Rattle.memory_report.specs.Report.{found_of};

use memory_report::{Findings, TestEnd};

/// What a test of memory came to.
#[derive(Clone, Copy)]
pub struct MemoryEnd {
    /// How it ended.
    pub end: TestEnd,

    /// Whether each word that was tested holds what it is given, no data lines touch, and no two words are one.
    pub good: bool,
}

/// What the test came to that found this.
pub(crate) fn memory_end(findings: &Findings) -> MemoryEnd
    ensures { result ≡ memory_end (found_of findings.now) }
{
    MemoryEnd {
        end: findings.end,
        good: findings.is_good(),
    }
}
