//! What looks at samples found.
ghost use Rattle.std.specs.Prelude.{◌≡◌, ◌≤◌, length, MatchOption};
ghost use Rattle.sample_looks.specs.Finding.{IsFirstToDiffer, IsFound, StandAsRead, unless_stopped_at};

use engine::Cut;
use reading_core::End;
use tape_image::{Word, stands};

/// What looks at some words of a plan found.
#[derive(Clone, Copy)]
pub enum Finding {
    /// Each was read, and stands.
    AllStand,

    /// The first of those that were read and do not stand is the one at this address.
    Stale(u16),

    /// Those that were read stand, and the reading did not come to its end.
    Unfinished,
}

// What the numbers say that were read at the first of the words before the reading stopped so.
pub(crate) fn found(samples: &[Word], numbers: &[u16], stop: Result<End, Cut>) -> Finding
    requires { length numbers.now ≤ length samples.now }
    ensures { IsFound samples.now numbers.now stop result }
{
    match first_to_differ(samples, numbers) {
        Some(address) => Finding::Stale(address),
        None => unless_stopped(stop),
    }
}

// What it comes to where no word differs.
fn unless_stopped(stop: Result<End, Cut>) -> Finding
    ensures { result ≡ unless_stopped_at stop }
{
    match stop {
        Ok(End::Complete) => Finding::AllStand,
        _ => Finding::Unfinished,
    }
}

// The address of the first word that does not have the number read there under its mask.
fn first_to_differ(samples: &[Word], numbers: &[u16]) -> Option<u16>
    requires { length numbers.now ≤ length samples.now }
    ensures { MatchOption result (StandAsRead samples.now numbers.now (length numbers.now)) (IsFirstToDiffer samples.now numbers.now) }
{
    for (place, number) in numbers.iter().enumerate() {
        if !stands(samples[place], *number) {
            return Some(samples[place].address());
        }
    }
    None
}
