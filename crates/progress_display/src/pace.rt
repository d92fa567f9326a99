//! How fast it goes.

// The shortest time between two showings, in milliseconds: ten a second.
const SHORTEST_PAUSE: u64 = 100;

/// The time between two, where both are known and the second is not the earlier one.
pub(crate) fn elapsed(earlier: Option<u64>, now: Option<u64>) -> Option<u64> {
    match (earlier, now) {
        (Some(earlier), Some(now)) => now.checked_sub(earlier),
        _ => None,
    }
}

/// The same, and 0 where it is not known.
pub(crate) fn time_between(earlier: Option<u64>, now: Option<u64>) -> u64 {
    elapsed(earlier, now).unwrap_or(0)
}

/// How many seconds what is left takes at the pace so far, where the time that went by is known, in
/// milliseconds; none where nothing was done in it.
pub(crate) fn time_left(elapsed: Option<u64>, done: u32, left: u32) -> Option<u64> {
    let millis = elapsed?.saturating_mul(u64::from(left));
    millis.checked_div(1000 * u64::from(done))
}

/// Whether a showing is due at a time, in milliseconds, after one at an earlier time.
pub(crate) fn is_due(shown: u64, now: u64) -> bool {
    now.saturating_sub(shown) >= SHORTEST_PAUSE
}
