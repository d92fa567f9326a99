//! The one line that a terminal has of a probe while it goes on.

use request_values::Look;
use std::alloc::Global;
use std::io::Print;

// How often a probe waits for the quiet time, mostly: before two looks and the trial, and before the first pass of the
// search, which ends it where memory is full.
const WAITS: u64 = 4;

// How often a host waits that is answered nothing, beside its mishaps: at first, and for what ends it.
const WAITS_BESIDE: u64 = 2;

/// Tells whoever waits at a terminal that a probe is under way, and for how long.
pub fn say_probing<T: Print>(alloc: Global, terminal: Option<&T>, look: Look<'_>) {
    let Some(terminal) = terminal else {
        return;
    };
    let quiet_ms = u64::from(look.quiet_ms);
    let mostly = rounded_up(WAITS * quiet_ms);
    let unit = if mostly == 1 { "second" } else { "seconds" };
    let waits = WAITS_BESIDE + u64::from(look.patience);
    let at_worst = rounded_up(waits.saturating_mul(quiet_ms));
    if let Ok(text) = format!(in alloc;
        "probing: mostly {mostly} {unit}; {at_worst} where nothing answers\n"
    ) {
        let _ = terminal.write_all(text.as_bytes());
    }
}

// So many milliseconds, in seconds.
fn rounded_up(millis: u64) -> u64 {
    millis.div_ceil(1000)
}
