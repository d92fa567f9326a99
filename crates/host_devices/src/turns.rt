//! How long a run over a line may last.

/// The most turns of a load or a look, in each of which one thing is heard. It is more than any can need:
/// a load of the whole memory takes far fewer, also over a line that loses. And yet a run over a line that
/// never falls silent ends some day.
pub const MOST_TURNS: u64 = 10_000_000;
