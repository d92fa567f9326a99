use engine::Cut;

/// How a `save` ended.
#[derive(Clone, Copy)]
pub enum SaveEnd {
    /// Every word was read.
    Saved,

    /// All was read that can be had, each word once, and the line changed a character: the tape is not where it
    /// goes.
    Changed,

    /// Memory has no word at this address.
    NoWord(u16),

    /// There were more mishaps than the patience.
    GaveUp,

    /// The line failed, or the turns were over before all words were read.
    CutOff(Cut),

    /// Memory does not hold the word at this address that an earlier save read there, and nothing was read.
    Stale(u16),
}
