use engine::Cut;

/// How a test of memory ended.
#[derive(Clone, Copy, PartialEq)]
pub enum TestEnd {
    /// Every word that was asked for was tested, or its bank does not answer. One whose first two looks differ counts as tested.
    Tested,

    /// The tried word was another one: the console stored digits at an illegal key, or memory or the line changed the word.
    /// Nothing was tested.
    NotTrusted,

    /// Nothing answers at this address, in the middle of a word or where the test was to begin.
    NoWord(u16),

    /// More mishaps than the patience.
    GaveUp,

    /// The line failed, or the turns were over before the end: it never falls silent.
    CutOff(Cut),
}
