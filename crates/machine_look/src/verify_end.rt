use engine::Cut;

/// How a `verify` ended.
#[derive(Clone, Copy)]
pub enum VerifyEnd {
    /// Every word was looked at, and each stands.
    Same,

    /// Every word was looked at, and each seemed to stand, not all twice, and the line changed a character.
    Changed,

    /// Every word was looked at, and one or more differ.
    Differs,

    /// Memory has no word at this address.
    NoWord(u16),

    /// There were more mishaps than the patience.
    GaveUp,

    /// The line failed, or the turns were over before all words were looked at.
    CutOff(Cut),
}
