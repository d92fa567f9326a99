use engine::Cut;

/// How a probe ended.
#[derive(Clone, Copy)]
pub enum ProbeEnd {
    /// The word was the same behind digits and an illegal key, and the end of memory was found.
    Probed,

    /// The word read as another one behind digits and an illegal key: the console stored them, or memory or the line changed
    /// it. No load of this machine is safe.
    NotTrusted,

    /// More mishaps than the patience, and no prompt was heard.
    NoPrompt,

    /// More mishaps than the patience, and a prompt was heard.
    GaveUp,

    /// Memory has no word at this address, at which the probe was to be made.
    NoWord(u16),

    /// The line failed, or the turns of a run were over before its end: it never falls silent.
    CutOff(Cut),
}
