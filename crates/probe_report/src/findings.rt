use engine::Cut;
use trial_core::Seen;

/// What a look at the word gave.
#[derive(Clone, Copy)]
pub enum Sighting {
    /// The word holds this number.
    Number(u16),

    /// Memory has no such word.
    NoWord,

    /// More mishaps than the patience.
    GaveUp,

    /// The line failed, or the turns were over.
    CutOff(Cut),
}

/// How the trial ended.
#[derive(Clone, Copy)]
pub enum TrialEnd {
    /// The digits and the illegal key were typed, and the prompt came back.
    Tried,

    /// Memory has no such word.
    NoWord,

    /// More mishaps than the patience. Digits may have been typed.
    GaveUp,

    /// The line failed, or the turns were over. Digits may have been typed.
    CutOff(Cut),
}

/// What the trial gave.
#[derive(Clone, Copy)]
pub struct TrialFindings {
    /// How it ended.
    pub end: TrialEnd,

    /// What was seen of the console's style, and of small letters.
    pub seen: Seen,

    /// Whether there was a mishap: a character that was lost looks like another style.
    pub had_mishap: bool,
}

/// What the search of memory's end gave.
#[derive(Clone, Copy)]
pub enum Extent {
    /// Memory ends below this address.
    Top(u16),

    /// More mishaps than the patience.
    GaveUp,

    /// The line failed, or the turns were over.
    CutOff(Cut),
}

/// How many characters the looks of a probe heard that no loss explains: the line changed them, or made them up. Of a look
/// that was not made there are none. In a trial, which types an illegal key into a console of any style, none is counted.
#[derive(Clone, Copy)]
pub struct Changes {
    /// In the first look at the word.
    pub first: u32,

    /// In the second.
    pub second: u32,

    /// In the search of memory's end.
    pub search: u64,
}

/// What the runs of a probe gave, each where it was made.
#[derive(Clone, Copy)]
pub struct Findings {
    /// The address of the word.
    pub address: u16,

    /// The first look at it.
    pub first: Sighting,

    /// The trial.
    pub trial: Option<TrialFindings>,

    /// The second look at the word.
    pub second: Option<Sighting>,

    /// Whether the word holds its old number again, where that was put back.
    pub put_back: Option<bool>,

    /// The search of memory's end.
    pub search: Option<Extent>,

    /// The changed characters.
    pub changes: Changes,
}
