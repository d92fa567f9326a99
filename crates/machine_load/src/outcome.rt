use crate::load_end::LoadEnd;
use crate::stubs::Stubs;

/// What came of a load that was reported.
#[derive(Drop)]
pub struct Outcome<L> {
    /// How it ended.
    pub end: LoadEnd,

    /// Whether the host had come to the start: `G` was typed, or was about to be, once its mark was kept.
    pub marked: bool,

    /// How far its stubs came, where they were asked for and it came to them.
    pub stubs: Option<Stubs>,

    /// The line, where there was something to load, for whoever wants to hear what comes then.
    pub line: Option<L>,
}
