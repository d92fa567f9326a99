use engine::Cut;
use reading_core::End;

/// How a search for the end of memory came out.
#[derive(Clone, Copy)]
pub enum Search {
    /// Memory goes from 000000 to here: the first byte's address at which there is none, at most 160000
    /// (octal), where the I/O page begins.
    Ends(u16),

    /// A pass was not brought to its end: the host gave up, the line failed, or the turns were over.
    Stopped(Result<End, Cut>),
}

/// What a search for the end of memory came to.
#[derive(Clone, Copy)]
pub struct Searched {
    /// How it came out.
    pub search: Search,

    /// How many characters came in its passes that no loss explains.
    pub changed: u64,
}
