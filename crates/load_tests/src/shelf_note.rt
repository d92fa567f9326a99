//! What is done on a shelf in memory.

/// A step of a save on a shelf that has no part and takes everything, with copies of the texts.
#[derive(Drop)]
pub(crate) enum ShelfNote {
    /// Room of so many bytes was taken.
    Reserved(usize),

    /// There was nothing to go on with.
    NotResumed,

    /// The text of a block was added.
    Added(Vec<u8>),

    /// The last text was put.
    Put(Vec<u8>),
}
