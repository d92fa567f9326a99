//! What a load asks of its surroundings.

use record_file::Writable;

/// What a load asks of its surroundings, and what they answer.
#[derive(Clone, Copy)]
pub(crate) enum LoadStep {
    /// The record was read, which may be begun anew so.
    RecordRead(Writable),

    /// A connection was made.
    Connected,

    /// The record was begun anew.
    RecordBegun,

    /// Its keeper was given back.
    RecordGivenBack,

    /// Another load holds the record.
    InUse,

    /// The record can't be read.
    NotRead,

    /// No connection was made.
    NotConnected,

    /// The record was not begun anew.
    NotBegun,

    /// Memory is wanting for the record.
    OutOfMemory,
}
