use crate::fault::ReadError;

/// What a reader has come to.
#[derive(Clone, Copy)]
pub(crate) enum ReaderState {
    /// The tape goes on.
    Open,

    /// The transfer block came, with this start address.
    Done(u16),

    /// What was fed is no tape's beginning, or a growth was refused.
    Failed(ReadError),
}
