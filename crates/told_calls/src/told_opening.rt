//! What was asked of files that are opened to be read.

/// That a file was opened by its name, or was not.
#[derive(PartialEq, Drop)]
pub enum ToldOpening {
    /// It was, and holds this.
    Opened(String, Vec<u8>),

    /// It was to be.
    NotOpened(String),
}
