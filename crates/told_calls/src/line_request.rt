//! What is asked for a line.

/// What is asked for a line: of a network by name, of serial devices by path.
#[derive(PartialEq, Drop)]
pub enum LineRequest {
    /// That somebody is dialled.
    Dialled(String),

    /// That a device is opened.
    Opened(String),

    /// That reads are limited to a time in milliseconds.
    Limited(u32),
}
