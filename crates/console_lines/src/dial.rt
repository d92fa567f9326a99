//! Which console is asked for.

/// Which console a line is to lead to, and the line's quiet time.
#[derive(Clone, Copy)]
pub struct Dial<'a> {
    /// The path of a serial device, which has a slash, or HOST:PORT.
    pub name: &'a str,

    /// Nothing more is coming once nothing came for so long, in milliseconds.
    pub quiet_ms: u32,
}
