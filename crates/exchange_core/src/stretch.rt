/// Consecutive bytes of an image, any number of them: an entry of a stub's table.
#[derive(Clone, Copy)]
pub struct Stretch {
    /// The address of the first.
    pub from: u16,

    /// The address behind the last.
    pub to: u16,
}
