/// Why no world was made. The first that holds is told.
#[derive(Clone, Copy)]
pub enum Setup {
    /// More than 32 characters wait at the opening.
    TooMuchWaiting,

    /// The machine runs a program.
    Running,

    /// The host has done something already, or words count as verified, or the mark is set.
    NotFresh,
}
