/// Whether a load made the file of its record.
#[derive(Clone, Copy)]
pub(crate) enum Made {
    /// It was there before.
    Before,

    /// The load made it, in the folder of its name.
    Here,

    /// The load made it where a link of its name leads to.
    BehindLink,
}
