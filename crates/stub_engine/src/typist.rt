/// The host that types a stub: a loading one, whose plan is the stub's.
#[derive(Clone, Copy)]
pub struct Typist {
    /// Whether it is careful, as for a line that changes characters.
    pub careful: bool,

    /// How many mishaps it survives.
    pub patience: u32,
}
