/// How often a host looks at a word before it takes the number that it read there. A line that changes
/// characters can make another number of one look.
#[derive(Clone, Copy)]
pub enum Care {
    /// Once.
    Once,

    /// Twice in a row: where the two read otherwise, that is a mishap, and the word begins anew.
    Twice,

    /// Once where the number is what was expected there, else twice.
    TwiceWhereOther,
}
