/// What can happen in a world. Places in the queues are counted from 0, the oldest character first.
#[derive(Clone, Copy)]
pub enum Event {
    /// The machine takes the first key under way, and answers.
    Take,

    /// The host hears the first answer character under way.
    Hear,

    /// The line loses the key at this place.
    LoseDown(u8),

    /// The line loses the answer character at this place.
    LoseUp(u8),

    /// The line of a careful host changes the key at this place into this other one: into no CR, `/`
    /// or `G`, and where it has changed no character in this attempt at a word.
    ChangeDown(u8, u8),

    /// The line of a careful host changes the answer character at this place into this one, where it
    /// has changed no character in this attempt at a word.
    ChangeUp(u8, u8),

    /// Nothing is under way in either direction, and the host's quiet time passes.
    Quiet,

    /// The host begins a new life: at most so many of its verified words still count, and the mark
    /// stays as it was. Queues and machine stay, and losses and changes are counted anew.
    Restart(u32),
}
