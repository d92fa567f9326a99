/// How a tape lies in the bytes that it was read from.
#[derive(Drop)]
pub struct Layout {
    /// At which of these bytes each data block begins, counted from 0, in the order of the blocks.
    pub places: Vec<u32>,

    /// How many they are, up to the end of the transfer block.
    pub size: u32,
}
