/// The most blocks that a store has.
pub const MOST_BLOCKS: u32 = 4_194_304;
