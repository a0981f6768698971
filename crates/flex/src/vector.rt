/// A place in a unit by cylinder, head and sector, each of the width that a message gives it.
#[derive(Clone, Copy, PartialEq, Eq, Debug)]
pub struct Vector {
    /// Three bytes in a message.
    pub cylinder: u32,
    pub head: u8,
    pub sector: u16,
}
