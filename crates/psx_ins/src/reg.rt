/// The number of a register, below 32 where the instruction fits a word.
#[derive(Clone, Copy, PartialEq, Eq)]
pub struct Reg(pub u32);
