//! What a listing is made of.
use psx_ins::ins::Ins;
use psx_ins::reg::Reg;

/// A test of two registers, or of one against 0, as a number with sign.
#[derive(Clone, Copy, PartialEq, Eq)]
pub enum Test {
    /// The two registers are equal.
    Same(Reg, Reg),
    /// The two registers differ.
    Differ(Reg, Reg),
    /// The register is 0 or negative.
    NotAbove(Reg),
    /// The register is above 0.
    Above(Reg),
    /// The register is negative.
    Negative(Reg),
    /// The register is 0 or above.
    NotNegative(Reg),
}

/// A node of a listing. A listing is a flat list of nodes, in which If and While open a bracket and End closes it.
#[derive(Clone, Copy, PartialEq, Eq)]
pub enum Node {
    /// An instruction that is no branch, no jump and neither enters nor leaves the kernel.
    Op(Ins),
    /// What follows, up to its Other or its End, where the test holds.
    If(Test),
    /// What follows, up to the End, where the test of its If doesn't hold.
    Other,
    /// What follows, up to its End, again and again as long as the test holds before it.
    While(Test),
    /// The end of an If or While.
    End,
    /// A call of the listing at an address, which comes back by a jump to the address that it finds in r31.
    Call(u32),
    /// A jump to an address.
    Jump(u32),
    /// A jump to the address that a register holds.
    JumpTo(Reg),
}
