//! Half a context of the kernel's data is copied from one block to another.
ghost use Rattle.std.specs.Prelude.{◌≡◌, IsTrue, IfSome};
ghost use Rattle.psx_flow.specs.Reading.{tree_of};
ghost use Rattle.psx_flow.specs.Well.{is_well};
ghost use Rattle.psx_flow.specs.Spaced.{is_spaced};
ghost use Rattle.kern_stay.specs.declared.copy_half.TheConstants.{COPY_HALF_NODES};
ghost use Rattle.kern_stay.specs.CopyHalf.{CopiesHalf};

use psx_flow::{Node, op, register};

/// r8 is where the 18 words are, and r9 where they go to. Both go on by 17 words, so a second run copies a context's other half, and the word in its middle once more. r10 and r11 are changed.
pub const COPY_HALF_NODES: [Node; 39] = [
    op!(LW r10, 0(r8)),
    op!(LW r11, 4(r8)),
    op!(SW r10, 0(r9)),
    op!(SW r11, 4(r9)),
    op!(LW r10, 8(r8)),
    op!(LW r11, 12(r8)),
    op!(SW r10, 8(r9)),
    op!(SW r11, 12(r9)),
    op!(LW r10, 16(r8)),
    op!(LW r11, 20(r8)),
    op!(SW r10, 16(r9)),
    op!(SW r11, 20(r9)),
    op!(LW r10, 24(r8)),
    op!(LW r11, 28(r8)),
    op!(SW r10, 24(r9)),
    op!(SW r11, 28(r9)),
    op!(LW r10, 32(r8)),
    op!(LW r11, 36(r8)),
    op!(SW r10, 32(r9)),
    op!(SW r11, 36(r9)),
    op!(LW r10, 40(r8)),
    op!(LW r11, 44(r8)),
    op!(SW r10, 40(r9)),
    op!(SW r11, 44(r9)),
    op!(LW r10, 48(r8)),
    op!(LW r11, 52(r8)),
    op!(SW r10, 48(r9)),
    op!(SW r11, 52(r9)),
    op!(LW r10, 56(r8)),
    op!(LW r11, 60(r8)),
    op!(SW r10, 56(r9)),
    op!(SW r11, 60(r9)),
    op!(LW r10, 64(r8)),
    op!(LW r11, 68(r8)),
    op!(SW r10, 64(r9)),
    op!(SW r11, 68(r9)),
    op!(ADDIU r8, r8, 68),
    op!(ADDIU r9, r9, 68),
    Node::JumpTo(register!(r31)),
];

/// The listing that copies half a context of the kernel's data. It comes back to r31. Each crate whose routines call it places one in its range.
pub fn copy_half() -> &'static [Node]
    ensures listing { result.now ≡ COPY_HALF_NODES }
    ensures well { IsTrue (is_well result.now) }
    ensures spaced { IsTrue (is_spaced result.now) }
    ensures serves { IfSome (tree_of result.now) (λ tree. CopiesHalf tree) }
{
    &COPY_HALF_NODES
}
