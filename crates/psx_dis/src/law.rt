//! What is printed assembles back.
ghost use Rattle.std.specs.Prelude.{◌≡◌, ◌+◌, ◌*◌, ◌%◌, ◌^◌, ◌≤◌, length};
ghost use Rattle.psx_asm.specs.Assembly.{longest};
ghost use Rattle.psx_dis.specs.Printed.{printed};
ghost use Rattle.psx_dis.specs.Returning.{AssemblesBack};

/// The law of the printed form: where it is no longer than a text of the assembler may be, it gives exactly the words' bytes at their
/// addresses, in each window that has them, and has no fault. The call does nothing.
pub fn assembles_back(start: u32, words: &[u32])
    requires aligned { start % 4 ≡ 0 }
    requires within { start + 4 * length words.now ≤ 2 ^ 32 }
    requires short { length (printed start words.now) ≤ longest }
    ensures { AssemblesBack start words.now }
{}
