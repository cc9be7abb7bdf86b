//! The law of the boot code: the function's contract is the law, and the function does nothing.
ghost use Rattle.kern_image.specs.Boot.{EachBoots};

/// For each accepted program, and sizes that the kernel's tables have room for, the ROM's words go from reset to the program's begin in exactly 38,941 steps, whatever the interrupt line shows.
/// They read start ports and write no port, leave the user's memory as the program's, and end in the opening state of the kernel.
pub fn boots()
    ensures { EachBoots }
{}
