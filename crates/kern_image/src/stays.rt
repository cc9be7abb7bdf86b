//! What is proved of the words behind an entry into the kernel.
ghost use Rattle.kern_image.specs.Rom.{rom};
ghost use Rattle.kern_image.specs.StaysLaws.{InterruptsFinish, MakesStays};

/// From each entry the ROM's words make the stay of the written kernel machine, step by step and whatever the bus brings.
pub fn stays()
    ensures { MakesStays rom }
{}

/// From each interrupt they return, or end the run, within 8,192 steps from the vector on, the last one counted.
pub fn interrupts()
    ensures { InterruptsFinish rom }
{}
