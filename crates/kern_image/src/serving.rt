//! That the image serves the written kernel machine: the function's contract is the law, and the function does nothing.
ghost use Rattle.abs_run.specs.RunLaws.{always};
ghost use Rattle.abs_run.specs.Serves.{ServesRom};
ghost use Rattle.kern_image.specs.Rom.{rom};
ghost use Rattle.kern_image.specs.Serving.{RunsAreKernelRuns, RunsReturnInTime};

use crate::boots::boots;
use crate::laws::{gates, rom_bytes};
use crate::stays::{interrupts, stays};
use abs_run::laws::every_run;

/// From reset the ROM boots to a program's begin, and from each entry out of user code its words make the stay of the written kernel machine.
/// So each run of an accepted program on the board with this ROM, whatever the sizes, the schedule and the budget, is a run of that machine: of its trace, its console bytes and the user's memory at its end.
/// An interrupt returns, or comes to the first function that it calls, in at most 8,192 steps behind the one that takes it.
pub fn serving()
    ensures serves { ServesRom always rom }
    ensures runs { RunsAreKernelRuns }
    ensures in_time { RunsReturnInTime }
{
    rom_bytes();
    gates();
    boots();
    stays();
    interrupts();
    every_run();
}
