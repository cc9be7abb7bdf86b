//! The words of the crate in the kernel's block.
ghost use Rattle.std.specs.Prelude.{ℕ, ◌+◌};
ghost use Rattle.kern_layout.specs.BlockWords.{IsBlock};
ghost use Rattle.kern_layout.specs.declared.ranges.TheConstants.{TIMER_CODE};
ghost use Rattle.kern_stay.specs.Words.{overlaid, EndsBy};
ghost use Rattle.kern_stay.specs.declared.places.TheConstants.{CACHED};
ghost use Rattle.kern_timer.specs.declared.places.TheConstants as place;
ghost use Rattle.kern_timer.specs.declared.b02_init_timer.TheConstants as init_timer;
ghost use Rattle.kern_timer.specs.declared.b03_get_timer.TheConstants as get_timer;
ghost use Rattle.kern_timer.specs.declared.b04_enable_timer_irq.TheConstants as enable_timer_irq;
ghost use Rattle.kern_timer.specs.declared.b06_restart_timer.TheConstants as restart_timer;
ghost use Rattle.kern_timer.specs.TimerWords.{timer_pieces};
ghost use Rattle.kern_timer.specs.TimerLaws.{TimerServes};

use crate::places::{DISABLE_TIMER_IRQ, ENABLE_TIMER_IRQ, GET_TIMER, INIT_TIMER, RESTART_TIMER};
use crate::{b02_init_timer, b03_get_timer, b04_enable_timer_irq, b06_restart_timer};
use kern_layout::KernelBlock;
use kern_stay::placing::put_listing;

/// Writes the words of the listings at their addresses. Every other word stays.
pub fn place(block: &mut KernelBlock)
    ensures { (f : ℕ → ℕ) → IsBlock block.old f → IsBlock block.new (overlaid timer_pieces f) }
{
    put_listing(block, RESTART_TIMER, &b06_restart_timer::NODES);
    put_listing(
        block,
        DISABLE_TIMER_IRQ,
        &b04_enable_timer_irq::DISABLE_NODES,
    );
    put_listing(block, ENABLE_TIMER_IRQ, &b04_enable_timer_irq::NODES);
    put_listing(block, GET_TIMER, &b03_get_timer::NODES);
    put_listing(block, INIT_TIMER, &b02_init_timer::NODES);
}

/// Each listing ends where the next one begins, or before it, and all of them in the range of the calls on counters. It does nothing.
pub fn apart()
    ensures init_timer { EndsBy place.INIT_TIMER init_timer.NODES place.GET_TIMER }
    ensures get_timer { EndsBy place.GET_TIMER get_timer.NODES place.ENABLE_TIMER_IRQ }
    ensures enable_timer_irq { EndsBy place.ENABLE_TIMER_IRQ enable_timer_irq.NODES place.DISABLE_TIMER_IRQ }
    ensures disable_timer_irq { EndsBy place.DISABLE_TIMER_IRQ enable_timer_irq.DISABLE_NODES place.RESTART_TIMER }
    ensures restart_timer { EndsBy place.RESTART_TIMER restart_timer.NODES (CACHED + TIMER_CODE.to) }
{}

/// Where the words stand, each call is served by its listing. It does nothing.
pub fn timer_serves()
    ensures { TimerServes }
{}
