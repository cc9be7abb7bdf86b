//! The words of the crate in the kernel's block.
ghost use Rattle.std.specs.Prelude.{ℕ, ◌+◌};
ghost use Rattle.kern_layout.specs.BlockWords.{IsBlock};
ghost use Rattle.kern_layout.specs.declared.ranges.TheConstants.{THREAD_CODE};
ghost use Rattle.kern_stay.specs.Words.{overlaid, EndsBy};
ghost use Rattle.kern_stay.specs.declared.places.TheConstants.{CACHED};
ghost use Rattle.kern_stay.specs.declared.copy_half.TheConstants.{COPY_HALF_NODES};
ghost use Rattle.kern_thread.specs.declared.places.TheConstants as place;
ghost use Rattle.kern_thread.specs.declared.b10_change_thread.TheConstants as change_thread;
ghost use Rattle.kern_thread.specs.declared.b0f_close_thread.TheConstants as close_thread;
ghost use Rattle.kern_thread.specs.declared.b0e_open_thread.TheConstants as open_thread;
ghost use Rattle.kern_thread.specs.declared.b17_return_from_exception.TheConstants as return_from_exception;
ghost use Rattle.kern_thread.specs.ThreadWords.{thread_pieces};
ghost use Rattle.kern_thread.specs.ThreadLaws.{ThreadServes};

use crate::places::{CHANGE_THREAD, CLOSE_THREAD, COPY_HALF, OPEN_THREAD, RETURN_FROM_EXCEPTION};
use crate::{b0e_open_thread, b0f_close_thread, b10_change_thread, b17_return_from_exception};
use kern_layout::KernelBlock;
use kern_stay::copy_half::COPY_HALF_NODES;
use kern_stay::placing::put_listing;

/// Writes the words of the listings at their addresses. Every other word stays.
pub fn place(block: &mut KernelBlock)
    ensures { (f : ℕ → ℕ) → IsBlock block.old f → IsBlock block.new (overlaid thread_pieces f) }
{
    put_listing(
        block,
        RETURN_FROM_EXCEPTION,
        &b17_return_from_exception::NODES,
    );
    put_listing(block, OPEN_THREAD, &b0e_open_thread::NODES);
    put_listing(block, CLOSE_THREAD, &b0f_close_thread::NODES);
    put_listing(block, COPY_HALF, &COPY_HALF_NODES);
    put_listing(block, CHANGE_THREAD, &b10_change_thread::NODES);
}

/// Each listing ends where the next one begins, or before it, and all of them in the range of the calls on threads. It does nothing.
pub fn apart()
    ensures change_thread { EndsBy place.CHANGE_THREAD change_thread.NODES place.COPY_HALF }
    ensures copy_half { EndsBy place.COPY_HALF COPY_HALF_NODES place.CLOSE_THREAD }
    ensures close_thread { EndsBy place.CLOSE_THREAD close_thread.NODES place.OPEN_THREAD }
    ensures open_thread { EndsBy place.OPEN_THREAD open_thread.NODES place.RETURN_FROM_EXCEPTION }
    ensures return_from_exception { EndsBy place.RETURN_FROM_EXCEPTION return_from_exception.NODES (CACHED + THREAD_CODE.to) }
{}

/// Where the words stand, each call is served by its listing. It does nothing.
pub fn thread_serves()
    ensures { ThreadServes }
{}
