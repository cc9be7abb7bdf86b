//! The words of the crate in the kernel's block.
ghost use Rattle.std.specs.Prelude.{ℕ, ◌+◌};
ghost use Rattle.kern_layout.specs.BlockWords.{IsBlock};
ghost use Rattle.kern_layout.specs.declared.ranges.TheConstants.{HEAP_CODE};
ghost use Rattle.kern_stay.specs.Words.{overlaid, EndsBy};
ghost use Rattle.kern_stay.specs.declared.places.TheConstants.{CACHED};
ghost use Rattle.kern_stay.specs.declared.room.TheConstants.{ROOM_NODES};
ghost use Rattle.kern_heap.specs.declared.places.TheConstants as place;
ghost use Rattle.kern_heap.specs.declared.a33_malloc.TheConstants as malloc;
ghost use Rattle.kern_heap.specs.declared.a34_free.TheConstants as free;
ghost use Rattle.kern_heap.specs.declared.a37_calloc.TheConstants as calloc;
ghost use Rattle.kern_heap.specs.declared.a38_realloc.TheConstants as realloc;
ghost use Rattle.kern_heap.specs.declared.a39_init_heap.TheConstants as init_heap;
ghost use Rattle.kern_heap.specs.declared.allot.TheConstants.{ALLOT_NODES};
ghost use Rattle.kern_heap.specs.declared.release.TheConstants.{RELEASE_NODES};
ghost use Rattle.kern_heap.specs.declared.find.TheConstants.{FIND_NODES};
ghost use Rattle.kern_heap.specs.declared.join.TheConstants.{JOIN_NODES};
ghost use Rattle.kern_heap.specs.HeapWords.{heap_pieces};
ghost use Rattle.kern_heap.specs.HeapLaws.{HeapServes};

use crate::allot::ALLOT_NODES;
use crate::find::FIND_NODES;
use crate::join::JOIN_NODES;
use crate::places::{ALLOT, CALLOC, FIND, FREE, INIT_HEAP, JOIN, MALLOC, REALLOC, RELEASE, ROOM};
use crate::release::RELEASE_NODES;
use crate::{a33_malloc, a34_free, a37_calloc, a38_realloc, a39_init_heap};
use kern_layout::KernelBlock;
use kern_stay::placing::put_listing;
use kern_stay::room::ROOM_NODES;

/// Writes the words of the listings at their addresses. Every other word stays.
pub fn place(block: &mut KernelBlock)
    ensures { (f : ℕ → ℕ) → IsBlock block.old f → IsBlock block.new (overlaid heap_pieces f) }
{
    put_listing(block, ROOM, &ROOM_NODES);
    put_listing(block, JOIN, &JOIN_NODES);
    put_listing(block, FIND, &FIND_NODES);
    put_listing(block, RELEASE, &RELEASE_NODES);
    put_listing(block, ALLOT, &ALLOT_NODES);
    put_listing(block, INIT_HEAP, &a39_init_heap::NODES);
    put_listing(block, REALLOC, &a38_realloc::NODES);
    put_listing(block, CALLOC, &a37_calloc::NODES);
    put_listing(block, FREE, &a34_free::NODES);
    put_listing(block, MALLOC, &a33_malloc::NODES);
}

/// Each listing ends where the next one begins, or before it, and all of them in the range of the heap calls. It does nothing.
pub fn apart()
    ensures malloc { EndsBy place.MALLOC malloc.NODES place.FREE }
    ensures free { EndsBy place.FREE free.NODES place.CALLOC }
    ensures calloc { EndsBy place.CALLOC calloc.NODES place.REALLOC }
    ensures realloc { EndsBy place.REALLOC realloc.NODES place.INIT_HEAP }
    ensures init_heap { EndsBy place.INIT_HEAP init_heap.NODES place.ALLOT }
    ensures allot { EndsBy place.ALLOT ALLOT_NODES place.RELEASE }
    ensures release { EndsBy place.RELEASE RELEASE_NODES place.FIND }
    ensures find { EndsBy place.FIND FIND_NODES place.JOIN }
    ensures join { EndsBy place.JOIN JOIN_NODES place.ROOM }
    ensures room { EndsBy place.ROOM ROOM_NODES (CACHED + HEAP_CODE.to) }
{}

/// Where the words stand, each call is served by its listing. It does nothing.
pub fn heap_serves()
    ensures { HeapServes }
{}
