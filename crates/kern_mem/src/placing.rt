//! The words of the crate in the kernel's block.
ghost use Rattle.std.specs.Prelude.{ℕ, ◌+◌};
ghost use Rattle.kern_layout.specs.BlockWords.{IsBlock};
ghost use Rattle.kern_layout.specs.declared.ranges.TheConstants.{MEMORY_CODE};
ghost use Rattle.kern_stay.specs.Words.{overlaid, EndsBy};
ghost use Rattle.kern_stay.specs.declared.places.TheConstants.{CACHED};
ghost use Rattle.kern_stay.specs.declared.room.TheConstants.{ROOM_NODES};
ghost use Rattle.kern_mem.specs.declared.places.TheConstants as place;
ghost use Rattle.kern_mem.specs.declared.a2b_memset.TheConstants as memset;
ghost use Rattle.kern_mem.specs.declared.a2e_memchr.TheConstants as memchr;
ghost use Rattle.kern_mem.specs.declared.a2f_rand.TheConstants as rand;
ghost use Rattle.kern_mem.specs.declared.a30_srand.TheConstants as srand;
ghost use Rattle.kern_mem.specs.declared.a2a_memcpy.TheConstants as memcpy;
ghost use Rattle.kern_mem.specs.declared.a2d_memcmp.TheConstants as memcmp;
ghost use Rattle.kern_mem.specs.declared.a2c_memmove.TheConstants as memmove;
ghost use Rattle.kern_mem.specs.declared.a13_setjmp.TheConstants as setjmp;
ghost use Rattle.kern_mem.specs.declared.a14_longjmp.TheConstants as longjmp;
ghost use Rattle.kern_mem.specs.declared.a44_flush_cache.TheConstants as flush_cache;
ghost use Rattle.kern_mem.specs.MemWords.{mem_pieces};
ghost use Rattle.kern_mem.specs.MemLaws.{MemServes};

use crate::places::{
    BCOPY, BZERO, FLUSH_CACHE, LONGJMP, MEMCHR, MEMCMP, MEMCPY, MEMMOVE, MEMSET, RAND, ROOM,
    SETJMP, SRAND,
};
use crate::{
    a2a_memcpy, a2b_memset, a2c_memmove, a2d_memcmp, a2e_memchr, a2f_rand, a13_setjmp, a14_longjmp,
    a30_srand, a44_flush_cache,
};
use kern_layout::KernelBlock;
use kern_stay::placing::put_listing;
use kern_stay::room::ROOM_NODES;

/// Writes the words of the listings at their addresses. Every other word stays.
pub fn place(block: &mut KernelBlock)
    ensures { (f : ℕ → ℕ) → IsBlock block.old f → IsBlock block.new (overlaid mem_pieces f) }
{
    put_listing(block, FLUSH_CACHE, &a44_flush_cache::NODES);
    put_listing(block, LONGJMP, &a14_longjmp::NODES);
    put_listing(block, SETJMP, &a13_setjmp::NODES);
    put_listing(block, BZERO, &a2b_memset::BZERO_NODES);
    put_listing(block, BCOPY, &a2a_memcpy::BCOPY_NODES);
    put_listing(block, MEMMOVE, &a2c_memmove::NODES);
    put_listing(block, MEMCMP, &a2d_memcmp::NODES);
    put_listing(block, MEMCPY, &a2a_memcpy::NODES);
    put_listing(block, ROOM, &ROOM_NODES);
    put_listing(block, SRAND, &a30_srand::NODES);
    put_listing(block, RAND, &a2f_rand::NODES);
    put_listing(block, MEMCHR, &a2e_memchr::NODES);
    put_listing(block, MEMSET, &a2b_memset::NODES);
}

/// Each listing ends where the next one begins, or before it, and all of them in the range of the memory calls. It does nothing.
pub fn apart()
    ensures memset { EndsBy place.MEMSET memset.NODES place.MEMCHR }
    ensures memchr { EndsBy place.MEMCHR memchr.NODES place.RAND }
    ensures rand { EndsBy place.RAND rand.NODES place.SRAND }
    ensures srand { EndsBy place.SRAND srand.NODES place.ROOM }
    ensures room { EndsBy place.ROOM ROOM_NODES place.MEMCPY }
    ensures memcpy { EndsBy place.MEMCPY memcpy.NODES place.MEMCMP }
    ensures memcmp { EndsBy place.MEMCMP memcmp.NODES place.MEMMOVE }
    ensures memmove { EndsBy place.MEMMOVE memmove.NODES place.BCOPY }
    ensures bcopy { EndsBy place.BCOPY memcpy.BCOPY_NODES place.BZERO }
    ensures bzero { EndsBy place.BZERO memset.BZERO_NODES place.SETJMP }
    ensures setjmp { EndsBy place.SETJMP setjmp.NODES place.LONGJMP }
    ensures longjmp { EndsBy place.LONGJMP longjmp.NODES place.FLUSH_CACHE }
    ensures flush_cache { EndsBy place.FLUSH_CACHE flush_cache.NODES (CACHED + MEMORY_CODE.to) }
{}

/// Where the words stand, each call is served by its listing. It does nothing.
pub fn mem_serves()
    ensures { MemServes }
{}
