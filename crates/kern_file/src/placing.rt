//! The words of the crate in the kernel's block.
ghost use Rattle.std.specs.Prelude.{ℕ, ◌+◌};
ghost use Rattle.kern_layout.specs.BlockWords.{IsBlock};
ghost use Rattle.kern_layout.specs.declared.ranges.TheConstants.{FILE_CODE};
ghost use Rattle.kern_stay.specs.Words.{overlaid, EndsBy};
ghost use Rattle.kern_stay.specs.declared.places.TheConstants.{CACHED};
ghost use Rattle.kern_stay.specs.declared.room.TheConstants.{ROOM_NODES};
ghost use Rattle.kern_file.specs.declared.places.TheConstants as place;
ghost use Rattle.kern_file.specs.declared.a3c_putchar.TheConstants as putchar;
ghost use Rattle.kern_file.specs.declared.a3b_getchar.TheConstants as getchar;
ghost use Rattle.kern_file.specs.declared.a08_getc.TheConstants as getc;
ghost use Rattle.kern_file.specs.declared.a02_read.TheConstants as read;
ghost use Rattle.kern_file.specs.declared.a3d_gets.TheConstants as gets;
ghost use Rattle.kern_file.specs.declared.a3e_puts.TheConstants as puts;
ghost use Rattle.kern_file.specs.declared.b54_get_last_error.TheConstants as get_last_error;
ghost use Rattle.kern_file.specs.declared.a09_putc.TheConstants as putc;
ghost use Rattle.kern_file.specs.declared.a04_close.TheConstants as close;
ghost use Rattle.kern_file.specs.declared.a03_write.TheConstants as write;
ghost use Rattle.kern_file.specs.declared.a00_open.TheConstants as open_file;
ghost use Rattle.kern_file.specs.FileWords.{file_pieces};
ghost use Rattle.kern_file.specs.FileLaws.{FileServes};

use crate::places::{
    CLOSE, GET_LAST_ERROR, GETC, GETCHAR, GETS, GETS_LOOP, OPEN, PUTC, PUTCHAR, PUTS, PUTS_LOOP,
    READ, READ_LOOP, ROOM, WRITE, WRITE_LOOP,
};
use crate::{
    a00_open, a02_read, a03_write, a3b_getchar, a3c_putchar, a3d_gets, a3e_puts, a04_close,
    a08_getc, a09_putc, b54_get_last_error,
};
use kern_layout::KernelBlock;
use kern_stay::placing::put_listing;
use kern_stay::room::ROOM_NODES;

/// Writes the words of the listings at their addresses. Every other word stays.
pub fn place(block: &mut KernelBlock)
    ensures { (f : ℕ → ℕ) → IsBlock block.old f → IsBlock block.new (overlaid file_pieces f) }
{
    put_listing(block, GETS_LOOP, &a3d_gets::LOOP_NODES);
    put_listing(block, GETS, &a3d_gets::NODES);
    put_listing(block, READ_LOOP, &a02_read::LOOP_NODES);
    put_listing(block, READ, &a02_read::NODES);
    put_listing(block, GETC, &a08_getc::NODES);
    put_listing(block, GETCHAR, &a3b_getchar::NODES);
    put_listing(block, OPEN, &a00_open::NODES);
    put_listing(block, WRITE_LOOP, &a03_write::LOOP_NODES);
    put_listing(block, WRITE, &a03_write::NODES);
    put_listing(block, CLOSE, &a04_close::NODES);
    put_listing(block, PUTC, &a09_putc::NODES);
    put_listing(block, GET_LAST_ERROR, &b54_get_last_error::NODES);
    put_listing(block, PUTCHAR, &a3c_putchar::NODES);
    put_listing(block, ROOM, &ROOM_NODES);
    put_listing(block, PUTS_LOOP, &a3e_puts::LOOP_NODES);
    put_listing(block, PUTS, &a3e_puts::NODES);
}

/// Each listing ends where the next one begins, or before it, and all of them in the range of the file calls. It does nothing.
pub fn apart()
    ensures puts { EndsBy place.PUTS puts.NODES place.PUTS_LOOP }
    ensures puts_loop { EndsBy place.PUTS_LOOP puts.LOOP_NODES place.ROOM }
    ensures room { EndsBy place.ROOM ROOM_NODES place.PUTCHAR }
    ensures putchar { EndsBy place.PUTCHAR putchar.NODES place.GET_LAST_ERROR }
    ensures get_last_error { EndsBy place.GET_LAST_ERROR get_last_error.NODES place.PUTC }
    ensures putc { EndsBy place.PUTC putc.NODES place.CLOSE }
    ensures close { EndsBy place.CLOSE close.NODES place.WRITE }
    ensures write { EndsBy place.WRITE write.NODES place.WRITE_LOOP }
    ensures write_loop { EndsBy place.WRITE_LOOP write.LOOP_NODES place.OPEN }
    ensures open_file { EndsBy place.OPEN open_file.NODES place.GETCHAR }
    ensures getchar { EndsBy place.GETCHAR getchar.NODES place.GETC }
    ensures getc { EndsBy place.GETC getc.NODES place.READ }
    ensures read { EndsBy place.READ read.NODES place.READ_LOOP }
    ensures read_loop { EndsBy place.READ_LOOP read.LOOP_NODES place.GETS }
    ensures gets { EndsBy place.GETS gets.NODES place.GETS_LOOP }
    ensures gets_loop { EndsBy place.GETS_LOOP gets.LOOP_NODES (CACHED + FILE_CODE.to) }
{}

/// Where the words stand, each call is served by its listing. It does nothing.
pub fn file_serves()
    ensures { FileServes }
{}
