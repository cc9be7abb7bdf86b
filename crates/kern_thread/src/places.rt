//! Where the routines stand, in the cached segment, in which the kernel runs, and the kernel's data as the listings reach it.
use kern_layout::places::{
    CURRENT, FRAME_COUNT, FRAME_ELEMENT_COUNT, FRAME_KIND, FRAME_LINE_COUNT, NEXT as NEXT_PLACE,
    SAVED_REGISTERS, THREAD_COUNT, THREAD_FREE, THREAD_USED, WORK_AREA,
};
use kern_layout::ranges::{FRAMES as FRAMES_RANGE, THREAD_CODE, THREADS};
use kern_stay::places::CACHED;

/// The listing of ChangeThread.
pub const CHANGE_THREAD: u32 = CACHED + THREAD_CODE.from;

/// The listing that copies half a context.
pub const COPY_HALF: u32 = CHANGE_THREAD + 0x100;

/// The listing of CloseThread.
pub const CLOSE_THREAD: u32 = COPY_HALF + 0xC0;

/// The listing of OpenThread.
pub const OPEN_THREAD: u32 = CLOSE_THREAD + 0x80;

/// The listing of ReturnFromException.
pub const RETURN_FROM_EXCEPTION: u32 = OPEN_THREAD + 0x100;

/// The upper half of the handles.
pub const HANDLES: u16 = 0xFF00;

/// The status of a free slot.
pub const FREE: u16 = THREAD_FREE as u16;

/// The status of a used slot.
pub const USED: u16 = THREAD_USED as u16;

/// How many threads there are.
pub const COUNT: u16 = THREAD_COUNT as u16;

/// The thread to take up later: its number and 1 more.
pub const NEXT: u16 = NEXT_PLACE as u16;

/// How many frames there are.
pub const FRAMES: u16 = FRAME_COUNT as u16;

/// The upper half of the data's addresses, 1 more since the lower half counts as negative.
pub const DATA: u16 = 0x8001;

/// The lower half of the first thread's block.
pub const BLOCKS: u16 = THREADS.from as u16;

/// The running thread's number.
pub const RUNNING: u16 = CURRENT as u16;

/// The work area's place of r2.
pub const AREA_R2: u16 = (WORK_AREA + 0x10) as u16;

/// That of r31.
pub const AREA_R31: u16 = (WORK_AREA + 0x84) as u16;

/// That of the address at which the context goes on.
pub const AREA_PC: u16 = (WORK_AREA + 0x88) as u16;

/// Where the words of a context begin, in the work area.
pub const AREA_CONTEXT: u16 = (WORK_AREA + 0xC) as u16;

/// The lower half of the first frame.
pub const FRAME_BLOCKS: u16 = FRAMES_RANGE.from as u16;

/// In a frame: where the words of a context begin.
pub const CONTEXT: u16 = SAVED_REGISTERS as u16 + 4;

/// The work area's place of the kind by which its tasks begin.
pub const AREA_KIND: u16 = (WORK_AREA + FRAME_KIND) as u16;

/// That of the number of its elements.
pub const AREA_ELEMENT_COUNT: u16 = (WORK_AREA + FRAME_ELEMENT_COUNT) as u16;

/// That of the number of its lines.
pub const AREA_LINE_COUNT: u16 = (WORK_AREA + FRAME_LINE_COUNT) as u16;
