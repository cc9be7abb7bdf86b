//! The frames, the threads' blocks and their variables, and the tasks of the work area, as the listings reach them: from a register that holds the upper half of an address, by the lower half.
use kern_layout::places::{
    CURRENT, FRAME_BLOCKS, FRAME_COUNT, FRAME_ELEMENT_COUNT, FRAME_ELEMENTS, NEXT as NEXT_PLACE,
    SAVED_REGISTERS, THREAD_USED, WORK_AREA,
};
use kern_layout::ranges::{FRAMES as FRAMES_RANGE, THREADS as THREADS_RANGE};

/// The upper half of the addresses, 1 more since the lower half counts as negative.
pub const DATA: u16 = 0x8001;

/// How many frames there are.
pub const COUNT: u16 = FRAME_COUNT as u16;

/// How many there is room for.
pub const MOST: u16 = FRAME_BLOCKS as u16;

/// The lower half of the first frame.
pub const FRAMES: u16 = FRAMES_RANGE.from as u16;

/// In a frame, and in a thread's block: where the words of a context begin.
pub const CONTEXT: u16 = SAVED_REGISTERS as u16 + 4;

/// In a frame: the elements that are left.
pub const ELEMENTS: u16 = FRAME_ELEMENTS as u16;

/// Where the words of a context begin in the work area.
pub const AREA_CONTEXT: u16 = (WORK_AREA + SAVED_REGISTERS) as u16 + 4;

/// Where the work area has the number of its elements.
pub const AREA_ELEMENT_COUNT: u16 = (WORK_AREA + FRAME_ELEMENT_COUNT) as u16;

/// Where the work area has its elements.
pub const AREA_ELEMENTS: u16 = (WORK_AREA + FRAME_ELEMENTS) as u16;

/// The running thread's number.
pub const RUNNING: u16 = CURRENT as u16;

/// The number, and 1 more, of the thread to take up when the last frame has gone.
pub const NEXT: u16 = NEXT_PLACE as u16;

/// The lower half of the first thread's block.
pub const THREADS: u16 = THREADS_RANGE.from as u16;

/// The status of a used thread.
pub const USED: u16 = THREAD_USED as u16;
