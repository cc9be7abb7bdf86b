//! The tasks in the work area and the events, as the listings of tasks reach them: from a register that holds the upper half of an address, by the lower half, or from an event's block.
use kern_layout::places::{
    EVENT_BUSY, EVENT_CLASS, EVENT_COUNT, EVENT_FUNCTION, EVENT_MODE, EVENT_READY,
    EVENT_SIZE as BLOCK_SIZE, EVENT_SPEC, EVENT_STATUS, FRAME_ELEMENT_COUNT, FRAME_ELEMENTS,
    FRAME_EVENT, FRAME_FIRST, FRAME_KIND, FRAME_LINE_COUNT, FRAME_LINES, FRAME_SPEC,
    KIND_SCAN as SCAN_KIND, KIND_SECOND as SECOND_KIND, WORK_AREA,
};
use kern_layout::ranges::EVENTS;
use psx_base::ports::I_STAT;

/// The upper half of the data's addresses in the cached segment, 1 more since the lower half counts as negative.
pub const DATA: u16 = 0x8001;

/// By what the tasks begin.
pub const KIND: u16 = (WORK_AREA + FRAME_KIND) as u16;

/// The element of a second function, or the class of a scan.
pub const FIRST: u16 = (WORK_AREA + FRAME_FIRST) as u16;

/// The spec of a scan.
pub const SPEC: u16 = (WORK_AREA + FRAME_SPEC) as u16;

/// The event's number from which a scan goes on.
pub const EVENT: u16 = (WORK_AREA + FRAME_EVENT) as u16;

/// How many elements are left.
pub const ELEMENT_COUNT: u16 = (WORK_AREA + FRAME_ELEMENT_COUNT) as u16;

/// How many lines are left.
pub const LINE_COUNT: u16 = (WORK_AREA + FRAME_LINE_COUNT) as u16;

/// The lines that are left.
pub const LINES: u16 = (WORK_AREA + FRAME_LINES) as u16;

/// The elements that are left.
pub const ELEMENTS: u16 = (WORK_AREA + FRAME_ELEMENTS) as u16;

/// The kind of a second function.
pub const KIND_SECOND: u16 = SECOND_KIND as u16;

/// The kind of a scan.
pub const KIND_SCAN: u16 = SCAN_KIND as u16;

/// In an element: the second function.
pub const ELEMENT_SECOND: u16 = 4;

/// In an element: the first function.
pub const ELEMENT_FIRST: u16 = 8;

/// How many events there are.
pub const COUNT: u16 = EVENT_COUNT as u16;

/// The first event's block.
pub const BLOCKS: u16 = EVENTS.from as u16;

/// The bytes of an event's block.
pub const EVENT_SIZE: u16 = BLOCK_SIZE as u16;

/// In an event's block: the class.
pub const CLASS: u16 = EVENT_CLASS as u16;

/// From the end of an event's block: the status.
pub const BACK_TO_STATUS: u16 = (0x1_0000 + EVENT_STATUS - BLOCK_SIZE) as u16;

/// From the end of an event's block: the spec.
pub const BACK_TO_SPEC: u16 = (0x1_0000 + EVENT_SPEC - BLOCK_SIZE) as u16;

/// From the end of an event's block: the mode.
pub const BACK_TO_MODE: u16 = (0x1_0000 + EVENT_MODE - BLOCK_SIZE) as u16;

/// From the end of an event's block: the function.
pub const BACK_TO_FUNCTION: u16 = (0x1_0000 + EVENT_FUNCTION - BLOCK_SIZE) as u16;

/// The status of an event that is waited for, and the mode of one that a delivery makes ready.
pub const BUSY: u16 = EVENT_BUSY as u16;

/// The status of an event that came.
pub const READY: u16 = EVENT_READY as u16;

/// The mode of an event whose function a delivery calls.
pub const CALLING: u16 = 0x1000;

/// The lower half of I_STAT.
pub const LINES_PORT: u16 = (I_STAT % 0x1_0000) as u16;

/// The upper half of the classes of lines.
pub const LINE_CLASSES: u16 = 0xF200;

/// The spec of the events of lines.
pub const LINE_SPEC: u16 = 2;

/// The upper half of the class of events that a SYSCALL delivers.
pub const SYSCALL_CLASSES: u16 = 0xF000;

/// The lower half of that class.
pub const SYSCALL_CLASS: u16 = 0x10;

/// Their spec.
pub const SYSCALL_SPEC: u16 = 0x4000;
