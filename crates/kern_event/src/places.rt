//! Where the routines stand, in the cached segment, in which the kernel runs, and the kernel's data as the listings reach it.
use kern_layout::places::{
    CHAIN_ELEMENTS, EVENT_BUSY, EVENT_COUNT, EVENT_DISABLED, EVENT_FREE, EVENT_READY, EVENT_STATUS,
    FRAME_ELEMENT_COUNT, FRAME_EVENT, FRAME_FIRST, FRAME_KIND, FRAME_LINE_COUNT, FRAME_SPEC,
    KIND_SCAN, SAVED_PC, SAVED_REGISTERS, WORK_AREA,
};
use kern_layout::ranges::{CHAINS as CHAINS_RANGE, EVENT_CODE, EVENTS};
use kern_stay::places::CACHED;

/// The listing of OpenEvent.
pub const OPEN_EVENT: u32 = CACHED + EVENT_CODE.from;

/// The listing of CloseEvent.
pub const CLOSE_EVENT: u32 = OPEN_EVENT + 0x80;

/// The listing of EnableEvent.
pub const ENABLE_EVENT: u32 = CLOSE_EVENT + 0x80;

/// The listing of DisableEvent.
pub const DISABLE_EVENT: u32 = ENABLE_EVENT + 0x80;

/// The listing of TestEvent.
pub const TEST_EVENT: u32 = DISABLE_EVENT + 0x80;

/// The listing of WaitEvent.
pub const WAIT_EVENT: u32 = TEST_EVENT + 0x80;

/// The listing of UnDeliverEvent.
pub const UNDELIVER_EVENT: u32 = WAIT_EVENT + 0x80;

/// The listing that counts how many bytes from an address on are user memory.
pub const ROOM: u32 = UNDELIVER_EVENT + 0xC0;

/// The listing of SysEnqIntRP.
pub const SYS_ENQ_INT_RP: u32 = ROOM + 0xC0;

/// The listing of SysDeqIntRP.
pub const SYS_DEQ_INT_RP: u32 = SYS_ENQ_INT_RP + 0xC0;

/// The listing of DeliverEvent.
pub const DELIVER_EVENT: u32 = SYS_DEQ_INT_RP + 0xC0;

/// The upper half of the handles.
pub const HANDLES: u16 = 0xF100;

/// The status of a free event.
pub const FREE: u16 = EVENT_FREE as u16;

/// The status of a disabled event.
pub const DISABLED: u16 = EVENT_DISABLED as u16;

/// The status of a busy event.
pub const BUSY: u16 = EVENT_BUSY as u16;

/// The status of a ready event.
pub const READY: u16 = EVENT_READY as u16;

/// The mode of an event that a delivery makes ready.
pub const MARKED: u16 = 0x2000;

/// How many events there are.
pub const COUNT: u16 = EVENT_COUNT as u16;

/// The upper half of the data's addresses, 1 more since the lower half counts as negative.
pub const DATA: u16 = 0x8001;

/// The lower half of the first event's block.
pub const BLOCKS: u16 = EVENTS.from as u16;

/// That of its status.
pub const STATUSES: u16 = (EVENTS.from + EVENT_STATUS) as u16;

/// That of the first chain's block, where its count stands.
pub const CHAINS: u16 = CHAINS_RANGE.from as u16;

/// That of its elements.
pub const ELEMENTS: u16 = (CHAINS_RANGE.from + CHAIN_ELEMENTS) as u16;

/// How many chains there are.
pub const CHAIN_COUNT: u16 = 4;

/// How many elements a chain may have.
pub const MOST_ELEMENTS: u16 = 8;

/// The lower half of r2's place in the work area.
pub const ANSWER: u16 = (WORK_AREA + SAVED_REGISTERS + 4 * 2) as u16;

/// That of r31's.
pub const CALLER: u16 = (WORK_AREA + SAVED_REGISTERS + 4 * 31) as u16;

/// That of the address at which the context goes on.
pub const GOES_ON: u16 = (WORK_AREA + SAVED_PC) as u16;

/// That of the kind of its task.
pub const TASK_KIND: u16 = (WORK_AREA + FRAME_KIND) as u16;

/// That of the class of a scan.
pub const TASK_CLASS: u16 = (WORK_AREA + FRAME_FIRST) as u16;

/// That of its spec.
pub const TASK_SPEC: u16 = (WORK_AREA + FRAME_SPEC) as u16;

/// That of the number of the event from which it goes on.
pub const TASK_EVENT: u16 = (WORK_AREA + FRAME_EVENT) as u16;

/// That of the number of elements.
pub const ELEMENT_COUNT: u16 = (WORK_AREA + FRAME_ELEMENT_COUNT) as u16;

/// That of the number of lines.
pub const LINE_COUNT: u16 = (WORK_AREA + FRAME_LINE_COUNT) as u16;

/// The kind of a scan.
pub const SCAN: u16 = KIND_SCAN as u16;
