//! Where the routines stand, in the cached segment, in which the kernel runs, and the ports of the counters and of the interrupt mask, as the listings reach them.
use kern_layout::ranges::TIMER_CODE;
use kern_stay::places::CACHED;
use psx_base::ports::{COUNTERS, I_MASK};

/// The listing of init_timer.
pub const INIT_TIMER: u32 = CACHED + TIMER_CODE.from;

/// The listing of get_timer.
pub const GET_TIMER: u32 = INIT_TIMER + 0x80;

/// The listing of enable_timer_irq.
pub const ENABLE_TIMER_IRQ: u32 = GET_TIMER + 0x40;

/// The listing of disable_timer_irq.
pub const DISABLE_TIMER_IRQ: u32 = ENABLE_TIMER_IRQ + 0x80;

/// The listing of restart_timer.
pub const RESTART_TIMER: u32 = DISABLE_TIMER_IRQ + 0x80;

/// How many counters there are.
pub const COUNTER_COUNT: u16 = 3;

/// The number that stands for VBLANK.
pub const BLANK: u16 = COUNTER_COUNT;

/// The line of VBLANK.
pub const BLANK_LINE: u16 = 0;

/// The line of counter 0, behind which those of the others come.
pub const COUNTER_LINES: u16 = 4;

/// The mode of the flags 0. Flag 4 makes it 1h more, flag 12 makes it 10h more, and flag 0 makes it 100h less.
pub const PLAIN_MODE: u16 = 0x148;

/// The upper half of the ports' addresses.
pub const PORTS: u16 = (COUNTERS / 0x1_0000) as u16;

/// The lower half of the port of counter 0's value. The ports of counter t stand 10h * t behind.
pub const VALUES: u16 = (COUNTERS % 0x1_0000) as u16;

/// That of its mode.
pub const MODES: u16 = VALUES + 4;

/// That of its target.
pub const TARGETS: u16 = VALUES + 8;

/// That of the interrupt mask.
pub const MASK: u16 = (I_MASK % 0x1_0000) as u16;
