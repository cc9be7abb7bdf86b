//! Where the routine of each call stands.
use abs_kernel::CallId;
use kern_entry::places::EXIT;
use kern_event::places::{
    CLOSE_EVENT, DELIVER_EVENT, DISABLE_EVENT, ENABLE_EVENT, OPEN_EVENT, SYS_DEQ_INT_RP,
    SYS_ENQ_INT_RP, TEST_EVENT, UNDELIVER_EVENT, WAIT_EVENT,
};
use kern_file::places::{
    CLOSE, GET_LAST_ERROR, GETC, GETCHAR, GETS, OPEN, PUTC, PUTCHAR, PUTS, READ, WRITE,
};
use kern_heap::places::{CALLOC, FREE, INIT_HEAP, MALLOC, REALLOC};
use kern_mem::places::{
    BCOPY, BZERO, FLUSH_CACHE, LONGJMP, MEMCHR, MEMCMP, MEMCPY, MEMMOVE, MEMSET, RAND, SETJMP,
    SRAND,
};
use kern_printf::places::PRINTF;
use kern_text::places::{
    ABS, ATOI, STRCAT, STRCHR, STRCMP, STRCPY, STRCSPN, STRLEN, STRNCAT, STRNCMP, STRNCPY, STRPBRK,
    STRRCHR, STRSPN, STRSTR, STRTOK, STRTOL, TOLOWER, TOUPPER,
};
use kern_thread::places::{CHANGE_THREAD, CLOSE_THREAD, OPEN_THREAD, RETURN_FROM_EXCEPTION};
use kern_timer::places::{
    DISABLE_TIMER_IRQ, ENABLE_TIMER_IRQ, GET_TIMER, INIT_TIMER, RESTART_TIMER,
};

/// A call, and the address of the listing that serves it.
#[derive(Clone, Copy)]
pub struct Place {
    /// The call.
    pub call: CallId,
    /// The address, in the cached segment.
    pub at: u32,
}

/// Each call once. Numbers of one description share an address.
pub const PLACES: [Place; 86] = [
    Place {
        call: CallId::A00,
        at: OPEN,
    },
    Place {
        call: CallId::A02,
        at: READ,
    },
    Place {
        call: CallId::A03,
        at: WRITE,
    },
    Place {
        call: CallId::A04,
        at: CLOSE,
    },
    Place {
        call: CallId::A06,
        at: EXIT,
    },
    Place {
        call: CallId::A08,
        at: GETC,
    },
    Place {
        call: CallId::A09,
        at: PUTC,
    },
    Place {
        call: CallId::A0C,
        at: STRTOL,
    },
    Place {
        call: CallId::A0D,
        at: STRTOL,
    },
    Place {
        call: CallId::A0E,
        at: ABS,
    },
    Place {
        call: CallId::A0F,
        at: ABS,
    },
    Place {
        call: CallId::A10,
        at: ATOI,
    },
    Place {
        call: CallId::A11,
        at: ATOI,
    },
    Place {
        call: CallId::A13,
        at: SETJMP,
    },
    Place {
        call: CallId::A14,
        at: LONGJMP,
    },
    Place {
        call: CallId::A15,
        at: STRCAT,
    },
    Place {
        call: CallId::A16,
        at: STRNCAT,
    },
    Place {
        call: CallId::A17,
        at: STRCMP,
    },
    Place {
        call: CallId::A18,
        at: STRNCMP,
    },
    Place {
        call: CallId::A19,
        at: STRCPY,
    },
    Place {
        call: CallId::A1A,
        at: STRNCPY,
    },
    Place {
        call: CallId::A1B,
        at: STRLEN,
    },
    Place {
        call: CallId::A1C,
        at: STRCHR,
    },
    Place {
        call: CallId::A1D,
        at: STRRCHR,
    },
    Place {
        call: CallId::A1E,
        at: STRCHR,
    },
    Place {
        call: CallId::A1F,
        at: STRRCHR,
    },
    Place {
        call: CallId::A20,
        at: STRPBRK,
    },
    Place {
        call: CallId::A21,
        at: STRSPN,
    },
    Place {
        call: CallId::A22,
        at: STRCSPN,
    },
    Place {
        call: CallId::A23,
        at: STRTOK,
    },
    Place {
        call: CallId::A24,
        at: STRSTR,
    },
    Place {
        call: CallId::A25,
        at: TOUPPER,
    },
    Place {
        call: CallId::A26,
        at: TOLOWER,
    },
    Place {
        call: CallId::A27,
        at: BCOPY,
    },
    Place {
        call: CallId::A28,
        at: BZERO,
    },
    Place {
        call: CallId::A29,
        at: MEMCMP,
    },
    Place {
        call: CallId::A2A,
        at: MEMCPY,
    },
    Place {
        call: CallId::A2B,
        at: MEMSET,
    },
    Place {
        call: CallId::A2C,
        at: MEMMOVE,
    },
    Place {
        call: CallId::A2D,
        at: MEMCMP,
    },
    Place {
        call: CallId::A2E,
        at: MEMCHR,
    },
    Place {
        call: CallId::A2F,
        at: RAND,
    },
    Place {
        call: CallId::A30,
        at: SRAND,
    },
    Place {
        call: CallId::A33,
        at: MALLOC,
    },
    Place {
        call: CallId::A34,
        at: FREE,
    },
    Place {
        call: CallId::A37,
        at: CALLOC,
    },
    Place {
        call: CallId::A38,
        at: REALLOC,
    },
    Place {
        call: CallId::A39,
        at: INIT_HEAP,
    },
    Place {
        call: CallId::A3A,
        at: EXIT,
    },
    Place {
        call: CallId::A3B,
        at: GETCHAR,
    },
    Place {
        call: CallId::A3C,
        at: PUTCHAR,
    },
    Place {
        call: CallId::A3D,
        at: GETS,
    },
    Place {
        call: CallId::A3E,
        at: PUTS,
    },
    Place {
        call: CallId::A3F,
        at: PRINTF,
    },
    Place {
        call: CallId::A44,
        at: FLUSH_CACHE,
    },
    Place {
        call: CallId::B02,
        at: INIT_TIMER,
    },
    Place {
        call: CallId::B03,
        at: GET_TIMER,
    },
    Place {
        call: CallId::B04,
        at: ENABLE_TIMER_IRQ,
    },
    Place {
        call: CallId::B05,
        at: DISABLE_TIMER_IRQ,
    },
    Place {
        call: CallId::B06,
        at: RESTART_TIMER,
    },
    Place {
        call: CallId::B07,
        at: DELIVER_EVENT,
    },
    Place {
        call: CallId::B08,
        at: OPEN_EVENT,
    },
    Place {
        call: CallId::B09,
        at: CLOSE_EVENT,
    },
    Place {
        call: CallId::B0A,
        at: WAIT_EVENT,
    },
    Place {
        call: CallId::B0B,
        at: TEST_EVENT,
    },
    Place {
        call: CallId::B0C,
        at: ENABLE_EVENT,
    },
    Place {
        call: CallId::B0D,
        at: DISABLE_EVENT,
    },
    Place {
        call: CallId::B0E,
        at: OPEN_THREAD,
    },
    Place {
        call: CallId::B0F,
        at: CLOSE_THREAD,
    },
    Place {
        call: CallId::B10,
        at: CHANGE_THREAD,
    },
    Place {
        call: CallId::B17,
        at: RETURN_FROM_EXCEPTION,
    },
    Place {
        call: CallId::B20,
        at: UNDELIVER_EVENT,
    },
    Place {
        call: CallId::B32,
        at: OPEN,
    },
    Place {
        call: CallId::B34,
        at: READ,
    },
    Place {
        call: CallId::B35,
        at: WRITE,
    },
    Place {
        call: CallId::B36,
        at: CLOSE,
    },
    Place {
        call: CallId::B38,
        at: EXIT,
    },
    Place {
        call: CallId::B3A,
        at: GETC,
    },
    Place {
        call: CallId::B3B,
        at: PUTC,
    },
    Place {
        call: CallId::B3C,
        at: GETCHAR,
    },
    Place {
        call: CallId::B3D,
        at: PUTCHAR,
    },
    Place {
        call: CallId::B3E,
        at: GETS,
    },
    Place {
        call: CallId::B3F,
        at: PUTS,
    },
    Place {
        call: CallId::B54,
        at: GET_LAST_ERROR,
    },
    Place {
        call: CallId::C02,
        at: SYS_ENQ_INT_RP,
    },
    Place {
        call: CallId::C03,
        at: SYS_DEQ_INT_RP,
    },
];
