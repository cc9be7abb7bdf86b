//! The calls by their tables and numbers (PSX-SPX, Kernel (BIOS), function summary).
ghost use Rattle.std.specs.Prelude.{◌≡◌, IsTrue};
ghost use Rattle.abs_kernel.specs.CallTable;

use psx_base::Table;

/// A call that is served, by its table's letter and the two digits of its number.
#[derive(Clone, Copy, PartialEq, Eq, Debug)]
pub enum CallId {
    /// open(name, mode): opens a file, and answers its number.
    A00,
    /// read(f, p, n): waits for bytes of a file, writes at most n, and answers how many came.
    A02,
    /// write(f, p, n): writes n bytes to a file, and answers n.
    A03,
    /// close(f): closes a file, and answers its number.
    A04,
    /// exit(code): the program ends with a code.
    A06,
    /// getc(f): waits for a byte of a file, and answers it.
    A08,
    /// putc(c, f): writes the low byte to a file, and answers it.
    A09,
    /// strtoul(s, end, base): the same as strtol.
    A0C,
    /// strtol(s, end, base): the number that s begins with; where end isn't 0, the address of the rest is written there.
    A0D,
    /// abs(a): a without its sign.
    A0E,
    /// labs(a): the same as abs.
    A0F,
    /// atoi(s): the decimal number that s begins with.
    A10,
    /// atol(s): the same as atoi.
    A11,
    /// setjmp(buf): writes the registers that longjmp brings back, and answers 0.
    A13,
    /// longjmp(buf, v): goes on where setjmp returned to, with v as the answer.
    A14,
    /// strcat(d, s): copies s with its zero to where d's zero is, and answers d.
    A15,
    /// strncat(d, s, n): copies at most n bytes of s to where d's zero is, then writes a zero, and answers d.
    A16,
    /// strcmp(a, b): the difference of the first bytes that differ, or 0.
    A17,
    /// strncmp(a, b, n): the same of the first n bytes.
    A18,
    /// strcpy(d, s): copies s with its zero, and answers d.
    A19,
    /// strncpy(d, s, n): writes n bytes, those of s before its zero and then zeros, and answers d.
    A1A,
    /// strlen(s): the number of bytes before the zero.
    A1B,
    /// index(s, c): the address of the first byte that is c, or 0.
    A1C,
    /// rindex(s, c): the address of the last byte that is c, or 0.
    A1D,
    /// strchr(s, c): the same as index.
    A1E,
    /// strrchr(s, c): the same as rindex.
    A1F,
    /// strpbrk(s, set): the address of the first byte of s in set, or 0.
    A20,
    /// strspn(s, set): the length of the run of bytes in set that s begins with.
    A21,
    /// strcspn(s, set): that of the run of bytes that aren't in set.
    A22,
    /// strtok(s, set): the next token, the run of bytes that aren't in set.
    A23,
    /// strstr(s, t): the address of the first place in s where the text t stands, or 0.
    A24,
    /// toupper(c): the low byte, a small letter as its capital.
    A25,
    /// tolower(c): the low byte, a capital as its small letter.
    A26,
    /// bcopy(s, d, n): copies n bytes as memcpy does, and answers d.
    A27,
    /// bzero(d, n): writes n zeros, and answers d.
    A28,
    /// bcmp(a, b, n): the difference of the first of n bytes that differ, or 0.
    A29,
    /// memcpy(d, s, n): copies n bytes, and answers d.
    A2A,
    /// memset(d, c, n): writes a byte n times, and answers d.
    A2B,
    /// memmove(d, s, n): copies n bytes as they were before, and answers d.
    A2C,
    /// memcmp(a, b, n): the same as bcmp.
    A2D,
    /// memchr(s, c, n): the address of the first of n bytes that is c, or 0.
    A2E,
    /// rand(): the next random number.
    A2F,
    /// srand(x): sets the random state.
    A30,
    /// malloc(n): the address of a block of n bytes, or 0.
    A33,
    /// free(p): the block at p is free.
    A34,
    /// calloc(a, b): as malloc of a * b bytes, which become 0.
    A37,
    /// realloc(p, n): a block of n bytes for the one at p, with its bytes, or 0.
    A38,
    /// InitHeap(p, n): the heap is the n bytes from p on, and all of it is free.
    A39,
    /// _exit(code): the same.
    A3A,
    /// getchar(): waits for a byte of the console, and answers it.
    A3B,
    /// putchar(c): writes the low byte to the console, and answers it.
    A3C,
    /// gets(p): waits for a line of the console, writes it, and answers p.
    A3D,
    /// puts(s): writes a text to the console, and answers 0.
    A3E,
    /// printf(format, ..): the format is written with its arguments, and the answer is how many bytes were written.
    A3F,
    /// FlushCache(): nothing, since there is no cache.
    A44,
    /// init_timer(t, target, flags): counter t begins at 0 with a target and a mode, and the answer is 1, or 0 where t is above 2.
    B02,
    /// get_timer(t): the counter's value, or 0 where t is above 2.
    B03,
    /// enable_timer_irq(t): the counter's interrupts, or VBLANK's for 3, are let through, and the answer is 1, or 0 where t is above 3.
    B04,
    /// disable_timer_irq(t): they are masked, and the answer is the same.
    B05,
    /// restart_timer(t): the counter begins at 0 again, and the answer is 1, or 0 where t is above 2.
    B06,
    /// DeliverEvent(class, spec): the busy events of a class and spec become ready, or their functions are called.
    B07,
    /// OpenEvent(class, spec, mode, function): an event's handle, or -1 where no slot is free.
    B08,
    /// CloseEvent(h): frees the event's slot, and answers 1.
    B09,
    /// WaitEvent(h): waits while the event is busy, and answers 1 where it is ready, else 0.
    B0A,
    /// TestEvent(h): 1 where the event is ready, which makes it busy, else 0.
    B0B,
    /// EnableEvent(h): makes the event busy, and answers 1.
    B0C,
    /// DisableEvent(h): disables the event, and answers 1.
    B0D,
    /// OpenThread(pc, sp, gp): a thread's handle, or -1 where no slot is left.
    B0E,
    /// CloseThread(h): frees the thread's slot, and answers 1.
    B0F,
    /// ChangeThread(h): the thread goes on, and the caller where it is taken up again, with the answer 1.
    B10,
    /// ReturnFromException(): the innermost function that the kernel has called is left, and what it was called in goes on.
    B17,
    /// UnDeliverEvent(class, spec): ready events of a class and spec become busy, where a delivery marks them.
    B20,
    /// open(name, mode), in table B.
    B32,
    /// read(f, p, n), in table B.
    B34,
    /// write(f, p, n), in table B.
    B35,
    /// close(f), in table B.
    B36,
    /// exit(code), in table B.
    B38,
    /// getc(f), in table B.
    B3A,
    /// putc(c, f), in table B.
    B3B,
    /// getchar(), in table B.
    B3C,
    /// putchar(c), in table B.
    B3D,
    /// gets(p), in table B.
    B3E,
    /// puts(s), in table B.
    B3F,
    /// GetLastError(): the last errno.
    B54,
    /// SysEnqIntRP(p, e): the element at e becomes the head of chain p, and the answer is 0, or -1 where no room is.
    C02,
    /// SysDeqIntRP(p, e): takes the first element that is e out of chain p, and answers 0, or -1 where none is.
    C03,
}

/// A row of the calls: its table, its number in r9, the call, how many arguments it takes, and its name.
pub type Row = (Table, u32, CallId, u32, &'static str);

/// The calls that are served, by table and number. A call stands here and nowhere else: what a number means, a call's arguments and its name are read from this list.
pub const ROWS: [Row; 86] = [
    (Table::A, 0x00, CallId::A00, 2, "open"),
    (Table::A, 0x02, CallId::A02, 3, "read"),
    (Table::A, 0x03, CallId::A03, 3, "write"),
    (Table::A, 0x04, CallId::A04, 1, "close"),
    (Table::A, 0x06, CallId::A06, 1, "exit"),
    (Table::A, 0x08, CallId::A08, 1, "getc"),
    (Table::A, 0x09, CallId::A09, 2, "putc"),
    (Table::A, 0x0C, CallId::A0C, 3, "strtoul"),
    (Table::A, 0x0D, CallId::A0D, 3, "strtol"),
    (Table::A, 0x0E, CallId::A0E, 1, "abs"),
    (Table::A, 0x0F, CallId::A0F, 1, "labs"),
    (Table::A, 0x10, CallId::A10, 1, "atoi"),
    (Table::A, 0x11, CallId::A11, 1, "atol"),
    (Table::A, 0x13, CallId::A13, 1, "setjmp"),
    (Table::A, 0x14, CallId::A14, 2, "longjmp"),
    (Table::A, 0x15, CallId::A15, 2, "strcat"),
    (Table::A, 0x16, CallId::A16, 3, "strncat"),
    (Table::A, 0x17, CallId::A17, 2, "strcmp"),
    (Table::A, 0x18, CallId::A18, 3, "strncmp"),
    (Table::A, 0x19, CallId::A19, 2, "strcpy"),
    (Table::A, 0x1A, CallId::A1A, 3, "strncpy"),
    (Table::A, 0x1B, CallId::A1B, 1, "strlen"),
    (Table::A, 0x1C, CallId::A1C, 2, "index"),
    (Table::A, 0x1D, CallId::A1D, 2, "rindex"),
    (Table::A, 0x1E, CallId::A1E, 2, "strchr"),
    (Table::A, 0x1F, CallId::A1F, 2, "strrchr"),
    (Table::A, 0x20, CallId::A20, 2, "strpbrk"),
    (Table::A, 0x21, CallId::A21, 2, "strspn"),
    (Table::A, 0x22, CallId::A22, 2, "strcspn"),
    (Table::A, 0x23, CallId::A23, 2, "strtok"),
    (Table::A, 0x24, CallId::A24, 2, "strstr"),
    (Table::A, 0x25, CallId::A25, 1, "toupper"),
    (Table::A, 0x26, CallId::A26, 1, "tolower"),
    (Table::A, 0x27, CallId::A27, 3, "bcopy"),
    (Table::A, 0x28, CallId::A28, 2, "bzero"),
    (Table::A, 0x29, CallId::A29, 3, "bcmp"),
    (Table::A, 0x2A, CallId::A2A, 3, "memcpy"),
    (Table::A, 0x2B, CallId::A2B, 3, "memset"),
    (Table::A, 0x2C, CallId::A2C, 3, "memmove"),
    (Table::A, 0x2D, CallId::A2D, 3, "memcmp"),
    (Table::A, 0x2E, CallId::A2E, 3, "memchr"),
    (Table::A, 0x2F, CallId::A2F, 0, "rand"),
    (Table::A, 0x30, CallId::A30, 1, "srand"),
    (Table::A, 0x33, CallId::A33, 1, "malloc"),
    (Table::A, 0x34, CallId::A34, 1, "free"),
    (Table::A, 0x37, CallId::A37, 2, "calloc"),
    (Table::A, 0x38, CallId::A38, 2, "realloc"),
    (Table::A, 0x39, CallId::A39, 2, "InitHeap"),
    (Table::A, 0x3A, CallId::A3A, 1, "_exit"),
    (Table::A, 0x3B, CallId::A3B, 0, "getchar"),
    (Table::A, 0x3C, CallId::A3C, 1, "putchar"),
    (Table::A, 0x3D, CallId::A3D, 1, "gets"),
    (Table::A, 0x3E, CallId::A3E, 1, "puts"),
    (Table::A, 0x3F, CallId::A3F, 1, "printf"),
    (Table::A, 0x44, CallId::A44, 0, "FlushCache"),
    (Table::B, 0x02, CallId::B02, 3, "init_timer"),
    (Table::B, 0x03, CallId::B03, 1, "get_timer"),
    (Table::B, 0x04, CallId::B04, 1, "enable_timer_irq"),
    (Table::B, 0x05, CallId::B05, 1, "disable_timer_irq"),
    (Table::B, 0x06, CallId::B06, 1, "restart_timer"),
    (Table::B, 0x07, CallId::B07, 2, "DeliverEvent"),
    (Table::B, 0x08, CallId::B08, 4, "OpenEvent"),
    (Table::B, 0x09, CallId::B09, 1, "CloseEvent"),
    (Table::B, 0x0A, CallId::B0A, 1, "WaitEvent"),
    (Table::B, 0x0B, CallId::B0B, 1, "TestEvent"),
    (Table::B, 0x0C, CallId::B0C, 1, "EnableEvent"),
    (Table::B, 0x0D, CallId::B0D, 1, "DisableEvent"),
    (Table::B, 0x0E, CallId::B0E, 3, "OpenThread"),
    (Table::B, 0x0F, CallId::B0F, 1, "CloseThread"),
    (Table::B, 0x10, CallId::B10, 1, "ChangeThread"),
    (Table::B, 0x17, CallId::B17, 0, "ReturnFromException"),
    (Table::B, 0x20, CallId::B20, 2, "UnDeliverEvent"),
    (Table::B, 0x32, CallId::B32, 2, "open"),
    (Table::B, 0x34, CallId::B34, 3, "read"),
    (Table::B, 0x35, CallId::B35, 3, "write"),
    (Table::B, 0x36, CallId::B36, 1, "close"),
    (Table::B, 0x38, CallId::B38, 1, "exit"),
    (Table::B, 0x3A, CallId::B3A, 1, "getc"),
    (Table::B, 0x3B, CallId::B3B, 2, "putc"),
    (Table::B, 0x3C, CallId::B3C, 0, "getchar"),
    (Table::B, 0x3D, CallId::B3D, 1, "putchar"),
    (Table::B, 0x3E, CallId::B3E, 1, "gets"),
    (Table::B, 0x3F, CallId::B3F, 1, "puts"),
    (Table::B, 0x54, CallId::B54, 0, "GetLastError"),
    (Table::C, 0x02, CallId::C02, 2, "SysEnqIntRP"),
    (Table::C, 0x03, CallId::C03, 2, "SysDeqIntRP"),
];

/// The rows stand in rising order of table and number, so no number has two. Each call has exactly one row, and no row is a SYSCALL's.
///
/// It does nothing: its contract is the law.
pub fn rows()
    ensures rising { IsTrue (CallTable.rising ROWS) }
    ensures one_each { CallTable.OneEach ROWS }
    ensures of_calls { CallTable.OfCalls ROWS }
{}

/// The call that a table has at a number, which is the whole of r9. None where it has no row, so always for SYSCALLs.
pub fn served(table: Table, number: u32) -> Option<CallId>
    ensures { result ≡ CallTable.served_call table number }
{
    match ROWS.iter().find(|row| row.0 == table && row.1 == number) {
        Some(row) => Some(row.2),
        None => None,
    }
}

/// How many arguments a call takes.
pub fn args(id: CallId) -> u32
    ensures { result ≡ CallTable.arguments id }
{
    match ROWS.iter().find(|row| row.2 == id) {
        Some(row) => row.3,
        None => 0,
    }
}

/// A call's name, the same in each table that has the call.
pub fn name(id: CallId) -> &'static str
    ensures { result.now ≡ CallTable.name_of id }
{
    match ROWS.iter().find(|row| row.2 == id) {
        Some(row) => row.4,
        None => "",
    }
}
