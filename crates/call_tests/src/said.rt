//! Programs that call by the gates B0h and C0h and say what is answered, on the image.
use crate::hosts::{host_of, host_with};
use psx_base::{MemoryHost, Out};
use psxk_run::psxk;
use std::process::Abort;

// The words that run a program with a configuration.
pub(crate) const RUN_SIZED: [&str; 5] = ["run", "a.exe", "-", "2000000", "c"];

// The same with fewer steps, for a program that waits for ever.
pub(crate) const RUN_SHORT: [&str; 5] = ["run", "a.exe", "-", "60000", "c"];

// 32 and 64 events; without a line there are 16.
pub(crate) const EVENTS_32: &[u8] = b"EVENT = 20\n";

pub(crate) const EVENTS_64: &[u8] = b"EVENT = 40\n";

// What each program has behind its own text. `b` and `c` call the number in r9 of their tables, `say` writes r2 in eight digits and a newline, and `done` ends the program.
const BEHIND: &[u8] = b"
done:   li      r4, 0
        li      r9, 0x06                # exit
        li      r10, 0xA0
        jr      r10
        nop
b:      li      r10, 0xB0
        jr      r10
        nop
c:      li      r10, 0xC0
        jr      r10
        nop
say:    move    r16, r2
        move    r17, r31
        li      r18, 8
digit:  srl     r4, r16, 28
        sll     r16, r16, 4
        sltiu   r19, r4, 10
        bne     r19, r0, put
        addiu   r4, r4, '0'
        addiu   r4, r4, 7               # from 'A' on
put:    li      r9, 0x3C                # putchar
        li      r10, 0xA0
        jalr    r31, r10
        nop
        addiu   r18, r18, -1
        bne     r18, r0, digit
        nop
        li      r4, 10
        li      r9, 0x3C
        jalr    r31, r10
        nop
        jr      r17
        nop
";

// Assembles a text with what stands behind it, runs it with a configuration, and looks at how its trace ends: the host behind the run.
pub(crate) fn ran<R: AllocGlobal + Abort>(
    rt: &R,
    text: &[u8],
    config: &[u8],
    stop: &[u8],
) -> MemoryHost {
    ran_by(rt, &RUN_SIZED, text, config, stop)
}

// The same, by these words.
pub(crate) fn ran_by<R: AllocGlobal + Abort>(
    rt: &R,
    words: &[&str; 5],
    text: &[u8],
    config: &[u8],
    stop: &[u8],
) -> MemoryHost {
    let mut whole = Vec::new(rt.alloc());
    whole.extend_from_slice(text).expect(rt, "room");
    whole.extend_from_slice(BEHIND).expect(rt, "room");
    let mut maker = host_with(rt, "a.s", &whole);
    assert_eq!(rt; psxk(rt.alloc(), &["asm", "a.s"], &mut maker), 0);
    let mut host = host_of(rt, maker.sent(Out::Ram));
    host.put("c", config).expect(rt, "put");
    let status = psxk(rt.alloc(), words, &mut host);
    assert!(rt; status < 2);
    assert!(rt; host.sent(Out::Trace).ends_with(stop), "{stop:?}");
    host
}

// The same, and what the program wrote.
pub(crate) fn says<R: AllocGlobal + Abort>(rt: &R, text: &[u8], config: &[u8], tty: &[u8]) {
    let host = ran(rt, text, config, b" Exit 00000000\n");
    assert_eq!(rt; host.sent(Out::Tty), tty);
}

// Memory behind a run, from an address on, is these bytes.
pub(crate) fn has<R: AllocGlobal + Abort>(rt: &R, host: &MemoryHost, at: usize, bytes: &[u8]) {
    let ram = host.sent(Out::Ram);
    let end = at.wrapping_add(bytes.len());
    assert!(rt;
        ram.get(at..end).expect(rt, "main memory") == bytes,
        "{at:X}"
    );
}

// The status of event i.
pub(crate) fn has_status<R: AllocGlobal + Abort>(rt: &R, host: &MemoryHost, i: usize, status: u32) {
    let at = i.wrapping_mul(0x1C).wrapping_add(0xBC04);
    has(rt, host, at, &status.to_le_bytes());
}
