//! The calls on root counters, made by programs on the image. What is expected is the public description's, and no count of the kernel's steps: those fall out of each difference.
use crate::hosts::{host_of, host_with};
use psx_base::{MemoryHost, Out};
use psxk_run::psxk;
use std::process::Abort;
use test_hosts::stands_in;

// The words that run a program.
const RUN: [&str; 5] = ["run", "a.exe", "-", "200000", "c"];

// What each program has behind its own text. `b` calls the number in r9 of table B. `begin` begins counter r16 with the target in r5 and the flags in r6, `since` restarts it,
// and both bring its value behind r17 turns of three steps to r2. `exit` ends the program with r4.
const BEHIND: &[u8] = b"
begin:  move    r22, r31
        move    r4, r16
        li      r9, 0x02                # init_timer
        jal     b
        nop
        beq     r0, r0, turn
        nop
since:  move    r22, r31
        move    r4, r16
        li      r9, 0x06                # restart_timer
        jal     b
        nop
        beq     r0, r0, turn
        nop
turn:   addiu   r17, r17, -1
        bne     r17, r0, turn
        nop
        move    r4, r16
        li      r9, 0x03                # get_timer
        jal     b
        nop
        jr      r22
        nop
b:      li      r10, 0xB0
        jr      r10
        nop
exit:   li      r9, 0x06
        li      r10, 0xA0
        jr      r10
        nop
";

// Runs a text with what stands behind it, without a schedule: the host behind the run.
fn ran<R: AllocGlobal + Abort>(rt: &R, text: &[u8]) -> MemoryHost {
    let mut whole = Vec::new(rt.alloc());
    whole.extend_from_slice(text).expect(rt, "room");
    whole.extend_from_slice(BEHIND).expect(rt, "room");
    let mut maker = host_with(rt, "a.s", &whole);
    assert_eq!(rt; psxk(rt.alloc(), &["asm", "a.s"], &mut maker), 0);
    let mut host = host_of(rt, maker.sent(Out::Ram));
    host.put("c", b"").expect(rt, "put");
    let status = psxk(rt.alloc(), &RUN, &mut host);
    assert!(rt; status < 2);
    host
}

// The run ends with this stop.
fn ends<R: AllocGlobal + Abort>(rt: &R, text: &[u8], stop: &[u8]) {
    let host = ran(rt, text);
    let trace = host.sent(Out::Trace);
    let from = trace.len().saturating_sub(40);
    assert!(rt; trace.ends_with(stop), "{:?}", trace.get(from..));
}

// The reads and writes of ports that a trace tells, in their order, each without its count.
fn accesses<R: AllocGlobal + Abort>(rt: &R, trace: &[u8]) -> Vec<u8> {
    let mut told = Vec::new(rt.alloc());
    for line in trace.split(|byte| *byte == b'\n') {
        let letter = line.first().copied();
        if letter == Some(b'R') || letter == Some(b'W') {
            let from = line.len().saturating_sub(18);
            told.push(letter.unwrap_or(b'?')).expect(rt, "room");
            told.extend_from_slice(line.get(from..).unwrap_or(b""))
                .expect(rt, "room");
            told.push(b'\n').expect(rt, "room");
        }
    }
    told
}

// Each counter with its plain clock, which is every step: 100 turns of three steps more make 300 more, 12Ch. Counter 2 has that clock with flag 0 clear too.
#[test]
fn a_counter_counts_steps(rt: HostRuntime) {
    const TEXT: &[u8] = b"
        li      r5, 0xFFFF
        jal     begin
        li      r17, 5
        move    r18, r2
        jal     begin
        li      r17, 105
        subu    r4, r2, r18
        b       exit
        nop
";
    for head in [
        b"start:  li r16, 0\n        li r6, 1\n".as_slice(),
        b"start:  li r16, 1\n        li r6, 1\n".as_slice(),
        b"start:  li r16, 2\n        li r6, 1\n".as_slice(),
        b"start:  li r16, 2\n        li r6, 0\n".as_slice(),
    ] {
        let mut text = Vec::new(rt.alloc());
        text.extend_from_slice(head).expect(&rt, "room");
        text.extend_from_slice(TEXT).expect(&rt, "room");
        ends(&rt, &text, b" Exit 0000012C\n");
    }
}

// Behind the target 99 the value is 0 again, and restart_timer keeps the target: 300 steps more make no difference, and 303 make 3.
#[test]
fn a_counter_comes_back_behind_its_target(rt: HostRuntime) {
    const TEXT: &[u8] = b"
start:  li      r16, 2
        li      r5, 99
        li      r6, 1
        jal     begin
        li      r17, 5
        jal     since
        li      r17, 5
        move    r18, r2
        jal     since
        li      r17, 105
        subu    r19, r2, r18            # 0
        jal     since
        li      r17, 106
        subu    r2, r2, r18
        addiu   r2, r2, 100
        li      r8, 100
        divu    r2, r8
        mfhi    r4                      # 3
        sll     r19, r19, 8
        or      r4, r4, r19
        b       exit
        nop
";
    ends(&rt, TEXT, b" Exit 00000003\n");
}

// Without flag 0 counter 0 counts every 8 steps, and counter 1 every 2,048: 2,400 and 61,440 steps more make 300 and 30 more, or one more or less.
#[test]
fn a_counter_with_its_other_clock(rt: HostRuntime) {
    const TEXT: &[u8] = b"
start:  li      r16, 0
        li      r5, 0
        li      r6, 0
        jal     begin
        li      r17, 5
        move    r18, r2
        jal     begin
        li      r17, 805
        subu    r2, r2, r18
        addiu   r2, r2, -299
        sltiu   r19, r2, 3              # 1 where it is 299 to 301
        li      r16, 1
        jal     begin
        li      r17, 5
        move    r18, r2
        jal     begin
        li      r17, 20485
        subu    r2, r2, r18
        addiu   r2, r2, -29
        sltiu   r2, r2, 3
        sll     r19, r19, 4
        or      r4, r2, r19
        b       exit
        nop
";
    ends(&rt, TEXT, b" Exit 00000011\n");
}

// init_timer writes mode 0, the target as it is, and the mode: of the flags 1001h it is 58h, of 10h 149h, and of FFFFEFFFh 49h.
#[test]
fn init_timer_writes_its_ports_in_order(rt: HostRuntime) {
    const FIRST: &[u8] = b"
start:  li      r9, 0x02
        li      r4, 2
        li      r5, 20000
        li      r6, 0x1001
        jal     b
        nop
        li      r4, 0
        li      r5, 0x12345678
        li      r6, 0x10
        jal     b
        nop
        li      r4, 1
        li      r5, 7
        li      r6, 0xFFFFEFFF
        jal     b
        nop
        b       exit
        li      r4, 0
";
    const SECOND: &[u8] = b"W 1F801124 00000000
W 1F801128 00004E20
W 1F801124 00000058
W 1F801104 00000000
W 1F801108 12345678
W 1F801104 00000149
W 1F801114 00000000
W 1F801118 00000007
W 1F801114 00000049
";
    let host = ran(&rt, FIRST);
    let told = accesses(&rt, host.sent(Out::Trace));
    let wanted: &[u8] = SECOND;
    assert!(rt; told.as_slice() == wanted, "{told:?}");
}

// The mask is read and written: bits 4 to 6 of the counters, bit 0 of VBLANK.
#[test]
fn masks_change_one_line(rt: HostRuntime) {
    const FIRST: &[u8] = b"
start:  li      r20, 0
enable: move    r4, r20
        li      r9, 0x04                # enable_timer_irq of 0, 1, 2, 3 and 4
        jal     b
        addiu   r20, r20, 1
        slti    r8, r20, 5
        bne     r8, r0, enable
        nop
        li      r20, 4
mask:   move    r4, r20
        li      r9, 0x05                # disable_timer_irq of 4, 3, 2, 1 and 0
        jal     b
        addiu   r20, r20, -1
        bgez    r20, mask
        nop
        b       exit
        li      r4, 0
";
    const SECOND: &[u8] = b"R 1F801074 00000000
W 1F801074 00000010
R 1F801074 00000010
W 1F801074 00000030
R 1F801074 00000030
W 1F801074 00000070
R 1F801074 00000070
W 1F801074 00000071
R 1F801074 00000071
W 1F801074 00000070
R 1F801074 00000070
W 1F801074 00000030
R 1F801074 00000030
W 1F801074 00000010
R 1F801074 00000010
W 1F801074 00000000
";
    let host = ran(&rt, FIRST);
    let told = accesses(&rt, host.sent(Out::Trace));
    let wanted: &[u8] = SECOND;
    assert!(rt; told.as_slice() == wanted, "{told:?}");
}

// Each call on each number from 0 to 4, and on 80000000h: the answers of init_timer, restart_timer, enable_timer_irq and disable_timer_irq as bits, the last one lowest.
// A call that answers 0 accesses no port.
#[test]
fn numbers_of_no_counter(rt: HostRuntime) {
    const TEXT: &[u8] = b"
start:  li      r20, 0
        la      r21, numbers
next:   lw      r9, 0(r21)
        li      r22, 5
        beq     r9, r0, last
        li      r4, 0
each:   jal     b
        li      r5, 0
        sll     r20, r20, 1
        addu    r20, r20, r2
        addiu   r4, r4, 1
        addiu   r22, r22, -1
        bgtz    r22, each
        nop
        bltz    r22, then
        li      r4, 0x80000000
        b       each
        nop
then:   b       next
        addiu   r21, r21, 4
last:   li      r4, 3
        li      r9, 0x03                # get_timer
        jal     b
        nop
        or      r4, r2, r20
        b       exit
        nop
        .align  4
numbers: .word  2, 6, 4, 5, 0
";
    let text: &[u8] = TEXT;
    ends(&rt, text, b" Exit 00E38F3C\n");
}

// It reads no port and writes none.
#[test]
fn init_timer_of_a_fourth_counter_does_nothing(rt: HostRuntime) {
    const TEXT: &[u8] = b"
start:  li      r9, 0x02
        li      r4, 3
        li      r5, 0
        jal     b
        li      r6, 0
        b       exit
        move    r4, r2
";
    let host = ran(&rt, TEXT);
    let trace = host.sent(Out::Trace);
    assert!(rt; trace.ends_with(b" Exit 00000000\n"));
    let told = accesses(&rt, trace);
    assert!(rt; told.is_empty(), "{told:?}");
}

// An interrupt of counter 2 comes where its line is let through, and none where it is masked again before interrupts are on.
#[test]
fn an_interrupt_comes_where_it_is_let_through(rt: HostRuntime) {
    const FIRST: &[u8] = b"
start:  li      r4, 1                   # interrupts are off
        syscall
        li      r4, 2
        li      r9, 0x04                # enable_timer_irq
        jal     b
        nop
        li      r4, 2
        li      r9, 0x0";
    const SECOND: &[u8] = b"
        jal     b
        nop
        li      r16, 2
        li      r5, 50
        li      r6, 0x1001
        jal     begin
        li      r17, 100
        li      r4, 2                   # and on
        syscall
        nop
        nop
        b       exit
        li      r4, 0
";
    for (number, comes) in [(b'4', true), (b'5', false)] {
        let mut text = Vec::new(rt.alloc());
        text.extend_from_slice(FIRST).expect(&rt, "room");
        text.push(number).expect(&rt, "room");
        text.extend_from_slice(SECOND).expect(&rt, "room");
        let host = ran(&rt, &text);
        assert_eq!(rt; stands_in(host.sent(Out::Trace), b" I 00000000\n"), comes);
    }
}
