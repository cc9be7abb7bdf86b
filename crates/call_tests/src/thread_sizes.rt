//! The calls on threads with each number of threads that a configuration may have.
use crate::hosts::{host_of, host_with};
use psx_base::{MemoryHost, Out};
use psxk_run::psxk;
use std::process::Abort;

// A host that was sent the program of a text in two parts.
fn assembled<R: AllocGlobal + Abort>(rt: &R, head: &[u8], rest: &[u8]) -> MemoryHost {
    let mut text = vec![in rt.alloc(); 0u8; 0].expect(rt, "room");
    text.extend_from_slice(head).expect(rt, "room");
    text.extend_from_slice(rest).expect(rt, "room");
    let mut maker = host_with(rt, "a.s", &text);
    assert_eq!(rt; psxk(rt.alloc(), &["asm", "a.s"], &mut maker), 0);
    maker
}

// Runs it with a configuration, and looks at how its trace ends.
fn stops<R: AllocGlobal + Abort>(rt: &R, maker: &MemoryHost, config: &[u8], stop: &[u8]) {
    let mut host = host_of(rt, maker.sent(Out::Ram));
    host.put("c", config).expect(rt, "put");
    let status = if stop.starts_with(b" Exit ") { 0 } else { 1 };
    let words = ["run", "a.exe", "-", "2000000", "c"];
    assert_eq!(rt; psxk(rt.alloc(), &words, &mut host), status, "{stop:?}");
    assert!(rt; host.sent(Out::Trace).ends_with(stop), "{stop:?}");
}

// A hexadecimal digit.
fn digit(value: u8) -> u8 {
    b"0123456789ABCDEF"[usize::from(value % 16)]
}

// The configuration of so many threads.
fn sized(threads: u8) -> [u8; 9] {
    let mut config = *b"TCB = 00\n";
    config[6] = digit(threads / 16);
    config[7] = digit(threads);
    config
}

// All slots are opened, and the last thread is changed to and changes back. Then the call is made with the number behind it.
const ABOVE: &[u8] = b"
start:
        li      r10, 0xB0
        la      r4, back
        li      r16, 0xFF000000
more:
        li      r9, 0x0E                # OpenThread
        jalr    r31, r10
        nop
        addiu   r8, r2, 1
        beq     r8, r0, all
        nop
        j       more
        move    r16, r2
all:
        move    r4, r16
        li      r9, 0x10                # ChangeThread
        jalr    r31, r10
        nop
        addiu   r4, r16, 1
        li      r9, CALL
        li      r31, 0x80018000
        jr      r10
        nop
back:
        li      r10, 0xB0
        li      r4, 0xFF000000
        li      r9, 0x10                # ChangeThread
        jalr    r31, r10
        nop
";

// The first thread changes to itself. Then the call is made with the number before it.
const BELOW: &[u8] = b"
start:
        li      r10, 0xB0
        li      r4, 0xFF000000
        li      r9, 0x10                # ChangeThread
        jalr    r31, r10
        nop
        addiu   r4, r4, -1
        li      r9, CALL
        li      r31, 0x80018000
        jr      r10
        nop
";

// For each number of threads, a call stops with the number behind the last thread's, and with the one before the first's.
fn refuses<R: AllocGlobal + Abort>(rt: &R, call: &[u8]) {
    let above = assembled(rt, call, ABOVE);
    let below = assembled(rt, call, BELOW);
    for threads in 4..17u8 {
        let config = sized(threads);
        let mut stop = *b" BadThread FF000000 80018000\n";
        stop[17] = digit(threads / 16);
        stop[18] = digit(threads);
        stops(rt, &above, &config, &stop);
        stops(rt, &below, &config, b" BadThread FEFFFFFF 80018000\n");
    }
}

#[test]
fn close_thread_knows_the_handles_of_each_size(rt: HostRuntime) {
    refuses(&rt, b".equ CALL 0x0F\n");
}

#[test]
fn change_thread_knows_the_handles_of_each_size(rt: HostRuntime) {
    refuses(&rt, b".equ CALL 0x10\n");
}

// Six threads, by the lines of a disc's own file: five calls of OpenThread answer the handles from FF000001h on, and a sixth FFFFFFFFh.
#[test]
fn six_threads_by_the_lines_of_a_disc(rt: HostRuntime) {
    const TEXT: &[u8] = b"
start:
        li      r10, 0xB0
        la      r16, answers
        la      r17, answers_end
more:
        li      r9, 0x0E                # OpenThread
        jalr    r31, r10
        nop
        lw      r8, 0(r16)
        nop
        bne     r2, r8, end
        nop
        addiu   r16, r16, 4
        bne     r16, r17, more
        nop
end:
        subu    r4, r17, r16            # 0 where all are as they are to be
        li      r10, 0xA0
        li      r9, 0x06                # exit
        jr      r10
        nop
answers: .word  0xFF000001 0xFF000002 0xFF000003 0xFF000004 0xFF000005 0xFFFFFFFF
answers_end:
";
    let maker = assembled(&rt, b"", TEXT);
    stops(
        &rt,
        &maker,
        b"BOOT = cdrom:\\MAIN.EXE;1\r\nTCB = 6\r\nEVENT = 20\r\nSTACK = 801FFFF0\r\n",
        b" Exit 00000000\n",
    );
}

// The threads pass a token on, which each raises by 1. r16 is what each is to find in its next turn, r17 how many there are, r18 the next one's handle and r19 the rounds to come.
// The first one ends with the token, and another number in it with DEADh.
const RING: &[u8] = b"
start:
        li      r10, 0xB0
        li      r19, 100
        li      r28, 0
        la      r4, node
        li      r5, 0x80100000
        li      r6, 1                   # in gp: its number
more:
        li      r9, 0x0E                # OpenThread
        jalr    r31, r10
        nop
        addiu   r8, r2, 1
        beq     r8, r0, all
        nop
        j       more
        addiu   r6, r6, 1
all:
        la      r8, count
        sw      r6, 0(r8)
node:
        la      r8, count
        lw      r17, 0(r8)
        move    r16, r28
        li      r10, 0xB0
        li      r18, 0xFF000000
        addiu   r8, r28, 1
        beq     r8, r17, turn           # behind the last one comes the first
        nop
        addu    r18, r18, r8
turn:
        la      r8, token
        lw      r4, 0(r8)
        nop
        bne     r4, r16, end
        li      r7, 0xDEAD
        bne     r28, r0, pass
        nop
        move    r7, r4
        beq     r19, r0, end
        addiu   r19, r19, -1
pass:
        addiu   r4, r4, 1
        sw      r4, 0(r8)
        addu    r16, r16, r17
        move    r4, r18
        li      r9, 0x10                # ChangeThread
        jalr    r31, r10
        nop
        j       turn
        nop
end:
        move    r4, r7
        li      r10, 0xA0
        li      r9, 0x06                # exit
        jr      r10
        nop
token:  .word   0
count:  .word   0
";

#[test]
fn a_token_goes_round_a_ring_a_hundred_times(rt: HostRuntime) {
    let maker = assembled(&rt, b"", RING);
    stops(&rt, &maker, &sized(4), b" Exit 00000190\n");
    stops(&rt, &maker, &sized(16), b" Exit 00000640\n");
}
