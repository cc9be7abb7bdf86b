//! What interrupts call: the functions of events and of the chains' elements, in programs on the image.
use crate::hosts::runs_to;
use crate::timed::{count_of, runs_behind, times};
use psx_base::Out;
use test_hosts::stands_in;

const LINE_0: &[u8] = b" line 0\n";

// Counter 2 counts to its target five times, and each time the function of its event adds 1 to a word.
#[test]
fn a_counter_calls_a_function(rt: HostRuntime) {
    const TEXT: &[u8] = b"
start:  li      r4, 0xF2000002
        li      r5, 2
        li      r6, 0x1000
        la      r7, function
        li      r9, 0x08                # OpenEvent
        li      r10, 0xB0
        jalr    r31, r10
        nop
        move    r4, r2
        li      r9, 0x0C                # EnableEvent
        jalr    r31, r10
        nop
        li      r4, 2
        li      r5, 20000
        li      r6, 0x1001
        li      r9, 0x02                # init_timer
        jalr    r31, r10
        nop
        li      r4, 2
        li      r9, 0x04                # enable_timer_irq
        jalr    r31, r10
        nop
        la      r16, word
        li      r17, 5
wait:   lw      r8, 0(r16)
        nop
        bne     r8, r17, wait
        nop
        li      r4, 0
        li      r9, 0x06                # exit
        li      r10, 0xA0
        jr      r10
        nop
function:
        la      r8, word
        lw      r9, 0(r8)
        nop
        addiu   r9, r9, 1
        jr      r31
        sw      r9, 0(r8)
        .align  4
word:   .word   0
";
    let host = runs_to(&rt, TEXT, b"", b" Exit 00000000\n");
    let trace = host.sent(Out::Trace);
    assert!(rt; stands_in(trace, b" 1F801124 00000058\n"));
    assert_eq!(rt; times(trace, b" I 00000000\n"), 5);
    assert_eq!(rt; times(trace, b" 1F801070 FFFFFFBF\n"), 5);
}

// An element of chain 0: its first function answers 7, its second one is called with that, and then the line is taken back. The program has its registers back.
#[test]
fn an_element_has_two_functions(rt: HostRuntime) {
    const TEXT: &[u8] = b"
start:  li      r16, 0x80018000
        la      r8, second
        sw      r8, 4(r16)
        la      r8, first
        sw      r8, 8(r16)
        li      r4, 0
        move    r5, r16
        li      r9, 0x02                # SysEnqIntRP
        li      r10, 0xC0
        jalr    r31, r10
        nop
        li      r4, 3
        li      r9, 0x04                # enable_timer_irq
        li      r10, 0xB0
        jalr    r31, r10
        nop
        addiu   r2, r0, 0x12            # an interrupt comes here
        addiu   r4, r2, 0x34
        li      r9, 0x06                # exit
        li      r10, 0xA0
        jr      r10
        nop
first:  addiu   r4, r4, 'a'             # the argument is 0
        li      r9, 0x3C                # putchar
        li      r10, 0xA0
        jalr    r31, r10
        nop
        li      r31, 0xE0
        jr      r31
        li      r2, 7
second: addiu   r4, r4, '0'             # the argument is 7
        li      r9, 0x3C                # putchar
        li      r10, 0xA0
        jalr    r31, r10
        nop
        li      r31, 0xE0
        jr      r31
        nop
";
    let host = runs_behind(&rt, TEXT, 2, &[(0, LINE_0)], b" Exit 00000046\n");
    assert_eq!(rt; host.sent(Out::Tty), b"a7".as_slice());
    let trace = host.sent(Out::Trace);
    assert_eq!(rt; times(trace, b" I 00000000\n"), 1);
    assert_eq!(rt; times(trace, b" 1F801070 FFFFFFFE\n"), 1);
    assert!(rt; count_of(trace, b'W', times(trace, b"\nW ")) > count_of(trace, b'E', 7));
}

// A function that doesn't return: a second line waits until the budget.
#[test]
fn a_function_that_does_not_return(rt: HostRuntime) {
    const TEXT: &[u8] = b"
start:  li      r4, 0xF2000003
        li      r5, 2
        li      r6, 0x1000
        la      r7, function
        li      r9, 0x08                # OpenEvent
        li      r10, 0xB0
        jalr    r31, r10
        nop
        move    r4, r2
        li      r9, 0x0C                # EnableEvent
        jalr    r31, r10
        nop
        li      r4, 3
        li      r9, 0x04                # enable_timer_irq
        jalr    r31, r10
        nop
loop:   beq     r0, r0, loop
        nop
function:
        beq     r0, r0, function
        nop
";
    let host = runs_to(&rt, TEXT, b"50000 line 0\n60000 line 0\n", b" Budget\n");
    assert_eq!(rt; times(host.sent(Out::Trace), b" I 00000000\n"), 1);
}

// ReturnFromException in the function of a vertical blank: the program has the registers and the place that it had, and the next event of the scan stays busy.
#[test]
fn an_exception_is_returned_from(rt: HostRuntime) {
    const TEXT: &[u8] = b"
start:  li      r4, 0xF2000003
        li      r5, 2
        li      r6, 0x1000
        la      r7, function
        li      r9, 0x08                # OpenEvent
        li      r10, 0xB0
        jalr    r31, r10
        nop
        move    r4, r2
        li      r9, 0x0C                # EnableEvent
        jalr    r31, r10
        nop
        li      r4, 0xF2000003
        li      r6, 0x2000
        li      r9, 0x08
        jalr    r31, r10
        nop
        move    r16, r2
        move    r4, r2
        li      r9, 0x0C
        jalr    r31, r10
        nop
        li      r4, 3
        li      r9, 0x04                # enable_timer_irq
        jalr    r31, r10
        nop
        addiu   r17, r0, 0x20
        addiu   r17, r17, 0x10          # an interrupt comes here
        move    r4, r16
        li      r9, 0x0B                # TestEvent
        jalr    r31, r10
        nop
        addu    r4, r17, r2
        li      r9, 0x06                # exit
        li      r10, 0xA0
        jr      r10
        nop
function:
        li      r17, 0
        li      r9, 0x17                # ReturnFromException
        li      r10, 0xB0
        jr      r10
        nop
";
    let host = runs_behind(&rt, TEXT, 5, &[(1, LINE_0)], b" Exit 00000030\n");
    assert_eq!(rt; times(host.sent(Out::Trace), b" I 00000000\n"), 1);
}

// The function of a vertical blank names thread 1, which is taken up when it has returned. That thread changes back, and the program goes on with all its registers, r2 too.
#[test]
fn a_vertical_blank_preempts(rt: HostRuntime) {
    const TEXT: &[u8] = b"
start:  la      r4, thread
        li      r5, 0x80110000
        li      r6, 0
        li      r9, 0x0E                # OpenThread
        li      r10, 0xB0
        jalr    r31, r10
        nop
        li      r4, 0xF2000003
        li      r5, 2
        li      r6, 0x1000
        la      r7, function
        li      r9, 0x08                # OpenEvent
        jalr    r31, r10
        nop
        move    r4, r2
        li      r9, 0x0C                # EnableEvent
        jalr    r31, r10
        nop
        li      r4, 3
        li      r9, 0x04                # enable_timer_irq
        jalr    r31, r10
        nop
        la      r16, word
        li      r17, 0
        li      r2, 0x12345
        mult    r2, r2
loop:   addiu   r17, r17, 1             # it has r2, r17, HI and LO
        lw      r8, 0(r16)
        nop
        beq     r8, r0, loop
        nop
        li      r9, 0x12345
        subu    r4, r2, r9
        mflo    r8
        mfhi    r11
        mult    r9, r9
        mflo    r12
        mfhi    r13
        subu    r8, r8, r12
        subu    r11, r11, r13
        or      r4, r4, r8
        or      r4, r4, r11
        li      r9, 0x06                # exit
        li      r10, 0xA0
        jr      r10
        nop
thread: li      r8, 3
        mult    r8, r8
        li      r4, 'T'
        li      r9, 0x3C                # putchar
        li      r10, 0xA0
        jalr    r31, r10
        nop
        la      r8, word
        li      r9, 1
        sw      r9, 0(r8)
        li      r4, 0xFF000000
        li      r9, 0x10                # ChangeThread
        li      r10, 0xB0
        jalr    r31, r10
        nop
function:
        li      r4, 0xFF000001
        li      r9, 0x10                # ChangeThread answers 1
        li      r10, 0xB0
        jalr    r31, r10
        nop
        addiu   r4, r2, '0'
        li      r9, 0x3C
        li      r10, 0xA0
        jalr    r31, r10
        nop
        li      r31, 0xE0
        jr      r31
        nop
        .align  4
word:   .word   0
";
    let host = runs_to(&rt, TEXT, b"50000 line 0\n", b" Exit 00000000\n");
    assert_eq!(rt; host.sent(Out::Tty), b"1T".as_slice());
}
