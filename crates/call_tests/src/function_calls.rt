//! Functions that deliveries call, in programs on the image.
use crate::delivered::{ENDS, says};

// A function that prints: behind the delivery the caller has its registers, HI and LO, and r2 is 0.
#[test]
fn a_function_is_called_and_the_caller_goes_on(rt: HostRuntime) {
    const TEXT: &[u8] = b"
start:  li      r5, 4
        li      r6, 0x1000
        la      r7, function
        jal     open
        nop
        li      r20, 0x1234
        li      r8, 100
        mult    r8, r8
        li      r5, 4
        jal     deliver
        nop
        jal     say
        nop
        mflo    r2
        jal     say
        nop
        move    r2, r20
        jal     say
        nop
        j       done
        nop
function:
        li      r8, 7
        mult    r8, r8
        li      r20, 1
        li      r4, 'F'
        jal     letter
        nop
        j       back
        nop
";
    says(&rt, TEXT, b"F00000000\n00002710\n00001234\n", ENDS);
}

// It begins with sp 32 below the caller's and rounded down to a multiple of 8, the caller's gp, its address in k0, r31 = E0h, and 0 in all other registers, HI and LO. Interrupts are off.
#[test]
fn a_function_begins_so(rt: HostRuntime) {
    const TEXT: &[u8] = b"
start:  li      r5, 4
        li      r6, 0x1000
        la      r7, function
        jal     open
        nop
        li      r28, 0x12345677
        li      r29, 0x801FFF07
        li      r1, 1
        li      r3, 3
        li      r30, 30
        mult    r29, r29
        li      r5, 4
        jal     deliver
        nop
        move    r2, r29
        jal     say
        nop
        j       done
        nop
function:
        or      r1, r1, r2
        or      r1, r1, r3
        or      r1, r1, r4
        or      r1, r1, r5
        or      r1, r1, r6
        or      r1, r1, r7
        or      r1, r1, r8
        or      r1, r1, r9
        or      r1, r1, r10
        or      r1, r1, r11
        or      r1, r1, r12
        or      r1, r1, r13
        or      r1, r1, r14
        or      r1, r1, r15
        or      r1, r1, r16
        or      r1, r1, r17
        or      r1, r1, r18
        or      r1, r1, r19
        or      r1, r1, r20
        or      r1, r1, r21
        or      r1, r1, r22
        or      r1, r1, r23
        or      r1, r1, r24
        or      r1, r1, r25
        or      r1, r1, r27
        or      r1, r1, r30
        mfhi    r2
        or      r1, r1, r2
        mflo    r2
        or      r1, r1, r2
        la      r3, function
        subu    r20, r26, r3
        move    r22, r31
        move    r2, r1
        jal     say
        nop
        move    r2, r20
        jal     say
        nop
        move    r2, r22
        jal     say
        nop
        move    r2, r28
        jal     say
        nop
        move    r2, r29
        jal     say
        nop
        li      r4, 1
        syscall                         # interrupts were off
        jal     say
        nop
        j       back
        nop
";
    says(
        &rt,
        TEXT,
        b"00000000\n00000000\n000000E0\n12345677\n801FFEE0\n00000000\n801FFF07\n",
        ENDS,
    );
}

// Behind a function the scan goes on with the next event: it doesn't come back to the first, which the function has made busy again.
#[test]
fn the_scan_goes_on_behind_a_function(rt: HostRuntime) {
    const TEXT: &[u8] = b"
start:  li      r5, 4
        li      r6, 0x2000
        li      r7, 0
        jal     open
        nop
        li      r5, 4
        li      r6, 0x1000
        la      r7, function
        jal     open
        nop
        li      r5, 4
        li      r6, 0x2000
        li      r7, 0
        jal     open
        nop
        li      r5, 4
        jal     deliver
        nop
        li      r4, 0xF1000000
        jal     test
        nop
        li      r4, 0xF1000002
        jal     test
        nop
        j       done
        nop
function:
        li      r4, 0xF1000000          # it is ready, and busy again behind the test
        jal     test
        nop
        li      r4, 0xF1000002          # its turn hasn't come
        jal     test
        nop
        j       back
        nop
";
    says(&rt, TEXT, b"00000001\n00000000\n00000000\n00000001\n", ENDS);
}

// A function closes its own event, and the next one's function is called.
#[test]
fn a_function_closes_its_own_event(rt: HostRuntime) {
    const TEXT: &[u8] = b"
start:  li      r5, 4
        li      r6, 0x1000
        la      r7, first
        jal     open
        nop
        li      r5, 4
        la      r7, second
        jal     open
        nop
        li      r5, 4
        jal     deliver
        nop
        li      r5, 4
        jal     open                    # the slot is free
        nop
        jal     say
        nop
        j       done
        nop
first:  li      r4, 0xF1000000
        li      r9, 0x09                # CloseEvent
        jal     b
        nop
        li      r4, '1'
        jal     letter
        nop
        j       back
        nop
second: li      r4, '2'
        jal     letter
        nop
        j       back
        nop
";
    says(&rt, TEXT, b"12F1000000\n", ENDS);
}

// A function allocates, opens a thread, and opens an event of its own class, which is enabled before its turn comes.
#[test]
fn a_function_calls_the_kernel(rt: HostRuntime) {
    const TEXT: &[u8] = b"
start:  li      r4, 0x80100000
        li      r5, 0x1000
        li      r9, 0x39                # InitHeap
        li      r10, 0xA0
        jalr    r31, r10
        nop
        li      r5, 4
        li      r6, 0x1000
        la      r7, function
        jal     open
        nop
        li      r5, 4
        jal     deliver
        nop
        li      r4, 0xF1000001
        jal     test
        nop
        j       done
        nop
function:
        li      r4, 16
        li      r9, 0x33                # malloc
        li      r10, 0xA0
        jalr    r31, r10
        nop
        jal     say
        nop
        la      r4, function
        li      r9, 0x0E                # OpenThread
        jal     b
        nop
        jal     say
        nop
        li      r5, 4
        li      r6, 0x2000
        jal     open
        nop
        jal     say
        nop
        j       back
        nop
";
    says(&rt, TEXT, b"80100000\nFF000001\nF1000001\n00000001\n", ENDS);
}
