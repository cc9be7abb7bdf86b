//! The program of the workload as a text.

/// The program in assembly language, but for its last word. `WORDS` are what the assembler makes of it.
pub const SOURCE: &[u8] = b"\
# The workload: a vertical blank begins each round.
# The boot thread waits for it, thread 1 sums the rounds' numbers, and thread 2 sums the last bytes of the blocks that it takes of the heap.
# How many rounds there are stands as a word behind the last line.

.equ GATE_A        0xA0
.equ GATE_B        0xB0
.equ EXIT          0x06                 # gate A0h
.equ MEMSET        0x2B
.equ MALLOC        0x33
.equ FREE          0x34
.equ INIT_HEAP     0x39
.equ PRINTF        0x3F
.equ ENABLE_IRQ    0x04                 # gate B0h
.equ OPEN_EVENT    0x08
.equ WAIT_EVENT    0x0A
.equ ENABLE_EVENT  0x0C
.equ OPEN_THREAD   0x0E
.equ CHANGE_THREAD 0x10

.equ BLANK         0xF2000003           # the class of a vertical blank's events
.equ ON_INTERRUPT  2                    # their spec
.equ READY         0x2000               # the event becomes ready
.equ LINE_0        3                    # the number by which the line of vertical blanks is enabled
.equ BOOT          0xFF000000           # the handles of the threads
.equ FIRST         0xFF000001
.equ SECOND        0xFF000002
.equ HEAP          0x80100000
.equ HEAP_SIZE     256
.equ STACK_1       0x80110000
.equ STACK_2       0x80120000

start:
        li      r16, GATE_A
        li      r17, GATE_B
        li      r4, BLANK
        li      r5, ON_INTERRUPT
        li      r6, READY
        li      r7, 0
        jalr    r31, r17
        li      r9, OPEN_EVENT          # in the slot of the jump
        move    r18, r2                 # the event's handle
        move    r4, r2
        jalr    r31, r17
        li      r9, ENABLE_EVENT
        li      r4, LINE_0
        jalr    r31, r17
        li      r9, ENABLE_IRQ
        li      r4, HEAP
        li      r5, HEAP_SIZE
        jalr    r31, r16
        li      r9, INIT_HEAP
        la      r4, first
        li      r5, STACK_1
        li      r6, 0
        jalr    r31, r17
        li      r9, OPEN_THREAD
        la      r4, second
        li      r5, STACK_2
        li      r6, 0
        jalr    r31, r17
        li      r9, OPEN_THREAD
        la      r19, rounds
        lw      r19, 0(r19)
        nop
        move    r20, r19                # the rounds that are left
round:
        move    r4, r18
        jalr    r31, r17
        li      r9, WAIT_EVENT
        li      r4, FIRST
        jalr    r31, r17
        li      r9, CHANGE_THREAD
        addiu   r20, r20, -1
        bne     r20, r0, round
        nop
        la      r4, format
        move    r5, r19
        la      r8, sums
        lw      r6, 0(r8)
        nop
        lw      r7, 4(r8)
        nop
        jalr    r31, r16
        li      r9, PRINTF
        li      r4, 0
        jr      r16
        li      r9, EXIT

# Thread 1: a is the sum of the rounds' numbers.
first:
        li      r17, GATE_B
        la      r18, sums
        li      r19, 0                  # the round
        li      r20, 0                  # a
add:
        addiu   r19, r19, 1
        addu    r20, r20, r19
        sw      r20, 0(r18)
        li      r4, SECOND
        jalr    r31, r17
        li      r9, CHANGE_THREAD
        b       add
        nop

# Thread 2: round i takes 8 + i mod 32 bytes and fills them with 3*i mod 256; h is the sum of their last bytes.
second:
        li      r16, GATE_A
        li      r17, GATE_B
        la      r18, sums
        li      r19, 0                  # the round
        li      r20, 0                  # h
fill:
        addiu   r19, r19, 1
        andi    r21, r19, 31
        addiu   r21, r21, 8
        move    r4, r21
        jalr    r31, r16
        li      r9, MALLOC
        move    r22, r2                 # the block
        move    r4, r2
        sll     r5, r19, 1
        addu    r5, r5, r19
        andi    r5, r5, 255
        move    r6, r21
        jalr    r31, r16
        li      r9, MEMSET
        addu    r8, r22, r21
        lbu     r8, -1(r8)              # the last byte
        nop
        addu    r20, r20, r8
        sw      r20, 4(r18)
        move    r4, r22
        jalr    r31, r16
        li      r9, FREE
        li      r4, BOOT
        jalr    r31, r17
        li      r9, CHANGE_THREAD
        b       fill
        nop

format: .asciiz \"n=%d a=%u h=%u\\n\"
        .align  2
sums:   .word   0 0                     # a and h
rounds:
";
