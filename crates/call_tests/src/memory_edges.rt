//! memcpy, memset, bcopy and strncpy at their edges: no bytes, the ends of user memory, a destination before its source. Each call is made by a program on the image.
use crate::hosts::{runs_to, shows};
use psx_base::Out;

// The counts are 0, -1 and the least one: no address is looked at, and each answers where to.
#[test]
fn memcpy_and_memset_of_no_bytes_touch_nothing(rt: HostRuntime) {
    const TEXT: &[u8] = b"
start:
        li      r10, 0xA0
        li      r16, 0
        la      r17, counts
        la      r18, end
again:  lw      r6, 0(r17)
        addiu   r17, r17, 4
        li      r4, 0x100               # the kernel's memory
        li      r5, 0x200
        li      r9, 0x2A                # memcpy(100h, 200h, n)
        jalr    r31, r10
        nop
        addu    r16, r16, r2            # 100h
        li      r9, 0x2B                # memset(100h, 200h, n)
        jalr    r31, r10
        nop
        addu    r16, r16, r2            # 100h
        bne     r17, r18, again
        nop
        move    r4, r16
        li      r9, 0x06                # exit
        jr      r10
        nop

counts: .word   0, 0xFFFFFFFF, 0x80000000
end:
";
    shows(&rt, TEXT, b"", b" Exit 00000600\n");
}

// Each byte is one that it was before, since the copy rises. The answer is where to.
#[test]
fn memcpy_and_bcopy_copy_to_a_place_before_the_source(rt: HostRuntime) {
    const TEXT: &[u8] = b"
start:
        li      r10, 0xA0
        la      r4, first
        addiu   r5, r4, 2
        li      r6, 4
        li      r9, 0x2A                # memcpy(first, first + 2, 4)
        jalr    r31, r10
        nop
        subu    r16, r2, r4             # 0
        li      r9, 0x3E                # puts
        jalr    r31, r10
        nop
        la      r5, second
        addiu   r4, r5, 1
        li      r6, 5
        li      r9, 0x27                # bcopy(second + 1, second, 5)
        jalr    r31, r10
        nop
        subu    r17, r2, r5             # 0
        la      r4, second
        li      r9, 0x3E                # puts
        jalr    r31, r10
        nop
        or      r4, r16, r17
        li      r9, 0x06                # exit
        jr      r10
        nop

first:  .asciiz \"abcdef\"
second: .asciiz \"abcdef\"
";
    shows(&rt, TEXT, b"cdefefbcdeff", b" Exit 00000000\n");
}

// The last two bytes of main memory are copied to the last two of the scratchpad, and then the last of those is filled.
#[test]
fn memcpy_and_memset_reach_the_last_bytes_of_user_memory(rt: HostRuntime) {
    const TEXT: &[u8] = b"
start:
        li      r10, 0xA0
        li      r5, 0x801FFFFE          # the last two bytes of main memory
        li      r8, 0x4241
        sh      r8, 0(r5)
        li      r4, 0x9F8003FE          # the last two of the scratchpad
        li      r6, 2
        li      r9, 0x2A                # memcpy
        jalr    r31, r10
        nop
        lhu     r16, 0(r2)              # 4241h
        li      r4, 0x1F8003FF          # the last byte of the scratchpad
        li      r5, 0x143
        li      r6, 1
        li      r9, 0x2B                # memset
        jalr    r31, r10
        sll     r16, r16, 16
        lhu     r17, -1(r2)             # 4341h
        li      r9, 0x06                # exit
        jr      r10
        or      r4, r16, r17
";
    shows(&rt, TEXT, b"", b" Exit 42414341\n");
}

// What was written before the first address that isn't user memory stands.
#[test]
fn memcpy_stops_where_its_destination_ends(rt: HostRuntime) {
    const TEXT: &[u8] = b"
start:
        li      r4, 0x801FFFFE          # two words
        la      r5, text                # two words
        li      r6, 4
        li      r9, 0x2A                # memcpy
        li      r10, 0xA0
        jalr    r31, r10                # at 8001001Ch, so r31 is 80010024h
        nop

text:   .asciiz \"abcd\"
";
    let host = runs_to(&rt, TEXT, b"", b" BadPointer 80200000 80010024\n");
    let end = host.sent(Out::Ram).get(0x1F_FFFE..0x20_0000);
    assert!(rt; end.expect(&rt, "main memory") == b"ab".as_slice());
}

#[test]
fn memset_stops_at_the_end_of_the_scratchpad(rt: HostRuntime) {
    const TEXT: &[u8] = b"
start:
        li      r4, 0x9F8003FE          # two words
        li      r5, 0x41
        li      r6, 3
        li      r9, 0x2B                # memset
        li      r10, 0xA0
        jalr    r31, r10                # at 80010018h, so r31 is 80010020h
        nop
";
    let host = runs_to(&rt, TEXT, b"", b" BadPointer 9F800400 80010020\n");
    let end = host.sent(Out::Ram).get(0x20_03FD..0x20_0400);
    assert!(rt; end.expect(&rt, "scratchpad") == b"\0AA".as_slice());
}

#[test]
fn strncpy_writes_up_to_the_end_of_memory_and_stops(rt: HostRuntime) {
    const TEXT: &[u8] = b"
start:
        li      r4, 0x801FFFFC          # two words
        la      r5, text                # two words
        li      r6, 8
        li      r9, 0x1A                # strncpy
        li      r10, 0xA0
        jalr    r31, r10                # at 8001001Ch, so r31 is 80010024h
        nop

text:   .asciiz \"abcdefgh\"
";
    let host = runs_to(&rt, TEXT, b"", b" BadPointer 80200000 80010024\n");
    let end = host.sent(Out::Ram).get(0x1F_FFFC..0x20_0000);
    assert!(rt; end.expect(&rt, "main memory") == b"abcd".as_slice());
}
