//! setjmp, longjmp and FlushCache, each made by a program on the image.
use crate::hosts::{runs_to, shows};
use psx_base::Out;
use test_hosts::stands_in;

#[test]
fn longjmp_returns_to_the_place_of_setjmp(rt: HostRuntime) {
    const TEXT: &[u8] = b"
start:
        li      r10, 0xA0
        li      r7, 1
        la      r4, buffer
        li      r9, 0x13                # setjmp
        jalr    r31, r10
        li      r2, 5
        sll     r7, r7, 4               # each answer is a digit
        or      r7, r7, r2
        bne     r2, r0, done
        li      r5, 9
        li      r9, 0x14                # longjmp
        jalr    r31, r10
        nop
done:
        move    r4, r7
        li      r9, 0x06                # exit
        jr      r10
        nop

buffer: .space  48
";
    shows(&rt, TEXT, b"", b" Exit 00000109\n");
}

// The twelve are those of setjmp, all others those of longjmp. r26 is the place that is returned to.
#[test]
fn longjmp_gives_twelve_registers_back(rt: HostRuntime) {
    const TEXT: &[u8] = b"
start:
        li      r10, 0xA0
        la      r4, buffer              # two words; the buffer is at 80010098h
        li      r16, 0x110
        li      r17, 0x111
        li      r18, 0x112
        li      r19, 0x113
        li      r20, 0x114
        li      r21, 0x115
        li      r22, 0x116
        li      r23, 0x117
        li      r28, 0x11C
        li      r29, 0x11D
        li      r30, 0x11E
        li      r9, 0x13                # setjmp
        jalr    r31, r10                # at 8001003Ch, so r31 is 80010044h
        nop
        bne     r2, r0, done
        nop
        li      r16, 0x210
        li      r17, 0x211
        li      r18, 0x212
        li      r19, 0x213
        li      r20, 0x214
        li      r21, 0x215
        li      r22, 0x216
        li      r23, 0x217
        li      r28, 0x21C
        li      r29, 0x21D
        li      r30, 0x21E
        li      r5, 9
        li      r9, 0x14                # longjmp
        jalr    r31, r10
        nop
done:
        li      r4, 0
        li      r9, 0x06                # exit
        jr      r10
        nop

buffer: .space  48
";
    const WORDS: &[u8] =
        b"\x44\x00\x01\x80\x1D\x01\0\0\x1E\x01\0\0\x10\x01\0\0\x11\x01\0\0\x12\x01\0\0\x13\x01\0\0\x14\x01\0\0\x15\x01\0\0\x16\x01\0\0\x17\x01\0\0\x1C\x01\0\0";
    let host = runs_to(&rt, TEXT, b"", b" Exit 00000000\n");
    let shown =
        b" 80010044 00000401 00000000 00000000 00000000 00000009 00000000 80010098 00000009 00000000 00000000 00000000 00000014 000000A0 \
00000000 00000000 00000000 00000000 00000000 00000110 00000111 00000112 00000113 00000114 00000115 00000116 00000117 00000000 00000000 \
80010044 00000000 0000011C 0000011D 0000011E 80010044\n";
    assert!(rt; stands_in(host.sent(Out::Trace), shown));
    let buffer = host.sent(Out::Ram).get(0x1_0098..0x1_00C8);
    assert!(rt; buffer.expect(&rt, "main memory") == WORDS);
}

#[test]
fn setjmp_stops_at_an_address_that_is_no_multiple_of_4(rt: HostRuntime) {
    const TEXT: &[u8] = b"
start:
        li      r4, 0x80010002          # two words
        li      r9, 0x13                # setjmp
        li      r10, 0xA0
        jalr    r31, r10                # at 80010010h, so r31 is 80010018h
        nop
";
    shows(&rt, TEXT, b"", b" BadPointer 80010002 80010018\n");
}

#[test]
fn longjmp_stops_at_an_address_that_is_no_multiple_of_4(rt: HostRuntime) {
    const TEXT: &[u8] = b"
start:
        li      r4, 0x80010006          # two words
        li      r9, 0x14                # longjmp
        li      r10, 0xA0
        jalr    r31, r10                # at 80010010h, so r31 is 80010018h
        nop
";
    shows(&rt, TEXT, b"", b" BadPointer 80010006 80010018\n");
}

#[test]
fn setjmp_stops_at_the_pointer_0(rt: HostRuntime) {
    const TEXT: &[u8] = b"
start:
        li      r4, 0
        li      r9, 0x13                # setjmp
        li      r10, 0xA0
        jalr    r31, r10                # at 8001000Ch, so r31 is 80010014h
        nop
";
    shows(&rt, TEXT, b"", b" BadPointer 00000000 80010014\n");
}

#[test]
fn longjmp_stops_at_the_pointer_0(rt: HostRuntime) {
    const TEXT: &[u8] = b"
start:
        li      r4, 0
        li      r9, 0x14                # longjmp
        li      r10, 0xA0
        jalr    r31, r10                # at 8001000Ch, so r31 is 80010014h
        nop
";
    shows(&rt, TEXT, b"", b" BadPointer 00000000 80010014\n");
}

// The three words before the first bad address stand: r31, sp and fp.
#[test]
fn setjmp_writes_up_to_the_end_of_memory_and_stops(rt: HostRuntime) {
    const TEXT: &[u8] = b"
start:
        li      r4, 0x801FFFF4          # two words
        li      r29, 0x11D
        li      r30, 0x11E
        li      r9, 0x13                # setjmp
        li      r10, 0xA0
        jalr    r31, r10                # at 80010018h, so r31 is 80010020h
        nop
";
    let host = runs_to(&rt, TEXT, b"", b" BadPointer 80200000 80010020\n");
    let end = host.sent(Out::Ram).get(0x1F_FFF4..0x20_0000);
    assert!(rt;
        end.expect(&rt, "main memory") == b"\x20\x00\x01\x80\x1D\x01\0\0\x1E\x01\0\0".as_slice()
    );
}

// The last 48 bytes of the scratchpad are a buffer, and those from the second word on are none. The stop names the caller's r31, though the buffer's first word has been read.
#[test]
fn longjmp_stops_where_user_memory_ends_before_the_words(rt: HostRuntime) {
    const TEXT: &[u8] = b"
start:
        li      r10, 0xA0
        li      r4, 0x9F8003D0          # two words
        li      r9, 0x13                # setjmp
        jalr    r31, r10
        nop
        addiu   r4, r4, 4
        li      r9, 0x14                # longjmp
        jalr    r31, r10                # at 80010020h, so r31 is 80010028h
        nop
";
    shows(&rt, TEXT, b"", b" BadPointer 9F800400 80010028\n");
}

// An instruction that was written is fetched, and the answer is 0.
#[test]
fn flush_cache_answers_0_and_what_was_written_is_fetched(rt: HostRuntime) {
    const TEXT: &[u8] = b"
start:
        la      r16, there
        li      r17, 0x24040007         # li r4, 7
        sw      r17, 0(r16)
        li      r10, 0xA0
        li      r9, 0x44                # FlushCache
        jalr    r31, r10
        li      r2, 5
there:
        li      r4, 1
        or      r4, r4, r2
        li      r9, 0x06                # exit
        jr      r10
        nop
";
    shows(&rt, TEXT, b"", b" Exit 00000007\n");
}
