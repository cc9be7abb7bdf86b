//! The calls of the heap, each made by a program on the image.
use crate::hosts::{host_with, program};
use psx_base::{MemoryHost, Out};
use psxk_run::psxk;
use std::process::Abort;

// The numbers of the calls in table A.
const MEMSET: u32 = 0x2B;

const MALLOC: u32 = 0x33;

const FREE: u32 = 0x34;

const CALLOC: u32 = 0x37;

const REALLOC: u32 = 0x38;

const INIT_HEAP: u32 = 0x39;

// It makes the calls of a list from 80010080h on, four words each: the number in r9, and r4 to r6. It keeps their answers from 80020000h on, and ends at the number 0.
const PLAYER: &[u8] = b"
start:
        li      r10, 0xA0
        li      r16, 0x80010000
        addiu   r16, r16, 0x80
        li      r17, 0x80020000
next:   lw      r9, 0(r16)
        lw      r4, 4(r16)
        lw      r5, 8(r16)
        lw      r6, 12(r16)
        beq     r9, r0, end
        nop
        jalr    r31, r10
        nop
        sw      r2, 0(r17)
        addiu   r17, r17, 4
        beq     r0, r0, next
        addiu   r16, r16, 16
end:    li      r4, 0
        li      r9, 0x06                # exit
        jr      r10
        nop
";

// A call: its number and three arguments.
pub(crate) type Call = (u32, u32, u32, u32);

// The host behind a run of the calls, up to a stop.
fn played<R: AllocGlobal + Abort>(rt: &R, calls: &[Call], stop: &[u8]) -> MemoryHost {
    let mut maker = host_with(rt, "a.s", PLAYER);
    assert_eq!(rt; psxk(rt.alloc(), &["asm", "a.s"], &mut maker), 0);
    let mut words = Vec::new(rt.alloc());
    let (_, text) = maker
        .sent(Out::Ram)
        .split_at_checked(0x800)
        .expect(rt, "a header");
    let mut chunks = text.chunks_exact(4);
    // The program's words, and zeros up to the list.
    for _ in 0..0x20 {
        let word = match chunks.next() {
            Some(word) => {
                assert!(rt; word.len() == 4, "a word");
                u32::from_le_bytes([word[0], word[1], word[2], word[3]])
            }
            None => 0,
        };
        words.push(word).expect(rt, "room");
    }
    for (number, a, b, c) in calls {
        words
            .extend_from_slice(&[*number, *a, *b, *c])
            .expect(rt, "room");
    }
    words.push(0).expect(rt, "room");
    let file = program(rt, &words);
    let mut host = MemoryHost::new(rt.alloc(), 6_000_000).expect(rt, "room");
    host.put("a.exe", &file).expect(rt, "put");
    let status = if stop.starts_with(b" Exit ") { 0 } else { 1 };
    assert_eq!(rt;
        psxk(rt.alloc(), &["run", "a.exe", "-", "20000000"], &mut host),
        status,
        "{stop:?}"
    );
    assert!(rt; host.sent(Out::Trace).ends_with(stop), "{stop:?}");
    host
}

// The bytes of the final memory from a physical address on.
fn memory<'a, R: AllocGlobal + Abort>(rt: &R, host: &'a MemoryHost, at: usize) -> &'a [u8] {
    let (_, bytes) = host
        .sent(Out::Ram)
        .split_at_checked(at)
        .expect(rt, "memory");
    bytes
}

// The calls are answered so, and the program exits.
pub(crate) fn answers<R: AllocGlobal + Abort>(rt: &R, calls: &[(Call, u32)]) -> MemoryHost {
    let mut made = Vec::new(rt.alloc());
    for (call, _) in calls {
        made.push(*call).expect(rt, "room");
    }
    let host = played(rt, &made, b" Exit 00000000\n");
    let mut kept = memory(rt, &host, 0x2_0000).chunks_exact(4);
    for (call, answer) in calls {
        let word = kept.next().expect(rt, "an answer");
        assert!(rt; word.len() == 4, "a word");
        assert_eq!(rt;
            u32::from_le_bytes([word[0], word[1], word[2], word[3]]),
            *answer,
            "{call:?}"
        );
    }
    host
}

pub(crate) fn init_heap(p: u32, n: u32) -> Call {
    (INIT_HEAP, p, n, 0)
}

pub(crate) fn malloc(n: u32) -> Call {
    (MALLOC, n, 0, 0)
}

pub(crate) fn free(p: u32) -> Call {
    (FREE, p, 0, 0)
}

pub(crate) fn calloc(a: u32, b: u32) -> Call {
    (CALLOC, a, b, 0)
}

pub(crate) fn realloc(p: u32, n: u32) -> Call {
    (REALLOC, p, n, 0)
}

fn memset(d: u32, c: u32, n: u32) -> Call {
    (MEMSET, d, c, n)
}

#[test]
fn the_first_block_that_is_large_enough_is_given(rt: HostRuntime) {
    answers(
        &rt,
        &[
            (init_heap(0x8010_0000, 64), 0),
            (malloc(24), 0x8010_0000),
            (malloc(24), 0x8010_0018),
            (malloc(24), 0),
            // inside a block nothing is freed
            (free(0x8010_0008), 0),
            (malloc(24), 0),
            (free(0x8010_0000), 0),
            (free(0x8010_0018), 0),
            (malloc(48), 0x8010_0000),
        ],
    );
}

// Blocks of 8, 16, 8 and 24 bytes; the second one is freed, and 8 bytes of it are given, then 8 of the rest.
#[test]
fn a_larger_block_is_split(rt: HostRuntime) {
    answers(
        &rt,
        &[
            (init_heap(0x8010_0000, 56), 0),
            (malloc(8), 0x8010_0000),
            (malloc(16), 0x8010_0008),
            (malloc(8), 0x8010_0018),
            (malloc(24), 0x8010_0020),
            (free(0x8010_0008), 0),
            (malloc(1), 0x8010_0008),
            (malloc(9), 0),
            (malloc(8), 0x8010_0010),
            (malloc(1), 0),
        ],
    );
}

// Of three blocks the one in the middle is freed last, first, and between the others: each time 24 bytes are free at once.
#[test]
fn a_freed_block_is_joined_on_both_sides(rt: HostRuntime) {
    let orders = [
        [0x8010_0000, 0x8010_0010, 0x8010_0008],
        [0x8010_0008, 0x8010_0000, 0x8010_0010],
        [0x8010_0010, 0x8010_0008, 0x8010_0000],
    ];
    let mut calls = Vec::new(rt.alloc());
    for [a, b, c] in orders {
        calls
            .extend_from_slice(&[
                (init_heap(0x8010_0000, 32), 0),
                (malloc(8), 0x8010_0000),
                (malloc(8), 0x8010_0008),
                (malloc(8), 0x8010_0010),
                (malloc(8), 0x8010_0018),
                (free(a), 0),
                (free(b), 0),
                (malloc(24), 0),
                (free(c), 0),
                (malloc(24), 0x8010_0000),
            ])
            .expect(&rt, "room");
    }
    answers(&rt, &calls);
}

// A block is freed once; 0, the heap's end and an address before it are no blocks.
#[test]
fn what_is_no_used_block_is_not_freed(rt: HostRuntime) {
    answers(
        &rt,
        &[
            (free(0x8010_0000), 0),
            (init_heap(0x8010_0000, 16), 0),
            (malloc(8), 0x8010_0000),
            (malloc(8), 0x8010_0008),
            (free(0), 0),
            (free(0x8010_0010), 0),
            (free(0x800F_FFF8), 0),
            (free(0x0010_0000), 0),
            (free(0xA010_0008), 0),
            (malloc(8), 0),
            (free(0x8010_0008), 0),
            (free(0x8010_0008), 0),
            (malloc(8), 0x8010_0008),
            (malloc(8), 0),
        ],
    );
}

#[test]
fn a_size_that_cannot_be_rounded_gives_nothing(rt: HostRuntime) {
    answers(
        &rt,
        &[
            (malloc(8), 0),
            (init_heap(0x8010_0000, 64), 0),
            (malloc(0), 0),
            (malloc(0xFFFF_FFF8), 0),
            (malloc(0xFFFF_FFF9), 0),
            (malloc(0xFFFF_FFFF), 0),
            (malloc(0x8000_0000), 0),
            (malloc(65), 0),
            (malloc(57), 0x8010_0000),
        ],
    );
}

// The bytes that are there before are EEh. Nine of the block's sixteen become 0.
#[test]
fn calloc_clears_the_product(rt: HostRuntime) {
    let host = answers(
        &rt,
        &[
            (memset(0x8010_0000, 0xEE, 64), 0x8010_0000),
            (init_heap(0x8010_0000, 64), 0),
            (malloc(8), 0x8010_0000),
            (calloc(0x1_0000, 0x1_0000), 0),
            (calloc(0xFFFF_FFFF, 0xFFFF_FFFF), 0),
            (calloc(0x1_0001, 0xFFFF), 0),
            (calloc(0, 5), 0),
            (calloc(5, 0), 0),
            (calloc(3, 3), 0x8010_0008),
            (calloc(8, 6), 0),
            (calloc(5, 8), 0x8010_0018),
        ],
    );
    let mut bytes = Vec::new(rt.alloc());
    bytes.extend_from_slice(&[0xEE; 8]).expect(&rt, "room");
    bytes.extend_from_slice(&[0; 9]).expect(&rt, "room");
    bytes.extend_from_slice(&[0xEE; 7]).expect(&rt, "room");
    bytes.extend_from_slice(&[0; 40]).expect(&rt, "room");
    assert!(rt; memory(&rt, &host, 0x10_0000).starts_with(&bytes));
}

// The new block is behind the old one, which is still used: 8 bytes are copied, the bytes behind them are as they were.
#[test]
fn realloc_copies_the_old_block(rt: HostRuntime) {
    let host = answers(
        &rt,
        &[
            (memset(0x8010_0000, 0xEE, 64), 0x8010_0000),
            (init_heap(0x8010_0000, 64), 0),
            (calloc(0x1_0000, 0x1_0000), 0),
            (realloc(0, 8), 0x8010_0000),
            (memset(0x8010_0000, 0x11, 8), 0x8010_0000),
            (realloc(0x8010_0000, 40), 0x8010_0008),
            // the old one is free
            (malloc(8), 0x8010_0000),
        ],
    );
    let mut bytes = Vec::new(rt.alloc());
    bytes.extend_from_slice(&[0x11; 16]).expect(&rt, "room");
    bytes.extend_from_slice(&[0xEE; 48]).expect(&rt, "room");
    assert!(rt; memory(&rt, &host, 0x10_0000).starts_with(&bytes));
}

// Of 32 bytes the first 10 are copied, though the new block has 16.
#[test]
fn realloc_to_less_copies_less(rt: HostRuntime) {
    let host = answers(
        &rt,
        &[
            (memset(0x8010_0000, 0xEE, 64), 0x8010_0000),
            (init_heap(0x8010_0000, 64), 0),
            (malloc(32), 0x8010_0000),
            (memset(0x8010_0000, 0x22, 32), 0x8010_0000),
            (realloc(0x8010_0000, 10), 0x8010_0020),
            (malloc(16), 0x8010_0000),
        ],
    );
    let mut bytes = Vec::new(rt.alloc());
    bytes.extend_from_slice(&[0x22; 42]).expect(&rt, "room");
    bytes.extend_from_slice(&[0xEE; 22]).expect(&rt, "room");
    assert!(rt; memory(&rt, &host, 0x10_0000).starts_with(&bytes));
}

// Of a block of 9 bytes 16 are copied, since its size is rounded.
#[test]
fn realloc_to_more_copies_the_whole_block(rt: HostRuntime) {
    let host = answers(
        &rt,
        &[
            (memset(0x8010_0000, 0xEE, 64), 0x8010_0000),
            (init_heap(0x8010_0000, 64), 0),
            (malloc(9), 0x8010_0000),
            (memset(0x8010_0000, 0x33, 16), 0x8010_0000),
            (realloc(0x8010_0000, 17), 0x8010_0010),
        ],
    );
    let mut bytes = Vec::new(rt.alloc());
    bytes.extend_from_slice(&[0x33; 32]).expect(&rt, "room");
    bytes.extend_from_slice(&[0xEE; 32]).expect(&rt, "room");
    assert!(rt; memory(&rt, &host, 0x10_0000).starts_with(&bytes));
}

#[test]
fn realloc_without_a_new_block_keeps_the_old_one(rt: HostRuntime) {
    answers(
        &rt,
        &[
            (init_heap(0x8010_0000, 64), 0),
            (malloc(32), 0x8010_0000),
            (malloc(32), 0x8010_0020),
            // the old block isn't free while the new one is looked for
            (realloc(0x8010_0000, 32), 0),
            (realloc(0x8010_0000, 0xFFFF_FFFF), 0),
            (malloc(8), 0),
            // no used block
            (realloc(0x8010_0008, 8), 0),
            (realloc(0x8010_0008, 0), 0),
            (malloc(8), 0),
            // a size 0 frees
            (realloc(0x8010_0000, 0), 0),
            (realloc(0x8010_0000, 8), 0),
            (realloc(0x8010_0020, 8), 0x8010_0000),
            (realloc(0, 0), 0),
            (malloc(56), 0x8010_0008),
        ],
    );
}

// The heap begins at a multiple of 8, and loses the bytes before and behind.
#[test]
fn a_heap_is_rounded(rt: HostRuntime) {
    answers(
        &rt,
        &[
            (init_heap(0x8010_0001, 15), 0),
            (malloc(9), 0),
            (malloc(8), 0x8010_0008),
            (malloc(1), 0),
            (init_heap(0x8010_0007, 64), 0),
            (malloc(57), 0),
            (malloc(56), 0x8010_0008),
            // up to the last byte of main memory, and all of the scratchpad
            (init_heap(0x801F_FFF0, 23), 0),
            (malloc(16), 0x801F_FFF0),
            (init_heap(0x1F80_0000, 0x400), 0),
            (malloc(0x400), 0x1F80_0000),
        ],
    );
}

// A size 0 tests nothing, wherever the heap begins: there is no block then.
#[test]
fn a_heap_without_bytes_gives_nothing(rt: HostRuntime) {
    let heaps = [
        (0x8010_0000, 0),
        (0x8010_0000, 7),
        (0x8010_0001, 6),
        (0x8010_0001, 14),
        (0xFFFF_FFF9, 0),
        (0xFFFF_FFF9, 6),
        (0xFFFF_FFF9, 14),
        (0xFFFF_FFFF, 1),
        (0, 7),
    ];
    let mut calls = Vec::new(rt.alloc());
    for (p, n) in heaps {
        calls
            .extend_from_slice(&[
                (init_heap(0x8010_0000, 64), 0),
                (malloc(8), 0x8010_0000),
                (init_heap(p, n), 0),
                (malloc(1), 0),
                (free(0x8010_0000), 0),
                (malloc(8), 0),
                (realloc(0x8010_0000, 8), 0),
            ])
            .expect(&rt, "room");
    }
    answers(&rt, &calls);
}

// The second heap has nothing of the first one.
#[test]
fn a_heap_is_set_anew(rt: HostRuntime) {
    answers(
        &rt,
        &[
            (init_heap(0x8010_0000, 64), 0),
            (malloc(24), 0x8010_0000),
            (malloc(8), 0x8010_0018),
            (init_heap(0x8010_0000, 32), 0),
            (free(0x8010_0018), 0),
            (malloc(32), 0x8010_0000),
            (malloc(8), 0),
            (init_heap(0x8011_0000, 24), 0),
            (free(0x8010_0000), 0),
            (malloc(32), 0),
            (malloc(24), 0x8011_0000),
        ],
    );
}

// Behind main memory; the scratchpad isn't there in the uncached segment.
#[test]
fn a_heap_stops_at_its_first_bad_address(rt: HostRuntime) {
    played(
        &rt,
        &[init_heap(0x801F_FFF0, 24)],
        b" BadPointer 80200000 80010030\n",
    );
    played(
        &rt,
        &[init_heap(0xBF80_0000, 8)],
        b" BadPointer BF800000 80010030\n",
    );
}

// The first heap's base is FFFFFFF8h, and the second one's is 0.
#[test]
fn a_heap_at_the_last_addresses_stops(rt: HostRuntime) {
    played(
        &rt,
        &[init_heap(0xFFFF_FFF1, 23)],
        b" BadPointer FFFFFFF8 80010030\n",
    );
    played(
        &rt,
        &[init_heap(0xFFFF_FFF9, 15)],
        b" BadPointer 00000000 80010030\n",
    );
}

// There are 512 entries: 511 used ones and the rest. A block that is as large as what is asked needs no entry.
#[test]
fn a_full_table_gives_whole_blocks_alone(rt: HostRuntime) {
    let mut calls = Vec::new(rt.alloc());
    calls
        .push((init_heap(0x8010_0000, 65_536), 0))
        .expect(&rt, "room");
    for i in 0..511u32 {
        calls
            .push((malloc(8), 0x8010_0000u32.wrapping_add(i.wrapping_mul(8))))
            .expect(&rt, "room");
    }
    calls
        .extend_from_slice(&[
            (malloc(8), 0),
            (malloc(61_448), 0x8010_0FF8),
            (malloc(8), 0),
            // a larger one that is free can't be split; two that are joined leave an entry
            (free(0x8010_0FF8), 0),
            (malloc(61_440), 0),
            (free(0x8010_0000), 0),
            (malloc(8), 0x8010_0000),
            (free(0x8010_0FF0), 0),
            (malloc(61_440), 0x8010_0FF0),
            (realloc(0x8010_0008, 8), 0),
            (realloc(0x8010_0008, 16), 0x8010_FFF0),
            (malloc(8), 0x8010_0008),
        ])
        .expect(&rt, "room");
    answers(&rt, &calls);
}
