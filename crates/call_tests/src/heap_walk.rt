//! A long walk of calls of the heap. What they answer is computed by a second, plain list of blocks.
use crate::heap_calls::{answers, calloc, free, init_heap, malloc, realloc};
use std::process::Abort;

// A block of the heap.
#[derive(Clone, Copy, PartialEq, Eq, Debug)]
struct Block {
    at: u32,
    size: u32,
    used: bool,
}

// A plain list of the heap's blocks, in order.
#[derive(Drop)]
struct Blocks {
    list: Vec<Block>,
}

impl Blocks {
    // The place of the first block that is free and has so many bytes.
    fn free_place(&self, size: u32) -> Option<usize> {
        let mut i = 0usize;
        for block in self.list.iter() {
            if !block.used && block.size >= size {
                return Some(i);
            }
            i = i.wrapping_add(1);
        }
        None
    }

    // The place of the used block at an address.
    fn used_place(&self, at: u32) -> Option<usize> {
        let mut i = 0usize;
        for block in self.list.iter() {
            if block.used && block.at == at {
                return Some(i);
            }
            i = i.wrapping_add(1);
        }
        None
    }

    // The address of the n-th used block, counted round, or 0.
    fn some_used(&self, n: u32) -> u32 {
        let mut count = 0u32;
        for block in self.list.iter() {
            if block.used {
                count = count.wrapping_add(1);
            }
        }
        if count == 0 {
            return 0;
        }
        let mut left = n % count;
        for block in self.list.iter() {
            if block.used {
                if left == 0 {
                    return block.at;
                }
                left = left.wrapping_sub(1);
            }
        }
        0
    }

    fn malloc<R: AllocGlobal + Abort>(&mut self, rt: &R, n: u32) -> u32 {
        if n == 0 || n > 0xFFFF_FFF8 {
            return 0;
        }
        let size = n.wrapping_add(7) & 0xFFFF_FFF8;
        let Some(i) = self.free_place(size) else {
            return 0;
        };
        let block = *self.list.get(i).expect(rt, "a block");
        if block.size > size {
            if self.list.len() >= 512 {
                return 0;
            }
            let rest = Block {
                at: block.at.wrapping_add(size),
                size: block.size.wrapping_sub(size),
                used: false,
            };
            self.list.insert(i.wrapping_add(1), rest).expect(rt, "room");
        }
        let taken = self.list.get_mut(i).expect(rt, "a block");
        taken.size = size;
        taken.used = true;
        block.at
    }

    // The block at a place takes in the one behind it where both are free.
    fn join<R: AllocGlobal + Abort>(&mut self, rt: &R, i: usize) {
        let behind = i.wrapping_add(1);
        let Some(next) = self.list.get(behind).copied() else {
            return;
        };
        let block = self.list.get_mut(i).expect(rt, "a block");
        if !block.used && !next.used {
            block.size = block.size.wrapping_add(next.size);
            self.list.remove(behind);
        }
    }

    fn free<R: AllocGlobal + Abort>(&mut self, rt: &R, p: u32) {
        let Some(i) = self.used_place(p) else {
            return;
        };
        self.list.get_mut(i).expect(rt, "a block").used = false;
        self.join(rt, i);
        if i > 0 {
            self.join(rt, i.wrapping_sub(1));
        }
    }

    fn calloc<R: AllocGlobal + Abort>(&mut self, rt: &R, a: u32, b: u32) -> u32 {
        match a.checked_mul(b) {
            Some(n) => self.malloc(rt, n),
            None => 0,
        }
    }

    fn realloc<R: AllocGlobal + Abort>(&mut self, rt: &R, p: u32, n: u32) -> u32 {
        if p == 0 {
            return self.malloc(rt, n);
        }
        if n == 0 {
            self.free(rt, p);
            return 0;
        }
        if self.used_place(p) == None {
            return 0;
        }
        let at = self.malloc(rt, n);
        if at != 0 {
            self.free(rt, p);
        }
        at
    }
}

// 2,000 calls by random numbers, on a heap of 1,024 bytes; what they answer is computed by a plain list.
#[test]
fn a_long_walk_is_answered_as_a_plain_list_answers(rt: HostRuntime) {
    let mut calls = Vec::new(rt.alloc());
    calls
        .push((init_heap(0x8010_0000, 1024), 0))
        .expect(&rt, "room");
    let mut list = Vec::new(rt.alloc());
    list.push(Block {
        at: 0x8010_0000,
        size: 1024,
        used: false,
    })
    .expect(&rt, "room");
    let mut blocks = Blocks { list };
    let mut seed = 1u32;
    let mut given = 0u32;
    let mut refused = 0u32;
    for _ in 0..2000 {
        seed = seed.wrapping_mul(1_664_525).wrapping_add(1_013_904_223);
        let kind = seed >> 28;
        let n = (seed >> 16) % 80;
        let some = blocks.some_used(seed >> 8);
        let (call, answer) = match kind {
            0..=6 => (malloc(n), blocks.malloc(&rt, n)),
            7..=9 => {
                blocks.free(&rt, some);
                (free(some), 0)
            }
            10 => {
                let inside = 0x8010_0000u32.wrapping_add((seed >> 8) % 256 * 4);
                blocks.free(&rt, inside);
                (free(inside), 0)
            }
            11 => (calloc(n, seed % 4), blocks.calloc(&rt, n, seed % 4)),
            _ => (realloc(some, n), blocks.realloc(&rt, some, n)),
        };
        if answer != 0 {
            given = given.wrapping_add(1);
        } else {
            refused = refused.wrapping_add(1);
        }
        calls.push((call, answer)).expect(&rt, "room");
    }
    assert!(rt; given > 500);
    assert!(rt; refused > 500);
    answers(&rt, &calls);
}
