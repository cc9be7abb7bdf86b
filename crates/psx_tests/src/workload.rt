use crate::asm::{object, words};
use psx_gen::{SOURCE, WORDS, workload};
use psx_sched::{Entry, What};

#[test]
fn source_assembles_to_the_words(rt: HostRuntime) {
    assert_eq!(rt; words(&rt, rt.alloc(), SOURCE).as_slice(), WORDS.as_slice());
    let found = object(&rt, rt.alloc(), SOURCE);
    assert_eq!(rt; found.start, Some(0x8001_0000));
    assert_eq!(rt; found.parts.as_slice().len(), 1);
    assert_eq!(rt; found.parts.as_slice()[0].at, 0x8001_0000);
}

#[test]
fn program_and_schedule_of_three_rounds(rt: HostRuntime) {
    let (exe, schedule) = workload(rt.alloc(), 3).expect(&rt, "memory");
    assert_eq!(rt; (exe.pc, exe.dest), (0x8001_0000, 0x8001_0000));
    assert_eq!(rt; (exe.gp, exe.sp_base, exe.sp_offset), (0, 0, 0));
    assert_eq!(rt; (exe.fill_start, exe.fill_size), (0, 0));
    assert_eq!(rt; exe.text.len(), 460);
    assert!(rt; exe.text.as_slice().starts_with(&[0xA0, 0, 0x10, 0x24]));
    assert!(rt; exe.text.as_slice().ends_with(&[3, 0, 0, 0]));
    let blank = |count: u64| Entry {
        count,
        what: What::Line(0),
    };
    let wanted = [blank(500_000), blank(510_000), blank(520_000)];
    assert_eq!(rt; schedule.entries(), wanted.as_slice());
}
