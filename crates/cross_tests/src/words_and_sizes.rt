//! The words of the command line and the call that they make; the configuration text.
use psx_base::{NoFailHost, Sizes};
use psxk_run::command::{Request, budget, command};
use psxk_run::{ConfError, config, psxk};

#[test]
fn reads_the_words(rt: HostRuntime) {
    assert_eq!(rt; budget("2000000"), Some(2_000_000));
    assert_eq!(rt; budget("4000000001"), None);
    assert_eq!(rt; budget("010"), None);
    let Some(Request::Run(run)) = command(&["run", "a", "-", "20"]) else {
        panic!(rt; "a run");
    };
    assert_eq!(rt; (run.schedule, run.budget), (None, 20));
    let Some(Request::Run(run)) = command(&["run", "a", "b", "20", "c"]) else {
        panic!(rt; "a run");
    };
    assert_eq!(rt; (run.schedule, run.config), (Some("b"), Some("c")));
}

#[test]
fn answers_other_words(rt: HostRuntime) {
    let mut host = NoFailHost::new(rt.alloc());
    assert_eq!(rt; psxk(rt.alloc(), &["run"], &mut host), 2);
}

#[test]
fn sizes_of_a_configuration(rt: HostRuntime) {
    let text = b"BOOT = cdrom:\\MAIN.EXE;1\r\nTCB = 6\r\nEVENT = 20\r\nSTACK = 801FFFF0\r\n";
    let sizes = Sizes {
        threads: 6,
        events: 32,
    };
    assert_eq!(rt; config(text), Ok(sizes));
    let least = Sizes {
        threads: 4,
        events: 16,
    };
    assert_eq!(rt; config(b""), Ok(least));
    assert_eq!(rt; config(b"TCB = 3\n"), Err(ConfError::Range { line: 1 }));
    assert_eq!(rt;
        config(b"BOOT=\n\t TCB\t=10 \nTCB = 3"),
        Err(ConfError::BadLine { line: 3 })
    );
    assert_eq!(rt;
        config(b"TCB = 6\r\r\n"),
        Err(ConfError::BadLine { line: 1 })
    );
    assert_eq!(rt; config(b"tcb = 6"), Err(ConfError::BadLine { line: 1 }));
}
