use crate::{Kind, LexError, Token, tokens};
use std::test::Fail;

fn token(kind: Kind, from: usize, to: usize) -> Token {
    Token { kind, from, to }
}

#[test]
fn tokens_of_each_kind(rt: HostRuntime) -> Result<(), Fail> {
    let line = b"x: .ascii -0x1F, \"a\\\"#\" 'q'+12ab # \x01";
    let found = tokens(rt.alloc(), line).expect(&rt, "eight tokens");
    let number = |value| Kind::Number { value };
    assert_eq!(rt;
        found.as_slice(),
        [
            token(Kind::Name, 0, 1),
            token(Kind::Mark, 1, 2),
            token(Kind::Directive, 3, 9),
            token(number(-31), 10, 15),
            token(Kind::Text, 17, 23),
            token(number(113), 24, 27),
            token(Kind::Mark, 27, 28),
            token(number(12), 28, 30),
            token(Kind::Name, 30, 32),
        ]
        .as_slice()
    );
    Ok(())
}

#[test]
fn numbers_at_the_ends_of_their_range(rt: HostRuntime) {
    let value = |line: &[u8]| match tokens(rt.alloc(), line) {
        Ok(found) => match found.first() {
            Some(
                Token {
                    kind: Kind::Number { value },
                    from: _,
                    to: _,
                },
            ) => Some(*value),
            _ => None,
        },
        Err(_) => None,
    };
    assert_eq!(rt; value(b"4294967295"), Some(4_294_967_295));
    assert_eq!(rt; value(b"0xfFfFfFfF"), Some(4_294_967_295));
    assert_eq!(rt; value(b"-002147483648"), Some(-2_147_483_648));
    assert_eq!(rt; value(b"-'a'"), Some(-97));
    assert_eq!(rt; value(b"0x"), Some(0));
}

#[test]
fn bytes_that_begin_no_token(rt: HostRuntime) {
    let fault = |line: &[u8]| match tokens(rt.alloc(), line) {
        Ok(_) => None,
        Err(fault) => Some(fault),
    };
    assert_eq!(rt; fault(b"addu $4"), Some(LexError::BadToken { at: 5 }));
    assert_eq!(rt; fault(b" 4294967296"), Some(LexError::BadToken { at: 1 }));
    assert_eq!(rt; fault(b"-2147483649"), Some(LexError::BadToken { at: 0 }));
    assert_eq!(rt; fault(b"'''"), Some(LexError::BadToken { at: 0 }));
    assert_eq!(rt; fault(b"\"\\q\""), Some(LexError::BadToken { at: 0 }));
    assert_eq!(rt; fault(&[b'a'; 64]), Some(LexError::BadToken { at: 0 }));
    assert_eq!(rt; fault(&[b'a'; 63]), None);
    assert_eq!(rt; fault(b"\t, "), None);
}
