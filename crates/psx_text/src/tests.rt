//! Parts and digits of texts.
use crate::{byte_at, count_of, digit_value, digits_len, front, hex_digit, put, skip};
use arrayvec::ArrayVec;

#[test]
fn parts_of_a_text(rt: HostRuntime) {
    let text = b"abc".as_slice();
    assert_eq!(rt; skip(text, 2), b"c".as_slice());
    assert_eq!(rt; skip(text, 4), b"".as_slice());
    assert_eq!(rt; front(text, 2), b"ab".as_slice());
    assert_eq!(rt; front(text, 4), text);
    assert_eq!(rt; (byte_at(text, 2), byte_at(text, 3)), (b'c', 0));
}

#[test]
fn digits_of_numbers(rt: HostRuntime) {
    assert_eq!(rt;
        (hex_digit(9), hex_digit(10), hex_digit(15)),
        (b'9', b'A', b'F')
    );
    assert_eq!(rt;
        (digit_value(b'9'), digit_value(b'A'), digit_value(b'F')),
        (9, 10, 15)
    );
    assert_eq!(rt; digits_len(b"120 a"), 3);
    assert_eq!(rt;
        count_of(b"18446744073709551615"),
        18_446_744_073_709_551_615
    );
}

#[test]
fn bytes_behind_bytes(rt: HostRuntime) {
    let mut text: ArrayVec<u8, 4> = ArrayVec::new();
    put(&mut text, b"ab");
    put(&mut text, b"cd");
    assert_eq!(rt; text.as_slice(), b"abcd".as_slice());
}
