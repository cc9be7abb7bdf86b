//! Kinds of bytes, and how far those of one kind go.
ghost use Rattle.std.specs.Prelude.{◌≡◌};
ghost use Rattle.std.specs.Char.{is_ascii_hexdigit};
ghost use Rattle.std.specs.List.{prefix_len};
ghost use Rattle.psx_lex.specs.Lexeme.{is_name_start, is_name_byte, is_mark, is_escape};

// Whether a name can begin with a byte.
pub(crate) fn is_start(byte: u8) -> bool
    ensures { result ≡ is_name_start byte }
{
    byte.is_ascii_alphabetic() || byte == b'_'
}

// How many bytes of a name a text begins with.
pub(crate) fn name_len(text: &[u8]) -> usize
    ensures { result ≡ prefix_len is_name_byte text.now }
{
    text.iter()
        .take_while(|byte| byte.is_ascii_alphanumeric() || **byte == b'_')
        .count()
}

// How many hexadecimal digits a text begins with.
pub(crate) fn hex_len(text: &[u8]) -> usize
    ensures { result ≡ prefix_len is_ascii_hexdigit text.now }
{
    text.iter()
        .take_while(|byte| byte.is_ascii_hexdigit())
        .count()
}

// Whether a byte is a mark.
pub(crate) fn is_mark(byte: u8) -> bool
    ensures { result ≡ is_mark byte }
{
    (byte == b':' || byte == b'(') || (byte == b')' || byte == b'+')
}

// Whether a byte stands behind a backslash.
pub(crate) fn is_escape(byte: u8) -> bool
    ensures { result ≡ is_escape byte }
{
    (byte == b'n' || byte == b't') || (byte == b'0' || (byte == b'\\' || byte == b'"'))
}
