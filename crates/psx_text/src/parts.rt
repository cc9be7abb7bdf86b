//! Parts of a text.
ghost use Rattle.std.specs.Prelude.{◌≡◌, ◌≤◌, drop, length, slice_index, take};

/// The bytes from a place on: none where the text ends before it.
pub fn skip(text: &[u8], count: usize) -> &[u8]
    ensures { result.now ≡ drop count text.now }
{
    if count <= text.len() {
        &text[count..]
    } else {
        &[]
    }
}

/// The first bytes of a text: all of them where there are fewer.
pub fn front(text: &[u8], count: usize) -> &[u8]
    ensures { result.now ≡ take count text.now }
{
    if count <= text.len() {
        &text[..count]
    } else {
        text
    }
}

/// The byte at a place, or 0 behind the end.
pub fn byte_at(text: &[u8], at: usize) -> u8
    ensures { result ≡ slice_index text.now at }
{
    if at < text.len() { text[at] } else { 0 }
}
