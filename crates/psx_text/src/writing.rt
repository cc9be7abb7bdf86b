//! Texts that are written, of fixed room.
ghost use Rattle.std.specs.Prelude.{◌≡◌, ◌≤◌, ◌+◌, ◌++◌, length};
ghost use Rattle.arrayvec.specs.ArrayVec.{array_vec_len};

use arrayvec::ArrayVec;

/// Appends bytes for which there is room.
pub fn put<const N: usize>(text: &mut ArrayVec<u8, N>, bytes: &[u8])
    requires { array_vec_len text.old + length bytes.now ≤ N }
    ensures items { text.new.items ≡ text.old.items ++ bytes.now }
    ensures len { array_vec_len text.new ≡ array_vec_len text.old + length bytes.now }
{
    if text.try_extend_from_slice(bytes).is_err() {
        unreachable!();
    }
}
