//! The laws of memory, as every crate above may use them.
ghost use Rattle.std.specs.Prelude.{◌≡◌, ◌≢◌, ℕ, List, ◌+◌, ◌-◌, ◌<◌, ◌≤◌, length, slice_index, IsTrue, nat_le, if◌then◌else◌};
ghost use Rattle.psx_base.specs.Memory.{Memory, byte, half, word, put_byte, put_half, put_word, put_bytes};
ghost use Rattle.psx_ram.specs.Apart.{apart};
ghost use Rattle.psx_ram.specs.Words.{word_at};
ghost use Rattle.psx_ram.specs.Parts.{reset_memory};

/// What is read after a write: at the same address what was written there last, and elsewhere what was read before.
///
/// Its clauses hold of every memory, address and number. It does nothing.
pub fn laws()
    ensures byte_same { (m : Memory) (a v : ℕ) → byte (put_byte m a v) a ≡ v }
    ensures byte_apart { (m : Memory) (a v b : ℕ) → b ≢ a → byte (put_byte m a v) b ≡ byte m b }

    ensures half_same { (m : Memory) (a v : ℕ) → half (put_half m a v) a ≡ v }
    ensures half_apart { (m : Memory) (a v b : ℕ) → IsTrue (apart a 2 b 2) → half (put_half m a v) b ≡ half m b }
    ensures half_kept_by_byte { (m : Memory) (a v b : ℕ) → IsTrue (apart a 1 b 2) → half (put_byte m a v) b ≡ half m b }
    ensures half_kept_by_word { (m : Memory) (a v b : ℕ) → IsTrue (apart a 4 b 2) → half (put_word m a v) b ≡ half m b }
    ensures byte_kept_by_half { (m : Memory) (a v b : ℕ) → IsTrue (apart a 2 b 1) → byte (put_half m a v) b ≡ byte m b }

    ensures word_same { (m : Memory) (a v : ℕ) → word (put_word m a v) a ≡ v }
    ensures word_apart { (m : Memory) (a v b : ℕ) → IsTrue (apart a 4 b 4) → word (put_word m a v) b ≡ word m b }
    ensures word_kept_by_byte { (m : Memory) (a v b : ℕ) → IsTrue (apart a 1 b 4) → word (put_byte m a v) b ≡ word m b }
    ensures word_kept_by_half { (m : Memory) (a v b : ℕ) → IsTrue (apart a 2 b 4) → word (put_half m a v) b ≡ word m b }
    ensures byte_kept_by_word { (m : Memory) (a v b : ℕ) → IsTrue (apart a 4 b 1) → byte (put_word m a v) b ≡ byte m b }

    ensures bytes_same { (m : Memory) (a : ℕ) (xs : List ℕ) (k : ℕ) → k < length xs → byte (put_bytes m a xs) (a + k) ≡ slice_index xs k }
    ensures bytes_apart { (m : Memory) (a : ℕ) (xs : List ℕ) (b : ℕ) → IsTrue (apart a (length xs) b 1) → byte (put_bytes m a xs) b ≡ byte m b }
    ensures word_in_bytes { (m : Memory) (a : ℕ) (xs : List ℕ) (k : ℕ) → k + 4 ≤ length xs → word (put_bytes m a xs) (a + k) ≡ word_at xs k }
    ensures word_beside_bytes { (m : Memory) (a : ℕ) (xs : List ℕ) (b : ℕ) → IsTrue (apart a (length xs) b 4) → word (put_bytes m a xs) b ≡ word m b }

    // The board's memory at first: the ROM at its place, and else 0.
    ensures reset { (rom : List ℕ) (a : ℕ) → byte (reset_memory rom) a ≡ (if nat_le 0x1FC00000 a then slice_index rom (a - 0x1FC00000) else 0) }
{}
