//! What the proofs of the image's words may use of the ROM: each function's contract is the law, and the function does nothing.
ghost use Rattle.std.specs.Prelude.{◌≡◌, length};
ghost use Rattle.abs_run.specs.Serves.{GatesRead};
ghost use Rattle.kern_image.specs.Rom.{rom};
ghost use Rattle.kern_image.specs.RomLaws.{BytesFit, WordsRead, WordsFit, BootReads, BlockReads, BlockOpens, FixedReads, FixedHolds, PiecesStand};

/// The ROM is 524,288 bytes.
pub fn rom_bytes()
    ensures bytes { BytesFit }
    ensures length { length rom ≡ 0x80000 }
{}

/// Its words are those of the definition.
pub fn rom_words()
    ensures read { WordsRead }
    ensures fit { WordsFit }
{}

/// The boot code stands where the processor begins.
pub fn boot_words()
    ensures { BootReads }
{}

/// The kernel's block stands behind it. In its data ranges it has the opening values.
pub fn block_words()
    ensures read { BlockReads }
    ensures opens { BlockOpens }
{}

/// Memory holds the ROM's vector, gates, tables and code where, and only where, it has the block's words in their ranges.
pub fn fixed_words()
    ensures read { FixedReads }
    ensures hold { FixedHolds }
{}

/// In memory that holds the ROM, the words of the kernel's code and tables stand where they are placed.
pub fn pieces_stand()
    ensures { PiecesStand }
{}

/// In memory that holds the ROM, the word at each gate is a SYSCALL.
pub fn gates()
    ensures { GatesRead rom }
{}
