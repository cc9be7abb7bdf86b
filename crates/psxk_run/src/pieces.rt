//! Pieces of fixed room, in which a run's texts are sent.
ghost use Rattle.std.specs.Prelude.{◌≡◌, ◌≤◌, ◌+◌, [], ◌++◌, length, OnOk, OnErr};
ghost use Rattle.arrayvec.specs.ArrayVec.{array_vec_len};
ghost use Rattle.psx_base.specs.Host.{Rose};
ghost use Rattle.psxk_run.specs.Sent.{Grew, GoesOn, OnlyOn};
ghost use Rattle.psxk_run.specs.Pieces.{Puts, Breaks};

use arrayvec::ArrayVec;
use psx_base::{Host, Out, SendError};

/// The bytes that wait to be sent on an output.
pub(crate) type Piece = ArrayVec<u8, 4096>;

// Sends a piece, which is empty afterwards.
pub(crate) fn flush<H: Host>(host: &mut H, out: Out, piece: &mut Piece) -> Result<(), SendError>
    ensures sent { OnOk result (Grew (H.sent host.old out) (H.sent host.new out) piece.old.items) }
    ensures empty { OnOk result (piece.new.items ≡ []) }
    ensures others { OnlyOn out (H.sent host.old) (H.sent host.new) }
    ensures breaks { OnErr result (Breaks (H.sent host.old) (H.sent host.new) out piece.old.items) }
    ensures failed { OnErr result (Rose (H.send_faults host.old) (H.send_faults host.new)) }
    ensures on { GoesOn H.holds H.load_faults H.send_faults host.old host.new }
{
    host.send(out, piece.as_slice())?;
    piece.clear();
    Ok(())
}

// Puts bytes behind a piece for which there is room.
fn append(piece: &mut Piece, bytes: &[u8])
    requires { array_vec_len piece.old + length bytes.now ≤ 4096 }
    ensures { piece.new.items ≡ piece.old.items ++ bytes.now }
{
    if piece.try_extend_from_slice(bytes).is_err() {
        unreachable!();
    }
}

// Puts bytes behind a piece, which is sent first where it has no room for them.
pub(crate) fn put<H: Host>(
    host: &mut H,
    out: Out,
    piece: &mut Piece,
    bytes: &[u8],
) -> Result<(), SendError>
    requires { length bytes.now ≤ 4096 }
    ensures puts { OnOk result (Puts (H.sent host.old out) (H.sent host.new out) piece.old.items bytes.now piece.new.items) }
    ensures others { OnlyOn out (H.sent host.old) (H.sent host.new) }
    ensures breaks { OnErr result (Breaks (H.sent host.old) (H.sent host.new) out piece.old.items) }
    ensures failed { OnErr result (Rose (H.send_faults host.old) (H.send_faults host.new)) }
    ensures on { GoesOn H.holds H.load_faults H.send_faults host.old host.new }
{
    if piece.remaining_capacity() < bytes.len() {
        flush(host, out, piece)?;
    }
    append(piece, bytes);
    Ok(())
}
