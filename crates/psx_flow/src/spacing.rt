//! Whether loads have room behind them.
ghost use Rattle.std.specs.Prelude.{◌≡◌};
ghost use Rattle.psx_flow.specs.Spaced.{has_room as has_room_by, load_of, is_spaced};

use crate::load::{loaded, touches};
use crate::node::Node;
use psx_ins::ins::Ins;

// Whether an instruction that the nodes follow is no load, or one with room.
fn has_room(ins: Ins, behind: &[Node]) -> bool
    ensures { result ≡ has_room_by (load_of ins) behind.now }
{
    let Some(reg) = loaded(ins) else {
        return true;
    };
    if reg.0 == 0 {
        return true;
    }
    match behind.first() {
        Some(Node::Op(next)) => !touches(*next, reg),
        _ => false,
    }
}

/// Whether each Op that loads a register other than r0 is followed directly by an Op that neither reads nor writes that
/// register. MFC0 is a load too.
pub fn spaced(nodes: &[Node]) -> bool
    ensures { result ≡ is_spaced nodes.now }
{
    let mut rest = nodes;
    while let Some((node, behind)) = rest.split_first() {
        if let Node::Op(ins) = node {
            if !has_room(*ins, behind) {
                return false;
            }
        }
        rest = behind;
    }
    true
}
