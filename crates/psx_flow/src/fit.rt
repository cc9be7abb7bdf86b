// What may stand in a listing by itself.
ghost use Rattle.std.specs.Prelude.{◌≡◌, ◌||◌};
ghost use Rattle.psx_flow.specs.Well.{enters_or_leaves, is_op, is_register, test_fits};
ghost use Rattle.psx_flow.specs.Nodes.{node_fits};
ghost use Rattle.psx_cpu.specs.Guard.{is_branch};

use crate::node::{Node, Test};
use psx_ins::fits;
use psx_ins::ins::Ins;
use psx_ins::reg::Reg;

// Whether an instruction is a branch, a jump, or one that enters or leaves the kernel.
fn goes_elsewhere(ins: Ins) -> bool
    ensures { result ≡ (is_branch ins || enters_or_leaves ins) }
{
    match ins {
        Ins::JR { .. }
        | Ins::JALR { .. }
        | Ins::SYSCALL { .. }
        | Ins::BREAK { .. }
        | Ins::BLTZ { .. }
        | Ins::BGEZ { .. }
        | Ins::BLTZAL { .. }
        | Ins::BGEZAL { .. }
        | Ins::J { .. }
        | Ins::JAL { .. }
        | Ins::BEQ { .. }
        | Ins::BNE { .. }
        | Ins::BLEZ { .. }
        | Ins::BGTZ { .. }
        | Ins::RFE => true,
        _ => false,
    }
}

fn is_reg(reg: Reg) -> bool
    ensures { result ≡ is_register reg }
{
    reg.0 < 32
}

fn is_test(test: Test) -> bool
    ensures { result ≡ test_fits test }
{
    match test {
        Test::Same(a, b) | Test::Differ(a, b) => is_reg(a) && is_reg(b),
        Test::NotAbove(a) | Test::Above(a) | Test::Negative(a) | Test::NotNegative(a) => is_reg(a),
    }
}

// Whether a node may stand in a listing, its brackets aside.
pub fn may_stand(node: Node) -> bool
    ensures { result ≡ node_fits node }
{
    match node {
        Node::Op(ins) => !goes_elsewhere(ins) && fits(ins),
        Node::If(test) | Node::While(test) => is_test(test),
        Node::JumpTo(reg) => is_reg(reg),
        Node::Other | Node::End | Node::Call(_) | Node::Jump(_) => true,
    }
}
