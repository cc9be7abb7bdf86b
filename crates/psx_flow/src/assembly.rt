//! Instructions as nodes, written as in assembly language (R3000A manual, instruction set): the register that takes the result stands first.
//! A crate that writes listings with it uses psx_ins too.

/// A register by its name, `r0` to `r31`.
#[macro_export]
macro_rules! register {
    (r0) => { psx_ins::reg::Reg(0) };
    (r1) => { psx_ins::reg::Reg(1) };
    (r2) => { psx_ins::reg::Reg(2) };
    (r3) => { psx_ins::reg::Reg(3) };
    (r4) => { psx_ins::reg::Reg(4) };
    (r5) => { psx_ins::reg::Reg(5) };
    (r6) => { psx_ins::reg::Reg(6) };
    (r7) => { psx_ins::reg::Reg(7) };
    (r8) => { psx_ins::reg::Reg(8) };
    (r9) => { psx_ins::reg::Reg(9) };
    (r10) => { psx_ins::reg::Reg(10) };
    (r11) => { psx_ins::reg::Reg(11) };
    (r12) => { psx_ins::reg::Reg(12) };
    (r13) => { psx_ins::reg::Reg(13) };
    (r14) => { psx_ins::reg::Reg(14) };
    (r15) => { psx_ins::reg::Reg(15) };
    (r16) => { psx_ins::reg::Reg(16) };
    (r17) => { psx_ins::reg::Reg(17) };
    (r18) => { psx_ins::reg::Reg(18) };
    (r19) => { psx_ins::reg::Reg(19) };
    (r20) => { psx_ins::reg::Reg(20) };
    (r21) => { psx_ins::reg::Reg(21) };
    (r22) => { psx_ins::reg::Reg(22) };
    (r23) => { psx_ins::reg::Reg(23) };
    (r24) => { psx_ins::reg::Reg(24) };
    (r25) => { psx_ins::reg::Reg(25) };
    (r26) => { psx_ins::reg::Reg(26) };
    (r27) => { psx_ins::reg::Reg(27) };
    (r28) => { psx_ins::reg::Reg(28) };
    (r29) => { psx_ins::reg::Reg(29) };
    (r30) => { psx_ins::reg::Reg(30) };
    (r31) => { psx_ins::reg::Reg(31) };
}

/// An instruction as a node: `op!(ADDIU r8, r9, 1)`, `op!(SLL r8, r9, 2)`, `op!(LW r8, 4(r9))`, `op!(NOP)`. Branches and jumps aren't written so: they are no nodes.
#[macro_export]
macro_rules! op {
    (@ $name:ident { $($field:ident: $register:ident),* } $($number:ident: $value:expr)?) => {
        $crate::node::Node::Op(psx_ins::ins::Ins::$name { $($field: $crate::register!($register),)* $($number: $value)? })
    };
    (NOP) => { $crate::op!(SLL r0, r0, 0) };
    // Shifts.
    (SLLV $d:ident, $t:ident, $s:ident) => { $crate::op!(@ SLLV { s: $s, t: $t, d: $d }) };
    (SRLV $d:ident, $t:ident, $s:ident) => { $crate::op!(@ SRLV { s: $s, t: $t, d: $d }) };
    (SRAV $d:ident, $t:ident, $s:ident) => { $crate::op!(@ SRAV { s: $s, t: $t, d: $d }) };
    (SLL $d:ident, $t:ident, $n:literal) => { $crate::op!(@ SLL { t: $t, d: $d } n: $n) };
    (SRL $d:ident, $t:ident, $n:literal) => { $crate::op!(@ SRL { t: $t, d: $d } n: $n) };
    (SRA $d:ident, $t:ident, $n:literal) => { $crate::op!(@ SRA { t: $t, d: $d } n: $n) };
    // Coprocessor 0, HI and LO.
    (MFC0 $t:ident, $d:ident) => { $crate::op!(@ MFC0 { t: $t, d: $d }) };
    (MTC0 $t:ident, $d:ident) => { $crate::op!(@ MTC0 { t: $t, d: $d }) };
    (MTHI $s:ident) => { $crate::op!(@ MTHI { s: $s }) };
    (MTLO $s:ident) => { $crate::op!(@ MTLO { s: $s }) };
    // MFHI and MFLO; products and quotients; three registers; LUI; a load or store; an immediate operand.
    ($name:ident $d:ident) => { $crate::op!(@ $name { d: $d }) };
    ($name:ident $s:ident, $t:ident) => { $crate::op!(@ $name { s: $s, t: $t }) };
    ($name:ident $d:ident, $s:ident, $t:ident) => { $crate::op!(@ $name { s: $s, t: $t, d: $d }) };
    (LUI $t:ident, $imm:expr) => { $crate::op!(@ LUI { t: $t } imm: $imm) };
    ($name:ident $t:ident, $imm:literal($s:ident)) => { $crate::op!(@ $name { s: $s, t: $t } imm: $imm) };
    ($name:ident $t:ident, $s:ident, $imm:expr) => { $crate::op!(@ $name { s: $s, t: $t } imm: $imm) };
}
