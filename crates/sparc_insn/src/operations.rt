//! The table of operations: op and op3 of each.
ghost use Rattle.std.specs.Prelude.{◌≡◌, ◌≢◌, ◌<◌, ℕ, IfSome, IfNone};
ghost use Rattle.sparc_insn.specs.Words.{op_of, op3_of};
ghost use Rattle.sparc_insn.specs.declared.insn.Op3.{Op3};

use crate::insn::Op3;

/// The field op of an operation.
pub fn op(operation: Op3) -> u32
    ensures value { result ≡ op_of operation }
    ensures small { result < 4 }
{
    match operation {
        Op3::Ld | Op3::Ldub | Op3::St | Op3::Stb => 3,
        _ => 2,
    }
}

/// The field op3 of an operation.
pub fn op3(operation: Op3) -> u32
    ensures value { result ≡ op3_of operation }
    ensures small { result < 64 }
{
    match operation {
        Op3::Add => 0x00,
        Op3::And => 0x01,
        Op3::Or => 0x02,
        Op3::Xor => 0x03,
        Op3::Sub => 0x04,
        Op3::Andn => 0x05,
        Op3::Orn => 0x06,
        Op3::Xnor => 0x07,
        Op3::Smul => 0x0b,
        Op3::Sdiv => 0x0f,
        Op3::AddCc => 0x10,
        Op3::AndCc => 0x11,
        Op3::OrCc => 0x12,
        Op3::XorCc => 0x13,
        Op3::SubCc => 0x14,
        Op3::TaddCc => 0x20,
        Op3::TsubCc => 0x21,
        Op3::Sll => 0x25,
        Op3::Srl => 0x26,
        Op3::Sra => 0x27,
        Op3::Rdy => 0x28,
        Op3::Wry => 0x30,
        Op3::Jmpl => 0x38,
        Op3::Save => 0x3c,
        Op3::Restore => 0x3d,
        Op3::Ld => 0x00,
        Op3::Ldub => 0x01,
        Op3::St => 0x04,
        Op3::Stb => 0x05,
    }
}

// The operations of op 2 by their op3. `Add` stands where there is none.
static OPERATIONS_OF_OP2: [Op3; 64] = [
    Op3::Add,
    Op3::And,
    Op3::Or,
    Op3::Xor,
    Op3::Sub,
    Op3::Andn,
    Op3::Orn,
    Op3::Xnor,
    Op3::Add,
    Op3::Add,
    Op3::Add,
    Op3::Smul,
    Op3::Add,
    Op3::Add,
    Op3::Add,
    Op3::Sdiv,
    Op3::AddCc,
    Op3::AndCc,
    Op3::OrCc,
    Op3::XorCc,
    Op3::SubCc,
    Op3::Add,
    Op3::Add,
    Op3::Add,
    Op3::Add,
    Op3::Add,
    Op3::Add,
    Op3::Add,
    Op3::Add,
    Op3::Add,
    Op3::Add,
    Op3::Add,
    Op3::TaddCc,
    Op3::TsubCc,
    Op3::Add,
    Op3::Add,
    Op3::Add,
    Op3::Sll,
    Op3::Srl,
    Op3::Sra,
    Op3::Rdy,
    Op3::Add,
    Op3::Add,
    Op3::Add,
    Op3::Add,
    Op3::Add,
    Op3::Add,
    Op3::Add,
    Op3::Wry,
    Op3::Add,
    Op3::Add,
    Op3::Add,
    Op3::Add,
    Op3::Add,
    Op3::Add,
    Op3::Add,
    Op3::Jmpl,
    Op3::Add,
    Op3::Add,
    Op3::Add,
    Op3::Save,
    Op3::Restore,
    Op3::Add,
    Op3::Add,
];

/// The operation of op 2 with this op3, where there is one.
#[inline]
pub fn operation_of_op2(op3: u32) -> Op3
    requires { op3 < 64 }
    ensures { (o : Op3) → op_of o ≡ 2 → op3_of o ≡ op3 → o ≡ result }
{
    OPERATIONS_OF_OP2[op3 as usize]
}

/// The operation of op 3 with this op3, where there is one.
#[inline]
pub fn operation_of_op3(op3: u32) -> Op3
    ensures { (o : Op3) → op_of o ≡ 3 → op3_of o ≡ op3 → o ≡ result }
{
    match op3 {
        0x01 => Op3::Ldub,
        0x04 => Op3::St,
        0x05 => Op3::Stb,
        _ => Op3::Ld,
    }
}

/// The operation with these fields.
pub fn operation(op: u32, op3: u32) -> Option<Op3>
    ensures found { IfSome result (λ o. (op_of o ≡ op) × (op3_of o ≡ op3)) }
    ensures none { IfNone result ((o : Op3) → op_of o ≡ op → op3_of o ≢ op3) }
{
    match (op, op3) {
        (2, 0x00) => Some(Op3::Add),
        (2, 0x01) => Some(Op3::And),
        (2, 0x02) => Some(Op3::Or),
        (2, 0x03) => Some(Op3::Xor),
        (2, 0x04) => Some(Op3::Sub),
        (2, 0x05) => Some(Op3::Andn),
        (2, 0x06) => Some(Op3::Orn),
        (2, 0x07) => Some(Op3::Xnor),
        (2, 0x0b) => Some(Op3::Smul),
        (2, 0x0f) => Some(Op3::Sdiv),
        (2, 0x10) => Some(Op3::AddCc),
        (2, 0x11) => Some(Op3::AndCc),
        (2, 0x12) => Some(Op3::OrCc),
        (2, 0x13) => Some(Op3::XorCc),
        (2, 0x14) => Some(Op3::SubCc),
        (2, 0x20) => Some(Op3::TaddCc),
        (2, 0x21) => Some(Op3::TsubCc),
        (2, 0x25) => Some(Op3::Sll),
        (2, 0x26) => Some(Op3::Srl),
        (2, 0x27) => Some(Op3::Sra),
        (2, 0x28) => Some(Op3::Rdy),
        (2, 0x30) => Some(Op3::Wry),
        (2, 0x38) => Some(Op3::Jmpl),
        (2, 0x3c) => Some(Op3::Save),
        (2, 0x3d) => Some(Op3::Restore),
        (3, 0x00) => Some(Op3::Ld),
        (3, 0x01) => Some(Op3::Ldub),
        (3, 0x04) => Some(Op3::St),
        (3, 0x05) => Some(Op3::Stb),
        _ => None,
    }
}
