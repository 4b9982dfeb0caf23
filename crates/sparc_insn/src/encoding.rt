//! From an instruction to its word.
ghost use Rattle.std.specs.Prelude.{◌≡◌, ◌<◌, ◌^◌};
ghost use Rattle.sparc_insn.specs.Words.{IsInsn, IsSigned, IsOperand, complement_bits, operand_bits, word_of};

use crate::insn::{Insn, Operand};
use crate::operations::{op, op3};

/// The word of an instruction.
pub fn encode(insn: Insn) -> u32
    requires { IsInsn insn }
    ensures { result ≡ word_of insn }
{
    match insn {
        Insn::Call { disp } => (1 << 30) | disp30(disp),
        Insn::Sethi { rd, imm } => (((rd as u32) << 3 | 4) << 22) | imm,
        Insn::Branch { annul, cond, disp } => {
            let front = (annul as u32) << 4 | cond as u32;
            ((front << 3 | 2) << 22) | disp22(disp)
        }
        Insn::Three {
            op: operation,
            rd,
            rs1,
            from,
        } => {
            let front = op(operation) << 5 | rd as u32;
            let front = front << 6 | op3(operation);
            let front = front << 5 | rs1 as u32;
            front << 14 | second_operand(from)
        }
        // condition 8, always; the number is added to register 0
        Insn::Trap { number } => 0x91d0_2000 | number as u32,
    }
}

fn disp30(disp: i32) -> u32
    requires { IsSigned 30 disp }
    ensures bits { result ≡ complement_bits 30 disp }
    ensures small { result < 2 ^ 30 }
{
    if disp < 0 {
        (disp + 0x4000_0000) as u32
    } else {
        disp as u32
    }
}

fn disp22(disp: i32) -> u32
    requires { IsSigned 22 disp }
    ensures bits { result ≡ complement_bits 22 disp }
    ensures small { result < 2 ^ 22 }
{
    if disp < 0 {
        (disp + 0x40_0000) as u32
    } else {
        disp as u32
    }
}

fn second_operand(from: Operand) -> u32
    requires { IsOperand from }
    ensures bits { result ≡ operand_bits from }
    ensures small { result < 2 ^ 14 }
{
    match from {
        Operand::Reg(r) => r as u32,
        Operand::Imm(n) if n < 0 => 0x2000 | (n + 0x2000) as u32,
        Operand::Imm(n) => 0x2000 | n as u32,
    }
}
