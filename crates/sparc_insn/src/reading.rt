//! From a word that has an instruction to that instruction, by one look at its format and one table. What `decode` tests besides,
//! that the word has an instruction at all, isn't tested here.
ghost use Rattle.std.specs.Prelude.{◌≡◌, ◌≢◌, ◌<◌, ◌≤◌, ◌+◌, ◌*◌, ◌/◌, ◌%◌, ◌^◌, ℕ, Some};
ghost use Rattle.sparc_insn.specs.Instructions.{instruction};
ghost use Rattle.sparc_insn.specs.Words.{IsInsn, IsOperand, complement_bits, op_of, op3_of, operand_bits, word_of};
ghost use Rattle.sparc_insn.specs.declared.insn.Insn.{Insn};
ghost use Rattle.sparc_insn.specs.declared.insn.Op3.{Op3};
ghost use Rattle.sparc_insn.specs.declared.insn.Operand.{Operand};

use crate::decoding::{signed22, signed30};
use crate::insn::{Insn, Op3, Operand};
use crate::operations::{operation_of_op2, operation_of_op3};

/// The instruction of a word that has one.
#[inline]
pub fn read(word: u32) -> Insn
    requires { (i : Insn) × (instruction word ≡ Some i) }
    ensures value { instruction word ≡ Some result }
    ensures in_table { IsInsn result }
{
    match word >> 30 {
        0 => read_format2(word),
        1 => read_call(word),
        2 => read_op2(word),
        _ => read_three(operation_of_op3(word >> 19 & 63), word),
    }
}

#[inline]
fn read_call(word: u32) -> Insn
    requires { word / 2 ^ 30 ≡ 1 }
    ensures { (i : Insn) → IsInsn i → word_of i ≡ word → i ≡ result }
{
    Insn::Call {
        disp: signed30(word & 0x3fff_ffff),
    }
}

// Bit 24 parts SETHI from Bicc.
#[inline]
fn read_format2(word: u32) -> Insn
    requires { word < 2 ^ 30 }
    ensures { (i : Insn) → IsInsn i → word_of i ≡ word → i ≡ result }
{
    let low = word & 0x3f_ffff;
    if word >> 24 & 1 == 0 {
        Insn::Branch {
            annul: word >> 29 == 1,
            cond: (word >> 25 & 15) as u8,
            disp: signed22(low),
        }
    } else {
        Insn::Sethi {
            rd: (word >> 25) as u8,
            imm: low,
        }
    }
}

// An operation, or Ticc.
#[inline]
fn read_op2(word: u32) -> Insn
    requires { word / 2 ^ 30 ≡ 2 }
    ensures { (i : Insn) → IsInsn i → word_of i ≡ word → i ≡ result }
{
    let op3 = word >> 19 & 63;
    let operation = operation_of_op2(op3);
    if op3 == 0x3a {
        return Insn::Trap {
            number: (word & 15) as u8,
        };
    }
    read_three(operation, word)
}

// The instruction of a word whose operation is this one.
#[inline]
fn read_three(operation: Op3, word: u32) -> Insn
    requires format3 { 2 * 2 ^ 30 ≤ word }
    requires operation { (o : Op3) → op_of o ≡ word / 2 ^ 30 → op3_of o ≡ word / 2 ^ 19 % 64 → o ≡ operation }
    requires no_trap { word / 2 ^ 30 ≡ 2 → word / 2 ^ 19 % 64 ≢ 0x3a }
    ensures { (i : Insn) → IsInsn i → word_of i ≡ word → i ≡ result }
{
    Insn::Three {
        op: operation,
        rd: (word >> 25 & 31) as u8,
        rs1: (word >> 14 & 31) as u8,
        from: read_operand(word & 0x3fff),
    }
}

// The second operand of these fourteen bits, where they are of one.
#[inline]
fn read_operand(low: u32) -> Operand
    requires { low < 2 ^ 14 }
    ensures { (o : Operand) → IsOperand o → operand_bits o ≡ low → o ≡ result }
{
    if low < 0x2000 {
        Operand::Reg((low & 31) as u8)
    } else if low < 0x3000 {
        Operand::Imm((low - 0x2000) as i32)
    } else {
        Operand::Imm(low as i32 - 0x4000)
    }
}
