//! From a word to its instruction.
ghost use Rattle.std.specs.Prelude.{◌≡◌, ◌≢◌, ◌<◌, ◌≤◌, ◌+◌, ◌*◌, ◌/◌, ◌%◌, ◌^◌, ◌↔◌, ℕ, ℤ, IfSome, IfNone, IsTrue};
ghost use Rattle.sparc_insn.specs.Instructions.{instruction};
ghost use Rattle.sparc_insn.specs.Words.{IsAllowed, IsInsn, IsSigned, IsOperand, complement_bits, op_of, op3_of, operand_bits, word_of};
ghost use Rattle.sparc_insn.specs.declared.insn.Insn.{Insn};
ghost use Rattle.sparc_insn.specs.declared.insn.Op3.{Op3};
ghost use Rattle.sparc_insn.specs.declared.insn.Operand.{Operand};

use crate::insn::{Insn, Op3, Operand};
use crate::operations::operation;

/// The instruction of a word, or `None` where no instruction of the subset has it.
pub fn decode(word: u32) -> Option<Insn>
    ensures value { result ≡ instruction word }
    ensures found { IfSome result (λ i. IsInsn i × (word_of i ≡ word)) }
    ensures none { IfNone result ((i : Insn) → IsInsn i → word_of i ≢ word) }
{
    match word >> 30 {
        0 => decode_format2(word),
        1 => decode_call(word),
        op => match operation(op, word >> 19 & 63) {
            Some(operation) => decode_three(operation, word),
            None => decode_trap(word),
        },
    }
}

fn decode_call(word: u32) -> Option<Insn>
    requires { word / 2 ^ 30 ≡ 1 }
    ensures found { IfSome result (λ i. IsInsn i × (word_of i ≡ word)) }
    ensures none { IfNone result ((i : Insn) → IsInsn i → word_of i ≢ word) }
{
    Some(Insn::Call {
        disp: signed30(word & 0x3fff_ffff),
    })
}

fn decode_format2(word: u32) -> Option<Insn>
    requires { word < 2 ^ 30 }
    ensures found { IfSome result (λ i. IsInsn i × (word_of i ≡ word)) }
    ensures none { IfNone result ((i : Insn) → IsInsn i → word_of i ≢ word) }
{
    let low = word & 0x3f_ffff;
    match word >> 22 & 7 {
        2 => Some(Insn::Branch {
            annul: word >> 29 == 1,
            cond: (word >> 25 & 15) as u8,
            disp: signed22(low),
        }),
        4 => Some(Insn::Sethi {
            rd: (word >> 25) as u8,
            imm: low,
        }),
        _ => None,
    }
}

fn decode_three(operation: Op3, word: u32) -> Option<Insn>
    requires op { op_of operation ≡ word / 2 ^ 30 }
    requires op3 { op3_of operation ≡ word / 2 ^ 19 % 64 }
    ensures found { IfSome result (λ i. IsInsn i × (word_of i ≡ word)) }
    ensures none { IfNone result ((i : Insn) → IsInsn i → word_of i ≢ word) }
{
    let rd = (word >> 25 & 31) as u8;
    let rs1 = (word >> 14 & 31) as u8;
    three(operation, rd, rs1, operand(word & 0x3fff)?)
}

/// The instruction with these fields, or `None` where the operation doesn't allow them.
fn three(operation: Op3, rd: u8, rs1: u8, from: Operand) -> Option<Insn>
    requires rd { rd < 32 }
    requires rs1 { rs1 < 32 }
    requires from { IsOperand from }
    ensures found { IfSome result (λ i. IsInsn i × (i ≡ Insn.Three operation rd rs1 from)) }
    ensures none { IfNone result
        ((i : Insn) → IsInsn i → word_of i ≢ word_of (Insn.Three operation rd rs1 from)) }
{
    is_allowed(operation, rd, rs1, from).then_some(Insn::Three {
        op: operation,
        rd,
        rs1,
        from,
    })
}

fn decode_trap(word: u32) -> Option<Insn>
    requires format3 { 2 * 2 ^ 30 ≤ word }
    requires other { (o : Op3) → op_of o ≡ word / 2 ^ 30 → op3_of o ≢ word / 2 ^ 19 % 64 }
    ensures found { IfSome result (λ i. IsInsn i × (word_of i ≡ word)) }
    ensures none { IfNone result ((i : Insn) → IsInsn i → word_of i ≢ word) }
{
    match word {
        0x91d0_2001..=0x91d0_2009 => Some(Insn::Trap {
            number: (word & 15) as u8,
        }),
        _ => None,
    }
}

/// The second operand that these fourteen bits stand for.
fn operand(low: u32) -> Option<Operand>
    requires { low < 2 ^ 14 }
    ensures found { IfSome result (λ from. IsOperand from × (operand_bits from ≡ low)) }
    ensures none { IfNone result ((from : Operand) → IsOperand from → operand_bits from ≢ low) }
{
    match low {
        0..32 => Some(Operand::Reg(low as u8)),
        0x2000..0x3000 => Some(Operand::Imm((low - 0x2000) as i32)),
        0x3000.. => Some(Operand::Imm(low as i32 - 0x4000)),
        _ => None,
    }
}

/// Whether an operation takes these registers and this second operand.
fn is_allowed(operation: Op3, rd: u8, rs1: u8, from: Operand) -> bool
    requires { IsOperand from }
    ensures { IsTrue result ↔ IsAllowed operation rd rs1 from }
{
    match operation {
        Op3::Sll | Op3::Srl | Op3::Sra => match from {
            Operand::Reg(_) => true,
            Operand::Imm(n) => 0 <= n && n < 32,
        },
        Op3::Rdy => rs1 == 0 && from == Operand::Reg(0),
        Op3::Wry => rd == 0,
        _ => true,
    }
}

#[inline]
pub(crate) fn signed30(n: u32) -> i32
    requires { n < 2 ^ 30 }
    ensures fits { IsSigned 30 result }
    ensures bits { complement_bits 30 result ≡ n }
{
    if n < 0x2000_0000 {
        n as i32
    } else {
        n as i32 - 0x4000_0000
    }
}

#[inline]
pub(crate) fn signed22(n: u32) -> i32
    requires { n < 2 ^ 22 }
    ensures fits { IsSigned 22 result }
    ensures bits { complement_bits 22 result ≡ n }
{
    if n < 0x20_0000 {
        n as i32
    } else {
        n as i32 - 0x40_0000
    }
}
