//! Words that an assembler gives.
ghost use Rattle.std.specs.Prelude.{◌≡◌};
ghost use Rattle.sparc_insn.specs.Words.{IsInsn};

use crate::{Insn, Op3, Operand, decode, encode};
use std::process::Abort;

fn check(rt: &impl Abort, insn: Insn, word: u32)
    requires { IsInsn insn }
{
    assert_eq!(rt; encode(insn), word);
    assert_eq!(rt; decode(word), Some(insn));
}

fn three(op: Op3, rd: u8, rs1: u8, from: Operand) -> Insn
    ensures { result ≡ Insn.Three op rd rs1 from }
{
    Insn::Three { op, rd, rs1, from }
}

#[test]
fn words_of_an_assembler(rt: HostRuntime) {
    check(&rt, Insn::Sethi { rd: 0, imm: 0 }, 0x0100_0000);
    check(&rt, three(Op3::Add, 8, 8, Operand::Reg(9)), 0x9002_0009);
    check(&rt, three(Op3::TaddCc, 8, 8, Operand::Reg(9)), 0x9102_0009);
    check(
        &rt,
        three(Op3::Save, 14, 14, Operand::Imm(-96)),
        0x9de3_bfa0,
    );
    check(&rt, three(Op3::Restore, 0, 0, Operand::Reg(0)), 0x81e8_0000);
    check(&rt, three(Op3::Jmpl, 0, 31, Operand::Imm(8)), 0x81c7_e008);
    check(&rt, three(Op3::Ld, 16, 30, Operand::Imm(-4)), 0xe007_bffc);
    check(&rt, Insn::Trap { number: 5 }, 0x91d0_2005);
    assert_eq!(rt; decode(0x91d0_200a), None);
}
