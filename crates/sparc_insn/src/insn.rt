/// An instruction of the subset. Source: The SPARC Architecture Manual, Version 8, appendix B.
#[derive(Clone, Copy, PartialEq, Eq, Debug)]
pub enum Insn {
    /// CALL: `disp` is the distance to the target in words, of 30 bits with sign.
    Call {
        disp: i32,
    },
    /// SETHI: `imm` of 22 bits goes to the high bits of the register `rd`.
    Sethi {
        rd: u8,
        imm: u32,
    },
    /// Bicc: a branch on the condition `cond`, 0 to 15, with the annul bit. `disp` is the distance to
    /// the target in words, of 22 bits with sign.
    Branch {
        annul: bool,
        cond: u8,
        disp: i32,
    },
    /// An operation on the register `rs1` and a second operand, whose result goes to the register `rd`.
    /// At a store `rd` is the register that is stored.
    Three {
        op: Op3,
        rd: u8,
        rs1: u8,
        from: Operand,
    },
    /// Ticc, trap always, with a number from 1 to 9.
    Trap {
        number: u8,
    },
}

/// The second operand: a register, or a number of 13 bits with sign.
#[derive(Clone, Copy, PartialEq, Eq, Debug)]
pub enum Operand {
    Reg(u8),
    Imm(i32),
}

/// An operation with a second operand. `Rdy` and `Wry` read and write the register Y, `Ld` and `St` a
/// word of memory, `Ldub` and `Stb` a byte; at the last four the operands give the address.
#[derive(Clone, Copy, PartialEq, Eq, Debug)]
pub enum Op3 {
    Add,
    And,
    Or,
    Xor,
    Sub,
    Andn,
    Orn,
    Xnor,
    Smul,
    Sdiv,
    AddCc,
    AndCc,
    OrCc,
    XorCc,
    SubCc,
    TaddCc,
    TsubCc,
    Sll,
    Srl,
    Sra,
    Rdy,
    Wry,
    Jmpl,
    Save,
    Restore,
    Ld,
    Ldub,
    St,
    Stb,
}
