//! Single instructions of plain code.
ghost use Rattle.std.specs.Prelude.{◌≡◌, ◌≤◌, ◌+◌, ◌<◌, ◌^◌};
ghost use Rattle.sparc_insn.specs.declared.insn.Insn.{Insn};
ghost use Rattle.frame_walk.specs.Places.{local_offset, pending_offset};
ghost use Rattle.plain_words.specs.Code.{load, store, move, plus, refer, nop, count, take, pend, context_offset, cell_offset, base_of, offset_of, poll};

use sparc_insn::{Insn, Op3, Operand};

pub(crate) const NOP: Insn = Insn::Sethi { rd: 0, imm: 0 };

// An operation with a number as its second operand.
pub(crate) fn with_number(op: Op3, rd: u8, rs1: u8, number: i32) -> Insn
    ensures { result ≡ Insn.Three op rd rs1 (Operand.Imm number) }
{
    Insn::Three {
        op,
        rd,
        rs1,
        from: Operand::Imm(number),
    }
}

// An operation with a register as its second operand.
pub(crate) fn with_register(op: Op3, rd: u8, rs1: u8, rs2: u8) -> Insn
    ensures { result ≡ Insn.Three op rd rs1 (Operand.Reg rs2) }
{
    Insn::Three {
        op,
        rd,
        rs1,
        from: Operand::Reg(rs2),
    }
}

// A load from so many bytes from an address on.
pub(crate) fn load(to: u8, base: u8, offset: u32) -> Insn
    requires { offset < 4096 }
    ensures { result ≡ load to base offset }
{
    with_number(Op3::Ld, to, base, offset as i32)
}

// A store to so many bytes from an address on.
pub(crate) fn store(from: u8, base: u8, offset: u32) -> Insn
    requires { offset < 4096 }
    ensures { result ≡ store from base offset }
{
    with_number(Op3::St, from, base, offset as i32)
}

// A copy of a register.
pub(crate) fn copy(to: u8, from: u8) -> Insn
    ensures { result ≡ move to from }
{
    with_number(Op3::Or, to, from, 0)
}

// A number is added to a register.
pub(crate) fn plus(register: u8, number: u32) -> Insn
    requires { number < 4096 }
    ensures { result ≡ plus register number }
{
    with_number(Op3::Add, register, register, number as i32)
}

// One is.
pub(crate) fn plus_one(register: u8) -> Insn
    ensures { result ≡ plus register 1 }
{
    plus(register, 1)
}

// The reference to what begins at %g6, in a register.
pub(crate) fn refer(to: u8) -> Insn
    ensures { result ≡ refer to }
{
    with_number(Op3::Add, to, 6, 1)
}

// One step is counted.
pub(crate) fn count() -> Insn
    ensures { result ≡ count }
{
    plus_one(2)
}

// A pending value by its number from the oldest is loaded, over so many locals in the frame.
pub(crate) fn take(to: u8, locals: u32, k: u32) -> Insn
    requires { locals + k ≤ 512 }
    ensures { result ≡ take to locals k }
{
    load(to, 14, 108 + 4 * locals + 4 * k)
}

// And stored.
pub(crate) fn pend(from: u8, locals: u32, k: u32) -> Insn
    requires { locals + k ≤ 512 }
    ensures { result ≡ pend from locals k }
{
    store(from, 14, 108 + 4 * locals + 4 * k)
}

// Bytes from the beginning of a frame to a local.
pub(crate) fn local_offset(slot: u32) -> u32
    requires { slot < 512 }
    ensures { result ≡ local_offset slot }
{
    108 + 4 * slot
}

// Bytes from the beginning of a context to a local.
pub(crate) fn cell_offset(slot: u32) -> u32
    requires { slot < 512 }
    ensures { result ≡ cell_offset slot }
{
    16 + 4 * slot
}

// The register from which the place of a local is counted.
pub(crate) fn base_of(owns: bool, up: u8) -> u8
    ensures { result ≡ base_of owns up }
{
    if up > 0 {
        return 1;
    }
    if owns {
        return 17;
    }
    14
}

// And how far from what is in it.
pub(crate) fn offset_of(owns: bool, up: u8, slot: u8) -> u32
    ensures value { result ≡ offset_of owns up slot }
    ensures small { result < 4096 }
{
    let slot = slot as u32;
    if up > 0 {
        return 15 + 4 * slot;
    }
    if owns {
        return 15 + 4 * slot;
    }
    local_offset(slot)
}

// Service 2 where %g2 leaves nothing of the goal, else on to the node.
pub(crate) fn poll() -> [Insn; 6]
    ensures { result ≡ poll }
{
    [
        Insn::Sethi {
            rd: 1,
            imm: 0xC0000,
        },
        load(1, 1, 0),
        with_register(Op3::SubCc, 0, 2, 1),
        Insn::Branch {
            annul: false,
            cond: 5,
            disp: 3,
        },
        NOP,
        Insn::Trap { number: 2 },
    ]
}
