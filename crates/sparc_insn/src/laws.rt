//! Laws of the table.
ghost use Rattle.std.specs.Prelude.{◌≡◌, ◌<◌, ◌^◌, ℕ, Some};
ghost use Rattle.sparc_insn.specs.Instructions.{instruction};
ghost use Rattle.sparc_insn.specs.Words.{IsInsn, word_of};
ghost use Rattle.sparc_insn.specs.declared.insn.Insn.{Insn};

/// No two instructions have one word.
pub fn one_word()
    ensures { (i j : Insn) → IsInsn i → IsInsn j → word_of i ≡ word_of j → i ≡ j }
{}

/// The instruction of an instruction's word is that instruction.
pub fn decodes()
    ensures { (i : Insn) → IsInsn i → instruction (word_of i) ≡ Some i }
{}

/// A word that has an instruction is the word of that instruction, and the instruction is one of the
/// subset.
pub fn encodes()
    ensures { (word : ℕ) → (i : Insn) → instruction word ≡ Some i → IsInsn i × (word_of i ≡ word) }
{}
