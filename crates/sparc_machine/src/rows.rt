// Laws about the rows of the table that move windows.
ghost use Rattle.std.specs.Prelude.{◌≡◌, ℕ};
ghost use Rattle.sparc_store.specs.Windows.{saved, restored};
ghost use Rattle.sparc_store.specs.Chain.{with_sp};
ghost use Rattle.sparc_insn.specs.declared.insn.Op3.TheVariants as ops;
ghost use Rattle.sparc_machine.specs.State.{MachineState, IsWhole, stack_of};
ghost use Rattle.sparc_machine.specs.Alu.{add};
ghost use Rattle.sparc_machine.specs.Table.{three};

/// A law: SAVE to register 14, and RESTORE to register 0, are those of the window file.
pub fn moves_windows()
    ensures save { (m : MachineState) → (x : ℕ) → (v : ℕ) → stack_of (three ops.Save 14 x v m) ≡ with_sp (add x v) (saved (stack_of m)) }
    ensures restore { (m : MachineState) → (x : ℕ) → (v : ℕ) → stack_of (three ops.Restore 0 x v m) ≡ restored (stack_of m) }
{}
