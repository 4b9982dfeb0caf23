//! Units are put into memory one behind the other.
ghost use Rattle.plain_host.specs.Hosted.{host};
ghost use Rattle.std.specs.Prelude.{◌≡◌, ◌<◌, ◌≤◌, ◌+◌, ◌*◌, ◌%◌, length, IfOk, OnOk, OnErr};
ghost use Rattle.source_model.specs.Soundness.{body_in};
ghost use Rattle.sparc_machine.specs.Held.{state};
ghost use Rattle.plain_words.specs.Going.{At};
ghost use Rattle.plain_words.specs.Putting.{AreInsns, Apart};
ghost use Rattle.plain_words.specs.Translating.{CanTranslate};
ghost use Rattle.plain_words.specs.Units.{unit_code};
ghost use Rattle.plain_runs.specs.Services.{next_unit, with_unit};

use crate::hosting::{FIRST_UNIT, Hosting};
use plain_words::unit_of;
use self_terms::{BodyId, OutOfMemory};
use sparc_insn::{Insn, encode};
use sparc_machine::Machine;
use std::alloc::Global;

// Puts instructions into the code region from an address on. Every other word of memory and all else of the machine stays as it was.
fn put_code(machine: &mut Machine, at: u32, code: &[Insn])
    requires aligned { at % 4 ≡ 0 }
    requires from { 0x10000000 ≤ at }
    requires to { at + 4 * length code.now ≤ 0x12000000 }
    requires insns { AreInsns code.now }
    ensures machine { state machine.new ≡ record (state machine.old) { memory = (state machine.new).memory } }
    ensures at { At (state machine.new).memory at code.now }
    ensures apart { Apart (state machine.old).memory (state machine.new).memory at (length code.now) }
{
    for j in 0..code.len() {
        machine.is_whole();
        machine.store(at + 4 * j as u32, encode(code[j]));
    }
}

#[tactic(auto, unfolding(crate::specs::Hosted::host))]
impl Hosting {
    /// Translates a body, puts its unit behind the others, and tells its address. After want of memory all is as it was.
    pub fn put_unit(&mut self, alloc: Global, b: u32) -> Result<u32, OutOfMemory>
        requires given { 0 < b }
        requires within { b ≤ length (host self.old).bodies }
        requires translates { CanTranslate (body_in (host self.old).bodies b) }
        requires room { next_unit (host self.old) + 4 * length (unit_code (host self.old).references (body_in (host self.old).bodies b)) ≤ 0x12000000 }
        ensures at { IfOk result (λ at. at ≡ next_unit (host self.old)) }
        ensures unit { OnOk result (host self.new ≡ with_unit b (host self.new).machine.memory (host self.old)) }
        ensures code { OnOk result (At (host self.new).machine.memory (next_unit (host self.old)) (unit_code (host self.old).references (body_in (host self.old).bodies b))) }
        ensures apart { OnOk result (Apart (host self.old).machine.memory (host self.new).machine.memory (next_unit (host self.old)) (length (unit_code (host self.old).references (body_in (host self.old).bodies b)))) }
        ensures same { OnErr result (host self.new ≡ host self.old) }
    {
        let at = FIRST_UNIT + 4 * self.points.len() as u32;
        let body = self.world.body(BodyId(b));
        let unit = unit_of(alloc, &self.references, b, body)?;
        self.points.extend_from_slice(unit.points.as_slice())?;
        put_code(&mut self.machine, at, unit.code.as_slice());
        self.entries[(b - 1) as usize] = at;
        Ok(at)
    }
}
