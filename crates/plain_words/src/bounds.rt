//! How long units are, how large frames, and that words of units are instructions.
ghost use Rattle.std.specs.Prelude.{List, length, ◌≤◌, ℕ, ◌+◌, ◌*◌};
ghost use Rattle.self_terms.specs.declared.bodies.Body.{Body};
ghost use Rattle.plain_words.specs.declared.references.References.{References};
ghost use Rattle.plain_words.specs.Units.{unit_code, frame_words, frame_locals, deepest};
ghost use Rattle.plain_words.specs.Translating.{CanTranslate, AreShort, AreWords};
ghost use Rattle.plain_words.specs.Putting.{AreInsns};

/// Each word of a unit is an instruction of the table.
pub fn units_are_instructions()
    ensures { (r : References) (b : Body) → AreWords r → CanTranslate b → AreInsns (unit_code r b) }
{}

/// A unit has at most 64 words for each node where locals stand at most 54 bodies out, one more for each body further; 16 for each argument
/// and local; and 64 more.
pub fn units_are_short()
    ensures { (out : ℕ) (r : References) (b : Body) → 16 ≤ out → AreShort out b.nodes → length (unit_code r b) ≤ (out + 10) * length b.nodes + 16 * (length b.arguments + length b.locals) + 64 }
{}

/// A frame has at most 256 bytes, and 8 for each argument, local and pending value of its fullest point.
pub fn frames_are_small()
    ensures { (b : Body) → 4 * frame_words b ≤ 256 + 8 * (frame_locals b + deepest 0 b.nodes) }
{}
