// What holds of the names of sessions over the worlds of accepted texts.
ghost use Rattle.std.specs.Prelude.{◌≤◌, ℕ, List, length};
ghost use Rattle.session_text.specs.Frames.{HasShortNames};
ghost use Rattle.source_model.specs.Soundness.{body_in};
ghost use Rattle.world_blocks.specs.Sessions.{session_names};
ghost use Rattle.world_build.specs.Worlds.{World};
ghost use Rattle.world_facts.specs.Accepted.{IsAccepted};

/// A law: each body of the world of a text of at most 1,048,576 bytes has short names, among those of a session over it.
pub fn names_are_short()
    ensures { (bytes : List ℕ) (w : World) → length bytes ≤ 1048576 → IsAccepted bytes w → (b : ℕ) → HasShortNames (session_names w) (body_in w.bodies b) }
{}
