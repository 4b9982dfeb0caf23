// The world of a file, and a session over it.
ghost use Rattle.std.specs.Prelude.{◌≡◌, ℕ, ◌+◌, ◌≤◌, [], length, Ok, Err, IfOk, IfErr};
ghost use Rattle.self_tokens.specs.Tokens.{tokens};
ghost use Rattle.self_grammar.specs.Grammar.{World as Text};
ghost use Rattle.self_grammar.specs.Spelling.{world};
ghost use Rattle.self_reader.specs.declared.texts.TheConstants.{LIMITS};
ghost use Rattle.self_signs.specs.Signs.{signs, names_after};
ghost use Rattle.self_reader.specs.Texts.{AreRead, known};
ghost use Rattle.plain_turns.specs.Asking.{count};
ghost use Rattle.plain_session.specs.Sessions.{host_of, Shows};
ghost use Rattle.self_debugger.specs.WorldFiles.{WorldRead, begins};
ghost use Rattle.self_debugger.specs.Parts.{IsWorld};

use crate::lines::{build_line, read_line};
use self_reader::{ReadStop, WorldTree, read_world};
use std::alloc::{AllocError, Global};
use world_image::{WorldImage, build};

/// The world of the bytes of a file, with its maps and words, or the line that refuses them.
pub fn world_of(alloc: Global, bytes: &[u8]) -> Result<Result<WorldImage, Vec<u8>>, AllocError>
    requires { length bytes.now ≤ 1048576 }
    ensures read { IfOk result (λ r. IfOk r (λ i. WorldRead bytes.now (Ok i.world))) }
    ensures few { IfOk result (λ r. IfOk r (λ i. length i.world.names ≤ 450000000)) }
    ensures refused { IfOk result (λ r. IfErr r (λ line. WorldRead bytes.now (Err line.items))) }
{
    match read_world(alloc, bytes) {
        Ok(tree) => build_world(alloc, bytes, tree),
        Err(ReadStop::Refused(refusal)) => Ok(Err(read_line(alloc, refusal)?)),
        Err(ReadStop::OutOfMemory) => Err(AllocError),
    }
}

// The world of what was read from these bytes.
fn build_world(
    alloc: Global,
    bytes: &[u8],
    tree: WorldTree,
) -> Result<Result<WorldImage, Vec<u8>>, AllocError>
    requires short { length bytes.now ≤ 1048576 }
    requires text { AreRead Text (world LIMITS) (signs known bytes.now) tree.items.items }
    requires names { tree.names ≡ names_after known bytes.now (tokens bytes.now) }
    requires few { length tree.items.items + length tree.names ≤ 20000000 }
    ensures read { IfOk result (λ r. IfOk r (λ i. WorldRead bytes.now (Ok i.world))) }
    ensures few { IfOk result (λ r. IfOk r (λ i. length i.world.names ≤ 450000000)) }
    ensures refused { IfOk result (λ r. IfErr r (λ line. WorldRead bytes.now (Err line.items))) }
{
    match build(alloc, bytes, tree) {
        Ok(image) => Ok(Ok(image)),
        Err(refusal) => Ok(Err(build_line(alloc, refusal)?)),
    }
}

/// A session in plain code over a world that was read, which shows the state with which it begins, whatever the number of advisors that are left.
pub(crate) fn session_over(
    alloc: Global,
    image: WorldImage,
) -> Result<plain_session::Session, AllocError>
    requires accepted { IsWorld image.world }
    requires few { length image.world.names ≤ 450000000 }
    ensures shows { IfOk result (λ x. (handed : ℕ) → Shows x (begins handed image.world)) }
    ensures idle { IfOk result (λ x. (host_of x).statuses ≡ []) }
    ensures counted { IfOk result (λ x. count (host_of x) ≡ 0) }
    ensures instructions { IfOk result (λ x. x.instructions ≡ 0) }
    ensures services { IfOk result (λ x. x.services ≡ 0) }
{
    plain_session::Session::open(alloc, image)
}
