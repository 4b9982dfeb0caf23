//! The host of a world that can be opened.
ghost use Rattle.std.specs.Prelude.{◌≡◌, ℕ, IfOk};
ghost use Rattle.source_model.specs.Formed.{IsWellFormed};
ghost use Rattle.plain_steps.specs.Steps.{NamesSums};
ghost use Rattle.plain_turns.specs.Resting.{Rests};
ghost use Rattle.plain_host.specs.Hosted.{host};
ghost use Rattle.plain_host.specs.Opened.{opened_host};
ghost use Rattle.plain_opens.specs.Opens.{CanOpen};
ghost use Rattle.world_blocks.specs.Sessions.{session_names};
ghost use Rattle.world_state.specs.Begun.{begun};

use plain_host::Hosting;
use self_terms::OutOfMemory;
use std::alloc::Global;
use world_heap::WorldImage;

/// The host of a world, which rests for the state with which a session over it begins.
pub fn open(alloc: Global, image: WorldImage) -> Result<Hosting, OutOfMemory>
    requires { CanOpen image.world }
    ensures host { IfOk result (λ h. host h ≡ opened_host image (host h).machine.memory) }
    ensures rests { IfOk result (λ h. (advisors : ℕ) → IsWellFormed (begun image.world (session_names image.world) advisors) → NamesSums (session_names image.world) → Rests (host h) (begun image.world (session_names image.world) advisors)) }
{
    image.stands();
    image.is_whole();
    let hosting = plain_host::open(alloc, image)?;
    hosting.is_whole();
    Ok(hosting)
}
