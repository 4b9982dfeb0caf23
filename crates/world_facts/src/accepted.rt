// The image of the world of an accepted text.
ghost use Rattle.std.specs.Prelude.{◌≡◌, ◌≤◌, length, IfOk};
ghost use Rattle.world_facts.specs.Accepted.{IsAccepted};
ghost use Rattle.world_heap.specs.Images.{maps, words};

use std::alloc::{AllocError, Global};
use world_build::World;
use world_heap::{WorldImage, image_of};

/// The world that a text of these bytes says, with its maps and words.
pub fn image_of_text(alloc: Global, bytes: &[u8], world: World) -> Result<WorldImage, AllocError>
    requires short { length bytes.now ≤ 1048576 }
    requires text { IsAccepted bytes.now world }
    ensures world { IfOk result (λ i. i.world ≡ world) }
    ensures maps { IfOk result (λ i. i.maps ≡ maps world) }
    ensures words { IfOk result (λ i. i.words ≡ words world) }
{
    let _count = bytes.len();
    image_of(alloc, world)
}
