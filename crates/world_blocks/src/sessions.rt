// A world as a session begins with it.
ghost use Rattle.std.specs.Prelude.{◌≡◌, ◌+◌, ◌<◌, length, IfOk};
ghost use Rattle.world_blocks.specs.Sessions.{HasFewArguments, block_numbers, block_traits, contexts_map, session_maps, session_world};

use crate::mapping::add_block_maps;
use crate::naming::name_texts;
use object_maps::{Map, Maps};
use self_terms::{OutOfMemory, Row, Word};
use std::alloc::{AllocError, Global};
use world_build::World;
use world_heap::WorldImage;

/// The world with the names of a session; its maps, with those of contexts and blocks; the number of the map of contexts, and by the bodies'
/// numbers those of the maps of their blocks, 0 for a method's.
#[derive(Drop)]
pub struct Session {
    pub world: World,
    pub maps: Maps,
    pub contexts: u32,
    pub blocks: Row<u32>,
}

// The reference to the parent of all blocks.
fn block_traits(alloc: Global, image: &WorldImage) -> Result<Word, AllocError>
    ensures { IfOk result (λ word. word ≡ block_traits image.now.world) }
{
    image.is_whole();
    let references = image.references(alloc)?;
    let blocks = image.world().core().blocks as usize;
    Ok(references.as_slice()[blocks])
}

/// What a session over the world of an image begins with.
pub fn session_of(alloc: Global, image: WorldImage) -> Result<Session, OutOfMemory>
    requires { HasFewArguments image.world }
    ensures world { IfOk result (λ s. s.world ≡ session_world image.world) }
    ensures maps { IfOk result (λ s. s.maps ≡ session_maps image) }
    ensures contexts { IfOk result (λ s. s.contexts ≡ contexts_map image) }
    ensures blocks { IfOk result (λ s. s.blocks ≡ block_numbers image) }
{
    let traits = block_traits(alloc, &image)?;
    let (mut world, mut maps) = image.into_parts();
    // So many texts and maps have no room in memory.
    if world.names().len() >= 400_000_000 || maps.len() >= 40_000_000 {
        return Err(AllocError);
    }
    let evaluators = name_texts(&mut world)?;
    let contexts = maps.add(Map::open(alloc))?.0;
    let blocks = add_block_maps(alloc, &world, &evaluators, traits, &mut maps)?;
    Ok(Session {
        world,
        maps,
        contexts,
        blocks,
    })
}
