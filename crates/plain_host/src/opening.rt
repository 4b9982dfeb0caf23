//! The host of a world.
ghost use Rattle.std.specs.Prelude.{◌≡◌, ℕ, IfOk, slice_index};
ghost use Rattle.plain_host.specs.Hosted.{host};
ghost use Rattle.plain_host.specs.Opened.{opened_host, IsLoaded};
ghost use Rattle.sparc_store.specs.Words.{word_at};
ghost use Rattle.world_heap.specs.Heaps.{heap_of, places};
ghost use Rattle.world_blocks.specs.Sessions.{HasFewArguments};

use crate::hosting::{ENDING_STUB, Hosting};
use crate::services::COST_LEFT;
use object_maps::Heap;
use plain_words::References;
use self_terms::{OutOfMemory, Row};
use sparc_insn::{Insn, encode};
use sparc_machine::Machine;
use sparc_store::Memory;
use std::alloc::{AllocError, Global};
use world_blocks::session_of;
use world_heap::WorldImage;

// Puts the ending stub, what may be paid and the words of a world's objects into a memory, and tells its heap.
fn load(memory: &mut Memory, image: &WorldImage) -> Heap
    requires { (a : ℕ) → word_at memory.old a ≡ 0 }
    ensures heap { result ≡ heap_of image.now }
    ensures loaded { IsLoaded image.now memory.new }
{
    memory.store(ENDING_STUB, encode(Insn::Trap { number: 9 }));
    memory.store(COST_LEFT, 4_194_304);
    image.put(memory)
}

// A memory with them.
fn loaded(alloc: Global, image: &WorldImage) -> Result<(Memory, Heap), OutOfMemory>
    ensures memory { IfOk result (λ r. IsLoaded image.now r.0) }
    ensures heap { IfOk result (λ r. r.1 ≡ heap_of image.now) }
{
    let Ok(mut memory) = Memory::open(alloc, 0) else {
        return Err(AllocError);
    };
    let heap = load(&mut memory, image);
    Ok((memory, heap))
}

// The words of the world's objects, and that of its nil.
fn objects_of(alloc: Global, image: &WorldImage) -> Result<(Row<u32>, u32), OutOfMemory>
    ensures objects { IfOk result (λ r. r.0 ≡ (places image.now.world).objects) }
    ensures nil { IfOk result (λ r. r.1 ≡ slice_index (places image.now.world).objects image.now.world.core.nil) }
{
    let objects = image.references(alloc)?;
    let nil = match objects.as_slice().get(image.world().core().nil as usize) {
        Some(word) => *word,
        None => 0,
    };
    Ok((objects, nil))
}

#[tactic(auto, unfolding(crate::specs::Hosted::host))]
/// The host of a world, over a memory with the words of its objects, with the names and maps of a session. No body has a unit, and there is no
/// activity.
pub fn open(alloc: Global, image: WorldImage) -> Result<Hosting, OutOfMemory>
    requires few { HasFewArguments image.world }
    ensures host { IfOk result (λ h. host h ≡ opened_host image (host h).machine.memory) }
    ensures loaded { IfOk result (λ h. IsLoaded image (host h).machine.memory) }
{
    let (memory, heap) = loaded(alloc, &image)?;
    let (objects, nil) = objects_of(alloc, &image)?;
    let session = session_of(alloc, image)?;
    let entries = vec![in alloc; 0u32; session.world.bodies() as usize]?;
    let statuses = Vec::with_capacity(alloc, 4)?;
    let mut machine = Machine::open(memory);
    machine.set(6, heap.top);
    Ok(Hosting {
        machine,
        maps: session.maps,
        next: heap.next,
        world: session.world,
        references: References {
            objects,
            nil,
            contexts: session.contexts,
            blocks: session.blocks,
        },
        entries,
        points: Vec::new(alloc),
        statuses,
        current: 0,
        steps: 0,
        cost: 0,
    })
}
