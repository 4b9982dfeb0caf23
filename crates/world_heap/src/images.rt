// A world with its maps and words.
ghost use Rattle.std.specs.Prelude.{◌≡◌, ◌⊎◌, ◌<◌, ◌≤◌, ℕ, length, IfOk};
ghost use Rattle.sparc_store.specs.Words.{Framed, word_at};
ghost use Rattle.world_build.specs.Wholeness.{IsWhole};
ghost use Rattle.world_heap.specs.Built.{IsModest};
ghost use Rattle.world_heap.specs.Heaps.{HasHeap, heap_of, places};
ghost use Rattle.world_heap.specs.Images.{maps, words};
ghost use Rattle.world_heap.specs.Stands.{Stands};

use crate::layout::{HEAP, places, references};
use crate::words::{maps_of, words_of};
use object_maps::{Heap, Maps};
use self_terms::{Row, Word};
use sparc_store::Memory;
use std::alloc::{AllocError, Global};
use std::marker::Model;
use world_build::World;

/// A world, the maps of its objects by their numbers, and the words of its objects from the beginning of the heap on.
#[derive(Drop)]
pub struct WorldImage {
    world: World,
    maps: Maps,
    words: Vec<Word>,
}

impl Model for WorldImage {
    ghost use Rattle.std.specs.Prelude.{◌≡◌};
    ghost use Rattle.world_build.specs.Wholeness.{IsWhole};
    ghost use Rattle.world_heap.specs.Built.{IsModest};
    ghost use Rattle.world_heap.specs.Images.{Image, maps as all_maps, words as all_words};

    ghost Value = { Image };

    ghost view = { λ i. record { world = i.world; maps = i.maps; words = i.words.items } };

    ghost invariant = { λ i. (i.maps ≡ all_maps i.world) × (i.words.items ≡ all_words i.world) × IsModest i.world × IsWhole i.world };
}

impl WorldImage {
    /// The objects as lists of slots, the bodies and the names.
    pub fn world(&self) -> &World
        ensures { result.now ≡ self.now.world }
    {
        &self.world
    }

    /// The maps. Those with the numbers 0 to 2 are the maps of the integers, of the strings and of the vectors.
    pub fn maps(&self) -> &Maps
        ensures { result.now ≡ self.now.maps }
    {
        &self.maps
    }

    /// A law: the maps and words stand for the objects of the world.
    pub fn stands(&self)
        ensures { Stands self.now }
    {
        let _count = self.words.len();
    }

    /// A law: the world fits, and what its slots hold is there.
    pub fn is_whole(&self)
        ensures modest { IsModest self.now.world }
        ensures whole { IsWhole self.now.world }
    {
        let _count = self.words.len();
    }

    /// Puts the words into memory, from the beginning of the heap on: a heap that stands for the world's objects.
    pub fn put(&self, mem: &mut Memory) -> Heap
        ensures heap { result ≡ heap_of self.now }
        ensures stands { HasHeap self.now mem.new }
        ensures outside { (b : ℕ) → (b < 0x20000000) ⊎ (result.top ≤ b) → word_at mem.new b ≡ word_at mem.old b }
    {
        self.stands();
        self.is_whole();
        put_words(mem, self.words.as_slice());
        Heap {
            top: HEAP + 4 * self.words.len() as u32,
            next: self.world.things().len() as u32,
        }
    }

    /// The references to the objects, by their numbers.
    pub fn references(&self, alloc: Global) -> Result<Row<Word>, AllocError>
        ensures { IfOk result (λ r. r ≡ (places self.now.world).objects) }
    {
        self.is_whole();
        places(alloc, &self.world)
    }

    /// The world and its maps.
    pub fn into_parts(self) -> (World, Maps)
        ensures world { result.0 ≡ self.world }
        ensures maps { result.1 ≡ self.maps }
    {
        let WorldImage {
            world,
            maps,
            words: _,
        } = self;
        (world, maps)
    }

    /// The words of the objects, the first of which has the address 20000000 (hexadecimal).
    pub fn words(&self) -> &[Word]
        ensures { result.now ≡ self.now.words }
    {
        self.words.as_slice()
    }
}

// Puts words into memory, from the beginning of the heap on.
fn put_words(mem: &mut Memory, words: &[Word])
    requires { length words.now ≤ 1048576 }
    ensures { Framed mem.old mem.new 0x20000000 words.now }
{
    for at in 0..words.len() {
        mem.store(HEAP + 4 * at as u32, words[at]);
    }
}

/// The world with its maps and words.
pub fn image_of(alloc: Global, world: World) -> Result<WorldImage, AllocError>
    requires modest { IsModest world }
    requires whole { IsWhole world }
    ensures world { IfOk result (λ i. i.world ≡ world) }
    ensures maps { IfOk result (λ i. i.maps ≡ maps world) }
    ensures words { IfOk result (λ i. i.words ≡ words world) }
{
    let references = references(alloc, world.things())?;
    let maps = maps_of(alloc, &world, references.as_slice())?;
    let words = words_of(alloc, &world, references.as_slice())?;
    Ok(WorldImage { world, maps, words })
}
