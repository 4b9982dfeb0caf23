// Worlds made of maps and of words of memory, and messages to their values.
ghost use Rattle.std.specs.Prelude.{◌≡◌, ◌+◌, ◌*◌, ◌<◌, ◌≤◌, ℕ, List, length, IfOk};
ghost use Rattle.object_maps.specs.Sound.{IsSound, IsValue};

use object_maps::{Map, Maps, SlotKind, is_sound, is_value};
use self_terms::{MapId, Name, Selector, Word};
use slot_lookup::{Found, Walk, directed, lookup, resend};
use sparc_store::Memory;
use std::alloc::{AllocError, Global};

// An object: the numbers of its parents in slot order, and the constant in its slot x.
pub(crate) type Object = (&'static [u16], Option<Word>);

// A world's maps, and the words of its objects by their numbers.
#[derive(Drop)]
pub(crate) struct World {
    maps: Maps,
    objects: Vec<Word>,
}

// What is sent: a message to a value, a resend by a method of the value, or a resend through a slot of the value.
#[derive(Clone, Copy, Drop)]
pub(crate) enum Send {
    Message,
    Resend,
    Directed(Name),
}

// The selector of each message.
pub(crate) const X: Name = Name(100);

// The first parent slot's name. The others have the numbers behind it.
const FIRST_PARENT: u32 = 200;

pub(crate) fn word_of(number: u16) -> Word
    ensures { result ≡ 0x2000_0001 + 8 * number }
{
    0x2000_0001 + 8 * number as u32
}

pub(crate) fn parent(at: u16) -> Name {
    Name(FIRST_PARENT + at as u32)
}

fn add_slot(map: &mut Map, name: Name, kind: SlotKind) -> Result<(), AllocError> {
    if map.len() >= 500_000_000 || map.slot_of(name).is_some() {
        return Err(AllocError);
    }
    map.add(name, kind)
}

fn map_of(alloc: Global, parents: &[u16], own: Option<Word>) -> Result<Map, AllocError> {
    let mut map = Map::open(alloc);
    let mut name = FIRST_PARENT;
    for number in parents {
        add_slot(&mut map, Name(name), SlotKind::Parent(word_of(*number)))?;
        name = name.wrapping_add(1);
    }
    if let Some(word) = own {
        add_slot(&mut map, X, SlotKind::Constant(word))?;
    }
    Ok(map)
}

fn add_map(maps: &mut Maps, map: Map) -> Result<u32, AllocError>
    ensures { IfOk result (λ id. id < 500000000) }
{
    if maps.len() >= 500_000_000 {
        return Err(AllocError);
    }
    let MapId(id) = maps.add(map)?;
    Ok(id)
}

impl World {
    // No objects. The integers have the object 0 as parent.
    pub(crate) fn open(alloc: Global) -> Result<World, AllocError> {
        let mut maps = Maps::open(alloc)?;
        add_map(&mut maps, map_of(alloc, &[0], None)?)?;
        Ok(World {
            maps,
            objects: Vec::new(alloc),
        })
    }

    // One more object, with a map of its own.
    pub(crate) fn add(
        &mut self,
        alloc: Global,
        mem: &mut Memory,
        parents: &[u16],
        own: Option<Word>,
    ) -> Result<(), AllocError> {
        let count = self.objects.len();
        if count >= 60_000 {
            return Err(AllocError);
        }
        let number = count as u16;
        let id = add_map(&mut self.maps, map_of(alloc, parents, own)?)?;
        let word = word_of(number);
        mem.store(word - 1, 4 * id);
        mem.store(word + 3, 4 * number as u32);
        match self.objects.push(word) {
            Ok(()) => Ok(()),
            Err(_) => Err(AllocError),
        }
    }

    // The message x to a value; none where the world is not what a lookup requires.
    pub(crate) fn found(
        &self,
        alloc: Global,
        mem: &Memory,
        start: Word,
        send: Send,
    ) -> Result<Option<Found>, AllocError> {
        let count = self.objects.len();
        if count > 100_000
            || !is_sound(&self.maps, mem, &self.objects)
            || !is_value(&self.maps, mem, start)
        {
            return Ok(None);
        }
        let mut walk = Walk::open(alloc, count as u32)?;
        Ok(Some(sent(&self.maps, mem, start, send, &mut walk)))
    }
}

fn sent(maps: &Maps, mem: &Memory, start: Word, send: Send, walk: &mut Walk) -> Found
    requires sound { (objects : List ℕ) × (IsSound maps.now mem.now objects × (length objects ≤ walk.old)) }
    requires start { IsValue maps.now mem.now start }
{
    let sel = Selector { name: X, args: 0 };
    match send {
        Send::Message => lookup(maps, mem, start, sel, walk),
        Send::Resend => resend(maps, mem, start, sel, walk),
        Send::Directed(slot) => directed(maps, mem, start, slot, sel, walk),
    }
}
