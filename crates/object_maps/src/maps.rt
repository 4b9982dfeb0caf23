// Maps and their slots.
ghost use Rattle.std.specs.Prelude.{◌≡◌, ◌<◌, ◌≤◌, ◌⊎◌, ◌++◌, ◌∷◌, ◌-◌, ◌%◌, [], length, slice_get, option_map, IfOk, IfSome, OnOk, OnErr, None};
ghost use Rattle.object_maps.specs.Layout.{map_at};
ghost use Rattle.object_maps.specs.Slots.{slot_named, slots_in, named};
ghost use Rattle.sparc_store.specs.Words.{HasWord};

use indexmap::IndexMap;
use self_terms::{BodyId, MapId, Name, Word, is_int};
use sparc_store::Memory;
use std::alloc::{AllocError, Global};
use std::marker::Model;

/// What a slot is: constant data; assignable data in a word of the object, numbered from 0 behind the map and the object
/// number; the assignment slot of such a word; a parent; a method.
#[derive(Clone, Copy, PartialEq, Eq, Drop, Debug)]
pub enum SlotKind {
    Constant(Word),
    Field(u32),
    Assign(u32),
    Parent(Word),
    Method(BodyId),
}

/// The slots that the objects of a map have, in order.
#[derive(Drop)]
pub struct Map {
    slots: IndexMap<u32, SlotKind>,
}

impl Model for Map {
    ghost use Rattle.std.specs.Prelude.{List, ℕ, length, ◌≤◌};
    ghost use Rattle.object_maps.specs.declared.maps.SlotKind.{SlotKind};

    ghost Value = { List (ℕ × SlotKind) };

    ghost view = { λ m. m.slots.entries };

    ghost invariant = { λ m. length m.slots.entries ≤ 500000000 };
}

impl Map {
    /// A map without slots. Takes no memory.
    pub fn open(alloc: Global) -> Map
        ensures { result ≡ [] }
    {
        Map {
            slots: IndexMap::new(alloc),
        }
    }

    /// One slot more behind the others; after want of memory the map is as it was.
    pub fn add(&mut self, name: Name, kind: SlotKind) -> Result<(), AllocError>
        requires new { slot_named name.0 self.old ≡ None }
        requires room { length self.old < 500000000 }
        ensures added { OnOk result (self.new ≡ self.old ++ (name.0, kind) ∷ []) }
        ensures same { OnErr result (self.new ≡ self.old) }
    {
        let Ok(_) = self.slots.insert(name.0, kind) else {
            return Err(AllocError);
        };
        Ok(())
    }

    /// What the slot of a name is; none where the map has no slot of that name.
    pub fn slot_of(&self, name: Name) -> Option<SlotKind>
        ensures { result ≡ slot_named name.0 self.now }
    {
        self.slots.get(&name.0).copied()
    }

    /// How many slots it has.
    pub fn len(&self) -> u32
        ensures len { result ≡ length self.now }
        ensures small { result ≤ 500000000 }
    {
        self.slots.len() as u32
    }

    /// The slot at a number from 0; none past the last.
    pub fn slot_at(&self, at: u32) -> Option<(Name, SlotKind)>
        ensures slot { result ≡ option_map named (slice_get self.now at) }
        ensures small { length self.now ≤ 500000000 }
    {
        let (name, kind) = self.slots.get_index(at as usize)?;
        Some((Name(*name), *kind))
    }
}

/// The maps by their numbers, from 0.
#[derive(Drop)]
pub struct Maps {
    maps: Vec<Map>,
}

impl Model for Maps {
    ghost use Rattle.std.specs.Prelude.{List, ℕ, length, ◌≤◌};
    ghost use Rattle.object_maps.specs.declared.maps.SlotKind.{SlotKind};

    ghost Value = { List (List (ℕ × SlotKind)) };

    ghost view = { λ m. m.maps.items };

    ghost invariant = { λ m. length m.maps.items ≤ 500000000 };
}

impl Maps {
    /// No maps. The first that is added is that of the integers.
    pub fn open(alloc: Global) -> Result<Maps, AllocError>
        ensures { IfOk result (λ maps. maps ≡ []) }
    {
        Ok(Maps {
            maps: Vec::new(alloc),
        })
    }

    /// The number of a new map; after want of memory the maps are as they were.
    pub fn add(&mut self, map: Map) -> Result<MapId, AllocError>
        requires { length self.old < 500000000 }
        ensures number { IfOk result (λ id. id.0 ≡ length self.old) }
        ensures added { OnOk result (self.new ≡ self.old ++ map ∷ []) }
        ensures same { OnErr result (self.new ≡ self.old) }
    {
        let id = MapId(self.maps.len() as u32);
        match self.maps.push(map) {
            Ok(()) => Ok(id),
            Err(_) => Err(AllocError),
        }
    }

    /// How many maps there are.
    pub fn len(&self) -> usize
        ensures len { result ≡ length self.now }
        ensures small { length self.now ≤ 500000000 }
    {
        self.maps.len()
    }

    /// How many slots a map has.
    pub fn slot_count(&self, map: MapId) -> u32
        requires { map.0 < length self.now }
        ensures count { result ≡ length (slots_in self.now map.0) }
        ensures small { result ≤ 500000000 }
    {
        self.maps[map.0 as usize].len()
    }

    /// The map of a value: that of the integers, or the number in the value's first word.
    pub fn map_of(&self, mem: &Memory, value: Word) -> MapId
        requires { (value % 4 ≡ 0) ⊎ HasWord (value - 1) }
        ensures { result.0 ≡ map_at mem.now value }
    {
        if is_int(value) {
            return MapId(0);
        }
        MapId(mem.load(value - 1) >> 2)
    }

    /// What the slot of a name is in a map; none where the map has no slot of that name.
    pub fn slot_of(&self, map: MapId, name: Name) -> Option<SlotKind>
        requires { map.0 < length self.now }
        ensures { result ≡ slot_named name.0 (slots_in self.now map.0) }
    {
        self.maps[map.0 as usize].slot_of(name)
    }

    /// The slot of a map at a number from 0; none past the last.
    pub fn slot_at(&self, map: MapId, at: u32) -> Option<(Name, SlotKind)>
        requires { map.0 < length self.now }
        ensures slot { result ≡ option_map named (slice_get (slots_in self.now map.0) at) }
        ensures small { length (slots_in self.now map.0) ≤ 500000000 }
    {
        self.maps[map.0 as usize].slot_at(at)
    }
}

#[cfg(test)]
mod tests {
    use super::*;

    #[test]
    fn slots_stand_in_order(rt: HostRuntime) {
        let mut map = Map::open(rt.alloc());
        map.add(Name(7), SlotKind::Parent(5)).expect(&rt, "room");
        let mut maps = Maps::open(rt.alloc()).expect(&rt, "room");
        let id = maps.add(map).expect(&rt, "room");
        assert!(rt; maps.slot_at(id, 0) == Some((Name(7), SlotKind::Parent(5))));
        assert!(rt; maps.slot_of(id, Name(8)) == None);
    }
}
