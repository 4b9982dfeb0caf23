// The maps of contexts and of blocks.
ghost use Rattle.std.specs.Prelude.{◌≡◌, ◌+◌, ◌<◌, ◌≤◌, ◌++◌, length, IfOk, OnOk};
ghost use Rattle.world_blocks.specs.Sessions.{HasFewArguments, block_map, block_maps, numbers_from, own_block_map, own_number};
ghost use Rattle.world_blocks.specs.Steps.{AreEvaluators};

use object_maps::{Map, Maps, SlotKind};
use self_terms::{Body, BodyId, Name, Row, Word};
use std::alloc::{AllocError, Global};
use world_build::World;

// The map of the blocks of a body.
fn block_map(
    alloc: Global,
    world: &World,
    evaluators: &[u32],
    traits: Word,
    b: u32,
    body: &Body,
) -> Result<Map, AllocError>
    requires evaluators { AreEvaluators world.now.names evaluators.now }
    requires few { length body.now.arguments ≤ 5 }
    ensures { IfOk result (λ m. m ≡ block_map world.now.names traits b body.now) }
{
    let evaluator = evaluators[body.arguments.as_slice().len()];
    let mut map = Map::open(alloc);
    map.add(Name(evaluator), SlotKind::Method(BodyId(b)))?;
    map.add(Name(0), SlotKind::Parent(traits))?;
    Ok(map)
}

// Adds it, if the body is a block's: its number, and 0 for a method.
fn add_block_map(
    alloc: Global,
    world: &World,
    evaluators: &[u32],
    traits: Word,
    b: u32,
    body: &Body,
    maps: &mut Maps,
) -> Result<u32, AllocError>
    requires evaluators { AreEvaluators world.now.names evaluators.now }
    requires few { length body.now.arguments ≤ 5 }
    requires room { length maps.old < 500000000 }
    ensures added { OnOk result (maps.new ≡ maps.old ++ own_block_map world.now.names traits b body.now body.now.outer) }
    ensures number { IfOk result (λ n. n ≡ own_number (length maps.old) body.now.outer) }
{
    match body.outer {
        None => Ok(0),
        Some(_) => {
            let map = block_map(alloc, world, evaluators, traits, b, body)?;
            Ok(maps.add(map)?.0)
        }
    }
}

// Adds those of all bodies: their numbers.
pub fn add_block_maps(
    alloc: Global,
    world: &World,
    evaluators: &[u32],
    traits: Word,
    maps: &mut Maps,
) -> Result<Row<u32>, AllocError>
    requires evaluators { AreEvaluators world.now.names evaluators.now }
    requires few { HasFewArguments world.now }
    requires room { length maps.old + length world.now.bodies < 500000000 }
    ensures added { OnOk result (maps.new ≡ maps.old ++ block_maps world.now.names traits 1 world.now.bodies) }
    ensures numbers { IfOk result (λ n. n ≡ numbers_from (length maps.old) world.now.bodies) }
{
    let mut numbers = Row::open(alloc);
    for k in 0..world.bodies() {
        let b = k + 1;
        let body = world.body(BodyId(b));
        let number = add_block_map(alloc, world, evaluators, traits, b, body, maps)?;
        numbers.push(number)?;
    }
    Ok(numbers)
}
