// The bodies of a world by their numbers from 1.
ghost use Rattle.std.specs.Prelude.{◌≡◌, ◌-◌, length, option_and_then, slice_get, Some};
ghost use Rattle.std.specs.Option.{option_copied};
ghost use Rattle.source_model.specs.Soundness.{around, body_in, room};
ghost use Rattle.source_model.specs.Testing.{body_test, local_test, outer_test};

use self_terms::{Body, BodyId};
use world_build::World;

// The body of a number, where 0 counts as 1; none past the last.
fn body_in(world: &World, n: u32) -> Option<&Body>
    ensures { option_copied result ≡ slice_get world.now.bodies (n - 1) }
{
    let at = if n == 0 { 1 } else { n };
    if at > world.bodies() {
        return None;
    }
    Some(world.body(BodyId(at)))
}

/// The number of the body around one.
pub fn outer_in(world: &World, n: u32) -> Option<u32>
    ensures { result ≡ (body_in world.now.bodies n).outer }
{
    match body_in(world, n) {
        None => None,
        Some(body) => body.outer,
    }
}

/// How many arguments a body has.
pub fn arguments_in(world: &World, n: u32) -> usize
    ensures { result ≡ length (body_in world.now.bodies n).arguments }
{
    match body_in(world, n) {
        None => 0,
        Some(body) => body.arguments.as_slice().len(),
    }
}

// How many locals an activation of a body has, its arguments among them.
fn room_in(world: &World, n: u32) -> usize
    ensures { result ≡ room (body_in world.now.bodies n) }
{
    match body_in(world, n) {
        None => 0,
        Some(body) => body.arguments.as_slice().len() + body.locals.as_slice().len(),
    }
}

/// Whether a number is a body's.
pub fn body_test(world: &World, n: u32) -> bool
    ensures { result ≡ body_test world.now.bodies n }
{
    0 < n && n <= world.bodies()
}

/// Whether the body around one is there.
pub fn outer_test(world: &World, outer: Option<u32>) -> bool
    ensures { result ≡ outer_test world.now.bodies outer }
{
    match outer {
        None => true,
        Some(n) => body_test(world, n),
    }
}

// The number of the body around one, if there is one.
fn outer_of(world: &World, at: Option<u32>) -> Option<u32>
    ensures { result ≡ option_and_then (λ k. (body_in world.now.bodies k).outer) at }
{
    match at {
        None => None,
        Some(n) => outer_in(world, n),
    }
}

// The number of the body that is so many bodies out of one.
fn around(world: &World, up: u8, n: u32) -> Option<u32>
    ensures { result ≡ around world.now.bodies up (Some n) }
{
    let mut at = Some(n);
    for done in 0..up {
        at = outer_of(world, at);
    }
    at
}

/// Whether a body that is so many bodies out of one has a local of this number.
pub fn local_test(world: &World, n: u32, up: u8, slot: u8) -> bool
    ensures { result ≡ local_test world.now.bodies slot (around world.now.bodies up (Some n)) }
{
    match around(world, up, n) {
        None => false,
        Some(at) => (slot as usize) < room_in(world, at),
    }
}
