// Whether a session over a world may begin.
ghost use Rattle.std.specs.Prelude.{◌≡◌, ◌+◌, ◌≤◌, ◌&&◌, codes, length, nat_le, nat_lt};
ghost use Rattle.source_model.specs.Names.{number_of};
ghost use Rattle.source_model.specs.Testing.{below_pass, can_begin, core_test, each_passes, fit_test, said_test, takes_test, thing_test};
ghost use Rattle.world_state.specs.Begun.{begun};

use crate::names::{number_of, takes_test};
use crate::nodes::fit_test;
use crate::said::said_test;
use crate::slots::thing_test;
use self_terms::{BodyId, Names};
use source_model::Core;
use world_build::World;

// Whether the core objects are there.
fn objects_test(core: Core, things: usize) -> bool
    ensures { result ≡ (nat_lt core.nil things && (nat_lt core.yes things && (nat_lt core.no things && (nat_lt core.integers things
        && (nat_lt core.strings things && (nat_lt core.vectors things && nat_lt core.blocks things)))))) }
{
    (core.nil as usize) < things
        && (core.yes as usize) < things
        && (core.no as usize) < things
        && (core.integers as usize) < things
        && (core.strings as usize) < things
        && (core.vectors as usize) < things
        && (core.blocks as usize) < things
}

// Whether the strings that every world has are there, and the message that a failed primitive sends takes two arguments.
fn failure_test(names: &Names, fixed: u32, things: usize) -> bool
    requires { length names.now ≤ 500000000 }
    ensures { result ≡ (nat_le (fixed + 26) things && takes_test names.now (number_of names.now (codes "value:With:")) 2) }
{
    fixed as usize + 26 <= things && takes_test(names, number_of(names, b"value:With:"), 2)
}

fn core_test(world: &World, names: &Names) -> bool
    requires { length names.now ≤ 500000000 }
    ensures { result ≡ core_test (begun world.now names.now 0) }
{
    let things = world.things().len();
    objects_test(world.core(), things) && failure_test(names, world.objects(), things)
}

fn bodies_fit(world: &World) -> bool
    ensures { result ≡ below_pass (length world.now.bodies) (λ k. fit_test world.now.bodies (k + 1)) }
{
    for k in 0..world.bodies() {
        if !fit_test(world, k + 1) {
            return false;
        }
    }
    true
}

fn bodies_said(world: &World, names: &Names) -> bool
    ensures { result ≡ each_passes (said_test names.now (length world.now.things)) world.now.bodies }
{
    let things = world.things().len();
    for k in 0..world.bodies() {
        if !said_test(names, things, world.body(BodyId(k + 1))) {
            return false;
        }
    }
    true
}

fn things_test(world: &World, names: &Names) -> bool
    ensures { result ≡ each_passes (thing_test names.now world.now.bodies (length world.now.things)) world.now.things }
{
    for thing in world.things() {
        if !thing_test(world, names, thing) {
            return false;
        }
    }
    true
}

/// Whether a session over a world may begin with these names: those of the world, and perhaps further ones behind them.
pub fn can_begin_with(world: &World, names: &Names) -> bool
    requires few { length names.now ≤ 500000000 }
    ensures { result ≡ can_begin (begun world.now names.now 0) }
{
    if !core_test(world, names) {
        return false;
    }
    if !bodies_fit(world) {
        return false;
    }
    if !bodies_said(world, names) {
        return false;
    }
    things_test(world, names)
}

/// The same with the names of the world alone. It is false where the text of the world has no message `value:With:`, which a failed
/// primitive sends.
pub fn can_begin(world: &World) -> bool
    requires few { length world.now.names ≤ 450000000 }
    ensures { result ≡ can_begin (begun world.now world.now.names 0) }
{
    can_begin_with(world, world.names())
}
