//! Whether there is room for the units of a world.
ghost use Rattle.std.specs.Prelude.{◌≡◌, ◌+◌, ◌<◌, ◌≤◌, nat_le, MatchOption};
ghost use Rattle.plain_turns.specs.Rooms.{most_words};
ghost use Rattle.plain_opens.specs.Opens.{all_words};

use self_terms::{Body, BodyId};
use world_build::World;

// What is left of so many words behind the unit of a body, if that fits.
fn left_behind(body: &Body, left: usize) -> Option<usize>
    requires { left ≤ 8388352 }
    ensures { MatchOption result (left < most_words body.now) (λ rest. rest + most_words body.now ≡ left) }
{
    let nodes = body.nodes.len();
    let arguments = body.arguments.as_slice().len();
    let locals = body.locals.as_slice().len();
    if nodes > left {
        return None;
    }
    if arguments > left {
        return None;
    }
    if locals > left {
        return None;
    }
    let words = 80 * nodes + 16 * (arguments + locals) + 40;
    if words > left {
        return None;
    }
    Some(left - words)
}

/// Whether there is room in the code region for units of all bodies.
pub fn units_have_room(world: &World) -> bool
    ensures { result ≡ nat_le (all_words world.now.bodies) 8388352 }
{
    let mut left = 8388352;
    for k in 0..world.bodies() {
        let body = world.body(BodyId(k + 1));
        match left_behind(body, left) {
            None => return false,
            Some(rest) => left = rest,
        }
    }
    true
}
