// The names of a session.
ghost use Rattle.std.specs.Prelude.{◌≡◌, ◌+◌, ◌<◌, ◌≤◌, length, IfOk, OnOk};
ghost use Rattle.self_terms.specs.Names.{with_text};
ghost use Rattle.world_build.specs.Known.{IsNumber};
ghost use Rattle.world_blocks.specs.Sessions.{session_world};
ghost use Rattle.world_blocks.specs.Steps.{AreEvaluators};

use std::alloc::AllocError;
use world_build::World;

// The number of a text, which has a name from now on.
fn number(world: &mut World, text: &[u8]) -> Result<u32, AllocError>
    requires { length world.old.names < 500000000 }
    ensures number { IfOk result (λ n. IsNumber world.new.names text.now n) }
    ensures grows { OnOk result (world.new ≡ record world.old { names = with_text world.old.names text.now }) }
    ensures room { length world.new.names ≤ length world.old.names + 1 }
{
    let name = world.name(text)?;
    Ok(name.0)
}

// Names the texts of a session; the numbers of the messages that evaluate blocks.
pub fn name_texts(world: &mut World) -> Result<[u32; 6], AllocError>
    requires { length world.old.names < 400000000 }
    ensures numbers { IfOk result (λ numbers. AreEvaluators world.new.names numbers) }
    ensures named { OnOk result (world.new ≡ session_world world.old) }
{
    number(world, "lobby".as_bytes())?;
    let none = number(world, "value".as_bytes())?;
    let one = number(world, "value:".as_bytes())?;
    let two = number(world, "value:With:".as_bytes())?;
    let three = number(world, "value:With:With:".as_bytes())?;
    let four = number(world, "value:With:With:With:".as_bytes())?;
    let five = number(world, "value:With:With:With:With:".as_bytes())?;
    Ok([none, one, two, three, four, five])
}
