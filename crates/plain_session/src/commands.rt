//! The commands that are built.
ghost use Rattle.std.specs.Prelude.{◌≡◌};
ghost use Rattle.std.specs.List.{list_all};
ghost use Rattle.plain_session.specs.Commands.{is_built};

use session_text::Command;
use world_test::arity;

/// Whether a command is built: a spawn of a name that takes no arguments, a switch to another activity, a run, to which
/// `step`, `continue`, `interrupt` and `finish` belong, or `stack`.
pub fn is_built(command: &Command) -> bool
    ensures { result ≡ is_built command.now }
{
    match command {
        Command::Spawn(name) => arity(name.as_slice()) == 0,
        Command::Switch(_) => true,
        Command::Run(steps) => *steps <= 1000000000,
        Command::Continue(steps) => *steps <= 1000000000,
        Command::Step => true,
        Command::Interrupt(steps) => *steps <= 1000000000,
        Command::Finish(steps) => *steps <= 1000000000,
        Command::Stack => true,
        _ => false,
    }
}

/// Whether all commands are.
pub fn all_built(commands: &[Command]) -> bool
    ensures { result ≡ list_all is_built commands.now }
{
    commands.iter().all(is_built)
}
