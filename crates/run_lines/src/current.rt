//! How the current activity stands.
ghost use Rattle.std.specs.Prelude.{◌≡◌, ℕ};
ghost use Rattle.source_model.specs.State.{State};
ghost use Rattle.plain_turns.specs.Resting.{Rests};
ghost use Rattle.plain_host.specs.Hosted.{host};
ghost use Rattle.run_lines.specs.declared.current.Standing.TheVariants as standings;
ghost use Rattle.run_lines.specs.Standing.{IsStanding, IsResting, GoesOn};

use plain_host::Hosting;
use plain_runs::Status;

/// How the current activity stands: there is none; it goes on; or it has ended.
#[derive(Clone, Copy, Debug, PartialEq, Eq)]
pub enum Standing {
    Nobody,
    Goes,
    Ended,
}

/// How the current activity stands between commands.
pub fn standing_of(hosting: &Hosting) -> Standing
    requires { IsResting (host hosting.now) }
    ensures source { (s : State) → Rests (host hosting.now) s → IsStanding s result }
    ensures goes { result ≡ standings.Goes → GoesOn (host hosting.now) }
{
    match hosting.status(hosting.current()) {
        Some(Status::Waiting(_, _, _)) => Standing::Goes,
        Some(Status::Answered(_)) => Standing::Ended,
        Some(Status::Failed(_, _)) => Standing::Ended,
        None => Standing::Nobody,
    }
}
