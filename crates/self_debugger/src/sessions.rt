//! A session with its advisors, and the commands that are built.
ghost use Rattle.std.specs.Prelude.{◌≡◌, ℕ, ◌≤◌, [], true, length, IfOk};
ghost use Rattle.std.specs.List.{list_all};
ghost use Rattle.session_text.specs.LineTexts.{HasRoom, line_text};
ghost use Rattle.source_model.specs.Script.{advisor};
ghost use Rattle.plain_turns.specs.Asking.{count};
ghost use Rattle.plain_session.specs.Sessions as words;
ghost use Rattle.self_debugger.specs.Commands.{is_served};
ghost use Rattle.self_debugger.specs.Sessions.{host_of, Shows, IsShown, Obeys};
ghost use Rattle.self_debugger.specs.Parts.{IsWorld};
ghost use Rattle.self_debugger.specs.WorldFiles.{begins};

use crate::worlds::session_over;
use plain_session::is_built;
use recompile::Advisor;
use session_text::{Command, LineText};
use std::alloc::{AllocError, Global};
use std::marker::Model;
use world_image::WorldImage;

/// A session in plain code, the advisor that is present, and those that are left behind it. Nobody is asked yet.
#[derive(Drop)]
pub struct Session {
    pub(crate) plain: plain_session::Session,
    present: Option<Box<dyn Advisor + Drop>>,
    left: Vec<Box<dyn Advisor + Drop>>,
}

impl Model for Session {
    ghost use Rattle.std.specs.Prelude.{length};
    ghost use Rattle.self_debugger.specs.Sessions as sessions;

    ghost Value = { sessions.Session };

    ghost view = { λ x. record { plain = x.plain; left = length x.left.items } };
}

/// Whether a command is built: one of plain code, or `advisor`.
pub fn is_served(command: &Command) -> bool
    ensures { result ≡ is_served command.now }
{
    match command {
        Command::Advisor(_) => true,
        _ => is_built(command),
    }
}

/// Whether all commands are.
pub fn all_served(commands: &[Command]) -> bool
    ensures { result ≡ list_all is_served commands.now }
{
    commands.iter().all(is_served)
}

impl Session {
    /// The session over a world that was read, with these advisors, of which the first is present: it shows the state with which it begins.
    pub fn open(
        alloc: Global,
        image: WorldImage,
        advisors: Vec<Box<dyn Advisor + Drop>>,
    ) -> Result<Session, AllocError>
        requires accepted { IsWorld image.world }
        requires few { length image.world.names ≤ 450000000 }
        ensures shows { IfOk result (λ x. Shows x (begins (length advisors.items) image.world)) }
        ensures idle { IfOk result (λ x. (host_of x).statuses ≡ []) }
        ensures counted { IfOk result (λ x. count (host_of x) ≡ 0) }
        ensures instructions { IfOk result (λ x. x.plain.instructions ≡ 0) }
        ensures services { IfOk result (λ x. x.plain.services ≡ 0) }
    {
        let plain = session_over(alloc, image)?;
        let mut left = advisors;
        if left.len() == 0 {
            return Ok(Session {
                plain,
                present: None,
                left,
            });
        }
        let first = left.remove(0);
        Ok(Session {
            plain,
            present: Some(first),
            left,
        })
    }

    /// The session in plain code.
    pub fn plain(&self) -> &plain_session::Session
        ensures { result.now ≡ self.now.plain }
    {
        &self.plain
    }

    /// The command `advisor`, and its line: with 0 the present advisor is dropped, and none is present; from 1 it is dropped, and that one of those that
    /// are left is taken. Takes no memory.
    pub fn advise(&mut self, k: u32) -> LineText<'static>
        ensures obeys { Obeys self.old self.new (advisor k) (line_text result) }
        ensures room { HasRoom result }
        ensures led { words.IsLed self.old.plain self.new.plain }
        ensures rose { words.CountsFew self.old.plain self.new.plain }
        ensures same { self.new.plain ≡ self.old.plain }
    {
        if k as usize > self.left.len() {
            return LineText::Fixed("refused no such advisor");
        }
        if k == 0 {
            self.present = None;
            return LineText::Advisor(0);
        }
        let next = self.left.remove(k as usize - 1);
        self.present = Some(next);
        LineText::Advisor(k)
    }
}
