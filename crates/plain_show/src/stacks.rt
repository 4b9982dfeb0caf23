//! The activations of the current activity, as they are shown.
ghost use Rattle.std.specs.Prelude.{◌≡◌, ℕ};
ghost use Rattle.source_model.specs.Soundness.{body_in};
ghost use Rattle.shown_frames.specs.Showing.{acts_shown};
ghost use Rattle.plain_words.specs.Translating.{CanTranslate};
ghost use Rattle.plain_runs.specs.Host.{Host, seen};
ghost use Rattle.plain_host.specs.Hosted.{host};
ghost use Rattle.plain_show.specs.Showing.{IsAtPoll, flushed_host, stack_shown};

use crate::frames::FrameList;
use crate::reading::read_frames;
use crate::showing::show;
use plain_host::Hosting;
use self_terms::OutOfMemory;
use session_text::{Shown, ValueList};
use std::alloc::Global;

/// Room to read stacks in, which is taken when it is made.
#[derive(Drop)]
pub struct StackReader {
    frames: FrameList,
    locals: ValueList,
    pending: ValueList,
}

// A law: wherever plain code runs, each body can be translated.
fn all_translate(hosting: &Hosting)
    requires { IsAtPoll (host hosting.now) }
    ensures { (k : ℕ) → CanTranslate (body_in (host hosting.now).bodies k) }
{
    let _hosting = hosting;
}

impl StackReader {
    /// Room for one stack.
    pub fn open(alloc: Global) -> Result<StackReader, OutOfMemory> {
        Ok(StackReader {
            frames: FrameList::open(alloc)?,
            locals: ValueList::open(alloc)?,
            pending: ValueList::open(alloc)?,
        })
    }

    /// The activations of the current activity, which is at a poll, the oldest first. Their frames all stand in memory then. Takes no memory.
    pub fn show(&mut self, hosting: &mut Hosting, into: &mut Shown)
        requires { IsAtPoll (host hosting.old) }
        ensures shown { into.new ≡ stack_shown (host hosting.old) }
        ensures host { host hosting.new ≡ flushed_host (host hosting.old) }
    {
        all_translate(hosting);
        read_frames(hosting, &mut self.frames);
        show(
            hosting,
            &self.frames,
            &mut self.locals,
            &mut self.pending,
            into,
        );
    }
}
