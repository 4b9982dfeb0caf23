//! The lines of the activations of the current activity.
ghost use Rattle.std.specs.Prelude.{◌≡◌, ◌<◌, ◌≤◌, ◌-◌, length, reverse, slice_get, OnOk, OnErr};
ghost use Rattle.io_ports.specs.Causes.{HasCause, Takes, TakesFront};
ghost use Rattle.session_text.specs.Frames.{act_text, acts_text, ActHasNames};
ghost use Rattle.plain_host.specs.Hosted.{host};
ghost use Rattle.plain_show.specs.Showing.{IsAtPoll, flushed_host, stack_shown};
ghost use Rattle.plain_session.specs.Stacks.{AllNamed};

use io_ports::{Failed, Sink, write_all};
use plain_core::Language;
use plain_host::Hosting;
use plain_show::StackReader;
use self_terms::OutOfMemory;
use session_text::{Line, Shown, activation_has_room};
use std::alloc::Global;

/// Room to read stacks in and to write their lines, which is taken when it is made.
#[derive(Drop)]
pub(crate) struct StackWriter {
    reader: StackReader,
    shown: Shown,
    line: Line,
}

// Writes the line of the activation at a position, from 1 for the oldest.
fn put_frame<K: Sink>(
    shown: &Shown,
    position: u32,
    language: &Language,
    hosting: &Hosting,
    line: &mut Line,
    out: &mut K,
) -> Result<(), Failed>
    requires given { 0 < position }
    requires within { position ≤ length shown.now }
    requires named { ActHasNames language.now.names (host hosting.now).bodies (slice_get shown.now (position - 1)) }
    ensures all { OnOk result (Takes (K.taken out.old) (K.taken out.new) (act_text language.now.core language.now.names (host hosting.now).bodies position (slice_get shown.now (position - 1)))) }
    ensures front { OnErr result (TakesFront (K.taken out.old) (K.taken out.new) (act_text language.now.core language.now.names (host hosting.now).bodies position (slice_get shown.now (position - 1)))) }
    ensures cause { HasCause (K.faults out.old) (K.faults out.new) result }
{
    let act = shown.at(position);
    let body = hosting.body(act.body.0);
    activation_has_room(language.core(), language.names(), body, position, act);
    line.put_activation(language.core(), language.names(), body, position, act);
    write_all(out, line.bytes())
}

// Writes the lines of activations, the youngest first.
fn put_frames<K: Sink>(
    shown: &Shown,
    language: &Language,
    hosting: &Hosting,
    line: &mut Line,
    out: &mut K,
) -> Result<(), Failed>
    requires few { length shown.now ≤ 4096 }
    requires named { AllNamed language.now.names (host hosting.now).bodies shown.now }
    ensures all { OnOk result (Takes (K.taken out.old) (K.taken out.new) (acts_text language.now.core language.now.names (host hosting.now).bodies (reverse shown.now))) }
    ensures front { OnErr result (TakesFront (K.taken out.old) (K.taken out.new) (acts_text language.now.core language.now.names (host hosting.now).bodies (reverse shown.now))) }
    ensures cause { HasCause (K.faults out.old) (K.faults out.new) result }
{
    let count = shown.len() as u32;
    for at in 0..count {
        put_frame(shown, count - at, language, hosting, line, out)?;
    }
    Ok(())
}

impl StackWriter {
    /// Room for one stack, and for one line.
    pub(crate) fn open(alloc: Global) -> Result<StackWriter, OutOfMemory> {
        Ok(StackWriter {
            reader: StackReader::open(alloc)?,
            shown: Shown::open(alloc)?,
            line: Line::open(alloc)?,
        })
    }

    /// Writes the lines of the activations of the current activity, which is at a poll, the youngest first. Their frames all stand in memory then. Takes no
    /// memory.
    pub(crate) fn write<K: Sink>(
        &mut self,
        hosting: &mut Hosting,
        language: &Language,
        out: &mut K,
    ) -> Result<(), Failed>
        requires poll { IsAtPoll (host hosting.old) }
        requires few { length (stack_shown (host hosting.old)) ≤ 4096 }
        requires named { AllNamed language.now.names (host hosting.old).bodies (stack_shown (host hosting.old)) }
        ensures host { host hosting.new ≡ flushed_host (host hosting.old) }
        ensures all { OnOk result (Takes (K.taken out.old) (K.taken out.new) (acts_text language.now.core language.now.names (host hosting.old).bodies (reverse (stack_shown (host hosting.old))))) }
        ensures front { OnErr result (TakesFront (K.taken out.old) (K.taken out.new) (acts_text language.now.core language.now.names (host hosting.old).bodies (reverse (stack_shown (host hosting.old))))) }
        ensures cause { HasCause (K.faults out.old) (K.faults out.new) result }
    {
        self.reader.show(hosting, &mut self.shown);
        put_frames(&self.shown, language, hosting, &mut self.line, out)
    }
}
