// Turns in the form that comes up most.
ghost use Rattle.std.specs.Prelude.{◌∷◌};
ghost use Rattle.reader_states.specs.Turns.{event_in, simply, Turns};

use crate::counts::{Counts, Event, Post};
use crate::frames::{At, Frame, Stop, Turn};
use crate::stack::Stack;

/// A turn behind which nothing more is counted.
pub fn simply(counts: Counts, event: Event, at: At, frames: Stack<Frame>) -> Result<Turn, Stop>
    ensures { Turns result (simply counts (event_in event) at frames) }
{
    Ok(Turn {
        counts,
        event,
        post: Post::Stay,
        at,
        frames,
    })
}

/// The same, with this frame innermost.
pub fn within(
    counts: Counts,
    event: Event,
    at: At,
    frame: Frame,
    frames: Stack<Frame>,
) -> Result<Turn, Stop>
    ensures { Turns result (simply counts (event_in event) at (frame ∷ frames)) }
{
    let mut frames = frames;
    frames.push(frame)?;
    simply(counts, event, at, frames)
}
