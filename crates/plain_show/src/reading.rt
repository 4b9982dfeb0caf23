//! The frames of an activity whose frames stand in memory.
ghost use Rattle.std.specs.Prelude.{◌≡◌, ◌<◌, ◌≤◌, ◌+◌, ◌*◌, ◌++◌, ◌∷◌, [], length};
ghost use Rattle.sparc_store.specs.Words.{HasFrame};
ghost use Rattle.sparc_store.specs.Windows.{saved_at};
ghost use Rattle.frame_walk.specs.Places.{shown};
ghost use Rattle.plain_runs.specs.Host.{descriptor_at, seen, waiting};
ghost use Rattle.plain_host.specs.Hosted.{host};
ghost use Rattle.plain_show.specs.Reading.{CanRead, IsReadable};
ghost use Rattle.plain_show.specs.Showing.{IsAtPoll, flushed_host};

use crate::frames::{FrameList, frame_word};
use plain_host::Hosting;
use plain_words::frame_locals_of;

// The numbers of %fp and %i7 in a saved window.
const FRAME_POINTER: u32 = 14;

const RETURNS: u32 = 15;

// The word of a number in the window that is saved at an address.
fn saved_word(hosting: &Hosting, sp: u32, k: u32) -> u32
    requires frame { HasFrame sp 16 }
    requires within { k < 16 }
    ensures { result ≡ saved_at (host hosting.now).machine.memory sp k }
{
    frame_word(hosting, sp, 16, k)
}

// The frame that begins at an address and goes on at another, behind those that are there.
fn read_frame(hosting: &Hosting, sp: u32, pc: u32, into: &mut FrameList)
    requires readable { IsReadable (host hosting.now) pc sp (saved_at (host hosting.now).machine.memory sp 14) }
    requires room { length into.old < 4096 }
    ensures { into.new ≡ into.old ++ shown (host hosting.now).machine.memory (saved_at (host hosting.now).machine.memory sp) sp (descriptor_at (host hosting.now) pc) ∷ [] }
{
    let point = hosting.point_at(pc);
    into.push_read(
        hosting,
        sp,
        point,
        frame_locals_of(hosting.body(point.body)),
    );
}

/// So many frames that stand in memory, the youngest of which begins at an address and goes on at another.
pub fn read_waiting(hosting: &Hosting, sp: u32, pc: u32, count: u32, into: &mut FrameList)
    requires laid { CanRead (host hosting.now) sp pc count }
    requires few { count ≤ 4096 }
    ensures { into.new ≡ waiting (host hosting.now) sp pc count }
{
    into.clear();
    let mut at = sp;
    let mut next = pc;
    for _frame in 0..count {
        read_frame(hosting, at, next, into);
        next = saved_word(hosting, at, RETURNS) + 8;
        at = saved_word(hosting, at, FRAME_POINTER);
    }
}

/// The frames of the current activity, which is at a poll. All of them stand in memory then.
pub fn read_frames(hosting: &mut Hosting, into: &mut FrameList)
    requires { IsAtPoll (host hosting.old) }
    ensures frames { into.new ≡ seen (host hosting.old) }
    ensures host { host hosting.new ≡ flushed_host (host hosting.old) }
{
    let sp = hosting.register(14);
    let pc = hosting.pc();
    let count = hosting.register(4);
    hosting.flush();
    read_waiting(hosting, sp, pc, count, into);
}
