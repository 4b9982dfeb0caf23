//! Frames in words.
ghost use Rattle.std.specs.Prelude.{◌≡◌, ◌<◌, ◌≤◌, ◌+◌, ◌-◌, ◌*◌, ◌++◌, ◌∷◌, [], length, slice_get, Some, IfOk, vec_len, vec_capacity};
ghost use Rattle.sparc_store.specs.Words.{HasFrame, HasWord, word_at};
ghost use Rattle.sparc_store.specs.Windows.{saved_at};
ghost use Rattle.frame_walk.specs.Places.{shown};
ghost use Rattle.plain_words.specs.Units.{point_descriptor};
ghost use Rattle.plain_host.specs.Hosted.{host};
ghost use Rattle.shown_frames.specs.Listed.{words_up, words_down};

use plain_host::Hosting;
use plain_words::Point;
use self_terms::OutOfMemory;
use std::alloc::Global;
use std::marker::Model;

// How many activations of an activity there may be.
const ACTIVATIONS: usize = 4096;

// How many words a list of a frame has room for.
const WORDS: usize = 79;

/// An activation in words, as its frame shows it.
#[derive(Drop)]
pub struct FrameWords {
    body: u32,
    next: u32,
    receiver: u32,
    holder: u32,
    outer: u32,
    context: u32,
    mark: u32,
    locals: Vec<u32>,
    pending: Vec<u32>,
}

impl Model for FrameWords {
    ghost use Rattle.std.specs.Prelude.{◌≤◌, vec_len, vec_capacity};
    ghost use Rattle.frame_walk.specs.Places.{Frame};

    ghost Value = { Frame };

    ghost view = { λ f. record { body = f.body; next = f.next; receiver = f.receiver; holder = f.holder; outer = f.outer; context = f.context; mark = f.mark; locals = f.locals.items; pending = f.pending.items } };

    ghost invariant = { λ f. (79 ≤ vec_capacity f.locals) × (79 ≤ vec_capacity f.pending) × (vec_len f.locals ≤ 79) × (vec_len f.pending ≤ 79) };
}

// The word of a frame at a number from 0, where it has so many.
pub(crate) fn frame_word(hosting: &Hosting, sp: u32, words: u32, k: u32) -> u32
    requires frame { HasFrame sp words }
    requires within { k < words }
    ensures { result ≡ word_at (host hosting.now).machine.memory (sp + 4 * k) }
{
    let _words = words;
    hosting.word(sp + 4 * k)
}

// So many words from an address on, in their order, in place of those that are there.
fn put_up(hosting: &Hosting, at: u32, count: u32, into: &mut Vec<u32>)
    requires frame { HasFrame at count }
    requires room { count ≤ vec_capacity into.old }
    ensures words { into.new.items ≡ words_up (host hosting.now).machine.memory at count }
    ensures len { vec_len into.new ≡ count }
    ensures capacity { vec_capacity into.new ≡ vec_capacity into.old }
{
    into.clear();
    for j in 0..count {
        into.push_reserved(frame_word(hosting, at, count, j));
    }
}

// The last of them first.
fn put_down(hosting: &Hosting, at: u32, count: u32, into: &mut Vec<u32>)
    requires frame { HasFrame at count }
    requires room { count ≤ vec_capacity into.old }
    ensures words { into.new.items ≡ words_down (host hosting.now).machine.memory at count }
    ensures len { vec_len into.new ≡ count }
    ensures capacity { vec_capacity into.new ≡ vec_capacity into.old }
{
    into.clear();
    for j in 0..count {
        into.push_reserved(frame_word(hosting, at, count, count - 1 - j));
    }
}

impl FrameWords {
    // A frame of no body, with room for words.
    fn open(alloc: Global) -> Result<FrameWords, OutOfMemory> {
        Ok(FrameWords {
            body: 0,
            next: 0,
            receiver: 0,
            holder: 0,
            outer: 0,
            context: 0,
            mark: 0,
            locals: Vec::with_capacity(alloc, WORDS)?,
            pending: Vec::with_capacity(alloc, WORDS)?,
        })
    }

    // The frame that stands in memory from an address on, whose code goes on at a point, with so many locals.
    fn read(&mut self, hosting: &Hosting, sp: u32, point: Point, locals: u32)
        requires frame { HasFrame sp (27 + locals + point.pending) }
        requires locals { locals ≤ 79 }
        requires pending { point.pending ≤ 79 }
        ensures { self.new ≡ shown (host hosting.now).machine.memory (saved_at (host hosting.now).machine.memory sp) sp (point_descriptor locals point) }
    {
        let words = 27 + locals + point.pending;
        self.body = point.body;
        self.next = point.node;
        self.receiver = frame_word(hosting, sp, words, 8);
        self.holder = frame_word(hosting, sp, words, 26);
        self.outer = frame_word(hosting, sp, words, 0);
        self.context = frame_word(hosting, sp, words, 1);
        self.mark = sp;
        put_up(hosting, sp + 108, locals, &mut self.locals);
        put_down(
            hosting,
            sp + 108 + 4 * locals,
            point.pending,
            &mut self.pending,
        );
    }

    /// The number of its body.
    pub fn body(&self) -> u32
        ensures { result ≡ self.now.body }
    {
        self.body
    }

    /// The number of its next node.
    pub fn next(&self) -> u32
        ensures { result ≡ self.now.next }
    {
        self.next
    }

    /// The word of its receiver.
    pub fn receiver(&self) -> u32
        ensures { result ≡ self.now.receiver }
    {
        self.receiver
    }

    /// The word of its method holder.
    pub fn holder(&self) -> u32
        ensures { result ≡ self.now.holder }
    {
        self.holder
    }

    /// The reference to its maker's context, 0 for a method.
    pub fn outer(&self) -> u32
        ensures { result ≡ self.now.outer }
    {
        self.outer
    }

    /// That to its own context, 0 without one.
    pub fn context(&self) -> u32
        ensures { result ≡ self.now.context }
    {
        self.context
    }

    /// The address where the frame begins.
    pub fn mark(&self) -> u32
        ensures { result ≡ self.now.mark }
    {
        self.mark
    }

    /// The words of the arguments and locals that stand in the frame.
    pub fn locals(&self) -> &[u32]
        ensures words { result.now ≡ self.now.locals }
        ensures few { length result.now ≤ 79 }
    {
        self.locals.as_slice()
    }

    /// Its pending words, the youngest first.
    pub fn pending(&self) -> &[u32]
        ensures words { result.now ≡ self.now.pending }
        ensures few { length result.now ≤ 79 }
    {
        self.pending.as_slice()
    }
}

/// The frames of an activity, the youngest first, with room for 4,096, which is taken when the list is made.
#[derive(Drop)]
pub struct FrameList {
    frames: Vec<FrameWords>,
    count: usize,
}

impl Model for FrameList {
    ghost use Rattle.std.specs.Prelude.{◌≡◌, ◌≤◌, List, length, take};
    ghost use Rattle.frame_walk.specs.Places.{Frame};

    ghost Value = { List Frame };

    ghost view = { λ l. take l.count l.frames.items };

    ghost invariant = { λ l. (length l.frames.items ≡ 4096) × (l.count ≤ 4096) };
}

impl FrameList {
    /// No frames.
    pub fn open(alloc: Global) -> Result<FrameList, OutOfMemory>
        ensures { IfOk result (λ l. l ≡ []) }
    {
        let mut frames = Vec::with_capacity(alloc, ACTIVATIONS)?;
        for _frame in 0..ACTIVATIONS {
            frames.push(FrameWords::open(alloc)?)?;
        }
        Ok(FrameList { frames, count: 0 })
    }

    /// None of those that it had.
    pub fn clear(&mut self)
        ensures { self.new ≡ [] }
    {
        self.count = 0;
    }

    /// How many there are.
    pub fn len(&self) -> usize
        ensures result { result ≡ length self.now }
        ensures few { result ≤ 4096 }
    {
        self.count
    }

    /// The frame at a number from 0, that of the youngest activation.
    pub fn at(&self, k: usize) -> &FrameWords
        requires { k < length self.now }
        ensures { slice_get self.now k ≡ Some result.now }
    {
        &self.frames[k]
    }

    // One older frame, which stands in memory from an address on.
    pub(crate) fn push_read(&mut self, hosting: &Hosting, sp: u32, point: Point, locals: u32)
        requires room { length self.old < 4096 }
        requires frame { HasFrame sp (27 + locals + point.pending) }
        requires locals { locals ≤ 79 }
        requires pending { point.pending ≤ 79 }
        ensures { self.new ≡ self.old ++ shown (host hosting.now).machine.memory (saved_at (host hosting.now).machine.memory sp) sp (point_descriptor locals point) ∷ [] }
    {
        self.frames[self.count].read(hosting, sp, point, locals);
        self.count += 1;
    }
}
